//! How far a run has come, and what a response makes of that.
ghost use Rattle.std.specs.Prelude.{◌≡◌, ◌≢◌, ◌<◌, ℕ, List, ◌∷◌, Some};
ghost use Rattle.ds_base.specs.Device.{Fits};
ghost use Rattle.ds_base.specs.Exchanges.{Exchange};
ghost use Rattle.ds_base.specs.Geometry.{IsGeom};
ghost use Rattle.ds_marks.specs.SlotIn.{slot_in};
ghost use Rattle.ds_marks.specs.declared.slot.Slot.{Slot};
ghost use Rattle.ds_reg.specs.Registering.{entered_from, slot_sector};
ghost use Rattle.ds_reg.specs.Stages.{EndsOwn, FitsGoing, FitsSwap, GoesTo, HasStage, IsOwnCall, Passes, end_of, image_sector};
ghost use Rattle.ds_reg.specs.Stages.{Reads, Takes};
ghost use Rattle.ds_reg.specs.declared.steps.Stage.TheVariants as stages;

use crate::calls::{RegCall, RegEnd};
use ds_base::{Command, Geom, Response, Sector, SlotNo};
use ds_layout::{Place, sector_of};
use ds_marks::{Slot, SlotState};

/// What is sent next: a Read of a slot, a Swap that enters it, or a Swap of the own slot; or nothing. `missed` says that a Swap of the
/// slot found another image in place.
#[derive(Clone, Copy, Debug, PartialEq, Eq)]
pub enum Stage {
    Looking {
        slot: SlotNo,
        missed: bool,
    },
    Entering {
        slot: SlotNo,
        image: Sector,
        found: Slot,
        missed: bool,
    },
    Own,
    Over,
}

/// Where a response leads: to the next stage, or to the end.
#[derive(Clone, Copy, Debug, PartialEq, Eq)]
pub enum Went {
    On(Stage),
    Ended(RegEnd),
}

/// After the Read of a slot.
pub fn looked(geom: &Geom, slot: SlotNo, missed: bool, response: &Response) -> Went
    requires geom { IsGeom geom.now }
    requires within { slot < geom.now.slots }
    requires fits { Fits (Command.Read (slot_sector geom.now slot)) response.now }
    ensures goes { (host : List ℕ) (tick : ℕ) (xs : List Exchange) → HasStage geom.now RegCall.Enter (stages.Looking slot missed) xs
        → GoesTo geom.now host RegCall.Enter result
        (record { command = Command.Read (slot_sector geom.now slot); response = response.now; tick = tick } ∷ xs) }
    ensures takes { Takes geom.now RegCall.Enter (stages.Looking slot missed) response.now result }
    ensures fits { FitsGoing geom.now RegCall.Enter result }
{
    match response {
        Response::Got(sector) => match Slot::decode(slot, sector) {
            None => {
                let sector = sector_of(geom, &Place::Slot(slot));
                Went::Ended(RegEnd::Damaged { sector })
            }
            Some(found) => shown(geom, slot, missed, sector, &found),
        },
        _ => Went::Ended(RegEnd::Faulted),
    }
}

/// After a Read that gave this slot.
fn shown(geom: &Geom, slot: SlotNo, missed: bool, image: &Sector, found: &Slot) -> Went
    requires within { slot < geom.now.slots }
    requires spelled { slot_in slot image.now.bytes ≡ Some found.now }
    ensures goes { (host : List ℕ) (tick : ℕ) (xs : List Exchange) → HasStage geom.now RegCall.Enter (stages.Looking slot missed) xs
        → GoesTo geom.now host RegCall.Enter result
        (record { command = Command.Read (slot_sector geom.now slot); response = Response.Got image.now; tick = tick } ∷ xs) }
    ensures reads { Reads geom.now slot missed image.now result }
    ensures fits { FitsGoing geom.now RegCall.Enter result }
{
    match found.state {
        SlotState::Free => Went::On(Stage::Entering {
            slot,
            image: *image,
            found: *found,
            missed,
        }),
        _ => past(geom, slot),
    }
}

/// Past a slot that isn't free: on to the next one.
fn past(geom: &Geom, slot: SlotNo) -> Went
    requires { slot < geom.now.slots }
    ensures passes { Passes geom.now slot result }
    ensures fits { FitsGoing geom.now RegCall.Enter result }
{
    let slots = geom.slots;
    if slot + 1 == slots {
        return Went::Ended(RegEnd::NoSlot);
    }
    Went::On(Stage::Looking {
        slot: slot + 1,
        missed: false,
    })
}

/// After the Swap that enters a slot.
pub fn entered(
    geom: &Geom,
    slot: SlotNo,
    image: &Sector,
    found: &Slot,
    missed: bool,
    response: &Response,
) -> Went
    requires within { slot < geom.now.slots }
    requires fits { FitsSwap response.now }
    ensures goes { (host : List ℕ) (tick : ℕ) (xs : List Exchange)
        → HasStage geom.now RegCall.Enter (stages.Entering slot image.now found.now missed) xs
        → GoesTo geom.now host RegCall.Enter result (record {
          command = Command.Swap (slot_sector geom.now slot) image.now (image_sector slot (entered_from host found.now));
          response = response.now;
          tick = tick;
        } ∷ xs) }
    ensures takes { Takes geom.now RegCall.Enter (stages.Entering slot image.now found.now missed) response.now result }
    ensures fits { FitsGoing geom.now RegCall.Enter result }
{
    match response {
        Response::Done => Went::Ended(RegEnd::Registered {
            slot,
            generation: found.generation,
        }),
        Response::Miscompare { .. } => {
            if missed {
                return Went::Ended(RegEnd::Raced { slot });
            }
            Went::On(Stage::Looking { slot, missed: true })
        }
        _ => Went::Ended(RegEnd::Faulted),
    }
}

/// After the Swap of the own slot.
pub fn swapped(call: &RegCall, response: &Response) -> Went
    requires own { IsOwnCall call.now }
    requires fits { FitsSwap response.now }
    ensures { EndsOwn call.now response.now result }
{
    match response {
        Response::Done => Went::Ended(done(call)),
        Response::Miscompare { offset } => Went::Ended(RegEnd::Fenced { offset: *offset }),
        _ => Went::Ended(RegEnd::Faulted),
    }
}

/// How a call for the own slot ends whose Swap took effect.
fn done(call: &RegCall) -> RegEnd
    requires { IsOwnCall call.now }
    ensures { result ≡ end_of call.now }
{
    match call {
        RegCall::Leave { .. } => RegEnd::Left,
        _ => RegEnd::Beaten,
    }
}

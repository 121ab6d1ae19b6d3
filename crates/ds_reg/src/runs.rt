//! A run for the slot of a host, command by command.
ghost use Rattle.std.specs.Prelude.{◌≡◌, ◌≢◌, ◌<◌, ◌≤◌, ℕ, [], ◌∷◌, List, None};
ghost use Rattle.ds_base.specs.Device.{Fits};
ghost use Rattle.ds_base.specs.Exchanges.{Exchange};
ghost use Rattle.ds_base.specs.Geometry.{IsGeom};
ghost use Rattle.ds_base.specs.declared.commands.Command.{Command};
ghost use Rattle.ds_base.specs.declared.commands.Next.TheVariants as nexts;
ghost use Rattle.ds_marks.specs.Slot.{InRanges};
ghost use Rattle.ds_reg.specs.Registering.{slot_sector};
ghost use Rattle.ds_reg.specs.Stages.{Agrees, FitsGoing, FitsStage, GoesTo, HasStage, IsCall, IsRun, Leads, due, image_sector};
ghost use Rattle.ds_reg.specs.Stages.{Takes, left_at, left_of, told_by};
ghost use Rattle.ds_reg.specs.declared.steps.Stage.TheVariants as stages;
ghost use Rattle.ds_reg.specs.declared.steps.Went.{Went};

use crate::calls::{RegCall, RegEnd};
use crate::steps::{Stage, Went, entered, looked, swapped};
use ds_base::{Command, Geom, Next, Response, SlotNo, Tick};
use ds_layout::{Place, sector_of};
use ds_marks::{Journal, Slot, SlotState};
use std::marker::Model;
use uuid::Uuid;

/// How a host gets a slot of its own, renews it or leaves it: what it sends next, by what was answered so far.
#[derive(Debug, Drop)]
pub struct RegRun {
    geom: Geom,
    host: Uuid,
    call: RegCall,
    stage: Stage,
}

impl Model for RegRun {
    ghost use Rattle.ds_reg.specs.Stages.{IsRun, RegValue};

    ghost Value = { RegValue };

    ghost view = { λ run. record { geom = run.geom; host = run.host; call = run.call; stage = run.stage } };

    ghost invariant = { λ run. IsRun (record { geom = run.geom; host = run.host; call = run.call; stage = run.stage }) };
}

impl RegRun {
    /// A run of the host with this id that has sent nothing yet.
    pub fn new(geom: &Geom, host: Uuid, what: RegCall) -> RegRun
        requires geom { IsGeom geom.now }
        requires call { IsCall geom.now what }
        ensures geom { result.geom ≡ geom.now }
        ensures host { result.host ≡ host }
        ensures call { result.call ≡ what }
        ensures whole { IsRun result }
        ensures sends { result.stage ≢ stages.Over }
        ensures begun { Agrees result [] }
        ensures few { left_of result ≤ 64 }
    {
        let stage = first_stage(geom, &what);
        RegRun {
            geom: *geom,
            host,
            call: what,
            stage,
        }
    }

    /// What is sent next; nothing once the run has ended. No plain write is among it, so that it is never late.
    pub fn next(&self, _now: Tick) -> Next
        ensures { result ≡ due self.now self.now.stage }
    {
        match self.stage {
            Stage::Looking { slot, .. } => Next::Send(Command::Read {
                at: sector_of(&self.geom, &Place::Slot(slot)),
            }),
            Stage::Entering {
                slot,
                image,
                found,
                ..
            } => {
                let live = Slot {
                    state: SlotState::Live,
                    generation: found.generation,
                    host: self.host,
                    stamp: 1,
                    journal: Journal::Idle,
                };
                Next::Send(Command::Swap {
                    at: sector_of(&self.geom, &Place::Slot(slot)),
                    verify: image,
                    fresh: live.encode(slot),
                })
            }
            Stage::Own => self.own(),
            Stage::Over => Next::Rest,
        }
    }

    /// The Swap of the own slot.
    fn own(&self) -> Next
        requires { self.now.stage ≡ stages.Own }
        ensures { result ≡ due self.now stages.Own }
    {
        match self.call {
            RegCall::Enter => Next::Rest,
            RegCall::Beat { slot, image } => {
                let fresh = Slot {
                    state: image.state,
                    generation: image.generation,
                    host: image.host,
                    stamp: image.stamp + 1,
                    journal: image.journal,
                };
                self.swap(slot, &image, &fresh)
            }
            RegCall::Leave { slot, image } => {
                let fresh = Slot {
                    state: SlotState::Free,
                    generation: image.generation + 1,
                    host: Uuid::nil(),
                    stamp: 0,
                    journal: Journal::Idle,
                };
                self.swap(slot, &image, &fresh)
            }
        }
    }

    /// Where the response leads.
    fn went(&self, response: &Response) -> Went
        requires { (command : Command) × (due self.now self.now.stage ≡ nexts.Send command) × Fits command response.now }
        ensures goes { (tick : ℕ) (xs : List Exchange) (command : Command) → due self.now self.now.stage ≡ nexts.Send command
            → Agrees self.now xs
            → GoesTo self.now.geom self.now.host self.now.call result
            (record { command = command; response = response.now; tick = tick } ∷ xs) }
        ensures takes { Takes self.now.geom self.now.call self.now.stage response.now result }
        ensures fits { FitsGoing self.now.geom self.now.call result }
    {
        match &self.stage {
            Stage::Looking { slot, missed } => looked(&self.geom, *slot, *missed, response),
            Stage::Entering {
                slot,
                image,
                found,
                missed,
            } => entered(&self.geom, *slot, image, found, *missed, response),
            _ => swapped(&self.call, response),
        }
    }

    fn swap(&self, slot: SlotNo, image: &Slot, fresh: &Slot) -> Next
        requires within { slot < self.now.geom.slots }
        requires image { InRanges image.now }
        requires fresh { InRanges fresh.now }
        ensures { result ≡ nexts.Send
            (Command.Swap (slot_sector self.now.geom slot) (image_sector slot image.now) (image_sector slot fresh.now)) }
    {
        Next::Send(Command::Swap {
            at: sector_of(&self.geom, &Place::Slot(slot)),
            verify: image.encode(slot),
            fresh: fresh.encode(slot),
        })
    }

    /// What a response to the command that was due leads to: an end, or nothing while the run goes on.
    pub fn take(&mut self, response: &Response, now: Tick) -> Option<RegEnd>
        requires { (command : Command) × (due self.old self.old.stage ≡ nexts.Send command) × Fits command response.now }
        ensures geom { self.new.geom ≡ self.old.geom }
        ensures host { self.new.host ≡ self.old.host }
        ensures call { self.new.call ≡ self.old.call }
        ensures whole { IsRun self.new }
        ensures takes { Takes self.old.geom self.old.call self.old.stage response.now (told_by result self.new.stage) }
        ensures one { (other : Went) → Takes self.old.geom self.old.call self.old.stage response.now other
            → other ≡ told_by result self.new.stage }
        ensures leads { (xs : List Exchange) (command : Command) → due self.old self.old.stage ≡ nexts.Send command → Agrees self.old xs
            → Leads self.new result (record { command = command; response = response.now; tick = now } ∷ xs) }
        ensures nearer { result ≡ None → left_of self.new < left_of self.old }
    {
        match self.went(response) {
            Went::On(stage) => {
                self.stage = stage;
                None
            }
            Went::Ended(end) => {
                self.stage = Stage::Over;
                Some(end)
            }
        }
    }
}

/// The stage at which a run begins: slots are read from 0 on, or the own slot is swapped.
fn first_stage(geom: &Geom, what: &RegCall) -> Stage
    requires { IsGeom geom.now }
    ensures fits { FitsStage geom.now what.now result }
    ensures sends { result ≢ stages.Over }
    ensures begun { HasStage geom.now what.now result [] }
    ensures few { left_at geom.now result ≤ 64 }
{
    match what {
        RegCall::Enter => Stage::Looking {
            slot: 0,
            missed: false,
        },
        _ => Stage::Own,
    }
}

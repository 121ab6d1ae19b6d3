//! The line that tells what a Swap did to a slot.
ghost use Rattle.std.specs.Prelude.{◌≡◌, ◌++◌, Some, OnOk, option_copied};
ghost use Rattle.ds_base.specs.Decoding.{IsDecoded};
ghost use Rattle.ds_base.specs.Geometry.{IsGeom};
ghost use Rattle.ds_marks.specs.Slot.{IsSlot, slot_bytes};
ghost use Rattle.ds_marks.specs.SlotIn.{slot_in};
ghost use Rattle.ds_report.specs.Slots.{slot_at, turn_word, turn_line, swap_line, slot_line};

use crate::hosts::host_name;
use crate::pairs::write_pair;
use ds_base::{Command, Gen, Geom, NoMemory, Sector, SectorNo, SlotNo};
use ds_layout::{Place, place_of};
use ds_log::{Event, Step};
use ds_marks::{Slot, SlotState};
use ds_text::Text;
use ds_tree::Scenario;

/// Writes what an event did to a slot, if it did anything: one was broken, seized or freed.
pub(crate) fn write_slot_line(
    text: &mut Text,
    scenario: &Scenario,
    event: &Event,
) -> Result<(), NoMemory>
    requires { IsGeom scenario.now.geom }
    ensures { OnOk result (text.new ≡ text.old ++ slot_line scenario.now event.now) }
{
    match &event.step {
        Step::Sent {
            command: Command::Swap { at, verify, fresh },
            took: true,
            ..
        } => match slot_at(&scenario.geom, *at) {
            Some(slot) => write_swap(text, host_name(scenario, event.host), slot, *verify, *fresh),
            None => Ok(()),
        },
        _ => Ok(()),
    }
}

/// The slot whose sector this is.
fn slot_at(geom: &Geom, at: SectorNo) -> Option<SlotNo>
    requires { IsGeom geom.now }
    ensures { result ≡ slot_at geom.now at }
{
    match place_of(geom, at) {
        Some(Place::Slot(slot)) => Some(slot),
        _ => None,
    }
}

fn write_swap(
    text: &mut Text,
    host: &[u8],
    slot: SlotNo,
    verify: Sector,
    fresh: Sector,
) -> Result<(), NoMemory>
    ensures { OnOk result (text.new ≡ text.old ++ swap_line host.now (Some slot) verify fresh) }
{
    let Some(before) = slot_in(slot, verify) else {
        return Ok(());
    };
    let Some(after) = slot_in(slot, fresh) else {
        return Ok(());
    };
    match turn_word(before.state, after.state) {
        Some(word) => write_turn(text, host, word, slot, before.generation),
        None => Ok(()),
    }
}

/// The slot that a sector spells.
pub(crate) fn slot_in(number: SlotNo, sector: Sector) -> Option<Slot>
    ensures same { result ≡ slot_in number sector.bytes }
    ensures spelled { IsDecoded result (λ s. IsSlot s × (sector.bytes ≡ slot_bytes number s)) }
{
    Slot::decode(number, &sector)
}

/// The word for what became of a slot.
fn turn_word(before: SlotState, after: SlotState) -> Option<&'static [u8]>
    ensures { option_copied result ≡ turn_word before after }
{
    match before {
        SlotState::Live => match after {
            SlotState::Breaking { .. } => Some(b"breaks"),
            _ => None,
        },
        SlotState::Breaking { .. } => match after {
            SlotState::Breaking { .. } => Some(b"seizes"),
            SlotState::Free => Some(b"frees"),
            SlotState::Live => None,
        },
        SlotState::Free => None,
    }
}

fn write_turn(
    text: &mut Text,
    host: &[u8],
    word: &[u8],
    slot: SlotNo,
    generation: Gen,
) -> Result<(), NoMemory>
    ensures { OnOk result (text.new ≡ text.old ++ turn_line host.now slot generation (Some word.now)) }
{
    text.bytes(host)?;
    text.bytes(b" ")?;
    text.bytes(word)?;
    text.bytes(b" ")?;
    write_pair(text, u64::from(slot), generation)?;
    text.bytes(b"\n")
}

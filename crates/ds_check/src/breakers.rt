//! The end of the first stage of a check: the breakers of slots.
ghost use Rattle.std.specs.Prelude.{◌≡◌, ◌++◌, OnOk};
ghost use Rattle.ds_check.specs.Breakers.{has_no_breaker, slot_breaker, misbroken};

use crate::controls::ControlsInMemory;
use crate::findings::Find;
use crate::reports::Report;
use ds_base::{Geom, NoMemory, SlotNo};
use ds_marks::SlotState;

/// Notes the slots whose breaker isn't there.
pub(crate) fn note_misbroken(
    report: &mut Report,
    geom: &Geom,
    controls: &ControlsInMemory,
) -> Result<(), NoMemory>
    ensures { OnOk result (report.new ≡ report.old ++ misbroken geom.now controls.now) }
{
    for number in 0..geom.slots {
        note_breaker(report, geom, controls, number)?;
    }
    Ok(())
}

fn note_breaker(
    report: &mut Report,
    geom: &Geom,
    controls: &ControlsInMemory,
    number: SlotNo,
) -> Result<(), NoMemory>
    ensures { OnOk result (report.new ≡ report.old ++ slot_breaker geom.now controls.now number) }
{
    match controls.slot(number) {
        None => Ok(()),
        Some(slot) => report.note_if(
            has_no_breaker(geom.slots, slot.state),
            Find::SlotBreaker {
                slot: u32::from(number),
            },
        ),
    }
}

fn has_no_breaker(slots: u8, state: SlotState) -> bool
    ensures { result ≡ has_no_breaker slots state }
{
    match state {
        SlotState::Breaking { by, .. } => by >= slots,
        _ => false,
    }
}

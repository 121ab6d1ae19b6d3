//! The second stage of a check: the journals of committed slots.
ghost use Rattle.std.specs.Prelude.{◌≡◌, ◌++◌, OnOk};
ghost use Rattle.ds_check.specs.Journals.{
  has_pairs,
  is_committed,
  journal_form,
  unindexed,
  shares,
  shared_targets,
  shared_by,
  overlaid,
  journals_stage,
};

use crate::controls::ControlsInMemory;
use crate::findings::Find;
use crate::reports::Report;
use ds_base::{Geom, NoMemory, SlotNo};
use ds_marks::{Journal, Slot};

/// Notes what is at odds in the journals of committed slots.
pub(crate) fn note_journals(
    report: &mut Report,
    geom: &Geom,
    controls: &ControlsInMemory,
) -> Result<(), NoMemory>
    ensures { OnOk result (report.new ≡ report.old ++ journals_stage geom.now controls.now) }
{
    note_unindexed(report, geom, controls)?;
    note_overlaid(report, geom, controls)
}

fn note_unindexed(
    report: &mut Report,
    geom: &Geom,
    controls: &ControlsInMemory,
) -> Result<(), NoMemory>
    ensures { OnOk result (report.new ≡ report.old ++ unindexed geom.now controls.now) }
{
    for number in 0..geom.slots {
        note_journal(report, controls, number)?;
    }
    Ok(())
}

fn note_journal(
    report: &mut Report,
    controls: &ControlsInMemory,
    number: SlotNo,
) -> Result<(), NoMemory>
    ensures { OnOk result (report.new ≡ report.old ++ journal_form controls.now number) }
{
    let is_bad = is_committed(controls.slot(number)) && !controls.has_index(number);
    report.note_if(
        is_bad,
        Find::JournalForm {
            slot: u32::from(number),
        },
    )
}

fn is_committed(slot: Option<Slot>) -> bool
    ensures { result ≡ is_committed slot }
{
    match slot {
        None => false,
        Some(slot) => has_pairs(slot.journal),
    }
}

fn has_pairs(journal: Journal) -> bool
    ensures { result ≡ has_pairs journal }
{
    match journal {
        Journal::Idle => false,
        Journal::Committed { .. } => true,
    }
}

fn note_overlaid(
    report: &mut Report,
    geom: &Geom,
    controls: &ControlsInMemory,
) -> Result<(), NoMemory>
    ensures { OnOk result (report.new ≡ report.old ++ overlaid geom.now controls.now) }
{
    for first in 0..geom.slots {
        note_shared_by(report, geom, controls, first)?;
    }
    Ok(())
}

fn note_shared_by(
    report: &mut Report,
    geom: &Geom,
    controls: &ControlsInMemory,
    first: SlotNo,
) -> Result<(), NoMemory>
    ensures { OnOk result (report.new ≡ report.old ++ shared_by geom.now controls.now first) }
{
    for second in 0..geom.slots {
        note_shared(report, controls, first, second)?;
    }
    Ok(())
}

fn note_shared(
    report: &mut Report,
    controls: &ControlsInMemory,
    first: SlotNo,
    second: SlotNo,
) -> Result<(), NoMemory>
    ensures { OnOk result (report.new ≡ report.old ++ shared_targets controls.now first second) }
{
    if first < second {
        note_shares(
            report,
            first,
            second,
            controls.targets(first),
            controls.targets(second),
        )
    } else {
        Ok(())
    }
}

/// Notes the targets that two slots have in common.
fn note_shares(
    report: &mut Report,
    first: SlotNo,
    second: SlotNo,
    targets: &[u32],
    others: &[u32],
) -> Result<(), NoMemory>
    ensures { OnOk result (report.new ≡ report.old ++ shares first second targets.now others.now) }
{
    for target in targets {
        report.note_if(
            others.contains(target),
            Find::JournalsShare {
                first: u32::from(first),
                second: u32::from(second),
                sector: *target,
            },
        )?;
    }
    Ok(())
}

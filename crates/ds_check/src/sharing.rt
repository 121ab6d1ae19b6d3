//! The fifth stage of a check: items that are listed twice.
ghost use Rattle.std.specs.Prelude.{◌≡◌, ◌++◌, ℕ, List, slice_get, OnOk};
ghost use Rattle.ds_check.specs.Sharing.{twice, shared_items, sharing_stage};

use crate::findings::Find;
use crate::reports::Report;
use crate::uses::{item_count, users_of};
use ds_base::{Geom, Kind, NoMemory, Sector};
use ds_image::PartsInMemory;
use std::alloc::Global;

/// Notes the items that are listed twice, kind by kind.
pub(crate) fn note_sharing(
    report: &mut Report,
    alloc: Global,
    geom: &Geom,
    parts: &PartsInMemory<&[Sector]>,
) -> Result<(), NoMemory>
    ensures { OnOk result (report.new ≡ report.old ++ sharing_stage geom.now parts.now) }
{
    note_shared(report, alloc, geom, parts, Kind::Fd)?;
    note_shared(report, alloc, geom, parts, Kind::Sb)?;
    note_shared(report, alloc, geom, parts, Kind::Pb)?;
    note_shared(report, alloc, geom, parts, Kind::Fb)
}

fn note_shared(
    report: &mut Report,
    alloc: Global,
    geom: &Geom,
    parts: &PartsInMemory<&[Sector]>,
    kind: Kind,
) -> Result<(), NoMemory>
    ensures { OnOk result (report.new ≡ report.old ++ shared_items geom.now parts.now kind) }
{
    let users = users_of(alloc, geom, parts, kind)?;
    for item in 0..item_count(geom, kind) {
        note_twice(report, kind, item, users.first(item), users.second(item))?;
    }
    Ok(())
}

/// Notes an item with two users.
fn note_twice(
    report: &mut Report,
    kind: Kind,
    item: u32,
    first: Option<u32>,
    second: Option<u32>,
) -> Result<(), NoMemory>
    ensures { OnOk result ((users : List ℕ) → first ≡ slice_get users 0 → second ≡ slice_get users 1
        → report.new ≡ report.old ++ twice kind item users) }
{
    let Some(first) = first else {
        return Ok(());
    };
    let Some(second) = second else {
        return Ok(());
    };
    report.note(Find::Twice {
        kind,
        item,
        first,
        second,
    })
}

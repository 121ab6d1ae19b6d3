//! Entries of directories: objects that aren't there, and names that stand twice.
ghost use Rattle.std.specs.Prelude.{◌≡◌, ◌≤◌, ◌||◌, ℕ, List, ◌++◌, length, IfOk, OnOk};
ghost use Rattle.std.specs.BTreeSet.{contains};
ghost use Rattle.std.specs.Cmp.Lexicographic.{slice_cmp};
ghost use Rattle.std.specs.Ordering.{nat_cmp};
ghost use Rattle.ds_image_parts.specs.Parts.{part_at};
ghost use Rattle.ds_check.specs.Entries.{dangling_in, repeated_in, is_known, same_kind, is_body_of, is_dangling, has_name, rooms_at, dangling, repeated};

use crate::controls::descriptor_count;
use crate::findings::Find;
use crate::reports::Report;
use crate::rooms::rooms_at;
use ds_base::{Geom, Name, NoMemory, NodeKind, ObjNo, Sector};
use ds_dir::Entry;
use ds_image::PartsInMemory;
use std::alloc::Global;
use std::collections::BTreeSet;

/// Notes the rooms whose object isn't there.
pub(crate) fn note_dangling(
    report: &mut Report,
    alloc: Global,
    geom: &Geom,
    parts: &PartsInMemory<&[Sector]>,
) -> Result<(), NoMemory>
    ensures { OnOk result (report.new ≡ report.old ++ dangling geom.now parts.now) }
{
    for object in 0..descriptor_count(geom) {
        note_dangling_at(report, alloc, parts, object)?;
    }
    Ok(())
}

fn note_dangling_at(
    report: &mut Report,
    alloc: Global,
    parts: &PartsInMemory<&[Sector]>,
    object: ObjNo,
) -> Result<(), NoMemory>
    ensures { OnOk result (report.new ≡ report.old ++ dangling_in parts.now object (rooms_at parts.now object)) }
{
    let rooms = rooms_at(alloc, parts, object)?;
    note_dangling_in(report, parts, object, &rooms)
}

/// Notes the rooms of one directory whose object isn't there.
fn note_dangling_in(
    report: &mut Report,
    parts: &PartsInMemory<&[Sector]>,
    object: ObjNo,
    rooms: &[Option<Entry>],
) -> Result<(), NoMemory>
    requires { length rooms.now ≤ 384 }
    ensures { OnOk result (report.new ≡ report.old ++ dangling_in parts.now object rooms.now) }
{
    for room in 0..rooms.len() {
        report.note_if(
            is_dangling(parts, &rooms[room]),
            Find::Dangling {
                object,
                room: room as u32,
            },
        )?;
    }
    Ok(())
}

fn is_dangling(parts: &PartsInMemory<&[Sector]>, room: &Option<Entry>) -> bool
    ensures { result ≡ is_dangling parts.now room.now }
{
    match room {
        None => false,
        Some(entry) => !is_there(parts, entry),
    }
}

/// Whether the object of an entry is in use in that life, and of that kind.
pub(crate) fn is_there(parts: &PartsInMemory<&[Sector]>, entry: &Entry) -> bool
    ensures { result ≡ is_body_of entry.now (part_at parts.now.bodies entry.now.key.object) }
{
    match parts.bodies().get(entry.key.object as usize) {
        Some(Some(body)) => same_kind(entry.kind, body.kind) && body.birth == entry.key.birth,
        _ => false,
    }
}

fn same_kind(kind: NodeKind, other: Option<NodeKind>) -> bool
    ensures { result ≡ same_kind kind other }
{
    match kind {
        NodeKind::File => matches!(other, Some(NodeKind::File)),
        NodeKind::Dir => matches!(other, Some(NodeKind::Dir)),
    }
}

/// Notes the rooms whose name stands in an earlier room of the directory.
pub(crate) fn note_repeated(
    report: &mut Report,
    alloc: Global,
    geom: &Geom,
    parts: &PartsInMemory<&[Sector]>,
) -> Result<(), NoMemory>
    ensures { OnOk result (report.new ≡ report.old ++ repeated geom.now parts.now) }
{
    for object in 0..descriptor_count(geom) {
        note_repeated_at(report, alloc, parts, object)?;
    }
    Ok(())
}

fn note_repeated_at(
    report: &mut Report,
    alloc: Global,
    parts: &PartsInMemory<&[Sector]>,
    object: ObjNo,
) -> Result<(), NoMemory>
    ensures { OnOk result (report.new ≡ report.old ++ repeated_in object (rooms_at parts.now object)) }
{
    let rooms = rooms_at(alloc, parts, object)?;
    note_repeated_in(report, alloc, object, &rooms)
}

/// Notes the rooms of one directory whose name stands in an earlier room.
fn note_repeated_in(
    report: &mut Report,
    alloc: Global,
    object: ObjNo,
    rooms: &[Option<Entry>],
) -> Result<(), NoMemory>
    requires { length rooms.now ≤ 384 }
    ensures { OnOk result (report.new ≡ report.old ++ repeated_in object rooms.now) }
{
    let mut names = BTreeSet::new(alloc);
    for room in 0..rooms.len() {
        let is_again = meet(&mut names, &rooms[room])?;
        report.note_if(
            is_again,
            Find::Again {
                object,
                room: room as u32,
            },
        )?;
    }
    Ok(())
}

/// Puts the name of a room's entry to those that were met; says whether it was among them.
fn meet(names: &mut BTreeSet<Name>, room: &Option<Entry>) -> Result<bool, NoMemory>
    ensures known { IfOk result (λ again. again ≡ is_known (contains (slice_cmp nat_cmp) names.old) room.now) }
    ensures met { OnOk result ((name : List ℕ) → contains (slice_cmp nat_cmp) names.new name
        ≡ (contains (slice_cmp nat_cmp) names.old name || has_name name room.now)) }
{
    let Some(entry) = room else {
        return Ok(false);
    };
    let name = copy_of(&entry.name)?;
    let is_new = names.insert(name).map_err(|_| NoMemory)?;
    Ok(!is_new)
}

fn copy_of(name: &Name) -> Result<Name, NoMemory>
    ensures { IfOk result (λ copy. copy ≡ name.now) }
{
    name.clone().map_err(|_| NoMemory)
}

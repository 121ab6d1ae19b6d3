//! The seventh stage of a check: entries, and how many names an object has.
ghost use Rattle.std.specs.Prelude.{◌≡◌, ◌≤◌, ◌<◌, ◌-◌, ◌+◌, ◌*◌, ◌^◌, ℕ, List, [], ◌∷◌, ◌++◌, length, IfOk, OnOk};
ghost use Rattle.std.specs.List.{filter_map};
ghost use Rattle.ds_base.specs.Geometry.{IsGeom, items_of};
ghost use Rattle.ds_image_tables.specs.NameCounts.{CountsNames};
ghost use Rattle.ds_image_parts.specs.Objects.{is_used};
ghost use Rattle.ds_image_parts.specs.Parts.{part_at};
ghost use Rattle.ds_check.specs.Entries.{rooms_at};
ghost use Rattle.ds_check.specs.Names.{misnamed_at, named_in, all_named, wanted_names, misnamed, naming_stage};

use crate::controls::descriptor_count;
use crate::entries::{is_there, note_dangling, note_repeated};
use crate::findings::Find;
use crate::reports::Report;
use crate::rooms::rooms_at;
use ds_base::{Geom, Kind, NoMemory, ObjNo, Sector};
use ds_dir::Entry;
use ds_image::{NameCounts, PartsInMemory};
use std::alloc::Global;

/// Notes the rooms whose object isn't there or whose name stands twice, and the objects with a wrong number of names.
pub(crate) fn note_naming(
    report: &mut Report,
    alloc: Global,
    geom: &Geom,
    parts: &PartsInMemory<&[Sector]>,
) -> Result<(), NoMemory>
    requires { IsGeom geom.now }
    ensures { OnOk result (report.new ≡ report.old ++ naming_stage geom.now parts.now) }
{
    note_dangling(report, alloc, geom, parts)?;
    note_repeated(report, alloc, geom, parts)?;
    note_misnamed(report, alloc, geom, parts)
}

fn note_misnamed(
    report: &mut Report,
    alloc: Global,
    geom: &Geom,
    parts: &PartsInMemory<&[Sector]>,
) -> Result<(), NoMemory>
    requires { IsGeom geom.now }
    ensures { OnOk result (report.new ≡ report.old ++ misnamed geom.now parts.now) }
{
    let counts = count_names(alloc, geom, parts)?;
    for object in 0..descriptor_count(geom) {
        note_names(report, geom, parts, &counts, object)?;
    }
    Ok(())
}

/// Notes the number of an object's names, where it is in use and is to have another number.
fn note_names(
    report: &mut Report,
    geom: &Geom,
    parts: &PartsInMemory<&[Sector]>,
    counts: &NameCounts,
    object: ObjNo,
) -> Result<(), NoMemory>
    requires geom { IsGeom geom.now }
    requires few { length (all_named geom.now parts.now) ≤ 384 * items_of geom.now Kind.Fd }
    requires count { length counts.now ≡ items_of geom.now Kind.Fd }
    requires counted { CountsNames counts.now (all_named geom.now parts.now) }
    requires inside { object < items_of geom.now Kind.Fd }
    ensures { OnOk result (report.new ≡ report.old ++ misnamed_at geom.now parts.now object) }
{
    let names = counts.of(object);
    report.note_if(
        is_used(parts, object) && names != wanted_names(object),
        Find::Names {
            object,
            names: names as u32,
        },
    )
}

fn wanted_names(object: ObjNo) -> u64
    ensures { result ≡ wanted_names object }
{
    if object == 0 { 0 } else { 1 }
}

pub(crate) fn is_used(parts: &PartsInMemory<&[Sector]>, object: ObjNo) -> bool
    ensures { result ≡ is_used (part_at parts.now.bodies object) }
{
    match parts.bodies().get(object as usize) {
        Some(Some(body)) => body.kind.is_some(),
        _ => false,
    }
}

/// How many names each object has.
fn count_names(
    alloc: Global,
    geom: &Geom,
    parts: &PartsInMemory<&[Sector]>,
) -> Result<NameCounts, NoMemory>
    requires { IsGeom geom.now }
    ensures few { IfOk result (λ _. length (all_named geom.now parts.now) ≤ 384 * items_of geom.now Kind.Fd) }
    ensures count { IfOk result (λ counts. length counts ≡ items_of geom.now Kind.Fd) }
    ensures counted { IfOk result (λ counts. CountsNames counts (all_named geom.now parts.now)) }
{
    let count = descriptor_count(geom);
    let mut counts = NameCounts::new(alloc, count)?;
    for object in 0..count {
        let rooms = rooms_at(alloc, parts, object)?;
        count_rooms(&mut counts, count, parts, &rooms);
    }
    Ok(counts)
}

/// Counts the names that stand in the rooms of a directory.
fn count_rooms(
    counts: &mut NameCounts,
    count: u32,
    parts: &PartsInMemory<&[Sector]>,
    rooms: &[Option<Entry>],
)
    requires { count ≡ length counts.old }
    ensures count { length counts.new ≡ length counts.old }
    ensures counted { (named : List ℕ) → length named + length rooms.now < 2 ^ 64 - 1 → CountsNames counts.old named
        → CountsNames counts.new (named ++ filter_map (named_in parts.now) rooms.now) }
{
    for room in rooms {
        count_room(counts, count, parts, room);
    }
}

fn count_room(
    counts: &mut NameCounts,
    count: u32,
    parts: &PartsInMemory<&[Sector]>,
    room: &Option<Entry>,
)
    requires { count ≡ length counts.old }
    ensures count { length counts.new ≡ length counts.old }
    ensures counted { (named : List ℕ) → length named < 2 ^ 64 - 1 → CountsNames counts.old named
        → CountsNames counts.new (named ++ filter_map (named_in parts.now) (room.now ∷ [])) }
{
    if let Some(object) = named_in(parts, room) {
        if object < count {
            counts.note(object);
        }
    }
}

/// The object that a room names, where the object is there.
pub(crate) fn named_in(parts: &PartsInMemory<&[Sector]>, room: &Option<Entry>) -> Option<u32>
    ensures { result ≡ named_in parts.now room.now }
{
    match room {
        Some(entry) if is_there(parts, entry) => Some(entry.key.object),
        _ => None,
    }
}

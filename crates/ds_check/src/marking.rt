//! The sixth stage of a check: items whose bits differ from their use.
ghost use Rattle.std.specs.Prelude.{◌≡◌, ◌++◌, ◌&&◌, not, nat_lt, length, map, OnOk, IfOk};
ghost use Rattle.std.specs.List.{range_with_len};
ghost use Rattle.ds_base.specs.Geometry.{items_of};
ghost use Rattle.ds_image_parts.specs.Objects.{is_used};
ghost use Rattle.ds_image_tables.specs.Owns.{bit};
ghost use Rattle.ds_image_parts.specs.Parts.{part_at};
ghost use Rattle.ds_image_tables.specs.Users.{users};
ghost use Rattle.ds_check.specs.declared.findings.Find.TheVariants as finds;
ghost use Rattle.ds_check.specs.Uses.{uses_of};
ghost use Rattle.ds_check.specs.Marking.{is_in_use, mismarked, marking_stage};
ghost use Rattle.ds_check.specs.Rows.{find_if, row};

use crate::controls::descriptor_count;
use crate::findings::Find;
use crate::listed::body_at;
use crate::reports::Report;
use crate::uses::{item_count, users_of};
use ds_base::{Geom, Kind, NoMemory, Sector};
use ds_fd::Body;
use ds_image::{PartsInMemory, bits_in};
use std::alloc::Global;

/// Notes the items that are marked and not used, or used and not marked, kind by kind.
pub(crate) fn note_marking(
    report: &mut Report,
    alloc: Global,
    geom: &Geom,
    parts: &PartsInMemory<&[Sector]>,
) -> Result<(), NoMemory>
    ensures { OnOk result (report.new ≡ report.old ++ marking_stage geom.now parts.now) }
{
    note_mismarked(report, alloc, geom, parts, Kind::Fd)?;
    note_mismarked(report, alloc, geom, parts, Kind::Sb)?;
    note_mismarked(report, alloc, geom, parts, Kind::Pb)?;
    note_mismarked(report, alloc, geom, parts, Kind::Fb)
}

/// Notes those of one kind, by the bits of its bitmaps.
fn note_mismarked(
    report: &mut Report,
    alloc: Global,
    geom: &Geom,
    parts: &PartsInMemory<&[Sector]>,
    kind: Kind,
) -> Result<(), NoMemory>
    ensures { OnOk result (report.new ≡ report.old ++ mismarked geom.now parts.now kind) }
{
    let marked = bits_in(alloc, parts.maps(kind))?;
    let used = used_of(alloc, geom, parts, kind)?;
    note_marked(report, geom, kind, &marked, &used)?;
    note_unmarked(report, geom, kind, &marked, &used)
}

fn note_marked(
    report: &mut Report,
    geom: &Geom,
    kind: Kind,
    marked: &[bool],
    used: &[bool],
) -> Result<(), NoMemory>
    ensures { OnOk result (report.new ≡ report.old
        ++ row (items_of geom.now kind) (λ n. find_if (bit marked.now n && not (bit used.now n)) (finds.Marked kind n))) }
{
    for item in 0..item_count(geom, kind) {
        report.note_if(is_only_in(marked, used, item), Find::Marked { kind, item })?;
    }
    Ok(())
}

fn note_unmarked(
    report: &mut Report,
    geom: &Geom,
    kind: Kind,
    marked: &[bool],
    used: &[bool],
) -> Result<(), NoMemory>
    ensures { OnOk result (report.new ≡ report.old
        ++ row (items_of geom.now kind) (λ n. find_if (bit used.now n && not (bit marked.now n)) (finds.Unmarked kind n))) }
{
    for item in 0..item_count(geom, kind) {
        report.note_if(
            is_only_in(used, marked, item),
            Find::Unmarked { kind, item },
        )?;
    }
    Ok(())
}

/// Whether an item's bit is set in the first list alone.
fn is_only_in(bits: &[bool], others: &[bool], item: u32) -> bool
    ensures { result ≡ (bit bits.now item && not (bit others.now item)) }
{
    bit(bits, item) && !bit(others, item)
}

/// An item's bit; those past the last are clear.
fn bit(bits: &[bool], item: u32) -> bool
    ensures { result ≡ bit bits.now item }
{
    bits.get(item as usize) == Some(&true)
}

/// For each item of a kind, whether it is used.
fn used_of(
    alloc: Global,
    geom: &Geom,
    parts: &PartsInMemory<&[Sector]>,
    kind: Kind,
) -> Result<Vec<bool>, NoMemory>
    ensures { IfOk result (λ v. v.items ≡ map (is_in_use geom.now parts.now kind) (range_with_len 0 (items_of geom.now kind))) }
{
    match kind {
        Kind::Fd => descriptors_in_use(alloc, geom, parts),
        Kind::Sb => listed_items(alloc, geom, parts, Kind::Sb),
        Kind::Pb => listed_items(alloc, geom, parts, Kind::Pb),
        Kind::Fb => listed_items(alloc, geom, parts, Kind::Fb),
    }
}

/// For each descriptor, whether it is in use.
fn descriptors_in_use(
    alloc: Global,
    geom: &Geom,
    parts: &PartsInMemory<&[Sector]>,
) -> Result<Vec<bool>, NoMemory>
    ensures { IfOk result (λ v. v.items
        ≡ map (λ n. is_used (part_at parts.now.bodies n)) (range_with_len 0 (items_of geom.now Kind.Fd))) }
{
    let mut used = Vec::new(alloc);
    for object in 0..descriptor_count(geom) {
        used.push(is_used(body_at(parts, object)))
            .map_err(|_| NoMemory)?;
    }
    Ok(used)
}

fn is_used(body: &Option<Body>) -> bool
    ensures { result ≡ is_used body.now }
{
    match body {
        Some(body) => body.kind.is_some(),
        None => false,
    }
}

/// For each item of a kind, whether an object lists it.
fn listed_items(
    alloc: Global,
    geom: &Geom,
    parts: &PartsInMemory<&[Sector]>,
    kind: Kind,
) -> Result<Vec<bool>, NoMemory>
    ensures { IfOk result (λ v. v.items
        ≡ map (λ n. nat_lt 0 (length (users (uses_of geom.now parts.now kind) n))) (range_with_len 0 (items_of geom.now kind))) }
{
    let users = users_of(alloc, geom, parts, kind)?;
    let mut used = Vec::new(alloc);
    for item in 0..item_count(geom, kind) {
        used.push(users.first(item).is_some())
            .map_err(|_| NoMemory)?;
    }
    Ok(used)
}

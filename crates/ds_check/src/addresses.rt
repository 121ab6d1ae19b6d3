//! The fourth stage of a check: addresses and rooms.
ghost use Rattle.std.specs.Prelude.{◌≡◌, ◌+◌, ◌/◌, ◌%◌, ◌<◌, ◌≤◌, ◌++◌, ◌==◌, ◌&&◌, nat_lt, not, min, is_none, length, take, drop, slice_get, Some, OnOk};
ghost use Rattle.std.specs.List.{position_or_len};
ghost use Rattle.ds_base.specs.Geometry.{items_of};
ghost use Rattle.ds_base.specs.declared.names.NodeKind.TheVariants as kinds;
ghost use Rattle.ds_image_parts.specs.Objects.{addresses_in, ptrs_by, subs_by};
ghost use Rattle.ds_image_parts.specs.Parts.{part_at};
ghost use Rattle.ds_check.specs.AddressSteps.{pointer_block, is_first_used, is_bad_number};
ghost use Rattle.ds_check.specs.Addresses.{room_at, is_outside, is_bad_block, most_addresses, address_finds, misaddressed, room_finds, unroomed, addresses_stage};
ghost use Rattle.ds_check.specs.Rows.{find_if};
ghost use Rattle.ds_check.specs.declared.findings.Find.TheVariants as finds;

use crate::controls::descriptor_count;
use crate::findings::Find;
use crate::listed::body_at;
use crate::reports::Report;
use crate::rooms::subs_at;
use crate::uses::item_count;
use ds_base::{Geom, Kind, NoMemory, NodeKind, ObjNo, Sector};
use ds_fd::Body;
use ds_image::{PartsInMemory, addresses_in, pointer_blocks};
use ds_ptr::PtrBlock;

/// The most addresses that a body has, those in its pointer blocks among them.
const MOST_ADDRESSES: usize = 96 * 128;

/// Notes the addresses with which something is wrong, and the sub-blocks without their form.
pub(crate) fn note_addresses(
    report: &mut Report,
    geom: &Geom,
    parts: &PartsInMemory<&[Sector]>,
) -> Result<(), NoMemory>
    ensures { OnOk result (report.new ≡ report.old ++ addresses_stage geom.now parts.now) }
{
    note_misaddressed(report, geom, parts)?;
    note_unroomed(report, geom, parts)
}

fn note_misaddressed(
    report: &mut Report,
    geom: &Geom,
    parts: &PartsInMemory<&[Sector]>,
) -> Result<(), NoMemory>
    ensures { OnOk result (report.new ≡ report.old ++ misaddressed geom.now parts.now) }
{
    for object in 0..descriptor_count(geom) {
        note_object(report, geom, parts, object, body_at(parts, object))?;
    }
    Ok(())
}

fn note_object(
    report: &mut Report,
    geom: &Geom,
    parts: &PartsInMemory<&[Sector]>,
    object: ObjNo,
    body: &Option<Body>,
) -> Result<(), NoMemory>
    ensures { OnOk result (report.new ≡ report.old ++ address_finds geom.now parts.now object body.now) }
{
    match body {
        None => Ok(()),
        Some(body) => note_body(report, geom, parts, object, body),
    }
}

/// Notes the addresses of a body with which something is wrong.
fn note_body(
    report: &mut Report,
    geom: &Geom,
    parts: &PartsInMemory<&[Sector]>,
    object: ObjNo,
    body: &Body,
) -> Result<(), NoMemory>
    ensures { OnOk result (report.new ≡ report.old ++ address_finds geom.now parts.now object (Some body.now)) }
{
    let last = pointer_block(parts, body, body.count / 128);
    let past = rest(addresses_in(&last), (body.count % 128) as usize);
    let mut block = None;
    for index in 0..address_end(body, past) {
        block = next_block(parts, body, index, block);
        note_address(report, geom, object, body, &block, past, index)?;
    }
    Ok(())
}

/// A pointer block of a file, by its place among them.
fn pointer_block(parts: &PartsInMemory<&[Sector]>, body: &Body, place: u32) -> Option<PtrBlock>
    ensures { result ≡ pointer_block parts.now body.now place }
{
    match pointers(body).get(place as usize) {
        None => None,
        Some(number) => parts.ptr(*number),
    }
}

/// The pointer block of an address, which is that of the address before unless it is the first in its block.
fn next_block(
    parts: &PartsInMemory<&[Sector]>,
    body: &Body,
    index: u32,
    block: Option<PtrBlock>,
) -> Option<PtrBlock>
    requires { 0 < index % 128 → block ≡ pointer_block parts.now body.now (index / 128) }
    ensures { result ≡ pointer_block parts.now body.now (index / 128) }
{
    if index % 128 == 0 {
        pointer_block(parts, body, index / 128)
    } else {
        block
    }
}

/// Notes an address of a body with which something is wrong, by its pointer block and the addresses past the body's last block.
fn note_address(
    report: &mut Report,
    geom: &Geom,
    object: ObjNo,
    body: &Body,
    block: &Option<PtrBlock>,
    past: &[u32],
    index: u32,
) -> Result<(), NoMemory>
    ensures { OnOk result (report.new ≡ report.old
        ++ find_if (is_bad_number geom.now body.now body.now.kind block.now past.now index) (finds.Address object index)) }
{
    let is_bad = is_bad_number(geom, body, block, past, index);
    report.note_if(is_bad, Find::Address { object, index })
}

/// The end of the addresses of a body with which something may be wrong.
#[tactic(auto, unfolding(crate::specs::Addresses::most_addresses))]
fn address_end(body: &Body, past: &[u32]) -> u32
    ensures { result ≡ min (body.now.count + length past.now) most_addresses }
{
    let end = body.count as usize + past.len();
    end.min(MOST_ADDRESSES) as u32
}

fn is_bad_number(
    geom: &Geom,
    body: &Body,
    block: &Option<PtrBlock>,
    past: &[u32],
    index: u32,
) -> bool
    ensures { result ≡ is_bad_number geom.now body.now body.now.kind block.now past.now index }
{
    match body.kind {
        None => false,
        Some(NodeKind::Dir) => is_outside(
            geom,
            Kind::Sb,
            first(&body.addresses, body.count as usize),
            index,
        ),
        Some(NodeKind::File) => is_bad_in_file(geom, body, block, past, index),
    }
}

/// Whether something is wrong with an address of a file.
fn is_bad_in_file(
    geom: &Geom,
    body: &Body,
    block: &Option<PtrBlock>,
    past: &[u32],
    index: u32,
) -> bool
    ensures { result ≡ is_bad_number geom.now body.now (Some kinds.File) block.now past.now index }
{
    if body.count <= 96 {
        is_outside(
            geom,
            Kind::Fb,
            first(&body.addresses, body.count as usize),
            index,
        )
    } else {
        is_outside(geom, Kind::Pb, pointers(body), index)
            || (index < body.count && is_bad_block(geom, pointed_at(block, index)))
            || is_first_used(past, body.count, index)
    }
}

/// Whether this address of a list is there and isn't an item of a kind.
fn is_outside(geom: &Geom, kind: Kind, list: &[u32], index: u32) -> bool
    ensures { result ≡ is_outside (items_of geom.now kind) list.now index }
{
    let index = index as usize;
    index < list.len() && list[index] >= item_count(geom, kind)
}

fn is_bad_block(geom: &Geom, block: Option<u32>) -> bool
    ensures { result ≡ is_bad_block (items_of geom.now Kind.Fb) block }
{
    match block {
        None => false,
        Some(block) => block >= item_count(geom, Kind::Fb),
    }
}

/// The pointer blocks of a file.
fn pointers(body: &Body) -> &[u32]
    ensures { result.now ≡ ptrs_by body.now (Some kinds.File) }
{
    first(&body.addresses, pointer_blocks(body.count) as usize)
}

/// The address of a file's block in its pointer block.
fn pointed_at(block: &Option<PtrBlock>, index: u32) -> Option<u32>
    ensures { result ≡ slice_get (addresses_in block.now) (index % 128) }
{
    number_at(addresses_in(block), (index % 128) as usize)
}

fn number_at(addresses: &[u32], index: usize) -> Option<u32>
    ensures { result ≡ slice_get addresses.now index }
{
    match addresses.get(index) {
        None => None,
        Some(address) => Some(*address),
    }
}

/// The first numbers of a list; all, where there are fewer.
#[tactic(auto, using(std::proofs::lemmas::List::take_min))]
fn first(numbers: &[u32], count: usize) -> &[u32]
    ensures { result.now ≡ take count numbers.now }
{
    &numbers[..count.min(numbers.len())]
}

/// What is behind the first numbers of a list.
#[tactic(auto, using(std::proofs::lemmas::List::drop_min))]
fn rest(numbers: &[u32], count: usize) -> &[u32]
    ensures { result.now ≡ drop count numbers.now }
{
    &numbers[count.min(numbers.len())..]
}

/// Whether this is the first address past a file's last block that isn't zero.
fn is_first_used(past: &[u32], count: u32, index: u32) -> bool
    ensures { result ≡ is_first_used past.now count index }
{
    let first = first_used(past);
    first < past.len() && index as usize == count as usize + first
}

/// The place of the first number that isn't zero; their count, where all are.
fn first_used(numbers: &[u32]) -> usize
    ensures { result ≡ position_or_len (λ x. not (x == 0)) numbers.now }
{
    for (i, number) in numbers.iter().enumerate() {
        if *number != 0 {
            return i;
        }
    }
    numbers.len()
}

fn note_unroomed(
    report: &mut Report,
    geom: &Geom,
    parts: &PartsInMemory<&[Sector]>,
) -> Result<(), NoMemory>
    ensures { OnOk result (report.new ≡ report.old ++ unroomed geom.now parts.now) }
{
    for object in 0..descriptor_count(geom) {
        note_rooms(report, geom, parts, object, subs_at(parts, object))?;
    }
    Ok(())
}

/// Notes the sub-blocks of a directory without their form.
fn note_rooms(
    report: &mut Report,
    geom: &Geom,
    parts: &PartsInMemory<&[Sector]>,
    object: ObjNo,
    subs: &[u32],
) -> Result<(), NoMemory>
    requires few { length subs.now ≤ 96 }
    ensures { OnOk result (report.new ≡ report.old ++ room_finds geom.now parts.now object subs.now) }
{
    for i in 0..subs.len() {
        note_room(report, geom, parts, object, subs, i)?;
    }
    Ok(())
}

fn note_room(
    report: &mut Report,
    geom: &Geom,
    parts: &PartsInMemory<&[Sector]>,
    object: ObjNo,
    subs: &[u32],
    i: usize,
) -> Result<(), NoMemory>
    requires few { length subs.now ≤ 96 }
    requires inside { i < length subs.now }
    ensures { OnOk result (report.new ≡ report.old ++ room_at geom.now parts.now object subs.now i) }
{
    let is_bad = is_unformed(geom, parts, subs[i]);
    let room = 4 * i as u32;
    report.note_if(is_bad, Find::Room { object, room })
}

/// Whether a sub-block is an item without its form.
fn is_unformed(geom: &Geom, parts: &PartsInMemory<&[Sector]>, number: u32) -> bool
    ensures { result ≡ (nat_lt number (items_of geom.now Kind.Sb) && is_none (part_at parts.now.subs number)) }
{
    number < item_count(geom, Kind::Sb) && parts.sub(number).is_none()
}

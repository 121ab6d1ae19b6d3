//! What the descriptors of an image list.
ghost use Rattle.std.specs.Prelude.{◌≡◌, ◌≤◌, ◌++◌, length, take, map, IfOk, OnOk};
ghost use Rattle.std.specs.List.{flat_map, filter_map};
ghost use Rattle.ds_tree.specs.Counts.{pointer_blocks};
ghost use Rattle.ds_image_parts.specs.Objects.{subs_of, ptrs_of, blocks_of, addresses_in, rooms_in, used_rooms};
ghost use Rattle.ds_image_parts.specs.Parts.{part_at};
ghost use Rattle.ds_image_parts.specs.Listings.{named_by, listed_by};

use crate::parts::PartsInMemory;
use crate::stores::Store;
use ds_base::{ADDRESSES, NoMemory, NodeKind, PAGE};
use ds_dir::{Entry, SubBlock};
use ds_fd::Body;
use ds_ptr::PtrBlock;
use std::alloc::Global;

/// What a descriptor may list: a directory its sub-blocks and, in their entries, objects; a file its pointer blocks and its
/// blocks.
#[derive(Clone, Copy, Debug, PartialEq, Eq)]
pub enum Listed {
    Subs,
    Ptrs,
    Blocks,
    Names,
}

/// What a descriptor lists.
pub fn list_of<S: Store>(
    alloc: Global,
    parts: &PartsInMemory<S>,
    what: Listed,
    body: &Option<Body>,
) -> Result<Vec<u32>, NoMemory>
    ensures { IfOk result (λ v. v.items ≡ listed_by parts.now what body.now) }
{
    match what {
        Listed::Subs => copied(alloc, subs_of(body)),
        Listed::Ptrs => copied(alloc, ptrs_of(body)),
        Listed::Blocks => blocks_of(alloc, parts, body),
        Listed::Names => named_by(alloc, parts, body),
    }
}

fn copied(alloc: Global, items: &[u32]) -> Result<Vec<u32>, NoMemory>
    ensures { IfOk result (λ v. v.items ≡ items.now) }
{
    Ok(items.to_vec(alloc)?)
}

/// The first numbers of a list; all, where there are fewer.
#[tactic(auto, using(std::proofs::lemmas::List::take_min))]
pub(crate) fn first(numbers: &[u32], count: usize) -> &[u32]
    ensures exact { result.now ≡ take count numbers.now }
    ensures within { length result.now ≤ length numbers.now }
{
    &numbers[..count.min(numbers.len())]
}

/// The sub-blocks that a directory lists; none of anything else.
pub fn subs_of(body: &Option<Body>) -> &[u32]
    ensures exact { result.now ≡ subs_of body.now }
    ensures few { length result.now ≤ 96 }
{
    let Some(body) = body else {
        return &[];
    };
    match body.kind {
        Some(NodeKind::Dir) => first(&body.addresses, body.count as usize),
        _ => &[],
    }
}

/// The pointer blocks that a file lists; none of anything else.
pub fn ptrs_of(body: &Option<Body>) -> &[u32]
    ensures { result.now ≡ ptrs_of body.now }
{
    let Some(body) = body else {
        return &[];
    };
    match body.kind {
        Some(NodeKind::File) => first(&body.addresses, pointer_blocks(body.count) as usize),
        _ => &[],
    }
}

/// How many pointer blocks a file of so many blocks has.
pub fn pointer_blocks(count: u32) -> u32
    ensures { result ≡ pointer_blocks count }
{
    if count <= ADDRESSES {
        return 0;
    }
    count.div_ceil(PAGE)
}

/// The addresses in pointer blocks, one block after another.
pub fn pointed_by<S: Store>(
    alloc: Global,
    parts: &PartsInMemory<S>,
    ptrs: &[u32],
) -> Result<Vec<u32>, NoMemory>
    ensures { IfOk result (λ v. v.items ≡ flat_map (λ n. addresses_in (part_at parts.now.ptrs n)) ptrs.now) }
{
    let mut addresses = Vec::new(alloc);
    for number in ptrs {
        let block = parts.ptr(*number);
        addresses.extend_from_slice(addresses_in(&block))?;
    }
    Ok(addresses)
}

/// The addresses in a pointer block; one that is not spelled has none.
pub fn addresses_in(block: &Option<PtrBlock>) -> &[u32]
    ensures { result.now ≡ addresses_in block.now }
{
    match block {
        Some(block) => &block.addresses,
        None => &[],
    }
}

/// The blocks of a file; none of anything else.
pub fn blocks_of<S: Store>(
    alloc: Global,
    parts: &PartsInMemory<S>,
    body: &Option<Body>,
) -> Result<Vec<u32>, NoMemory>
    ensures { IfOk result (λ v. v.items ≡ blocks_of parts.now body.now) }
{
    let Some(it) = body else {
        return Ok(Vec::new(alloc));
    };
    if it.kind != Some(NodeKind::File) {
        return Ok(Vec::new(alloc));
    }
    let count = it.count as usize;
    if it.count <= ADDRESSES {
        return copied(alloc, first(&it.addresses, count));
    }
    let mut blocks = pointed_by(alloc, parts, ptrs_of(body))?;
    blocks.truncate(count);
    Ok(blocks)
}

/// The objects that a directory names; none of anything else.
fn named_by<S: Store>(
    alloc: Global,
    parts: &PartsInMemory<S>,
    body: &Option<Body>,
) -> Result<Vec<u32>, NoMemory>
    ensures { IfOk result (λ v. v.items ≡ named_by parts.now body.now) }
{
    let entries = entries_in(alloc, parts, subs_of(body))?;
    Ok(entries.iter().map(|e| e.key.object).collect(alloc)?)
}

/// The entries in the used rooms of sub-blocks.
pub fn entries_in<S: Store>(
    alloc: Global,
    parts: &PartsInMemory<S>,
    subs: &[u32],
) -> Result<Vec<Entry>, NoMemory>
    ensures { IfOk result (λ v. v.items ≡ used_rooms parts.now subs.now) }
{
    let mut entries = Vec::new(alloc);
    for number in subs {
        let block = parts.sub(*number);
        push_entries(&mut entries, rooms_in(&block))?;
    }
    Ok(entries)
}

fn rooms_in(block: &Option<SubBlock>) -> &[Option<Entry>]
    ensures { result.now ≡ rooms_in block.now }
{
    match block {
        Some(block) => &block.rooms,
        None => &[],
    }
}

/// Puts the entries in used rooms behind others.
fn push_entries(entries: &mut Vec<Entry>, rooms: &[Option<Entry>]) -> Result<(), NoMemory>
    ensures { OnOk result (entries.new.items ≡ entries.old.items ++ filter_map (λ room. room) rooms.now) }
{
    for room in rooms {
        if let Some(entry) = room {
            entries.push(copy_of(entry)?)?;
        }
    }
    Ok(())
}

fn copy_of(entry: &Entry) -> Result<Entry, NoMemory>
    ensures { IfOk result (λ copy. copy ≡ entry.now) }
{
    Ok(entry.clone()?)
}

//! The logical image of a device.
ghost use Rattle.std.specs.Prelude.{List, ◌≡◌, ◌<◌, ◌≤◌, [], Some, MatchOption, IfOk, IfErr, OnOk, slice_get, length, take};
ghost use Rattle.std.specs.BTreeMap.{get};
ghost use Rattle.std.specs.Ordering.{nat_cmp};
ghost use Rattle.ds_base.specs.Geometry.{IsGeom};
ghost use Rattle.ds_base.specs.declared.sectors.Sector.{Sector};
ghost use Rattle.ds_layout.specs.Places.{blocks_at, total_of};
ghost use Rattle.ds_image_parts.specs.BadSectors.{HasNoBad};
ghost use Rattle.ds_image_parts.specs.Faults.{IsFaultOf};
ghost use Rattle.ds_image_parts.specs.Laying.{Lays, IsCommitted, ArePendingBelow};
ghost use Rattle.ds_image_parts.specs.Logical.{IsLogical};
ghost use Rattle.ds_image_parts.specs.Looks.{AreBlocks, IsBlock};
ghost use Rattle.ds_layout.specs.Metadata.{front_of};
ghost use Rattle.ds_image_parts.specs.Pending.{ArePending, AreJournalled};
ghost use Rattle.ds_image_parts.specs.Replaced.{image_of};

use crate::bad_sectors::least_bad;
use crate::images::{Image, ImageFault};
use crate::reads::{index_of, slot_at};
use crate::stores::Store;
use ds_base::{Geom, NoMemory, Sector, SectorNo, SlotNo};
use ds_jrnl::Index;
use ds_layout::{Place, sector_of};
use ds_marks::Journal;
use std::alloc::Global;
use std::collections::BTreeMap;

/// The logical image of a store that holds a volume, which is the only one: its metadata with the pending pairs of all slots laid
/// over them.
pub fn overlay<'a, S: Store>(
    alloc: Global,
    geom: &Geom,
    store: &'a S,
) -> Result<Image<'a, S>, ImageFault>
    requires geom { IsGeom geom.now }
    requires size { length (S.sectors store.now) ≡ total_of geom.now }
    ensures geom { IfOk result (λ image. image.geom ≡ geom.now) }
    ensures logical { IfOk result (λ image. IsLogical geom.now (S.sectors store.now) image.sectors) }
    ensures only { IfOk result (λ image. (other : List Sector) → IsLogical geom.now (S.sectors store.now) other
        → other ≡ image.sectors) }
    ensures good { OnOk result (HasNoBad geom.now (S.sectors store.now)) }
    ensures fault { IfErr result (IsFaultOf geom.now (S.sectors store.now)) }
{
    overlaid(alloc, geom, store)
}

fn overlaid<'a, S: Store>(
    alloc: Global,
    geom: &Geom,
    store: &'a S,
) -> Result<Image<'a, S>, ImageFault>
    requires geom { IsGeom geom.now }
    requires size { length (S.sectors store.now) ≡ total_of geom.now }
    ensures geom { IfOk result (λ image. image.geom ≡ geom.now) }
    ensures logical { IfOk result (λ image. IsLogical geom.now (S.sectors store.now) image.sectors) }
    ensures good { OnOk result (HasNoBad geom.now (S.sectors store.now)) }
    ensures fault { IfErr result (IsFaultOf geom.now (S.sectors store.now)) }
{
    let end = sector_of(geom, &Place::Block { block: 0, index: 0 });
    if let Some(sector) = least_bad(geom, store, end) {
        return Err(ImageFault::Bad { sector });
    }
    read_front(store, end);
    let mut pending = BTreeMap::new(alloc);
    lay_all(geom, store, &mut pending).map_err(|_| ImageFault::NoMemory)?;
    Ok(Image::with_pending(geom, store, pending))
}

/// Reads the sectors up to this one, which shows that they have 512 bytes each.
fn read_front<S: Store>(store: &S, end: SectorNo)
    requires { end ≤ length (S.sectors store.now) }
    ensures { AreBlocks (slice_get (take end (S.sectors store.now))) }
{
    for at in 0..end {
        let _sector = block_at(store, at);
    }
}

/// A sector of a store.
fn block_at<S: Store>(store: &S, at: SectorNo) -> Sector
    requires { at < length (S.sectors store.now) }
    ensures here { slice_get (S.sectors store.now) at ≡ Some result }
    ensures block { IsBlock result.bytes }
{
    let sector = store.sector(at);
    // A read of the bytes shows that there are 512, each below 256.
    let _bytes = &sector.bytes;
    sector
}

/// Lays the pending pairs of all slots over what is pending, in the order of the slots.
fn lay_all<S: Store>(
    geom: &Geom,
    store: &S,
    pending: &mut BTreeMap<SectorNo, Sector>,
) -> Result<(), NoMemory>
    requires geom { IsGeom geom.now }
    requires size { length (S.sectors store.now) ≡ total_of geom.now }
    requires good { HasNoBad geom.now (S.sectors store.now) }
    ensures { OnOk result (Lays (ArePendingBelow geom.now (S.sectors store.now) geom.now.slots)
        (image_of geom.now (S.sectors store.now) (get nat_cmp pending.old))
        (image_of geom.now (S.sectors store.now) (get nat_cmp pending.new))) }
{
    for number in 0..geom.slots {
        lay_slot(geom, store, number, pending)?;
    }
    Ok(())
}

/// Lays the pending pairs of a slot over what is pending.
fn lay_slot<S: Store>(
    geom: &Geom,
    store: &S,
    number: SlotNo,
    pending: &mut BTreeMap<SectorNo, Sector>,
) -> Result<(), NoMemory>
    requires geom { IsGeom geom.now }
    requires size { length (S.sectors store.now) ≡ total_of geom.now }
    requires inside { number < geom.now.slots }
    requires good { HasNoBad geom.now (S.sectors store.now) }
    ensures { OnOk result (Lays (ArePending geom.now (S.sectors store.now) number)
        (image_of geom.now (S.sectors store.now) (get nat_cmp pending.old))
        (image_of geom.now (S.sectors store.now) (get nat_cmp pending.new))) }
{
    match pending_index(geom, store, number) {
        None => Ok(()),
        Some(index) => lay_journal(geom, store, number, index.targets.as_slice(), pending),
    }
}

/// The index of a slot's committed journal; `None` where its journal is idle or its sector spells no slot.
fn pending_index<S: Store>(geom: &Geom, store: &S, number: SlotNo) -> Option<Index>
    requires geom { IsGeom geom.now }
    requires size { length (S.sectors store.now) ≡ total_of geom.now }
    requires inside { number < geom.now.slots }
    requires good { HasNoBad geom.now (S.sectors store.now) }
    ensures { MatchOption result (ArePending geom.now (S.sectors store.now) number []) (IsCommitted geom.now (S.sectors store.now) number) }
{
    let slot = slot_at(geom, store, number)?;
    match slot.journal {
        Journal::Idle => None,
        Journal::Committed { txn, count } => index_of(
            geom,
            store,
            number,
            slot.generation,
            txn,
            count,
        ),
    }
}

/// Lays over what is pending, at these targets, the sectors of a slot's journal.
fn lay_journal<S: Store>(
    geom: &Geom,
    store: &S,
    slot: SlotNo,
    targets: &[u32],
    pending: &mut BTreeMap<SectorNo, Sector>,
) -> Result<(), NoMemory>
    requires geom { IsGeom geom.now }
    requires size { length (S.sectors store.now) ≡ total_of geom.now }
    requires inside { slot < geom.now.slots }
    requires few { length targets.now ≤ 31 }
    ensures { OnOk result (Lays (AreJournalled geom.now (S.sectors store.now) slot targets.now)
        (image_of geom.now (S.sectors store.now) (get nat_cmp pending.old))
        (image_of geom.now (S.sectors store.now) (get nat_cmp pending.new))) }
{
    for (i, target) in targets.iter().enumerate() {
        let place = Place::Journal {
            slot,
            index: i as u8,
        };
        let sector = block_at(store, sector_of(geom, &place));
        pending.insert(*target, sector)?;
    }
    Ok(())
}

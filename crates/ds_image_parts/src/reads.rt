//! What the sectors of a store spell.
ghost use Rattle.std.specs.Prelude.{All, ◌≡◌, ◌<◌, ◌↔◌, Some, IsTrue, slice_get, length};
ghost use Rattle.ds_base.specs.Decoding.{IsDecoded};
ghost use Rattle.ds_base.specs.Geometry.{IsGeom};
ghost use Rattle.ds_jrnl.specs.declared.index.Index.{Index};
ghost use Rattle.ds_layout.specs.Places.{total_of, IsLock, IsPlace, place_sector};
ghost use Rattle.ds_layout.specs.Metadata.{IsMetadata};
ghost use Rattle.ds_image_parts.specs.Pending.{IsIndexOf};
ghost use Rattle.ds_image_parts.specs.Readings.{SpellsSlot, SpellsHeader, SpellsIndex};

use crate::stores::Store;
use ds_base::{Gen, Geom, ObjNo, Sector, SectorNo, SlotNo};
use ds_jrnl::Index;
use ds_layout::{Place, is_metadata_sector, sector_of};
use ds_marks::{Header, Slot};

/// The sector of a place.
#[tactic(auto, using(ds_layout::proofs::SamePlace::place_within))]
pub fn sector_at<S: Store>(geom: &Geom, store: &S, place: &Place) -> Sector
    requires geom { IsGeom geom.now }
    requires size { length (S.sectors store.now) ≡ total_of geom.now }
    requires inside { IsPlace geom.now place.now }
    ensures { slice_get (S.sectors store.now) (place_sector geom.now place.now) ≡ Some result }
{
    store.sector(sector_of(geom, place))
}

/// The slot that its sector spells.
#[tactic(auto, using(crate::proofs::Spelling::Decoded::spelled_at))]
pub fn slot_at<S: Store>(geom: &Geom, store: &S, number: SlotNo) -> Option<Slot>
    requires geom { IsGeom geom.now }
    requires size { length (S.sectors store.now) ≡ total_of geom.now }
    requires inside { number < geom.now.slots }
    ensures { IsDecoded result (SpellsSlot geom.now (slice_get (S.sectors store.now)) number) }
{
    let sector = sector_at(geom, store, &Place::Slot(number));
    Slot::decode(number, &sector)
}

/// The header that a lock object's sector spells.
pub fn header_at<S: Store>(geom: &Geom, store: &S, object: ObjNo) -> Option<Header>
    requires geom { IsGeom geom.now }
    requires size { length (S.sectors store.now) ≡ total_of geom.now }
    requires inside { IsLock geom.now object }
    ensures { IsDecoded result (SpellsHeader geom.now (slice_get (S.sectors store.now)) object) }
{
    let sector = sector_at(geom, store, &Place::Header(object));
    Header::decode(object, &sector)
}

/// The index that the last sector of a slot's journal spells; `None` where it spells none.
#[tactic(auto, using(crate::proofs::Spelling::Decoded::spelled_at))]
pub fn index_at<S: Store>(geom: &Geom, store: &S, slot: SlotNo) -> Option<Index>
    requires geom { IsGeom geom.now }
    requires size { length (S.sectors store.now) ≡ total_of geom.now }
    requires inside { slot < geom.now.slots }
    ensures { IsDecoded result (SpellsIndex geom.now (slice_get (S.sectors store.now)) slot) }
{
    let sector = sector_at(geom, store, &Place::Journal { slot, index: 31 });
    Index::decode(&sector)
}

/// The index of a slot's journal, where it is the one of this generation, transaction and count, and its targets are metadata.
pub fn index_of<S: Store>(
    geom: &Geom,
    store: &S,
    slot: SlotNo,
    generation: Gen,
    txn: u64,
    count: u8,
) -> Option<Index>
    requires geom { IsGeom geom.now }
    requires size { length (S.sectors store.now) ≡ total_of geom.now }
    requires inside { slot < geom.now.slots }
    ensures { IsDecoded result (IsIndexOf geom.now (S.sectors store.now) slot generation txn count) }
{
    let index = index_at(geom, store, slot)?;
    if index.slot != slot || index.generation != generation || index.txn != txn {
        return None;
    }
    if index.targets.len() != usize::from(count) {
        return None;
    }
    if !are_metadata(geom, index.targets.as_slice()) {
        return None;
    }
    Some(index)
}

/// Whether all these sectors are bodies, bitmaps, sub-blocks or pointer blocks.
fn are_metadata(geom: &Geom, targets: &[u32]) -> bool
    requires { IsGeom geom.now }
    ensures { IsTrue result ↔ All (IsMetadata geom.now) targets.now }
{
    for target in targets {
        if !is_metadata_sector(geom, *target) {
            return false;
        }
    }
    true
}

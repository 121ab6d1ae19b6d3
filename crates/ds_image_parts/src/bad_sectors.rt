//! Sectors for which a volume has no logical image.
ghost use Rattle.std.specs.Prelude.{◌≡◌, ◌<◌, ◌↔◌, IsTrue, MatchOption, length};
ghost use Rattle.ds_base.specs.Geometry.{IsGeom};
ghost use Rattle.ds_layout.specs.Places.{total_of, blocks_at, IsPlace};
ghost use Rattle.ds_image_parts.specs.BadSectors.{IsBad, IsBadPlace, IsLeastBad, HasNoBad, HasBadIndex};

use crate::reads::{header_at, index_of, slot_at};
use crate::stores::Store;
use ds_base::{Geom, SectorNo, SlotNo};
use ds_layout::{Place, place_of};
use ds_marks::Journal;

/// The least sector that is a slot or header that doesn't decode, or the index of a committed slot that isn't as it has to
/// be; `end` is the first sector of the file blocks.
pub(crate) fn least_bad<S: Store>(geom: &Geom, store: &S, end: SectorNo) -> Option<SectorNo>
    requires geom { IsGeom geom.now }
    requires size { length (S.sectors store.now) ≡ total_of geom.now }
    requires end { end ≡ blocks_at geom.now }
    ensures { MatchOption result (HasNoBad geom.now (S.sectors store.now)) (IsLeastBad geom.now (S.sectors store.now)) }
{
    for at in 0..end {
        if is_bad(geom, store, at) {
            return Some(at);
        }
    }
    None
}

fn is_bad<S: Store>(geom: &Geom, store: &S, at: SectorNo) -> bool
    requires geom { IsGeom geom.now }
    requires size { length (S.sectors store.now) ≡ total_of geom.now }
    ensures { IsTrue result ↔ IsBad geom.now (S.sectors store.now) at }
{
    match place_of(geom, at) {
        Some(place) => is_bad_place(geom, store, &place),
        None => false,
    }
}

fn is_bad_place<S: Store>(geom: &Geom, store: &S, place: &Place) -> bool
    requires geom { IsGeom geom.now }
    requires size { length (S.sectors store.now) ≡ total_of geom.now }
    requires inside { IsPlace geom.now place.now }
    ensures { IsTrue result ↔ IsBadPlace geom.now (S.sectors store.now) place.now }
{
    match *place {
        Place::Slot(number) => slot_at(geom, store, number).is_none(),
        Place::Header(object) => header_at(geom, store, object).is_none(),
        Place::Journal { slot, index } => index == 31 && has_bad_index(geom, store, slot),
        _ => false,
    }
}

fn has_bad_index<S: Store>(geom: &Geom, store: &S, number: SlotNo) -> bool
    requires geom { IsGeom geom.now }
    requires size { length (S.sectors store.now) ≡ total_of geom.now }
    requires inside { number < geom.now.slots }
    ensures { IsTrue result ↔ HasBadIndex geom.now (S.sectors store.now) number }
{
    let Some(slot) = slot_at(geom, store, number) else {
        return false;
    };
    match slot.journal {
        Journal::Idle => false,
        Journal::Committed { txn, count } => index_of(
            geom,
            store,
            number,
            slot.generation,
            txn,
            count,
        ).is_none(),
    }
}

//! Free items that a file gets.
ghost use Rattle.std.specs.Prelude.{◌≡◌, ◌≤◌, ◌<◌, ◌+◌, ◌++◌, ℕ, IfOk, Some, length, map, slice_get};
ghost use Rattle.ds_base.specs.Geometry.{IsGeom, clusters_of, per_cluster};
ghost use Rattle.ds_bitmap.specs.Bits.{IsBits};
ghost use Rattle.ds_image_tables.specs.Owned.{CanMark};
ghost use Rattle.ds_image_parts.specs.Parts.{Parts};
ghost use Rattle.ds_image_parts.specs.Readings.{ReadsParts};
ghost use Rattle.ds_image.specs.SeenValues.{look_of};
ghost use Rattle.ds_plan_resize.specs.Taking.{IsTaken, items_wanted, lowest_clear, map_marked, taken_more};

use arrayvec::ArrayVec;
use ds_base::{Geom, Kind, Sector, SectorNo, SlotNo};
use ds_bitmap::Bits;
use ds_image::Seen;
use ds_layout::{Place, sector_of};
use ds_plan_base::{Ending, Stop, cluster_tried, clusters, map_seen};

/// Items that are taken: their numbers in their kind, and the sectors of the bitmaps in which they are marked.
#[derive(Drop)]
pub struct Taken {
    pub numbers: ArrayVec<u32, 1024>,
    pub maps: ArrayVec<(SectorNo, Sector), 8>,
}

/// So many free items of a kind; otherwise what a planner asks for, or answers, before it knows them. Clusters are tried from the
/// slot's number on, and round, and in each the lowest items are taken.
pub fn items_wanted(
    geom: &Geom,
    seen: &Seen,
    kind: Kind,
    slot: SlotNo,
    count: usize,
) -> Result<Taken, Stop>
    requires geom { IsGeom geom.now }
    requires few { count ≤ 1024 }
    ensures answer { (p : Parts) → ReadsParts geom.now (look_of seen.now) p
        → result ≡ items_wanted geom.now slot seen.now p kind count }
    ensures taken { IfOk result (IsTaken geom.now kind count) }
{
    let mut taken = Taken {
        numbers: ArrayVec::new(),
        maps: ArrayVec::new(),
    };
    for tried in 0..clusters(geom, kind) {
        if taken.numbers.len() >= count {
            return Ok(taken);
        }
        let cluster = cluster_tried(geom, slot, kind, tried);
        let map = map_seen(geom, seen, kind, cluster)?;
        let items = lowest_clear(&map, count - taken.numbers.len());
        taken = taken_more(geom, kind, cluster, map, &items, taken);
    }
    if taken.numbers.len() >= count {
        return Ok(taken);
    }
    Err(Stop::Done(Ending::NoSpace { kind }))
}

/// The lowest items that are free, at most so many.
fn lowest_clear(map: &Bits, most: usize) -> ArrayVec<u32, 1024>
    requires items { length map.now.used ≤ 3840 }
    requires few { most ≤ 1024 }
    ensures items { result.items ≡ lowest_clear most map.now.used }
    ensures few { length result.items ≤ most }
{
    let mut items = ArrayVec::new();
    for (item, used) in map.used().iter().enumerate() {
        if items.len() >= most {
            return items;
        }
        if !*used {
            items.push(item as u32);
        }
    }
    items
}

/// What is taken with these items of one more cluster, whose bitmap isn't written where there is none.
fn taken_more(geom: &Geom, kind: Kind, cluster: u8, map: Bits, items: &[u32], taken: Taken) -> Taken
    requires geom { IsGeom geom.now }
    requires inside { cluster < clusters_of geom.now kind }
    requires is_bits { IsBits geom.now kind cluster map }
    requires can { CanMark map.used items.now }
    requires room { length taken.numbers.items + length items.now ≤ 1024 }
    requires room_for_map { length taken.maps.items < 8 }
    ensures { result ≡ taken_more geom.now kind cluster map items.now taken }
{
    if items.is_empty() {
        return taken;
    }
    let Taken {
        mut numbers,
        mut maps,
    } = taken;
    put_numbers(
        &mut numbers,
        u32::from(cluster) * per_cluster(geom, kind),
        items,
    );
    let at = sector_of(geom, &Place::Bitmap { kind, cluster });
    maps.push((at, marked(map, items).encode()));
    Taken { numbers, maps }
}

/// The items of each cluster of a kind.
fn per_cluster(geom: &Geom, kind: Kind) -> u32
    ensures { result ≡ per_cluster geom.now kind }
{
    u32::from(geom.items[kind as usize])
}

/// Puts the numbers of a cluster's items behind others; the first item of the cluster has this number.
fn put_numbers(numbers: &mut ArrayVec<u32, 1024>, first: u32, items: &[u32])
    requires few { first ≤ 30720 }
    requires small { (i n : ℕ) → slice_get items.now i ≡ Some n → n < 3840 }
    requires room { length numbers.old.items + length items.now ≤ 1024 }
    ensures { numbers.new.items ≡ numbers.old.items ++ map (λ item. first + item) items.now }
{
    for item in items {
        numbers.push(first + *item);
    }
}

/// The bitmap with these items used.
fn marked(map: Bits, items: &[u32]) -> Bits
    requires can { CanMark map.used items.now }
    requires small { length map.used ≤ 3840 }
    ensures { result ≡ map_marked map items.now }
{
    let mut marked = map;
    for item in items {
        marked.take(*item as u16);
    }
    marked
}

//! Free items of a kind.
ghost use Rattle.std.specs.Prelude.{◌≡◌, ◌<◌, ◌-◌, Some, IfOk, IfSome};
ghost use Rattle.ds_base.specs.Geometry.{IsGeom, clusters_of, per_cluster};
ghost use Rattle.ds_bitmap.specs.Bits.{IsBits};
ghost use Rattle.ds_image_parts.specs.Parts.{Parts};
ghost use Rattle.ds_image_parts.specs.Readings.{ReadsParts};
ghost use Rattle.ds_image.specs.SeenValues.{look_of};
ghost use Rattle.ds_plan_base.specs.Items.{IsFreeItem, first_clear, free_item, map_read, map_seen, number_of, wanted_item};
ghost use Rattle.ds_image.specs.Locks.{cluster_tried};

use crate::stops::{Ending, Stop};
use ds_base::{Geom, Kind, SlotNo};
use ds_bitmap::Bits;
use ds_image::Seen;
use ds_layout::{Place, cluster_lock, sector_of};

/// A free item: its cluster, its place there, and the cluster's bitmap.
#[derive(Drop)]
pub struct FreeItem {
    pub cluster: u8,
    pub item: u16,
    pub map: Bits,
}

/// A free item of a kind that a call needs; otherwise what a planner asks for, or answers, before it knows one.
pub fn wanted_item(geom: &Geom, seen: &Seen, kind: Kind, slot: SlotNo) -> Result<FreeItem, Stop>
    requires { IsGeom geom.now }
    ensures answer { (p : Parts) → ReadsParts geom.now (look_of seen.now) p
        → result ≡ wanted_item geom.now slot seen.now p kind }
    ensures is_free { IfOk result (IsFreeItem geom.now kind) }
{
    match free_item(geom, seen, kind, slot)? {
        Some(free) => Ok(free),
        None => Err(Stop::Done(Ending::NoSpace { kind })),
    }
}

/// The first free item of a kind: clusters are tried from the slot's number on, and round, and in a cluster the lowest is taken.
fn free_item(geom: &Geom, seen: &Seen, kind: Kind, slot: SlotNo) -> Result<Option<FreeItem>, Stop>
    requires { IsGeom geom.now }
    ensures answer { (p : Parts) → ReadsParts geom.now (look_of seen.now) p
        → result ≡ free_item geom.now slot seen.now p kind }
    ensures is_free { IfOk result (λ r. IfSome r (IsFreeItem geom.now kind)) }
{
    for tried in 0..clusters(geom, kind) {
        let cluster = cluster_tried(geom, slot, kind, tried);
        let map = map_seen(geom, seen, kind, cluster)?;
        if let Some(item) = first_free(&map) {
            return Ok(Some(FreeItem { cluster, item, map }));
        }
    }
    Ok(None)
}

fn first_free(map: &Bits) -> Option<u16>
    ensures { result ≡ first_clear map.now.used }
{
    map.first_free()
}

/// The bitmap of a cluster.
pub fn map_seen(geom: &Geom, seen: &Seen, kind: Kind, cluster: u8) -> Result<Bits, Stop>
    requires geom { IsGeom geom.now }
    requires inside { cluster < clusters_of geom.now kind }
    ensures answer { (p : Parts) → ReadsParts geom.now (look_of seen.now) p
        → result ≡ map_seen geom.now seen.now p kind cluster }
    ensures is_bits { IfOk result (IsBits geom.now kind cluster) }
{
    let lock = cluster_lock(kind, cluster);
    if !seen.has_lock(lock) {
        return Err(Stop::Lock(lock));
    }
    map_read(geom, seen, kind, cluster)
}

/// What the sector of a cluster's bitmap spells.
pub fn map_read(geom: &Geom, seen: &Seen, kind: Kind, cluster: u8) -> Result<Bits, Stop>
    requires geom { IsGeom geom.now }
    requires inside { cluster < clusters_of geom.now kind }
    ensures answer { (p : Parts) → ReadsParts geom.now (look_of seen.now) p
        → result ≡ map_read geom.now seen.now p kind cluster }
    ensures is_bits { IfOk result (IsBits geom.now kind cluster) }
{
    let at = sector_of(geom, &Place::Bitmap { kind, cluster });
    let Some(sector) = seen.sector(at) else {
        return Err(Stop::Read(at));
    };
    match Bits::decode(geom, kind, cluster, sector) {
        Some(map) => Ok(map),
        None => Err(Stop::Odd(at)),
    }
}

/// The number of clusters of a kind.
pub fn clusters(geom: &Geom, kind: Kind) -> u8
    requires { IsGeom geom.now }
    ensures { result ≡ clusters_of geom.now kind }
{
    geom.clusters[kind as usize]
}

/// The cluster that a host with this slot tries after so many others.
pub fn cluster_tried(geom: &Geom, slot: SlotNo, kind: Kind, tried: u8) -> u8
    requires { IsGeom geom.now }
    ensures exact { result ≡ cluster_tried geom.now slot kind tried }
    ensures within { result < clusters_of geom.now kind }
{
    ((u16::from(slot) + u16::from(tried)) % u16::from(clusters(geom, kind))) as u8
}

/// The number of a free item in its kind.
pub fn number_of(geom: &Geom, kind: Kind, free: &FreeItem) -> u32
    requires geom { IsGeom geom.now }
    requires is_free { IsFreeItem geom.now kind free.now }
    ensures { result ≡ number_of geom.now kind free.now }
{
    u32::from(free.cluster) * u32::from(geom.items[kind as usize]) + u32::from(free.item)
}

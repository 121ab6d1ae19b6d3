//! The places of a volume and their sectors.
ghost use Rattle.std.specs.Prelude.{◌≡◌, ◌≤◌, ◌<◌, ◌+◌, ◌*◌, ◌-◌, ◌/◌, ◌%◌, Some, MatchOption};
ghost use Rattle.ds_base.specs.Geometry.{IsGeom, clusters_of, items_of};
ghost use Rattle.ds_layout.specs.Places.{
  total_of,
  kind_numbered,
  clusters_before,
  all_clusters,
  cluster_at,
  cluster_lock,
  header_sector,
  IsPlace,
  place_sector,
};
ghost use Rattle.ds_layout.specs.Regions.{AreRegions, HasBounds};
ghost use Rattle.ds_layout.specs.declared.places.Place.{Place};

use crate::regions::Regions;
use ds_base::{Geom, Kind, ObjNo, SectorNo, SlotNo};

/// What a sector of a volume is for. A lock object is a descriptor, by its own number, or a cluster: cluster c of the
/// kind with place k in the order of `Kind` is lock object 2,048 + 8k + c.
#[derive(Clone, Copy, Debug, PartialEq, Eq)]
pub enum Place {
    VolInfo,
    FsInfo,
    Slot(SlotNo),
    /// Sector `index` of a slot's journal: 0 to 30 hold new sectors, 31 the index.
    Journal { slot: SlotNo, index: u8 },
    /// The header of a lock object.
    Header(ObjNo),
    Bitmap { kind: Kind, cluster: u8 },
    /// The body of a descriptor.
    Body(ObjNo),
    SubBlock(u32),
    PtrBlock(u32),
    /// Sector `index` of a file block.
    Block { block: u32, index: u16 },
}

/// The number of all sectors: at most 62,980,690, with 16 slots, blocks of 2,048 sectors, 8 clusters of each kind, 256
/// items in each descriptor cluster and 3,840 in each other.
pub fn total(geom: &Geom) -> u32
    requires { IsGeom geom.now }
    ensures exact { result ≡ total_of geom.now }
    ensures most { result ≤ 62980690 }
{
    Regions::of(geom).end
}

/// The sector of a place.
pub fn sector_of(geom: &Geom, place: &Place) -> SectorNo
    requires geom { IsGeom geom.now }
    requires inside { IsPlace geom.now place.now }
    ensures { result ≡ place_sector geom.now place.now }
{
    let regions = Regions::of(geom);
    match *place {
        Place::VolInfo => 0,
        Place::FsInfo => 1,
        Place::Slot(slot) => 2 + u32::from(slot),
        Place::Journal { slot, index } => regions.journals
            + 32 * u32::from(slot)
            + u32::from(index),
        Place::Header(object) => sector_of_header(geom, &regions, object),
        Place::Bitmap { kind, cluster } => sector_of_cluster(
            geom,
            &regions,
            kind,
            u32::from(cluster),
        ) + 1,
        Place::Body(object) => regions.descriptors + 2 * object + 1,
        Place::SubBlock(n) => regions.sub_blocks + n,
        Place::PtrBlock(n) => regions.ptr_blocks + n,
        Place::Block { block, index } => sector_of_block(geom, &regions, block, index),
    }
}

fn sector_of_header(geom: &Geom, regions: &Regions, object: ObjNo) -> SectorNo
    requires regions { AreRegions geom.now regions.now }
    requires bounds { HasBounds geom.now }
    ensures { result ≡ header_sector geom.now object }
{
    if object < 2048 {
        return regions.descriptors + 2 * object;
    }
    let number = object - 2048;
    sector_of_cluster(geom, regions, numbered_kind(number / 8), number % 8)
}

fn sector_of_cluster(geom: &Geom, regions: &Regions, kind: Kind, cluster: u32) -> SectorNo
    requires regions { AreRegions geom.now regions.now }
    requires bounds { HasBounds geom.now }
    requires cluster { cluster < 256 }
    ensures exact { result ≡ cluster_at geom.now kind cluster }
    ensures most { result ≤ 1200 }
{
    regions.clusters + 2 * (clusters_ahead(geom, kind) + cluster)
}

#[tactic(auto, using(crate::proofs::Bounds::block_within))]
fn sector_of_block(geom: &Geom, regions: &Regions, block: u32, index: u16) -> SectorNo
    requires regions { AreRegions geom.now regions.now }
    requires bounds { HasBounds geom.now }
    requires block { block < items_of geom.now Kind.Fb }
    requires index { index < geom.now.block }
    ensures { result ≡ place_sector geom.now (Place.Block block index) }
{
    regions.blocks + u32::from(geom.block) * block + u32::from(index)
}

/// The kind with this place in the order of kinds.
fn numbered_kind(number: u32) -> Kind
    ensures { result ≡ kind_numbered number }
{
    match number {
        0 => Kind::Fd,
        1 => Kind::Sb,
        2 => Kind::Pb,
        _ => Kind::Fb,
    }
}

/// The clusters of the kinds before this one.
fn clusters_ahead(geom: &Geom, kind: Kind) -> u32
    requires { HasBounds geom.now }
    ensures exact { result ≡ clusters_before geom.now kind }
    ensures most { result ≤ 24 }
{
    let [first, second, third, _] = geom.clusters;
    match kind {
        Kind::Fd => 0,
        Kind::Sb => u32::from(first),
        Kind::Pb => u32::from(first) + u32::from(second),
        Kind::Fb => u32::from(first) + u32::from(second) + u32::from(third),
    }
}

/// The place of a sector; `None` where the sector is past the volume.
pub fn place_of(geom: &Geom, at: SectorNo) -> Option<Place>
    requires { IsGeom geom.now }
    ensures place { MatchOption result (total_of geom.now ≤ at)
        (λ place. IsPlace geom.now place × (place_sector geom.now place ≡ at)) }
    ensures only { (place : Place) → IsPlace geom.now place → place_sector geom.now place ≡ at → result ≡ Some place }
{
    place_found(geom, at)
}

fn place_found(geom: &Geom, at: SectorNo) -> Option<Place>
    requires { IsGeom geom.now }
    ensures { MatchOption result (total_of geom.now ≤ at)
        (λ place. IsPlace geom.now place × (place_sector geom.now place ≡ at)) }
{
    let regions = Regions::of(geom);
    if at < regions.clusters {
        return Some(place_before_clusters(geom, &regions, at));
    }
    if at < regions.descriptors {
        let behind = at - regions.clusters;
        return Some(place_in_cluster(geom, behind / 2, behind % 2));
    }
    if at < regions.sub_blocks {
        let behind = at - regions.descriptors;
        return Some(place_in_descriptor(geom, behind / 2, behind % 2));
    }
    if at < regions.ptr_blocks {
        return Some(Place::SubBlock(at - regions.sub_blocks));
    }
    if at < regions.blocks {
        return Some(Place::PtrBlock(at - regions.ptr_blocks));
    }
    if at < regions.end {
        return Some(place_in_block(geom, at - regions.blocks));
    }
    None
}

fn place_before_clusters(geom: &Geom, regions: &Regions, at: SectorNo) -> Place
    requires regions { AreRegions geom.now regions.now }
    requires bounds { HasBounds geom.now }
    requires at { at < 2 + 33 * geom.now.slots }
    ensures inside { IsPlace geom.now result }
    ensures here { place_sector geom.now result ≡ at }
{
    if at == 0 {
        return Place::VolInfo;
    }
    if at == 1 {
        return Place::FsInfo;
    }
    if at < regions.journals {
        return Place::Slot((at - 2) as u8);
    }
    let behind = at - regions.journals;
    Place::Journal {
        slot: (behind / 32) as u8,
        index: (behind % 32) as u8,
    }
}

fn place_in_cluster(geom: &Geom, number: u32, part: u32) -> Place
    requires bounds { HasBounds geom.now }
    requires number { number < all_clusters geom.now }
    requires part { part < 2 }
    ensures inside { IsPlace geom.now result }
    ensures here { place_sector geom.now result ≡ 2 + 33 * geom.now.slots + 2 * number + part }
{
    let (kind, cluster) = numbered_cluster(geom, number);
    if part == 0 {
        return Place::Header(lock_of_cluster(geom, kind, cluster));
    }
    Place::Bitmap { kind, cluster }
}

/// The cluster with this place among the clusters of all kinds.
fn numbered_cluster(geom: &Geom, number: u32) -> (Kind, u8)
    requires bounds { HasBounds geom.now }
    requires number { number < all_clusters geom.now }
    ensures within { result.1 < clusters_of geom.now result.0 }
    ensures place { clusters_before geom.now result.0 + result.1 ≡ number }
{
    let [first, second, third, _] = geom.clusters;
    let sb = u32::from(first);
    let pb = sb + u32::from(second);
    let fb = pb + u32::from(third);
    if number < sb {
        return (Kind::Fd, number as u8);
    }
    if number < pb {
        return (Kind::Sb, (number - sb) as u8);
    }
    if number < fb {
        return (Kind::Pb, (number - pb) as u8);
    }
    (Kind::Fb, (number - fb) as u8)
}

#[tactic(auto, using(crate::proofs::Bounds::header_of_cluster))]
fn lock_of_cluster(geom: &Geom, kind: Kind, cluster: u8) -> ObjNo
    requires bounds { HasBounds geom.now }
    requires within { cluster < clusters_of geom.now kind }
    ensures lock { result ≡ cluster_lock kind cluster }
    ensures inside { IsPlace geom.now (Place.Header result) }
    ensures here { header_sector geom.now result ≡ cluster_at geom.now kind cluster }
{
    cluster_lock(kind, cluster)
}

/// The lock object that a cluster is.
pub fn cluster_lock(kind: Kind, cluster: u8) -> ObjNo
    ensures { result ≡ cluster_lock kind cluster }
{
    2048 + 8 * (kind as u32) + u32::from(cluster)
}

fn place_in_descriptor(geom: &Geom, object: u32, part: u32) -> Place
    requires object { object < items_of geom.now Kind.Fd }
    requires bounds { HasBounds geom.now }
    requires part { part < 2 }
    ensures inside { IsPlace geom.now result }
    ensures here { place_sector geom.now result ≡ place_sector geom.now (Place.Header 0) + 2 * object + part }
{
    if part == 0 {
        return Place::Header(object);
    }
    Place::Body(object)
}

#[tactic(auto, using(crate::proofs::Bounds::block_numbered))]
fn place_in_block(geom: &Geom, behind: u32) -> Place
    requires bounds { HasBounds geom.now }
    requires behind { behind < geom.now.block * items_of geom.now Kind.Fb }
    ensures inside { IsPlace geom.now result }
    ensures here { place_sector geom.now result ≡ place_sector geom.now (Place.Block 0 0) + behind }
{
    let width = u32::from(geom.block);
    Place::Block {
        block: behind / width,
        index: (behind % width) as u16,
    }
}

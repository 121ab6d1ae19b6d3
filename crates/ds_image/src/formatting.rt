//! New volumes.
ghost use Rattle.std.specs.Prelude.{◌≡◌, ◌<◌, IfOk, List, replicate};
ghost use Rattle.ds_base.specs.Geometry.{IsGeom, clusters_of};
ghost use Rattle.ds_base.specs.declared.sectors.Sector.{Sector};
ghost use Rattle.ds_layout.specs.Places.{total_of, blocks_at, IsPlace, place_sector};
ghost use Rattle.ds_layout.specs.declared.places.Place.{Place};
ghost use Rattle.ds_tree.specs.Nodes.{fresh_tree};
ghost use Rattle.ds_image.specs.Formatted.{fresh_slot, fresh_header, fresh_body, fresh_bits, formatted_at, IsFormatted};
ghost use Rattle.ds_image_parts.specs.Logical.{IsLogical};
ghost use Rattle.ds_layout.specs.Metadata.{front_of};
ghost use Rattle.ds_image.specs.Sound.{StandsFor};

use ds_base::{Command, Geom, Kind, NoMemory, NodeKind, ObjNo, Sector, SectorNo};
use ds_bitmap::Bits;
use ds_fd::Body;
use ds_layout::{Place, encode_fs, encode_vol, place_of, sector_of, total};
use ds_lun::MemLun;
use ds_marks::{Header, Journal, Slot, SlotState};
use std::alloc::Global;
use uuid::Uuid;

/// The sectors of a new volume, whose logical image stands for the tree that has the root alone.
pub fn format(alloc: Global, geom: &Geom, volume: Uuid) -> Result<Vec<Sector>, NoMemory>
    requires { IsGeom geom.now }
    ensures formatted { IfOk result (λ sectors. IsFormatted geom.now volume sectors.items) }
    ensures logical { IfOk result (λ sectors. IsLogical geom.now sectors.items (front_of geom.now sectors.items)) }
    ensures stands { IfOk result (λ sectors. (image : List Sector) → IsLogical geom.now sectors.items image
        → StandsFor geom.now image (fresh_tree geom.now)) }
{
    let count = total(geom);
    let mut sectors = Vec::with_capacity(alloc, count as usize)?;
    for at in 0..count {
        sectors.push(sector_numbered(geom, volume, at))?;
    }
    Ok(sectors)
}

/// The same volume, on a device that keeps only the sectors other than zero.
pub fn format_sparse(alloc: Global, geom: &Geom, volume: Uuid) -> Result<MemLun, NoMemory>
    requires { IsGeom geom.now }
    ensures formatted { IfOk result (λ lun. IsFormatted geom.now volume lun.sectors) }
    ensures logical { IfOk result (λ lun. IsLogical geom.now lun.sectors (front_of geom.now lun.sectors)) }
    ensures stands { IfOk result (λ lun. (image : List Sector) → IsLogical geom.now lun.sectors image
        → StandsFor geom.now image (fresh_tree geom.now)) }
{
    let mut lun = MemLun::sparse(alloc, total(geom))?;
    for at in 0..first_block(geom) {
        let fresh = sector_numbered(geom, volume, at);
        lun.make_room(1)?;
        lun.do_command(&Command::Write { at, fresh });
    }
    Ok(lun)
}

/// The first sector of the file blocks, behind which all sectors of a new volume are zero.
fn first_block(geom: &Geom) -> SectorNo
    requires { IsGeom geom.now }
    ensures { result ≡ blocks_at geom.now }
{
    sector_of(geom, &Place::Block { block: 0, index: 0 })
}

fn sector_numbered(geom: &Geom, volume: Uuid, at: SectorNo) -> Sector
    requires geom { IsGeom geom.now }
    requires inside { at < total_of geom.now }
    ensures { (place : Place) → IsPlace geom.now place → place_sector geom.now place ≡ at
        → result.bytes ≡ formatted_at geom.now volume place }
{
    match place_of(geom, at) {
        Some(place) => sector_for(geom, volume, &place),
        None => unreachable!(),
    }
}

/// The sector of a place of the new volume.
fn sector_for(geom: &Geom, volume: Uuid, place: &Place) -> Sector
    requires geom { IsGeom geom.now }
    requires inside { IsPlace geom.now place.now }
    ensures { result.bytes ≡ formatted_at geom.now volume place.now }
{
    match *place {
        Place::VolInfo => encode_vol(geom, volume),
        Place::FsInfo => encode_fs(volume),
        Place::Slot(number) => fresh_slot().encode(number),
        Place::Header(object) => fresh_header(object).encode(),
        Place::Bitmap { kind, cluster } => fresh_bits(geom, kind, cluster).encode(),
        Place::Body(object) => fresh_body(object).encode(),
        Place::Journal { .. } => Sector::zero(),
        Place::SubBlock(_) => Sector::zero(),
        Place::PtrBlock(_) => Sector::zero(),
        Place::Block { .. } => Sector::zero(),
    }
}

/// A slot that nobody has, in generation 1.
fn fresh_slot() -> Slot
    ensures { result ≡ fresh_slot }
{
    Slot {
        state: SlotState::Free,
        generation: 1,
        host: Uuid::from_bytes([0; 16]),
        stamp: 0,
        journal: Journal::Idle,
    }
}

/// The header of a lock that nobody owns, in generation 0.
fn fresh_header(object: ObjNo) -> Header
    ensures { result ≡ fresh_header object }
{
    Header {
        object,
        generation: 0,
        owner: None,
    }
}

/// The body of a descriptor: the root, or one that was never in use.
fn fresh_body(object: ObjNo) -> Body
    ensures { result ≡ fresh_body object }
{
    let (kind, birth) = if object == 0 {
        (Some(NodeKind::Dir), 1)
    } else {
        (None, 0)
    };
    Body {
        object,
        kind,
        links: 0,
        birth,
        count: 0,
        addresses: [0; 96],
    }
}

/// The bitmap of a cluster: of all items the root's descriptor alone is used.
fn fresh_bits(geom: &Geom, kind: Kind, cluster: u8) -> Bits
    requires geom { IsGeom geom.now }
    requires cluster { cluster < clusters_of geom.now kind }
    ensures { result ≡ fresh_bits geom.now kind cluster }
{
    let mut bits = Bits::new(geom, kind, cluster);
    if kind == Kind::Fd && cluster == 0 {
        bits.take(0);
    }
    bits
}

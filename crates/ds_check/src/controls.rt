//! What the sectors that control a volume spell, in memory.
ghost use Rattle.std.specs.Prelude.{◌≡◌, ◌<◌, IfOk, is_some, length, slice_get};
ghost use Rattle.ds_base.specs.Decoding.{IsDecoded};
ghost use Rattle.ds_base.specs.Geometry.{IsGeom, clusters_of, items_of};
ghost use Rattle.ds_layout.specs.Places.{total_of, IsLock};
ghost use Rattle.ds_image_parts.specs.Parts.{part_at};
ghost use Rattle.ds_image_parts.specs.Readings.{IsReading, SpellsSlot};
ghost use Rattle.ds_check.specs.Controls.{owners_of, SpellsId, SpellsOwner, SpellsCluster, SpellsPending, ReadsControls};
ghost use Rattle.ds_check.specs.Journals.{targets_of};

use ds_base::{Geom, Kind, NoMemory, ObjNo, Sector, SlotNo};
use ds_image::{header_at, index_of, sector_at, slot_at};
use ds_jrnl::Index;
use ds_layout::{Place, cluster_lock, decode_fs};
use ds_marks::{Journal, Owner, Slot};
use std::alloc::Global;
use std::marker::Model;
use uuid::Uuid;

/// The id in the file system information of a volume, its slots, the owners in its headers and its pending indexes, with nothing
/// where a sector spells nothing.
#[derive(Drop)]
pub(crate) struct ControlsInMemory {
    volume: Option<Uuid>,
    slots: Vec<Option<Slot>>,
    descriptors: Vec<Option<Option<Owner>>>,
    fd_clusters: Vec<Option<Option<Owner>>>,
    sb_clusters: Vec<Option<Option<Owner>>>,
    pb_clusters: Vec<Option<Option<Owner>>>,
    fb_clusters: Vec<Option<Option<Owner>>>,
    pending: Vec<Option<Index>>,
}

impl Model for ControlsInMemory {
    ghost use Rattle.ds_check.specs.Controls.{Controls};

    ghost Value = { Controls };

    ghost view = { λ c. record {
      volume = c.volume;
      slots = c.slots.items;
      descriptors = c.descriptors.items;
      fd_clusters = c.fd_clusters.items;
      sb_clusters = c.sb_clusters.items;
      pb_clusters = c.pb_clusters.items;
      fb_clusters = c.fb_clusters.items;
      pending = c.pending.items;
    } };
}

impl ControlsInMemory {
    /// Decodes the file system information, all slots and headers, and the indexes of committed slots.
    pub(crate) fn read(
        alloc: Global,
        geom: &Geom,
        sectors: &[Sector],
    ) -> Result<ControlsInMemory, NoMemory>
        requires geom { IsGeom geom.now }
        requires size { length sectors.now ≡ total_of geom.now }
        ensures { IfOk result (λ c. ReadsControls geom.now sectors.now c) }
    {
        let volume = volume_of(geom, sectors);
        let slots = slots_of(alloc, geom, sectors)?;
        let descriptors = descriptors_of(alloc, geom, sectors)?;
        let fd_clusters = clusters_of(alloc, geom, sectors, Kind::Fd)?;
        let sb_clusters = clusters_of(alloc, geom, sectors, Kind::Sb)?;
        let pb_clusters = clusters_of(alloc, geom, sectors, Kind::Pb)?;
        let fb_clusters = clusters_of(alloc, geom, sectors, Kind::Fb)?;
        let pending = pending_of(alloc, geom, sectors)?;
        Ok(ControlsInMemory {
            volume,
            slots,
            descriptors,
            fd_clusters,
            sb_clusters,
            pb_clusters,
            fb_clusters,
            pending,
        })
    }

    pub(crate) fn volume(&self) -> Option<Uuid>
        ensures { result ≡ self.now.volume }
    {
        self.volume
    }

    pub(crate) fn slot_count(&self) -> usize
        ensures { result ≡ length self.now.slots }
    {
        self.slots.len()
    }

    pub(crate) fn slot(&self, number: SlotNo) -> Option<Slot>
        ensures { result ≡ part_at self.now.slots number }
    {
        *self.slots.get(usize::from(number))?
    }

    pub(crate) fn descriptor(&self, object: ObjNo) -> Option<Option<Owner>>
        ensures { result ≡ part_at self.now.descriptors object }
    {
        *self.descriptors.get(object as usize)?
    }

    pub(crate) fn cluster(&self, kind: Kind, number: u8) -> Option<Option<Owner>>
        ensures { result ≡ part_at (owners_of self.now kind) number }
    {
        *self.owners(kind).get(usize::from(number))?
    }

    fn owners(&self, kind: Kind) -> &[Option<Option<Owner>>]
        ensures { result.now ≡ owners_of self.now kind }
    {
        match kind {
            Kind::Fd => self.fd_clusters.as_slice(),
            Kind::Sb => self.sb_clusters.as_slice(),
            Kind::Pb => self.pb_clusters.as_slice(),
            Kind::Fb => self.fb_clusters.as_slice(),
        }
    }

    pub(crate) fn has_index(&self, number: SlotNo) -> bool
        ensures { result ≡ is_some (part_at self.now.pending number) }
    {
        matches!(self.pending.get(usize::from(number)), Some(Some(_)))
    }

    /// The targets of a slot's pending pairs.
    pub(crate) fn targets(&self, number: SlotNo) -> &[u32]
        ensures { result.now ≡ targets_of (part_at self.now.pending number) }
    {
        match self.pending.get(usize::from(number)) {
            Some(Some(index)) => index.targets.as_slice(),
            _ => &[],
        }
    }
}

/// The id that the file system information spells.
#[tactic(auto, using(ds_image_parts::proofs::Spelling::Decoded::spelled_at))]
fn volume_of(geom: &Geom, sectors: &[Sector]) -> Option<Uuid>
    requires geom { IsGeom geom.now }
    requires size { length sectors.now ≡ total_of geom.now }
    ensures { IsDecoded result (SpellsId geom.now (slice_get sectors.now)) }
{
    let sector = sector_at(geom, &sectors, &Place::FsInfo);
    decode_fs(&sector)
}

fn slots_of(alloc: Global, geom: &Geom, sectors: &[Sector]) -> Result<Vec<Option<Slot>>, NoMemory>
    requires geom { IsGeom geom.now }
    requires size { length sectors.now ≡ total_of geom.now }
    ensures { IfOk result (λ v. IsReading geom.now.slots (SpellsSlot geom.now (slice_get sectors.now)) v.items) }
{
    let mut slots = Vec::new(alloc);
    for number in 0..geom.slots {
        slots
            .push(slot_at(geom, &sectors, number))
            .map_err(|_| NoMemory)?;
    }
    Ok(slots)
}

fn descriptors_of(
    alloc: Global,
    geom: &Geom,
    sectors: &[Sector],
) -> Result<Vec<Option<Option<Owner>>>, NoMemory>
    requires geom { IsGeom geom.now }
    requires size { length sectors.now ≡ total_of geom.now }
    ensures { IfOk result (λ v. IsReading (items_of geom.now Kind.Fd) (SpellsOwner geom.now (slice_get sectors.now)) v.items) }
{
    let mut owners = Vec::new(alloc);
    for object in 0..descriptor_count(geom) {
        owners
            .push(owner_at(geom, sectors, object))
            .map_err(|_| NoMemory)?;
    }
    Ok(owners)
}

/// The owner in the header of a lock object.
fn owner_at(geom: &Geom, sectors: &[Sector], object: ObjNo) -> Option<Option<Owner>>
    requires geom { IsGeom geom.now }
    requires size { length sectors.now ≡ total_of geom.now }
    requires inside { IsLock geom.now object }
    ensures { IsDecoded result (SpellsOwner geom.now (slice_get sectors.now) object) }
{
    match header_at(geom, &sectors, object) {
        None => None,
        Some(header) => Some(header.owner),
    }
}

/// The number of descriptors.
pub(crate) fn descriptor_count(geom: &Geom) -> u32
    ensures { result ≡ items_of geom.now Kind.Fd }
{
    u32::from(geom.clusters[0]) * u32::from(geom.items[0])
}

fn clusters_of(
    alloc: Global,
    geom: &Geom,
    sectors: &[Sector],
    kind: Kind,
) -> Result<Vec<Option<Option<Owner>>>, NoMemory>
    requires geom { IsGeom geom.now }
    requires size { length sectors.now ≡ total_of geom.now }
    ensures { IfOk result (λ v. IsReading (clusters_of geom.now kind) (SpellsCluster geom.now (slice_get sectors.now) kind) v.items) }
{
    let mut owners = Vec::new(alloc);
    for number in 0..cluster_count(geom, kind) {
        owners
            .push(cluster_at(geom, sectors, kind, number))
            .map_err(|_| NoMemory)?;
    }
    Ok(owners)
}

/// The number of clusters of a kind.
pub(crate) fn cluster_count(geom: &Geom, kind: Kind) -> u8
    ensures { result ≡ clusters_of geom.now kind }
{
    geom.clusters[kind as usize]
}

fn cluster_at(geom: &Geom, sectors: &[Sector], kind: Kind, number: u8) -> Option<Option<Owner>>
    requires geom { IsGeom geom.now }
    requires size { length sectors.now ≡ total_of geom.now }
    requires inside { number < clusters_of geom.now kind }
    ensures { IsDecoded result (SpellsCluster geom.now (slice_get sectors.now) kind number) }
{
    owner_at(geom, sectors, cluster_lock(kind, number))
}

fn pending_of(
    alloc: Global,
    geom: &Geom,
    sectors: &[Sector],
) -> Result<Vec<Option<Index>>, NoMemory>
    requires geom { IsGeom geom.now }
    requires size { length sectors.now ≡ total_of geom.now }
    ensures { IfOk result (λ v. IsReading geom.now.slots (SpellsPending geom.now sectors.now) v.items) }
{
    let mut pending = Vec::new(alloc);
    for number in 0..geom.slots {
        pending
            .push(pending_at(geom, sectors, number))
            .map_err(|_| NoMemory)?;
    }
    Ok(pending)
}

/// The index of a slot's committed journal, where it is as it has to be.
fn pending_at(geom: &Geom, sectors: &[Sector], number: SlotNo) -> Option<Index>
    requires geom { IsGeom geom.now }
    requires size { length sectors.now ≡ total_of geom.now }
    requires inside { number < geom.now.slots }
    ensures { IsDecoded result (SpellsPending geom.now sectors.now number) }
{
    let slot = slot_at(geom, &sectors, number)?;
    match slot.journal {
        Journal::Idle => None,
        Journal::Committed { txn, count } => index_of(
            geom,
            &sectors,
            number,
            slot.generation,
            txn,
            count,
        ),
    }
}

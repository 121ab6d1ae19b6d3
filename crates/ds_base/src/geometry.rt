//! The shape of a volume.
ghost use Rattle.std.specs.Prelude.{◌≡◌, ◌≤◌, ◌<◌, ◌⊎◌, MatchResult, OnOk, IfErr};
ghost use Rattle.ds_base.specs.Geometry.{
  IsGeom,
  IsFirstBadField,
  InRange,
  IsFirstBadOfKind,
  clusters_of,
  per_cluster,
  items_of,
};

use crate::limits::{MOST_BLOCK_SECTORS, MOST_ITEMS};
use thiserror::Error;

/// A kind of resource: file descriptors, sub-blocks, pointer blocks and file blocks.
#[derive(Clone, Copy, Debug, PartialEq, Eq)]
pub enum Kind {
    Fd,
    Sb,
    Pb,
    Fb,
}

/// The shape of a volume: its heartbeat slots, the sectors of a file block, and for each kind of resource, in the
/// order of `Kind`, its clusters and the items of each cluster.
#[derive(Clone, Copy, Debug, PartialEq, Eq)]
pub struct Geom {
    pub slots: u8,
    pub block: u16,
    pub clusters: [u8; 4],
    pub items: [u16; 4],
}

/// A field of a geometry.
#[derive(Clone, Copy, Debug, PartialEq, Eq)]
pub enum GeomField {
    Slots,
    Block,
    Clusters(Kind),
    Items(Kind),
}

/// A geometry with a field out of its range: the first, where the clusters and the items of each kind follow slots
/// and block, kind by kind.
#[derive(Clone, Copy, Debug, PartialEq, Eq, Error)]
#[error("a field of the geometry is out of its range")]
pub struct BadGeom {
    pub field: GeomField,
}

impl Geom {
    /// Whether each field is in its range: slots 1 to 16, block 1 to 2,048 sectors, clusters 1 to 8, items of a
    /// descriptor cluster 1 to 256 and of any other 1 to 3,840.
    pub fn check(&self) -> Result<(), BadGeom>
        ensures { MatchResult result (λ _. IsGeom self.now) (λ bad. IsFirstBadField self.now bad.field) }
    {
        in_range(GeomField::Slots, u16::from(self.slots), 16)?;
        in_range(GeomField::Block, self.block, MOST_BLOCK_SECTORS)?;
        self.check_kind(Kind::Fd)?;
        self.check_kind(Kind::Sb)?;
        self.check_kind(Kind::Pb)?;
        self.check_kind(Kind::Fb)
    }

    /// The clusters of a kind.
    pub fn clusters(&self, kind: Kind) -> u8
        ensures { result ≡ clusters_of self.now kind }
    {
        self.clusters[kind as usize]
    }

    /// The items of each cluster of a kind.
    pub fn items_per_cluster(&self, kind: Kind) -> u16
        ensures { result ≡ per_cluster self.now kind }
    {
        self.items[kind as usize]
    }

    /// All items of a kind.
    pub fn items(&self, kind: Kind) -> u32
        ensures { result ≡ items_of self.now kind }
    {
        u32::from(self.clusters(kind)) * u32::from(self.items_per_cluster(kind))
    }

    fn check_kind(&self, kind: Kind) -> Result<(), BadGeom>
        ensures good { OnOk result
            (InRange self.now (GeomField.Clusters kind) × InRange self.now (GeomField.Items kind)) }
        ensures bad { IfErr result (λ bad. IsFirstBadOfKind self.now kind bad.field) }
    {
        let (clusters, items, most) = match kind {
            Kind::Fd => (self.clusters[0], self.items[0], 256),
            Kind::Sb => (self.clusters[1], self.items[1], MOST_ITEMS),
            Kind::Pb => (self.clusters[2], self.items[2], MOST_ITEMS),
            Kind::Fb => (self.clusters[3], self.items[3], MOST_ITEMS),
        };
        in_range(GeomField::Clusters(kind), u16::from(clusters), 8)?;
        in_range(GeomField::Items(kind), items, most)
    }
}

fn in_range(field: GeomField, value: u16, most: u16) -> Result<(), BadGeom>
    ensures good { OnOk result ((1 ≤ value) × (value ≤ most)) }
    ensures bad { IfErr result (λ bad. (bad.field ≡ field) × ((value < 1) ⊎ (most < value))) }
{
    if value < 1 || value > most {
        return Err(BadGeom { field });
    }
    Ok(())
}

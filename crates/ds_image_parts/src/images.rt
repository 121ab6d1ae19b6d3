//! Logical images.
ghost use Rattle.std.specs.Prelude.{◌≡◌, ◌<◌, true, Some, MatchOption, slice_get, length};
ghost use Rattle.std.specs.BTreeMap.{get};
ghost use Rattle.std.specs.Ordering.{nat_cmp};
ghost use Rattle.ds_base.specs.Geometry.{IsGeom};
ghost use Rattle.ds_image_parts.specs.ImageValues.{IsImage};
ghost use Rattle.ds_layout.specs.Places.{IsPlace, place_sector, blocks_at, total_of};
ghost use Rattle.ds_layout.specs.Metadata.{IsMetadata, is_metadata};
ghost use Rattle.ds_image_parts.specs.Replaced.{image_of};

use crate::stores::Store;
use ds_base::{Geom, Sector, SectorNo};
use ds_layout::{Place, place_of, sector_of};
use std::collections::BTreeMap;
use std::marker::Model;
use thiserror::Error;

/// The logical image of a store that holds a volume: its metadata, with the pending pairs of all journals laid over them. Beside
/// the store it has the pending pairs alone, at most 31 of each slot.
#[derive(Drop)]
pub struct Image<'a, S: Store> {
    geom: Geom,
    store: &'a S,
    pending: BTreeMap<SectorNo, Sector>,
}

impl<'a, S: Store> Model for Image<'a, S> {
    ghost use Rattle.std.specs.Prelude.{◌≡◌, length};
    ghost use Rattle.std.specs.BTreeMap.{get};
    ghost use Rattle.std.specs.Ordering.{nat_cmp};
    ghost use Rattle.ds_layout.specs.Places.{total_of};
    ghost use Rattle.ds_image_parts.specs.ImageValues.{ImageValue, IsImage};
    ghost use Rattle.ds_image_parts.specs.Replaced.{image_of};

    ghost Value = { ImageValue };

    ghost view = { λ image. record {
      geom = image.geom;
      sectors = image_of image.geom (S.sectors image.store.now) (get nat_cmp image.pending);
    } };

    ghost invariant = { λ image. IsImage image.geom (image_of image.geom (S.sectors image.store.now) (get nat_cmp image.pending))
        × (length (S.sectors image.store.now) ≡ total_of image.geom) };
}

/// Why there is no image: want of memory, or the least sector that is a slot or header that doesn't decode, or the index of
/// a committed slot that isn't as it has to be.
#[derive(Clone, Copy, Debug, PartialEq, Eq, Error)]
pub enum ImageFault {
    #[error("there was too little memory")]
    NoMemory,
    #[error("sector {sector} is bad")]
    Bad { sector: SectorNo },
}

impl<'a, S: Store> Image<'a, S> {
    /// The image of a store whose sectors in front of its file blocks have these in their places.
    pub(crate) fn with_pending(
        geom: &Geom,
        store: &'a S,
        pending: BTreeMap<SectorNo, Sector>,
    ) -> Image<'a, S>
        requires image { IsImage geom.now (image_of geom.now (S.sectors store.now) (get nat_cmp pending)) }
        requires size { length (S.sectors store.now) ≡ total_of geom.now }
        ensures geom { result.geom ≡ geom.now }
        ensures sectors { result.sectors ≡ image_of geom.now (S.sectors store.now) (get nat_cmp pending) }
    {
        Image {
            geom: *geom,
            store,
            pending,
        }
    }

    /// The sector of a body, a bitmap, a sub-block or a pointer block; `None` where the sector is none of these.
    #[tactic(auto, using(ds_layout::proofs::MetadataPlaces::metadata_within))]
    pub fn sector(&self, at: SectorNo) -> Option<Sector>
        ensures { MatchOption result (¬ IsMetadata self.now.geom at)
            (λ s. IsMetadata self.now.geom at × (slice_get self.now.sectors at ≡ Some s)) }
    {
        let place = place_of(&self.geom, at)?;
        if !place.is_metadata() {
            return None;
        }
        Some(self.held(at))
    }

    /// The geometry of the volume.
    pub fn geom(&self) -> &Geom
        ensures value { result.now ≡ self.now.geom }
        ensures ranges { IsGeom result.now }
        ensures whole { IsImage self.now.geom self.now.sectors }
    {
        &self.geom
    }

    /// The sector of a body, a bitmap, a sub-block or a pointer block, by its place.
    #[tactic(auto, using(ds_layout::proofs::MetadataPlaces::metadata_within))]
    pub(crate) fn sector_at(&self, place: &Place) -> Sector
        requires inside { IsPlace self.now.geom place.now }
        requires metadata { is_metadata place.now ≡ true }
        ensures { slice_get self.now.sectors (place_sector self.now.geom place.now) ≡ Some result }
    {
        self.held(sector_of(&self.geom, place))
    }

    /// A sector in front of the file blocks: the pending one, or else that of the store.
    fn held(&self, at: SectorNo) -> Sector
        requires { at < blocks_at self.now.geom }
        ensures { slice_get self.now.sectors at ≡ Some result }
    {
        match self.pending.get(&at) {
            Some(sector) => *sector,
            None => self.store.sector(at),
        }
    }
}

//! Which places and sectors of a volume are metadata.
ghost use Rattle.std.specs.Prelude.{◌≡◌, ◌↔◌, IsTrue};
ghost use Rattle.ds_base.specs.Geometry.{IsGeom};
ghost use Rattle.ds_layout.specs.Metadata.{IsMetadata, is_metadata};

use crate::places::{Place, place_of};
use ds_base::{Geom, SectorNo};

impl Place {
    /// Whether the place is that of a body, a bitmap, a sub-block or a pointer block.
    pub fn is_metadata(&self) -> bool
        ensures { result ≡ is_metadata self.now }
    {
        matches!(
            self,
            Place::Body(_) | Place::Bitmap { .. } | Place::SubBlock(_) | Place::PtrBlock(_)
        )
    }
}

/// Whether a sector is that of a body, a bitmap, a sub-block or a pointer block; one past the volume is not.
pub fn is_metadata_sector(geom: &Geom, at: SectorNo) -> bool
    requires { IsGeom geom.now }
    ensures { IsTrue result ↔ IsMetadata geom.now at }
{
    match place_of(geom, at) {
        Some(place) => place.is_metadata(),
        None => false,
    }
}

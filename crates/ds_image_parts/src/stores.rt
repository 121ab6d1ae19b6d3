//! Stores of sectors.
ghost use Rattle.std.specs.Prelude.{◌≡◌, ◌<◌, List, Some, length, slice_get};
ghost use Rattle.ds_base.specs.declared.sectors.Sector.{Sector};

use ds_base::{Sector, SectorNo};
use ds_lun::MemLun;

/// The sectors of a volume by number, which contracts see as a list.
pub trait Store {
    ghost sectors: { Self → List Sector };

    fn sector(&self, at: SectorNo) -> Sector
        requires { at < length (sectors self.now) }
        ensures { slice_get (sectors self.now) at ≡ Some result };
}

impl Store for MemLun {
    ghost sectors = { λ lun. lun.sectors };

    fn sector(&self, at: SectorNo) -> Sector {
        MemLun::sector(self, at)
    }
}

impl<'a> Store for &'a [Sector] {
    ghost sectors = { λ sectors. sectors.now };

    fn sector(&self, at: SectorNo) -> Sector {
        self[at as usize]
    }
}

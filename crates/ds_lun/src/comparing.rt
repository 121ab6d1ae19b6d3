//! Where an image differs from a sector.
ghost use Rattle.std.specs.Prelude.{◌≡◌, ◌<◌, MatchOption, IfSome, IsTrue};
ghost use Rattle.ds_base.specs.Device.{IsFirstDifference};
ghost use Rattle.ds_lun.specs.Devices.{zero_sector};

use ds_base::Sector;

/// The least offset at which the two differ.
pub(crate) fn first_difference(held: &Sector, verify: &Sector) -> Option<u16>
    ensures first { MatchOption result (held.now ≡ verify.now)
        (λ offset. IsFirstDifference held.now.bytes verify.now.bytes offset) }
    ensures within { IfSome result (λ offset. offset < 512) }
{
    // A read of the bytes shows that there are 512.
    let _bytes = &held.bytes;
    held.first_difference(verify)
}

/// Whether all bytes of the sector are zero.
pub(crate) fn is_zero(sector: &Sector) -> bool
    ensures { IsTrue result → sector.now ≡ zero_sector }
{
    sector.bytes.iter().all(|byte| *byte == 0)
}

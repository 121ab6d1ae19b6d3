//! The volume that sectors are.
ghost use Rattle.std.specs.Prelude.{MatchResult, slice_get};
ghost use Rattle.ds_check.specs.Volumes.{SpellsVolume, AreOfVolume, IsBadImage};

use ds_base::{Geom, Sector, SectorNo};
use ds_image::Store;
use ds_layout::{decode_vol, total};
use uuid::Uuid;

/// The geometry and the id of the volume that these sectors are. An error is sector 0 where it doesn't spell them, and else
/// the first sector that is missing or one too many.
#[tactic(auto, using(crate::proofs::VolumeInfo::no_first))]
pub(crate) fn volume_in(sectors: &[Sector]) -> Result<(Geom, Uuid), SectorNo>
    ensures { MatchResult result (λ v. AreOfVolume sectors.now v.0 v.1) (IsBadImage sectors.now) }
{
    if sectors.is_empty() {
        return Err(0);
    }
    let first = sectors.sector(0);
    match decode_vol(&first) {
        None => Err(0),
        Some(volume) => of_size(sectors, volume),
    }
}

/// The volume, where there are as many sectors as it has.
fn of_size(sectors: &[Sector], volume: (Geom, Uuid)) -> Result<(Geom, Uuid), SectorNo>
    requires { SpellsVolume sectors.now volume.0 volume.1 }
    ensures { MatchResult result (λ v. AreOfVolume sectors.now v.0 v.1) (IsBadImage sectors.now) }
{
    let total = total(&volume.0) as usize;
    if sectors.len() != total {
        return Err(sectors.len().min(total) as SectorNo);
    }
    Ok(volume)
}

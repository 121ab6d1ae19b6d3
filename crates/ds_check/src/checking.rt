//! The check of sectors.
ghost use Rattle.std.specs.Prelude.{◌≡◌, List, [], Result, IfOk, IfErr, length};
ghost use Rattle.ds_base.specs.Geometry.{IsGeom, items_of};
ghost use Rattle.ds_image_parts.specs.BadSectors.{HasNoBad};
ghost use Rattle.ds_layout.specs.Places.{total_of};
ghost use Rattle.ds_check.specs.Checks.{AreFindingsOf, IsCheckFault, IsCheckAnswer, OrNoMemory, StandsForTree, VolumeStands};
ghost use Rattle.ds_check.specs.declared.checking.CheckFault.{CheckFault};
ghost use Rattle.ds_check.specs.declared.findings.Find.{Find};
ghost use Rattle.ds_check.specs.Findings.{AreFindings, AreFoundBehind, AreFoundIn};

use crate::addresses::note_addresses;
use crate::fronts::found_in_front;
use crate::marking::note_marking;
use crate::metadata::note_metadata;
use crate::names::note_naming;
use crate::reports::Report;
use crate::sharing::note_sharing;
use crate::unreached::note_lost;
use crate::volumes::volume_in;
use ds_base::{Geom, Kind, NoMemory, Sector, SectorNo};
use ds_image::{ImageFault, PartsInMemory, overlay};
use std::alloc::Global;
use thiserror::Error;
use uuid::Uuid;

/// Why sectors aren't checked: want of memory, or they aren't those of a volume. Then `sector` is 0 where sector 0 doesn't spell
/// a volume, and else the first that is missing or one too many.
#[derive(Clone, Copy, Debug, PartialEq, Eq, Error)]
pub enum CheckFault {
    #[error("there was too little memory")]
    NoMemory,
    #[error("the image is bad at sector {sector}")]
    BadImage { sector: SectorNo },
}

/// What is at odds in the sectors of a volume: the findings of the first stage that has any, which are the only ones. Where there
/// are none the logical image stands for a tree.
pub fn check(alloc: Global, sectors: &[Sector]) -> Result<Report, CheckFault>
    ensures findings { IfOk result (AreFindingsOf sectors.now) }
    ensures fault { IfErr result (IsCheckFault sectors.now) }
    ensures only { (answer : Result (List Find) CheckFault) → IsCheckAnswer sectors.now answer
        → OrNoMemory result (result ≡ answer) }
    ensures sound { IfOk result (λ finds. finds ≡ [] → VolumeStands sectors.now) }
{
    checked(alloc, sectors)
}

/// The findings of the volume that these sectors are, or why they are none.
fn checked(alloc: Global, sectors: &[Sector]) -> Result<Report, CheckFault>
    ensures findings { IfOk result (AreFindingsOf sectors.now) }
    ensures fault { IfErr result (IsCheckFault sectors.now) }
    ensures sound { IfOk result (λ finds. finds ≡ [] → VolumeStands sectors.now) }
{
    match volume_in(sectors) {
        Err(sector) => Err(CheckFault::BadImage { sector }),
        Ok((geom, id)) => match check_volume(alloc, &geom, id, sectors) {
            Err(_) => Err(CheckFault::NoMemory),
            Ok(report) => Ok(report),
        },
    }
}

/// The findings of a volume of this geometry and this id.
fn check_volume(
    alloc: Global,
    geom: &Geom,
    id: Uuid,
    sectors: &[Sector],
) -> Result<Report, NoMemory>
    requires geom { IsGeom geom.now }
    requires size { length sectors.now ≡ total_of geom.now }
    ensures findings { IfOk result (AreFindings geom.now id sectors.now) }
    ensures sound { IfOk result (λ finds. finds ≡ [] → StandsForTree geom.now sectors.now) }
{
    let front = found_in_front(alloc, geom, id, sectors)?;
    if front.is_empty() {
        found_behind(alloc, geom, sectors)
    } else {
        Ok(front)
    }
}

/// What is found in the logical image.
fn found_behind(alloc: Global, geom: &Geom, sectors: &[Sector]) -> Result<Report, NoMemory>
    requires geom { IsGeom geom.now }
    requires size { length sectors.now ≡ total_of geom.now }
    requires good { HasNoBad geom.now sectors.now }
    ensures findings { IfOk result (AreFoundBehind geom.now sectors.now) }
    ensures sound { IfOk result (λ finds. finds ≡ [] → StandsForTree geom.now sectors.now) }
{
    match overlay(alloc, geom, &sectors) {
        Err(ImageFault::NoMemory) => Err(NoMemory),
        Err(ImageFault::Bad { .. }) => unreachable!(),
        Ok(image) => {
            let parts = PartsInMemory::read(alloc, &image)?;
            found_in(alloc, geom, &parts)
        }
    }
}

/// What is found in the parts of the logical image: by the first stage that finds something.
fn found_in(
    alloc: Global,
    geom: &Geom,
    parts: &PartsInMemory<&[Sector]>,
) -> Result<Report, NoMemory>
    requires geom { IsGeom geom.now }
    requires count { length parts.now.bodies ≡ items_of geom.now Kind.Fd }
    ensures { IfOk result (AreFoundIn geom.now parts.now) }
{
    let mut report = Report::new(alloc);
    note_metadata(&mut report, geom, parts)?;
    if !report.is_empty() {
        return Ok(report);
    }
    note_addresses(&mut report, geom, parts)?;
    if !report.is_empty() {
        return Ok(report);
    }
    note_sharing(&mut report, alloc, geom, parts)?;
    if !report.is_empty() {
        return Ok(report);
    }
    note_marking(&mut report, alloc, geom, parts)?;
    if !report.is_empty() {
        return Ok(report);
    }
    note_naming(&mut report, alloc, geom, parts)?;
    if report.is_empty() {
        note_lost(&mut report, alloc, geom, parts)?;
    }
    Ok(report)
}

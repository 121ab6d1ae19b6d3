//! The listing of an image's file tree.
ghost use Rattle.std.specs.Prelude.{◌≡◌, ◌≤◌, [], MatchResult, IfOk, None, length};
ghost use Rattle.ds_base.specs.declared.sectors.Sector.{Sector};
ghost use Rattle.ds_check.specs.Volumes.{AreOfVolume};
ghost use Rattle.ds_top.specs.Images.{IsTreeOf, IsListing};
ghost use Rattle.ds_top.specs.Runs.{IsMadeOfImage, IsRefusedOfImage, StandVolume, TellsTree, bytes_in};

use crate::checking::{find_all, tell};
use crate::image_input::ImageRead;
use crate::outcome::Why;
use crate::output::Output;
use ds_base::{Geom, NoMemory, Sector};
use ds_image::{ImageFault, overlay, read_tree};
use ds_layout::decode_vol;
use ds_report::listing;
use ds_tree::Tree;
use std::alloc::Global;

/// Makes the listing of an image's file tree, or else the report of what is at odds in it.
pub(crate) fn list_image(alloc: Global, image: &ImageRead) -> Result<Output, Why>
    requires { length image.now.sectors.items ≤ 131072 }
    ensures { MatchResult result
        (λ it. IsMadeOfImage TellsTree image.now.sectors.items image.now.left_over it.why it.log (bytes_in it.body))
        (λ why. IsRefusedOfImage image.now.sectors.items image.now.left_over why) }
{
    match find_all(alloc, image) {
        Ok(report) => {
            if report.findings().is_empty() {
                list_volume(alloc, image.sectors.as_slice())
            } else {
                tell(&report)
            }
        }
        Err(why) => Err(why),
    }
}

/// Makes the listing of the file tree of a volume.
fn list_volume(alloc: Global, sectors: &[Sector]) -> Result<Output, Why>
    requires { StandVolume sectors.now }
    ensures { MatchResult result
        (λ it. (it.why ≡ Why.Done) × (it.log ≡ None) × IsListing sectors.now [] (bytes_in it.body))
        (λ why. why ≡ Why.Memory) }
{
    match tree_of(alloc, sectors) {
        Ok(tree) => match listing(alloc, &tree) {
            Ok(text) => Ok(Output::text(Why::Done, None, text)),
            Err(_) => Err(Why::Memory),
        },
        Err(_) => Err(Why::Memory),
    }
}

/// The tree for which the logical image of a volume stands.
fn tree_of(alloc: Global, sectors: &[Sector]) -> Result<Tree, NoMemory>
    requires { StandVolume sectors.now }
    ensures { IfOk result (λ t. IsTreeOf sectors.now t.tree) }
{
    let geom = geom_of(sectors);
    match overlay(alloc, &geom, &sectors) {
        Err(ImageFault::NoMemory) => Err(NoMemory),
        Err(ImageFault::Bad { .. }) => unreachable!(),
        Ok(image) => match read_tree(alloc, &image) {
            Err(_) => Err(NoMemory),
            Ok(None) => unreachable!(),
            Ok(Some(tree)) => Ok(tree),
        },
    }
}

/// The geometry of a volume.
fn geom_of(sectors: &[Sector]) -> Geom
    requires { StandVolume sectors.now }
    ensures { (v : StandVolume sectors.now) → result ≡ v.geom }
{
    match sectors.first() {
        Some(first) => match decode_vol(first) {
            Some(volume) => volume.0,
            None => unreachable!(),
        },
        None => unreachable!(),
    }
}

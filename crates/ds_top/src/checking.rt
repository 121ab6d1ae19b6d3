//! The check of an image.
ghost use Rattle.std.specs.Prelude.{◌≡◌, ◌==◌, ◌≤◌, MatchResult, None, length, if◌then◌else◌};
ghost use Rattle.ds_base.specs.declared.sectors.Sector.{Sector};
ghost use Rattle.ds_check.specs.Texts.{report_text};
ghost use Rattle.ds_top.specs.Images.{why_of_finds};
ghost use Rattle.ds_top.specs.Runs.{IsMadeOfImage, IsRefusedOfImage, AreFound, TellsFindings, bytes_in};

use crate::image_input::ImageRead;
use crate::outcome::Why;
use crate::output::Output;
use ds_base::SectorNo;
use ds_check::{Report, check};
use std::alloc::Global;

/// Makes the report of what is at odds in an image.
pub(crate) fn check_image(alloc: Global, image: &ImageRead) -> Result<Output, Why>
    requires { length image.now.sectors.items ≤ 131072 }
    ensures { MatchResult result
        (λ it. IsMadeOfImage TellsFindings image.now.sectors.items image.now.left_over it.why it.log (bytes_in it.body))
        (λ why. IsRefusedOfImage image.now.sectors.items image.now.left_over why) }
{
    match find_all(alloc, image) {
        Ok(report) => tell(&report),
        Err(why) => Err(why),
    }
}

/// Finds what is at odds in an image.
pub(crate) fn find_all(alloc: Global, image: &ImageRead) -> Result<Report, Why>
    requires { length image.now.sectors.items ≤ 131072 }
    ensures { MatchResult result
        (λ finds. AreFound image.now.sectors.items image.now.left_over finds)
        (λ why. IsRefusedOfImage image.now.sectors.items image.now.left_over why) }
{
    match check(alloc, image.sectors.as_slice()) {
        Ok(report) => {
            if image.left_over > 0 {
                return Err(Why::BadImage {
                    sector: image.sectors.len() as SectorNo,
                });
            }
            Ok(report)
        }
        Err(fault) => Err(Why::from(fault)),
    }
}

/// Makes the text of a report, and tells how a run ends that wrote it. More findings than four bytes count are told as want of memory.
pub(crate) fn tell(report: &Report) -> Result<Output, Why>
    ensures { MatchResult result
        (λ it. (it.why ≡ why_of_finds report.now) × (it.log ≡ None) × (bytes_in it.body ≡ report_text report.now))
        (λ why. why ≡ Why.Memory) }
{
    let Ok(count) = u32::try_from(report.findings().len()) else {
        return Err(Why::Memory);
    };
    match report.text() {
        Ok(text) => Ok(Output::text(why_of_count(count), None, text)),
        Err(_) => Err(Why::Memory),
    }
}

/// How a run ends that wrote so many findings.
fn why_of_count(count: u32) -> Why
    ensures { result ≡ (if count == 0 then Why.Done else Why.Findings count) }
{
    if count == 0 {
        Why::Done
    } else {
        Why::Findings { count }
    }
}

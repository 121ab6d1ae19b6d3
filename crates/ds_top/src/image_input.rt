//! Reading an image.
ghost use Rattle.std.specs.Prelude.{◌≡◌, ◌≤◌, ◌<◌, Err, IfOk, IfSome, length};
ghost use Rattle.ds_base.specs.Outside.{HasRisen};
ghost use Rattle.ds_top.specs.Images.{IsImage, most_image_bytes};
ghost use Rattle.ds_top.specs.Promise.{OfInput};

use crate::input::InputFault;
use ds_base::{Sector, Source, Taken};
use std::alloc::Global;

/// The most sectors of an image.
const MOST_SECTORS: usize = 131_072;

/// An image that was read: its whole sectors, and how many bytes are left over behind the last of them.
#[derive(Drop)]
pub(crate) struct ImageRead {
    pub(crate) sectors: Vec<Sector>,
    pub(crate) left_over: usize,
}

/// Reads an image to the end of the input. After an error some bytes are lost.
pub(crate) fn read_image<S: Source>(alloc: Global, source: &mut S) -> Result<ImageRead, InputFault>
    ensures whole { IfOk result (λ image. OfInput (S.left source.old) (S.left source.new)
        (λ bytes. IsImage bytes image.sectors.items image.left_over)) }
    ensures count { IfOk result (λ image. length image.sectors.items ≤ 131072) }
    ensures large { result ≡ Err InputFault.TooLarge → IfSome (S.left source.old) (λ left. most_image_bytes < length left) }
    ensures failed { result ≡ Err InputFault.Fault → HasRisen (S.faults source.old) (S.faults source.new) }
{
    let mut sectors = Vec::new(alloc);
    let mut part = [0u8; 512];
    let mut filled = 0;
    loop {
        match source.next(&mut part[filled..]) {
            Taken::Got(n) => {
                if sectors.len() == MOST_SECTORS {
                    return Err(InputFault::TooLarge);
                }
                filled += n;
                if filled == 512 {
                    sectors
                        .push(Sector { bytes: part })
                        .map_err(|_| InputFault::NoMemory)?;
                    filled = 0;
                }
            }
            Taken::End => {
                return Ok(ImageRead {
                    sectors,
                    left_over: filled,
                });
            }
            Taken::Failed => return Err(InputFault::Fault),
        }
    }
}

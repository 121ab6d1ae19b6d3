//! Reading all input.
ghost use Rattle.std.specs.Prelude.{◌≡◌, ◌≤◌, ◌<◌, Err, IfOk, IfSome, length};
ghost use Rattle.ds_base.specs.Outside.{HasRisen};
ghost use Rattle.ds_top.specs.Edges.{IsReadWhole};

use ds_base::{Source, Taken};
use std::alloc::Global;
use thiserror::Error;

/// The most bytes of a text.
pub(crate) const MOST_BYTES: usize = 1_048_576;

/// Why not all input was read.
#[derive(Clone, Copy, Debug, PartialEq, Eq, Error)]
pub enum InputFault {
    #[error("read fault")]
    Fault,
    #[error("too large")]
    TooLarge,
    #[error("out of memory")]
    NoMemory,
}

/// Reads to the end, where that comes after at most `limit` bytes. After an error some bytes are lost.
pub fn read_all<S: Source>(
    alloc: Global,
    source: &mut S,
    limit: usize,
) -> Result<Vec<u8>, InputFault>
    ensures whole { IfOk result (λ bytes. IsReadWhole (S.left source.old) (S.left source.new) bytes.items) }
    ensures within { IfOk result (λ bytes. length bytes.items ≤ limit) }
    ensures large { result ≡ Err InputFault.TooLarge → IfSome (S.left source.old) (λ left. limit < length left) }
    ensures failed { result ≡ Err InputFault.Fault → HasRisen (S.faults source.old) (S.faults source.new) }
    ensures faults { S.faults source.old ≤ S.faults source.new }
{
    let mut bytes = Vec::new(alloc);
    let mut buf = [0u8; 4096];
    loop {
        match source.next(&mut buf) {
            Taken::Got(n) => {
                if n > limit - bytes.len() {
                    return Err(InputFault::TooLarge);
                }
                bytes
                    .extend_from_slice(&buf[..n])
                    .map_err(|_| InputFault::NoMemory)?;
            }
            Taken::End => return Ok(bytes),
            Taken::Failed => return Err(InputFault::Fault),
        }
    }
}

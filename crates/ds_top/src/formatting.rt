//! The formatting of a volume.
ghost use Rattle.std.specs.Prelude.{MatchResult};
ghost use Rattle.ds_top.specs.declared.commands.Command.{Command};
ghost use Rattle.ds_top.specs.Runs.{IsMadeOf, IsRefusedOf, bytes_in};

use crate::outcome::Why;
use crate::output::Output;
use ds_image::format;
use ds_script::read_volume;
use std::alloc::Global;

/// Makes the sectors of the new volume whose line these bytes are.
pub(crate) fn format_text(alloc: Global, bytes: &[u8]) -> Result<Output, Why>
    ensures { MatchResult result
        (λ it. IsMadeOf Command.Format bytes.now it.why it.log (bytes_in it.body))
        (λ why. IsRefusedOf Command.Format bytes.now why) }
{
    let volume = match read_volume(bytes) {
        Ok(volume) => volume,
        Err(fault) => return Err(Why::from(fault)),
    };
    match format(alloc, &volume.1, volume.0) {
        Ok(sectors) => Ok(Output::sectors(sectors)),
        Err(_) => Err(Why::Memory),
    }
}

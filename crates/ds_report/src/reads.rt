//! What a `get` read.
ghost use Rattle.std.specs.Prelude.{◌≡◌, ◌++◌, OnOk, option_copied};
ghost use Rattle.ds_report.specs.Report.{read_text, got_text, byte_read, byte_of};

use crate::answers::write_item;
use ds_base::{Command, HostNo, NoMemory, Response};
use ds_conduct::HostAnswer;
use ds_log::{Event, Reply, Step};
use ds_text::Text;
use ds_tree::{Directive, HostCallOf, TreeReply};

/// Writes the byte that a `get` read, after a blank. The events are those up to the reply.
pub(crate) fn write_read(
    text: &mut Text,
    directive: Option<&Directive>,
    past: &[Event],
    reply: &Reply,
) -> Result<(), NoMemory>
    ensures { OnOk result (text.new ≡ text.old ++ read_text (option_copied directive.entry) past.now reply.now) }
{
    match directive {
        Some(
            Directive::Call {
                call: HostCallOf::Get { .. },
                ..
            },
        ) => write_got(text, past, reply),
        _ => Ok(()),
    }
}

fn write_got(text: &mut Text, past: &[Event], reply: &Reply) -> Result<(), NoMemory>
    ensures { OnOk result (text.new ≡ text.old
        ++ got_text reply.now.answer (byte_read past.now reply.now.host reply.now.directive)) }
{
    match &reply.answer {
        HostAnswer::Tree(TreeReply::AtBlock { .. }) => match byte_read(
            past,
            reply.host,
            reply.directive,
        ) {
            Some(byte) => write_item(text, u32::from(byte)),
            None => Ok(()),
        },
        _ => Ok(()),
    }
}

/// The first byte that the last Read of a directive gave.
fn byte_read(events: &[Event], host: HostNo, directive: u32) -> Option<u8>
    ensures { result ≡ byte_read events.now host directive }
{
    events
        .iter()
        .rev()
        .filter_map(|event| byte_of(event, host, directive))
        .next()
}

/// The first byte that an event of this directive read.
fn byte_of(event: &Event, host: HostNo, directive: u32) -> Option<u8>
    ensures { result ≡ byte_of host directive event.now }
{
    if event.host != host || event.directive != directive {
        return None;
    }
    match &event.step {
        Step::Sent {
            command: Command::Read { .. },
            response: Response::Got(sector),
            ..
        } => Some(sector.bytes[0]),
        _ => None,
    }
}

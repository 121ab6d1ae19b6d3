//! The lines of replies.
ghost use Rattle.std.specs.Prelude.{◌≡◌, ◌++◌, OnOk, option_copied};
ghost use Rattle.ds_log.specs.Scripts.{directive_at};
ghost use Rattle.ds_report.specs.Report.{reply_line, directive_text, outcome_text, word_of};

use crate::answers::{write_answer, write_place};
use crate::hosts::host_name;
use crate::reads::write_read;
use ds_base::{HostNo, NoMemory};
use ds_log::{Event, Reply};
use ds_text::Text;
use ds_tree::{Directive, Scenario, call_word};

/// Writes the line of a reply. The events are those up to the reply.
pub(crate) fn write_line(
    text: &mut Text,
    scenario: &Scenario,
    past: &[Event],
    reply: &Reply,
) -> Result<(), NoMemory>
    ensures { OnOk result (text.new ≡ text.old ++ reply_line scenario.now past.now reply.now) }
{
    let directive = directive_at(scenario, reply.host, reply.directive);
    write_directive(
        text,
        host_name(scenario, reply.host),
        reply.directive,
        directive,
    )?;
    write_outcome(text, directive, past, reply)?;
    text.bytes(b"\n")
}

/// The host, the number and the first word of a directive, each with a blank after it.
fn write_directive(
    text: &mut Text,
    host: &[u8],
    number: u32,
    directive: Option<&Directive>,
) -> Result<(), NoMemory>
    ensures { OnOk result (text.new ≡ text.old
        ++ directive_text host.now number (option_copied directive.entry)) }
{
    text.bytes(host)?;
    text.bytes(b" ")?;
    text.number(u64::from(number))?;
    text.bytes(b" ")?;
    text.bytes(word(directive))?;
    text.bytes(b" ")
}

/// The answer, the byte that was read and the place.
fn write_outcome(
    text: &mut Text,
    directive: Option<&Directive>,
    past: &[Event],
    reply: &Reply,
) -> Result<(), NoMemory>
    ensures { OnOk result (text.new ≡ text.old
        ++ outcome_text (option_copied directive.entry) past.now reply.now) }
{
    write_answer(text, &reply.answer)?;
    write_read(text, directive, past, reply)?;
    write_place(text, &reply.answer, reply.place)
}

fn directive_at(scenario: &Scenario, host: HostNo, number: u32) -> Option<&Directive>
    ensures { option_copied result ≡ directive_at scenario.now host number }
{
    if number == 0 {
        return None;
    }
    let plan = scenario.hosts.as_slice().get(usize::from(host))?;
    plan.list.as_slice().get(number as usize - 1)
}

/// The first word of a directive that is a call.
fn word(directive: Option<&Directive>) -> &'static [u8]
    ensures { result.now ≡ word_of (option_copied directive.entry) }
{
    match directive {
        Some(Directive::Call { call, .. }) => call_word(call),
        _ => b"",
    }
}

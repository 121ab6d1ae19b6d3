//! The report of a run.
ghost use Rattle.std.specs.Prelude.{◌≡◌, ◌+◌, ◌<◌, ◌++◌, length, take, OnOk, IfOk, codes, decimal};
ghost use Rattle.std.specs.List.{flat_map};
ghost use Rattle.ds_base.specs.Geometry.{IsGeom};
ghost use Rattle.ds_log.specs.Logged.{AreInOrder};
ghost use Rattle.ds_log.specs.Store.{change_count};
ghost use Rattle.ds_log.specs.declared.logs.Event.{Event};
ghost use Rattle.ds_report.specs.Turns.{TellsTurns};
ghost use Rattle.ds_report.specs.Report.{report_of, parts_of, given_in, death_line, reply_line};
ghost use Rattle.ds_text.specs.Lines.{line};

use crate::changes::is_change;
use crate::hosts::host_name;
use crate::listings::write_listing;
use crate::replies::write_line;
use crate::slots::write_slot_line;
use ds_base::NoMemory;
use ds_log::{Event, Log, Reply};
use ds_text::Text;
use ds_tree::{Scenario, Tree};
use std::alloc::Global;

/// The report of a run of this scenario, from the log of the run and the tree that it left.
pub fn text(alloc: Global, scenario: &Scenario, log: &Log, tree: &Tree) -> Result<Vec<u8>, NoMemory>
    requires { IsGeom scenario.now.geom }
    ensures report { IfOk result (λ text. text.items ≡ report_of scenario.now log.now.events log.now.replies tree.now.tree) }
    ensures turns { (event : Event) → TellsTurns scenario.now event }
{
    whole(alloc, scenario, log.events(), log.replies(), tree)
}

/// The same, from the events and the replies of the run.
pub(crate) fn whole(
    alloc: Global,
    scenario: &Scenario,
    events: &[Event],
    replies: &[Reply],
    tree: &Tree,
) -> Result<Vec<u8>, NoMemory>
    requires geometry { IsGeom scenario.now.geom }
    requires order { AreInOrder replies.now }
    ensures { IfOk result (λ text. text.items ≡ report_of scenario.now events.now replies.now tree.now.tree) }
{
    let mut text = Text::new(alloc);
    write_parts(&mut text, scenario, events, replies)?;
    write_changes(&mut text, events)?;
    write_listing(&mut text, alloc, tree)?;
    Ok(text.into_bytes())
}

fn write_changes(text: &mut Text, events: &[Event]) -> Result<(), NoMemory>
    ensures { OnOk result (text.new ≡ text.old ++ line (codes "changes " ++ decimal (change_count events.now))) }
{
    let changes = events.iter().filter(|event| is_change(&event.step)).count();
    text.bytes(b"changes ")?;
    text.number(changes as u64)?;
    text.bytes(b"\n")
}

fn write_parts(
    text: &mut Text,
    scenario: &Scenario,
    events: &[Event],
    replies: &[Reply],
) -> Result<(), NoMemory>
    requires geometry { IsGeom scenario.now.geom }
    requires order { AreInOrder replies.now }
    ensures { OnOk result (text.new ≡ text.old ++ parts_of scenario.now events.now replies.now) }
{
    let mut told = 0;
    for (number, event) in events.iter().enumerate() {
        write_slot_line(text, scenario, event)?;
        told += write_reply_in(text, scenario, events, &replies[told..], number)?;
        write_death(text, scenario, event)?;
    }
    Ok(())
}

/// Writes the line of the first of these replies if it is given in the event with this number, and says how many lines
/// were written.
fn write_reply_in(
    text: &mut Text,
    scenario: &Scenario,
    events: &[Event],
    replies: &[Reply],
    number: usize,
) -> Result<usize, NoMemory>
    requires { number < length events.now }
    ensures count { IfOk result (λ count. count ≡ length (given_in (take 1 replies.now) number)) }
    ensures lines { OnOk result (text.new ≡ text.old
        ++ flat_map (λ r. reply_line scenario.now (take (number + 1) events.now) r) (given_in (take 1 replies.now) number)) }
{
    match replies.first() {
        Some(reply) if reply.event == number => {
            write_line(text, scenario, &events[..number + 1], reply)?;
            Ok(1)
        }
        _ => Ok(0),
    }
}

fn write_death(text: &mut Text, scenario: &Scenario, event: &Event) -> Result<(), NoMemory>
    ensures { OnOk result (text.new ≡ text.old ++ death_line scenario.now event.now) }
{
    if !event.dies {
        return Ok(());
    }
    text.bytes(host_name(scenario, event.host))?;
    text.bytes(b" dies\n")
}

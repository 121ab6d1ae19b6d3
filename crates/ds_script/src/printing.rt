//! Printing scenarios.
#![tactic(auto)]

ghost use Rattle.std.specs.Prelude.{◌≡◌, ◌++◌, ◌∷◌, ◌≤◌, [], ℕ, List, OnOk, IfOk, Some, length, codes, decimal};
ghost use Rattle.std.specs.List.{flat_map};
ghost use Rattle.uuid.specs.Text.{hyphenated_text, lower, parsed};
ghost use Rattle.ds_tree.specs.Grammar.{Host, IsScenario, SpellsText, Step, Volume, geometry_part, most_bytes, names_of};
ghost use Rattle.ds_script.specs.Answers.{IsScenarioText};
ghost use Rattle.ds_script.specs.Printed.{IsPrinted, behind_blanks, item_text, list_text, printed_text};

use crate::spelling::{write_awaited, write_directive};
use ds_base::{Geom, HostNo, NoMemory};
use ds_text::Text;
use ds_tree::{HostPlan, Scenario};
use std::alloc::Global;
use uuid::Uuid;

/// The text of a scenario: the line of its volume, those of its hosts, all directives host by host, and the `step` lines.
pub fn print(alloc: Global, scenario: &Scenario) -> Result<Vec<u8>, NoMemory>
    ensures printed { IfOk result (λ text. text.items ≡ printed_text scenario.now) }
    ensures spells { IfOk result (λ text. IsScenario scenario.now → length text.items ≤ most_bytes
        → SpellsText text.items scenario.now) }
    ensures reads { IfOk result (λ text. (bytes : List ℕ) → IsScenarioText bytes scenario.now
        → length text.items ≤ most_bytes → IsScenarioText text.items scenario.now) }
{
    print_lines(alloc, scenario)
}

/// The lines of a scenario.
fn print_lines(alloc: Global, scenario: &Scenario) -> Result<Vec<u8>, NoMemory>
    ensures { IfOk result (λ text. IsPrinted text.items scenario.now) }
{
    let hosts = scenario.hosts.as_slice();
    let mut text = Text::new(alloc);
    write_volume(&mut text, &scenario.volume, &scenario.geom)?;
    write_hosts(&mut text, hosts)?;
    write_lists(&mut text, hosts)?;
    write_steps(&mut text, hosts, scenario.steps.as_slice())?;
    Ok(text.into_bytes())
}

fn write_volume(text: &mut Text, id: &Uuid, geom: &Geom) -> Result<(), NoMemory>
    ensures line { OnOk result (text.new ≡ text.old ++ item_text [] (Volume id.now geom.now)) }
    ensures id { OnOk result (parsed (hyphenated_text lower id.now) ≡ Some id.now) }
{
    let mut buffer = Uuid::encode_buffer();
    text.bytes(b"volume")?;
    text.word(id.hyphenated().encode_lower(&mut buffer).as_bytes())?;
    write_geometry(text, geom)?;
    text.end_line()
}

fn write_geometry(text: &mut Text, geom: &Geom) -> Result<(), NoMemory>
    ensures { OnOk result (text.new ≡ text.old ++ behind_blanks (geometry_part geom.now)) }
{
    write_sizes(text, geom.slots, geom.block)?;
    write_kind(text, b"fd", geom.clusters[0], geom.items[0])?;
    write_kind(text, b"sb", geom.clusters[1], geom.items[1])?;
    write_kind(text, b"pb", geom.clusters[2], geom.items[2])?;
    write_kind(text, b"fb", geom.clusters[3], geom.items[3])
}

fn write_sizes(text: &mut Text, slots: u8, block: u16) -> Result<(), NoMemory>
    ensures { OnOk result (text.new ≡ text.old
        ++ behind_blanks (codes "slots" ∷ decimal slots ∷ codes "block" ∷ decimal block ∷ [])) }
{
    text.word(b"slots")?;
    text.number_word(u64::from(slots))?;
    text.word(b"block")?;
    text.number_word(u64::from(block))
}

/// The clusters of a kind, and the items of each.
fn write_kind(text: &mut Text, word: &[u8], clusters: u8, items: u16) -> Result<(), NoMemory>
    ensures { OnOk result (text.new ≡ text.old ++ behind_blanks (word.now ∷ decimal clusters ∷ decimal items ∷ [])) }
{
    text.word(word)?;
    text.number_word(u64::from(clusters))?;
    text.number_word(u64::from(items))
}

fn write_hosts(text: &mut Text, hosts: &[HostPlan]) -> Result<(), NoMemory>
    ensures { OnOk result (text.new ≡ text.old ++ flat_map (λ plan. item_text [] (Host plan.name)) hosts.now) }
{
    for plan in hosts {
        text.bytes(b"host")?;
        text.word(plan.name.bytes())?;
        text.end_line()?;
    }
    Ok(())
}

/// The directives of all hosts, host by host.
fn write_lists(text: &mut Text, hosts: &[HostPlan]) -> Result<(), NoMemory>
    ensures { OnOk result (text.new ≡ text.old ++ flat_map (list_text (names_of hosts.now)) hosts.now) }
{
    for plan in hosts {
        write_list(text, hosts, plan)?;
    }
    Ok(())
}

/// The directives of a host.
fn write_list(text: &mut Text, hosts: &[HostPlan], plan: &HostPlan) -> Result<(), NoMemory>
    ensures { OnOk result (text.new ≡ text.old ++ list_text (names_of hosts.now) plan.now) }
{
    for directive in plan.list.as_slice() {
        text.bytes(plan.name.bytes())?;
        write_directive(text, hosts, directive)?;
        text.end_line()?;
    }
    Ok(())
}

fn write_steps(text: &mut Text, hosts: &[HostPlan], steps: &[(HostNo, u32)]) -> Result<(), NoMemory>
    ensures { OnOk result (text.new ≡ text.old ++ flat_map (λ step. item_text (names_of hosts.now) (Step step.0 step.1)) steps.now) }
{
    for (host, turns) in steps {
        text.bytes(b"step")?;
        write_awaited(text, hosts, *host, *turns)?;
        text.end_line()?;
    }
    Ok(())
}

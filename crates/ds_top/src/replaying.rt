//! The replay of a scenario.
ghost use Rattle.std.specs.Prelude.{◌≡◌, ◌≤◌, IfOk, OnOk, MatchResult, length};
ghost use Rattle.ds_tree.specs.FirstForm.{IsFirstForm};
ghost use Rattle.ds_log.specs.Scripts.{list_of};
ghost use Rattle.ds_script.specs.Answers.{IsScenarioText};
ghost use Rattle.ds_top.specs.declared.commands.Command.{Command};
ghost use Rattle.ds_top.specs.Causes.{IsRunnable};
ghost use Rattle.ds_top.specs.Promise.{IsReplayOf};
ghost use Rattle.ds_top.specs.Runs.{IsCaused, IsMadeOf, IsRefusedOf, bytes_in};

use crate::outcome::Why;
use crate::output::Output;
use ds_base::NoMemory;
use ds_log::{Log, Moved};
use ds_script::read;
use ds_tree::Scenario;
use ds_world::{FirstWorld, not_built};
use std::alloc::Global;

/// Makes the report of the replay of the scenario that these bytes are.
pub(crate) fn replay_text(alloc: Global, bytes: &[u8]) -> Result<Output, Why>
    ensures { MatchResult result
        (λ it. IsMadeOf Command.Replay bytes.now it.why it.log (bytes_in it.body))
        (λ why. IsRefusedOf Command.Replay bytes.now why) }
{
    let scenario = match read_scenario(alloc, bytes) {
        Ok(scenario) => scenario,
        Err(why) => return Err(why),
    };
    match replay_scenario(alloc, &scenario) {
        Ok(it) => Ok(Output::text(Why::Done, Some(it.log), it.text)),
        Err(_) => Err(Why::Memory),
    }
}

/// Reads the scenario that these bytes are, where it can be run now.
fn read_scenario(alloc: Global, bytes: &[u8]) -> Result<Scenario, Why>
    ensures { MatchResult result
        (λ s. IsRunnable bytes.now s × IsCaused Command.Replay bytes.now Why.Done)
        (λ why. IsRefusedOf Command.Replay bytes.now why) }
{
    let scenario = match read(alloc, bytes) {
        Ok(scenario) => scenario,
        Err(fault) => return Err(Why::from(fault)),
    };
    match not_built(&scenario) {
        Some(at) => Err(Why::NotBuilt {
            host: at.0,
            directive: at.1,
        }),
        None => Ok(scenario),
    }
}

/// A replay: its log, and its report.
#[derive(Drop)]
struct Replay {
    log: Log,
    text: Vec<u8>,
}

/// Replays a scenario to the end of every host's list.
fn replay_scenario(alloc: Global, scenario: &Scenario) -> Result<Replay, NoMemory>
    requires { IsFirstForm scenario.now }
    ensures { IfOk result (λ it. IsReplayOf scenario.now it.log it.text.items) }
{
    let mut world = FirstWorld::new(alloc, scenario)?;
    run_to_end(&mut world, scenario.hosts.as_slice().len())?;
    let tree = world.tree(alloc)?;
    let text = ds_report::text(alloc, scenario, world.log(), &tree)?;
    let log = world.into_log();
    Ok(Replay { log, text })
}

/// Makes all turns of the one host, if there is one.
fn run_to_end(world: &mut FirstWorld, hosts: usize) -> Result<(), NoMemory>
    requires { hosts ≡ length world.old.scenario.hosts }
    ensures scenario { world.new.scenario ≡ world.old.scenario }
    ensures end { OnOk result (length (list_of world.new.scenario 0) ≤ world.new.position) }
{
    if hosts == 0 {
        return Ok(());
    }
    loop {
        world.make_room()?;
        match world.turn(0) {
            Moved::Event => {}
            Moved::Resting => {}
            Moved::Ended => return Ok(()),
        }
    }
}

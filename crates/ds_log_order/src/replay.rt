//! The replay of a scenario: the turns that its step lines ask for, and then those that are left.
ghost use Rattle.std.specs.Prelude.{◌≡◌, ℕ, ◌<◌, [], length, All, IfOk, OnOk, true, false};
ghost use Rattle.ds_tree.specs.PlainPass.{PassesAll};
ghost use Rattle.ds_log_order.specs.Follows.{IsFollowing};
ghost use Rattle.ds_log_order.specs.Order.{InReplayOrder};
ghost use Rattle.ds_log_order.specs.Turned.{Turned, HasTurned, HasStepped, HasRun, HasGone, HasDrained};

use ds_base::{HostNo, NoMemory};
use ds_log::Moved;
use ds_tree::Scenario;

/// A world whose hosts make turns.
pub trait Replayed {
    ghost use Rattle.std.specs.Prelude.{List};
    ghost use Rattle.ds_base.specs.declared.sectors.Sector.{Sector};
    ghost use Rattle.ds_tree.specs.declared.scenarios.Scenario.{Scenario};
    ghost use Rattle.ds_log_order.specs.HostFacts.{HostFacts};
    ghost use Rattle.ds_log_order.specs.Told.{Told};

    /// What decides how far the hosts have come.
    ghost facts: { HostFacts };

    /// The device at first.
    ghost start: { List Sector };

    ghost scenario: { Self → Scenario };

    /// What has happened.
    ghost log: { Self → List Told };

    /// How many events still fit.
    ghost spare: { Self → ℕ };

    /// Makes room for one event.
    fn make_room(&mut self) -> Result<(), NoMemory>
        ensures room { OnOk result (0 < spare self.new) }
        ensures scenario { scenario self.new ≡ scenario self.old }
        ensures log { log self.new ≡ log self.old };

    /// One turn of a host.
    fn turn(&mut self, host: HostNo) -> Moved
        requires room { 0 < spare self.old }
        requires known { host < length (scenario self.old).hosts }
        ensures scenario { scenario self.new ≡ scenario self.old }
        ensures turned { Turned facts start (scenario self.old) host result (log self.old) (log self.new) };
}

/// Makes room, and one turn of a host.
fn turn<W: Replayed>(world: &mut W, scenario: &Scenario, host: HostNo) -> Result<Moved, NoMemory>
    requires scenario { W.scenario world.old ≡ scenario.now }
    requires known { host < length scenario.now.hosts }
    ensures scenario { W.scenario world.new ≡ scenario.now }
    ensures turned { IfOk result (λ moved. Turned W.facts W.start scenario.now host moved (W.log world.old) (W.log world.new)) }
{
    world.make_room()?;
    Ok(world.turn(host))
}

/// So many turns of a host.
fn turns<W: Replayed>(
    world: &mut W,
    scenario: &Scenario,
    host: HostNo,
    count: u32,
) -> Result<(), NoMemory>
    requires scenario { W.scenario world.old ≡ scenario.now }
    requires known { host < length scenario.now.hosts }
    ensures scenario { W.scenario world.new ≡ scenario.now }
    ensures turned { OnOk result (HasTurned W.facts W.start scenario.now host count (W.log world.old) (W.log world.new)) }
{
    for _i in 0..count {
        turn(world, scenario, host)?;
    }
    Ok(())
}

/// The turns that the step lines ask for.
fn step_lines<W: Replayed>(world: &mut W, scenario: &Scenario) -> Result<(), NoMemory>
    requires scenario { W.scenario world.old ≡ scenario.now }
    requires known { All (λ step. step.0 < length scenario.now.hosts) scenario.now.steps }
    ensures scenario { W.scenario world.new ≡ scenario.now }
    ensures stepped { OnOk result (HasStepped W.facts W.start scenario.now scenario.now.steps (length scenario.now.steps)
        (W.log world.old) (W.log world.new)) }
{
    for step in scenario.steps.as_slice() {
        turns(world, scenario, step.0, step.1)?;
    }
    Ok(())
}

/// The turns of a host until it rests or has ended. Whether any added an event.
fn run_on<W: Replayed>(world: &mut W, scenario: &Scenario, host: HostNo) -> Result<bool, NoMemory>
    requires scenario { W.scenario world.old ≡ scenario.now }
    requires known { host < length scenario.now.hosts }
    ensures scenario { W.scenario world.new ≡ scenario.now }
    ensures ran { IfOk result (λ any. HasRun W.facts W.start scenario.now host any (W.log world.old) (W.log world.new)) }
{
    let mut any = false;
    loop {
        match turn(world, scenario, host)? {
            Moved::Event => any = true,
            Moved::Resting => return Ok(any),
            Moved::Ended => return Ok(any),
        }
    }
}

/// The hosts in order, each until it rests or has ended. Whether any turn added an event.
fn round<W: Replayed>(world: &mut W, scenario: &Scenario, hosts: HostNo) -> Result<bool, NoMemory>
    requires scenario { W.scenario world.old ≡ scenario.now }
    requires hosts { hosts ≡ length scenario.now.hosts }
    ensures scenario { W.scenario world.new ≡ scenario.now }
    ensures gone { IfOk result (λ any. HasGone W.facts W.start scenario.now hosts any (W.log world.old) (W.log world.new)) }
{
    let mut any = false;
    for host in 0..hosts {
        if run_on(world, scenario, host)? {
            any = true;
        }
    }
    Ok(any)
}

/// Rounds until all hosts have ended.
fn drain<W: Replayed>(world: &mut W, scenario: &Scenario, hosts: HostNo) -> Result<(), NoMemory>
    requires scenario { W.scenario world.old ≡ scenario.now }
    requires hosts { hosts ≡ length scenario.now.hosts }
    requires passes { PassesAll scenario.now.hosts }
    ensures scenario { W.scenario world.new ≡ scenario.now }
    ensures drained { OnOk result (HasDrained W.facts W.start scenario.now (W.log world.old) (W.log world.new)) }
{
    loop {
        if !round(world, scenario, hosts)? {
            return Ok(());
        }
    }
}

/// Replays a scenario to the end of every host's list.
pub fn drive<W: Replayed>(world: &mut W, scenario: &Scenario, hosts: HostNo) -> Result<(), NoMemory>
    requires scenario { W.scenario world.old ≡ scenario.now }
    requires fresh { W.log world.old ≡ [] }
    requires hosts { hosts ≡ length scenario.now.hosts }
    requires known { All (λ step. step.0 < length scenario.now.hosts) scenario.now.steps }
    requires passes { PassesAll scenario.now.hosts }
    ensures scenario { W.scenario world.new ≡ scenario.now }
    ensures follows { OnOk result (IsFollowing W.facts W.start scenario.now (W.log world.new)) }
    ensures order { OnOk result (InReplayOrder W.facts scenario.now (W.log world.new)) }
{
    step_lines(world, scenario)?;
    drain(world, scenario, hosts)
}

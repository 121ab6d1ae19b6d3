//! The first world: one host, on a device of one sector.
ghost use Rattle.std.specs.Prelude.{◌≡◌, ◌⊎◌, ◌≤◌, ◌<◌, ◌+◌, ◌∷◌, [], true, false, None, Some, length, slice_get, IfOk, OnOk};
ghost use Rattle.ds_base.specs.Names.{IsName};
ghost use Rattle.ds_tree.specs.declared.calls.HostCallOf.TheVariants as host_calls;
ghost use Rattle.ds_tree.specs.declared.scenarios.Directive.TheVariants as directives;
ghost use Rattle.ds_tree.specs.Nodes.{FileTree};
ghost use Rattle.ds_tree.specs.FirstForm.{IsFirstForm, IsFirstDirective, register, first_geom};
ghost use Rattle.ds_host.specs.declared.first_host.RootCall.{RootCall};
ghost use Rattle.ds_host.specs.declared.first_host.Stage.TheVariants as stages;
ghost use Rattle.ds_host.specs.FirstConduct.{SpellsRooms, tree_call, due};
ghost use Rattle.ds_log.specs.Headline.{Headline};
ghost use Rattle.ds_log.specs.Scripts.{calls_of, list_of};
ghost use Rattle.ds_log.specs.Store.{store, change_count};
ghost use Rattle.ds_log.specs.Commits.{commits};
ghost use Rattle.ds_log.specs.Follows.{Follows, IsAtEnd, InReplayOrder};
ghost use Rattle.ds_world.specs.FirstRules.{first_rules, zero_sector};
ghost use Rattle.ds_world.specs.FirstWorlds.{root_directive, name_of, place_of, IsSameButRoom, AddsEvent, Turns, AsksFor, IsDue, IsReading, IsSwapping};

use crate::first_tree::tree_of_block;
use ds_base::{Command, HostNo, Key, Next, NoMemory, Response, Sector, Word};
use ds_conduct::HostAnswer;
use ds_dir::SubBlock;
use ds_host::FirstHost;
use ds_log::{Event, Log, Moved, Reply, Step};
use ds_lun::MemLun;
use ds_target::send;
use ds_tree::{Call, CallOf, Directive, HostCall, HostCallOf, Scenario, Spoken, Tree};
use std::alloc::Global;
use std::marker::Model;

/// The key of the root directory.
const ROOT: Key = Key {
    object: 0,
    birth: 1,
};

/// One host on a device of one sector, the sub-block of the root directory.
#[derive(Drop)]
pub struct FirstWorld {
    scenario: Scenario,
    position: u32,
    host: FirstHost,
    device: MemLun,
    commits: u32,
    log: Log,
}

impl Model for FirstWorld {
    ghost use Rattle.std.specs.Prelude.{min};
    ghost use Rattle.ds_world.specs.FirstWorlds.{FirstWorldValue, FirstHolds};

    ghost Value = { FirstWorldValue };

    ghost view = { λ w. record {
      scenario = w.scenario;
      position = w.position;
      host = w.host;
      device = w.device.sectors;
      commits = w.commits;
      log = w.log;
      room = min w.log.spare w.device.spare;
    } };

    ghost invariant = { λ w. FirstHolds (record {
      scenario = w.scenario;
      position = w.position;
      host = w.host;
      device = w.device.sectors;
      commits = w.commits;
      log = w.log;
      room = min w.log.spare w.device.spare;
    }) };
}

impl FirstWorld {
    /// The world of a scenario, before its first turn.
    pub fn new(alloc: Global, scenario: &Scenario) -> Result<FirstWorld, NoMemory>
        requires { IsFirstForm scenario.now }
        ensures scenario { IfOk result (λ w. w.scenario ≡ scenario.now) }
        ensures position { IfOk result (λ w. w.position ≡ 0) }
        ensures events { IfOk result (λ w. w.log.events ≡ []) }
        ensures replies { IfOk result (λ w. w.log.replies ≡ []) }
    {
        let scenario = scenario.copy(alloc)?;
        let sectors = one_zero_sector(alloc)?;
        let device = MemLun::from_list(alloc, sectors)?;
        Ok(FirstWorld {
            scenario,
            position: 0,
            host: FirstHost::new(),
            device,
            commits: 0,
            log: Log::new(alloc),
        })
    }

    /// Makes room for one turn: for its event and reply, and for a sector of the device.
    pub fn make_room(&mut self) -> Result<(), NoMemory>
        ensures room { OnOk result (0 < self.new.room) }
        ensures same { IsSameButRoom self.old self.new }
    {
        self.device.make_room(1)?;
        self.log.make_room()
    }

    /// One turn of a host, the scenario's: it adds one event, or none once the host's list is at its end.
    pub fn turn(&mut self, host: HostNo) -> Moved
        requires room { 0 < self.old.room }
        requires known { host < length self.old.scenario.hosts }
        ensures { Turns self.old result self.new }
    {
        match self.host.next(0) {
            Next::Rest => self.begin(),
            Next::Send(command) => {
                self.land(command);
                Moved::Event
            }
            Next::Late { .. } => unreachable!(),
        }
    }

    /// What has happened so far. `law` is the promise of every world.
    pub fn log(&self) -> &Log
        ensures value { result.now ≡ self.now.log }
        ensures law { Headline first_rules first_geom (calls_of self.now.scenario result.now.replies)
            result.now.events result.now.replies }
        ensures follows { Follows first_rules.start self.now.scenario result.now.events result.now.replies }
        ensures order { InReplayOrder (length self.now.scenario.hosts) self.now.scenario.steps result.now.events }
        ensures end { length (list_of self.now.scenario 0) ≤ self.now.position
            → IsAtEnd self.now.scenario result.now.events result.now.replies }
        ensures counted { change_count result.now.events ≡ commits first_rules result.now.events }
    {
        &self.log
    }

    /// The file tree for which the device stands.
    pub fn tree(&self, alloc: Global) -> Result<Tree, NoMemory>
        ensures stands { IfOk result (λ t. first_rules.StandsFor (store first_rules.start self.now.log.events) t.tree) }
        ensures only { IfOk result (λ t. (u : FileTree)
            → first_rules.StandsFor (store first_rules.start self.now.log.events) u → u ≡ t.tree) }
    {
        let block = block_of(&self.device);
        let tree = tree_of_block(alloc, &self.scenario.geom, &block)?;
        Ok(tree)
    }

    /// The log, when the world is done with.
    pub fn into_log(self) -> Log
        ensures { result ≡ self.log }
    {
        let FirstWorld { log, .. } = self;
        log
    }

    /// Begins the next directive, and goes on to its first command.
    fn begin(&mut self) -> Moved
        requires room { 0 < self.old.room }
        requires rests { self.old.host.stage ≡ stages.Rest }
        ensures { Turns self.old result self.new }
    {
        let Some(call) = self.call_due() else {
            return Moved::Ended;
        };
        match self.host.begin(&call) {
            Some(answer) => {
                let event = event_of(self.position, Step::Local);
                let reply = reply_of(self.log.len(), self.position, answer, self.commits);
                self.log.add_answered(event, reply);
                self.position += 1;
            }
            None => self.read(),
        }
        Moved::Event
    }

    /// Lands the command that is due.
    fn land(&mut self, command: Command)
        requires room { 0 < self.old.room }
        requires due { due self.old.host ≡ Next.Send command }
        ensures { AddsEvent self.old self.new }
    {
        match command {
            Command::Read { .. } => self.read(),
            Command::Swap { .. } => self.swap(command),
            Command::Write { .. } => unreachable!(),
        }
    }

    /// Lands the Read of the call under way.
    fn read(&mut self)
        requires room { 0 < self.old.room }
        requires reading { IsReading self.old.host }
        ensures { AddsEvent self.old self.new }
    {
        let command = Command::Read { at: 0 };
        let response = send(&mut self.device, &command);
        let answer = self.host.take(&response, 0);
        let event = event_of(self.position, sent(command, response, false));
        match answer {
            Some(answer) => {
                let reply = reply_of(self.log.len(), self.position, answer, self.commits);
                self.log.add_answered(event, reply);
                self.position += 1;
            }
            None => self.log.add(event),
        }
    }

    /// Lands the Swap of the call under way.
    fn swap(&mut self, command: Command)
        requires room { 0 < self.old.room }
        requires swapping { IsSwapping self.old.host }
        requires due { due self.old.host ≡ Next.Send command }
        ensures { AddsEvent self.old self.new }
    {
        let response = send(&mut self.device, &command);
        let Some(answer) = self.host.take(&response, 0) else {
            unreachable!()
        };
        self.commits += 1;
        let event = event_of(self.position, sent(command, response, true));
        let reply = reply_of(self.log.len(), self.position, answer, self.commits);
        self.log.add_answered(event, reply);
        self.position += 1;
    }

    /// The call of the next directive; `None` at the end of the list.
    fn call_due(&self) -> Option<HostCall>
        ensures { IsDue (list_of self.now.scenario 0) self.now.position result }
    {
        let directive = self.list().get(self.position as usize)?;
        Some(call_of(directive))
    }

    /// The directives of the host.
    fn list(&self) -> &[Directive]
        ensures { result.now ≡ list_of self.now.scenario 0 }
    {
        match self.scenario.hosts.as_slice().first() {
            Some(plan) => plan.list.as_slice(),
            None => &[],
        }
    }
}

/// The sub-block of the root directory.
fn block_of(device: &MemLun) -> SubBlock
    requires { (sector : Sector) × ((block : SubBlock) × (slice_get device.now.sectors 0 ≡ Some sector)
        × SpellsRooms sector block) }
    ensures { (sector : Sector) × (slice_get device.now.sectors 0 ≡ Some sector) × SpellsRooms sector result }
{
    match SubBlock::decode(&device.sector(0)) {
        Some(block) => block,
        None => unreachable!(),
    }
}

/// The call that a directive asks for.
fn call_of(directive: &Directive) -> HostCall
    requires { (directive.now ≡ register) ⊎ IsFirstDirective directive.now }
    ensures { AsksFor directive.now result }
{
    match directive {
        Directive::Call { call, .. } => match call {
            HostCallOf::Register => HostCallOf::Register,
            HostCallOf::Tree(call) => HostCallOf::Tree(tree_call(call)),
            _ => unreachable!(),
        },
        _ => unreachable!(),
    }
}

fn tree_call(call: &CallOf<Spoken>) -> Call
    requires { IsFirstDirective (directives.Call (host_calls.Tree call.now) None) }
    ensures { (c : RootCall) × (directives.Call (host_calls.Tree call.now) None ≡ root_directive c)
        × (result ≡ tree_call c) × IsName (name_of c) }
{
    match call {
        CallOf::Create { name, .. } => CallOf::Create {
            dir: ROOT,
            name: copy_of(name),
        },
        CallOf::Lookup { name, .. } => CallOf::Lookup {
            dir: ROOT,
            name: copy_of(name),
        },
        _ => unreachable!(),
    }
}

fn copy_of(name: &Word) -> Word
    requires { IsName name.now }
    ensures { result ≡ name.now }
{
    match Word::new(name.bytes()) {
        Some(copy) => copy,
        None => unreachable!(),
    }
}

/// A command that was sent and landed.
fn sent(command: Command, response: Response, took: bool) -> Step
    ensures { result ≡ Step.Sent (Some (0, 1)) command response true took }
{
    Step::Sent {
        under: Some((0, 1)),
        command,
        response,
        landed: true,
        took,
    }
}

fn event_of(position: u32, step: Step) -> Event
    requires { position < 4096 }
    ensures { result ≡ record { host = 0; at = 0; directive = position + 1; step = step; dies = false } }
{
    Event {
        host: 0,
        at: 0,
        directive: position + 1,
        step,
        dies: false,
    }
}

fn reply_of(event: usize, position: u32, answer: HostAnswer, commits: u32) -> Reply
    requires { position < 4096 }
    ensures { result ≡ record { event = event; host = 0; directive = position + 1; answer = answer; place = place_of answer commits } }
{
    let place = match &answer {
        HostAnswer::Tree(_) => Some(commits),
        _ => None,
    };
    Reply {
        event,
        host: 0,
        directive: position + 1,
        answer,
        place,
    }
}

fn one_zero_sector(alloc: Global) -> Result<Vec<Sector>, NoMemory>
    ensures { IfOk result (λ sectors. sectors.items ≡ zero_sector ∷ []) }
{
    let mut sectors = Vec::new(alloc);
    sectors.push(Sector::zero()).map_err(|_| NoMemory)?;
    Ok(sectors)
}

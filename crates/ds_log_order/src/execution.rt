//! The carrying out of a scenario, turn by turn.
ghost use Rattle.std.specs.Prelude.{
  ◌≡◌,
  ◌<◌,
  ◌+◌,
  ◌^◌,
  ◌++◌,
  ◌∷◌,
  ℕ,
  suc,
  List,
  [],
  Option,
  MatchOption,
  length,
  slice_get,
  slice_set,
  Some,
  false,
};
ghost use Rattle.ds_tree.specs.PlainPass.{list_at};
ghost use Rattle.ds_tree.specs.declared.scenarios.Directive.{Directive};
ghost use Rattle.ds_tree.specs.declared.scenarios.Directive.TheVariants as directives;
ghost use Rattle.ds_log.specs.Scripts.{ticks_of};
ghost use Rattle.ds_log_order.specs.CallTurns.{reply_to, turn_event};
ghost use Rattle.ds_log_order.specs.Execution.{HasGoneOn, Holds};
ghost use Rattle.ds_log_order.specs.Follows.{is_call, is_death};
ghost use Rattle.ds_log_order.specs.Told.{and_some, told};
ghost use Rattle.ds_log_order.specs.Turned.{Turned};
ghost use Rattle.ds_log_order.specs.Waiting.{IsGoing, progress_in};

use crate::hosts::{CallTurn, Hosts};
use crate::progress::{Mark, Progress, Stance, stance_of};
use ds_base::{HostNo, Tick};
use ds_log::{Event, Log, Moved, Reply, Step};
use ds_tree::{Directive, HostCallOf, Scenario, Spoken};

/// A scenario, how far its hosts have come with it, the clock, the hosts and their device, and what has happened.
#[derive(Drop)]
pub struct Execution<H> {
    scenario: Scenario,
    progress: Vec<Progress>,
    tick: Tick,
    hosts: H,
    log: Log,
}

impl<H: Hosts> Execution<H> {
    /// One turn of a host.
    pub fn turn(&mut self, host: HostNo) -> Moved
        requires room { 0 < self.old.log.spare }
        requires known { host < length self.old.scenario.hosts }
        requires holds { Holds H.facts H.start H.agrees self.old.scenario self.old.progress.items self.old.tick self.old.hosts
            self.old.log.events self.old.log.replies }
        ensures scenario { self.new.scenario ≡ self.old.scenario }
        ensures holds { Holds H.facts H.start H.agrees self.old.scenario self.new.progress.items self.new.tick self.new.hosts
            self.new.log.events self.new.log.replies }
        ensures turned { Turned H.facts H.start self.old.scenario host result
            (told self.old.log.events self.old.log.replies) (told self.new.log.events self.new.log.replies) }
    {
        match stance_of(
            self.scenario.hosts.as_slice(),
            self.progress.as_slice(),
            usize::from(host),
        ) {
            Stance::Ended => Moved::Ended,
            Stance::Resting => Moved::Resting,
            Stance::Going => {
                self.next_event(host);
                Moved::Event
            }
        }
    }

    /// The next event of a host.
    fn next_event(&mut self, host: HostNo)
        requires room { 0 < self.old.log.spare }
        requires known { host < length self.old.scenario.hosts }
        requires holds { Holds H.facts H.start H.agrees self.old.scenario self.old.progress.items self.old.tick self.old.hosts
            self.old.log.events self.old.log.replies }
        requires going { (d : Directive) × IsGoing self.old.scenario.hosts (progress_in self.old.progress.items) host d }
        ensures scenario { self.new.scenario ≡ self.old.scenario }
        ensures gone { HasGoneOn H.facts H.start H.agrees self.old.scenario host
            (told self.old.log.events self.old.log.replies)
            self.new.progress.items self.new.tick self.new.hosts self.new.log.events self.new.log.replies }
    {
        let list = list_of(&self.scenario, host);
        let progress = progress_at(&self.progress, host);
        let directive = directive_at(list, &progress);
        match call_in(directive) {
            Some(call) => {
                let event = self.log.len();
                let turn = self.hosts.turn(host, call, &progress, event, self.tick);
                let next = progress.advance(list, turn.mark());
                put(&mut self.progress, host, next);
                add_turn(&mut self.log, host, &progress, event, self.tick, turn);
            }
            None => {
                let dies = is_death(directive);
                self.hosts.idle(host, dies);
                let next = progress.advance(list, no_mark());
                put(&mut self.progress, host, next);
                self.log.add(local_event(host, self.tick, &progress, dies));
                self.tick += ticks_of(directive);
            }
        }
    }
}

/// The call that a directive is, if it is one.
fn call_in(directive: &Directive) -> Option<&HostCallOf<Spoken>>
    ensures { MatchOption result (is_call directive.now ≡ false)
        (λ call. (bind : Option (List ℕ)) × (directive.now ≡ directives.Call call.now bind)) }
{
    match directive {
        Directive::Call { call, .. } => Some(call),
        _ => None,
    }
}

/// Adds the event of a turn of a call to a log, and the reply that it gives.
fn add_turn(
    log: &mut Log,
    host: HostNo,
    progress: &Progress,
    event: usize,
    at: Tick,
    turn: CallTurn,
)
    requires room { 0 < log.old.spare }
    requires last { event ≡ length log.old.events }
    requires numbered { progress.now.finished + 1 < 2 ^ 32 }
    ensures events { log.new.events ≡ log.old.events ++ turn_event host progress.now at turn ∷ [] }
    ensures replies { log.new.replies ≡ and_some log.old.replies (reply_to host progress.now event turn.place turn.answer) }
{
    let directive = progress.finished + 1;
    let CallTurn {
        step,
        answer,
        place,
        dies,
        ..
    } = turn;
    let added = Event {
        host,
        at,
        directive,
        step,
        dies,
    };
    match answer {
        Some(answer) => log.add_answered(
            added,
            Reply {
                event,
                host,
                directive,
                answer,
                place,
            },
        ),
        None => log.add(added),
    }
}

/// The event of a directive that isn't a call.
fn local_event(host: HostNo, at: Tick, progress: &Progress, dies: bool) -> Event
    requires { progress.now.finished + 1 < 2 ^ 32 }
    ensures { result ≡ record { host = host; at = at; directive = suc progress.now.finished; step = Step.Local; dies = dies } }
{
    Event {
        host,
        at,
        directive: progress.finished + 1,
        step: Step::Local,
        dies,
    }
}

/// The directives of a host.
fn list_of(scenario: &Scenario, host: HostNo) -> &[Directive]
    requires { host < length scenario.now.hosts }
    ensures { result.now ≡ list_at scenario.now.hosts host }
{
    scenario.hosts.as_slice()[usize::from(host)].list.as_slice()
}

/// How far a host has come.
fn progress_at(kept: &Vec<Progress>, host: HostNo) -> Progress
    requires { host < length kept.now.items }
    ensures { result ≡ progress_in kept.now.items host }
{
    kept[usize::from(host)]
}

/// The next directive of a host that has come so far.
fn directive_at<'a>(list: &'a [Directive], progress: &Progress) -> &'a Directive
    requires { progress.now.finished < length list.now }
    ensures { slice_get list.now progress.now.finished ≡ Some result.now }
{
    &list[progress.finished as usize]
}

/// Keeps how far a host has come.
fn put(kept: &mut Vec<Progress>, host: HostNo, progress: Progress)
    requires { host < length kept.old.items }
    ensures { kept.new.items ≡ slice_set kept.old.items host progress }
{
    kept[usize::from(host)] = progress;
}

/// Whether a directive is a death.
fn is_death(directive: &Directive) -> bool
    ensures { result ≡ is_death directive.now }
{
    matches!(directive, Directive::Die)
}

/// By how many ticks a directive moves the clock on.
fn ticks_of(directive: &Directive) -> u64
    ensures is { result ≡ ticks_of (Some directive.now) }
    ensures small { result < 2 ^ 32 }
{
    match directive {
        Directive::Tick { ticks } => u64::from(*ticks),
        _ => 0,
    }
}

/// What an event without a command tells of how far the host has come: nothing.
fn no_mark() -> Mark {
    Mark {
        hit: false,
        done: false,
        dies: false,
        ends: false,
        replied: false,
    }
}

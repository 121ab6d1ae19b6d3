//! What the hosts of a scenario and their device do in a turn.
ghost use Rattle.std.specs.Prelude.{◌≡◌, ℕ, ◌++◌, ◌∷◌, [], length, None};
ghost use Rattle.ds_log_order.specs.CallTurns.{IsAsked, IsCallTurn, IsIdle, mark_of_turn};
ghost use Rattle.ds_log_order.specs.HostFacts.{is_carried_out, is_given};

use crate::progress::{Mark, Progress};
use ds_base::{HostNo, Response, Tick};
use ds_conduct::HostAnswer;
use ds_log::Step;
use ds_tree::{HostCallOf, Spoken};

/// A turn of a call: its step, the answer that it gives with the place in the history, whether the host died, whether the
/// call and its tail have ended, and whether the command is of the kind for which something is set.
#[derive(Debug, Drop)]
pub struct CallTurn {
    pub step: Step,
    pub answer: Option<HostAnswer>,
    pub place: Option<u32>,
    pub dies: bool,
    pub ends: bool,
    pub hit: bool,
}

/// The hosts of a scenario and their device.
pub trait Hosts {
    ghost use Rattle.std.specs.Prelude.{List};
    ghost use Rattle.ds_base.specs.declared.sectors.Sector.{Sector};
    ghost use Rattle.ds_tree.specs.declared.scenarios.Scenario.{Scenario};
    ghost use Rattle.ds_log.specs.declared.logs.Event.{Event};
    ghost use Rattle.ds_log_order.specs.HostFacts.{HostFacts};
    ghost use Rattle.ds_log_order.specs.Told.{Told};

    /// What decides how far the hosts have come.
    ghost facts: { HostFacts };

    /// The device at first.
    ghost start: { List Sector };

    /// The hosts and the device are as these events left them.
    ghost agrees: { Self → List Told → Type 0 };

    /// One turn of a call of a host.
    fn turn(
        &mut self,
        host: HostNo,
        call: &HostCallOf<Spoken>,
        progress: &Progress,
        event: usize,
        at: Tick,
    ) -> CallTurn
        ensures { (s : Scenario) (log : List Told) → agrees self.old log → IsAsked facts s log host progress.now call.now event at
            → IsCallTurn facts start log host progress.now event at result (agrees self.new) };

    /// A turn of a host without a command, in which it may die.
    fn idle(&mut self, host: HostNo, dies: bool)
        ensures { (log : List Told) (e : Event) → agrees self.old log → IsIdle host dies e
            → agrees self.new (log ++ record { event = e; reply = None } ∷ []) };
}

impl CallTurn {
    /// What the turn tells of how far the host has come.
    pub fn mark(&self) -> Mark
        ensures { result ≡ mark_of_turn self.now }
    {
        Mark {
            hit: self.hit,
            done: is_carried_out(&self.step),
            dies: self.dies,
            ends: self.ends,
            replied: self.answer.is_some(),
        }
    }
}

/// Whether a step is a command that answered Got or Done.
fn is_carried_out(step: &Step) -> bool
    ensures { result ≡ is_carried_out step.now }
{
    match step {
        Step::Local => false,
        Step::Sent { response, .. } => is_given(response),
    }
}

/// Whether a response is Got or Done.
fn is_given(response: &Response) -> bool
    ensures { result ≡ is_given response.now }
{
    match response {
        Response::Got(_) => true,
        Response::Done => true,
        Response::Miscompare { .. } => false,
        Response::Fault => false,
    }
}

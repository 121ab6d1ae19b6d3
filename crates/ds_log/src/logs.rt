//! The log of a world: its events, and the replies to calls.
ghost use Rattle.std.specs.Prelude.{◌≡◌, ◌↔◌, ◌<◌, ◌++◌, ◌∷◌, [], IsTrue, OnOk, length};
ghost use Rattle.ds_log.specs.Logged.{AreLogged};

use ds_base::{Command, Gen, HostNo, NoMemory, Response, SlotNo, Tick};
use ds_conduct::HostAnswer;
use std::alloc::Global;
use std::marker::Model;

/// What a host did in one turn: carried out a directive without a command, or sent a command under the generation that
/// it held. `landed` says whether the command reached the device; `took`, whether it is a Swap that took effect.
#[derive(Debug, Drop)]
pub enum Step {
    Local,
    Sent {
        under: Option<(SlotNo, Gen)>,
        command: Command,
        response: Response,
        landed: bool,
        took: bool,
    },
}

/// One turn of a host at a tick, in its directive of this number, counted from 1. `dies` says whether the host died.
#[derive(Debug, Drop)]
pub struct Event {
    pub host: HostNo,
    pub at: Tick,
    pub directive: u32,
    pub step: Step,
    pub dies: bool,
}

/// The answer to a call: the index of its event, and for an answer of the file tree its place in the history, which
/// counts the changes before it, its own included.
#[derive(Debug, Drop)]
pub struct Reply {
    pub event: usize,
    pub host: HostNo,
    pub directive: u32,
    pub answer: HostAnswer,
    pub place: Option<u32>,
}

/// The events and replies of a world, the replies in the order of their events, and room for more.
#[derive(Debug, Drop)]
pub struct Log {
    events: Vec<Event>,
    replies: Vec<Reply>,
}

impl Model for Log {
    ghost use Rattle.std.specs.Prelude.{◌-◌, min, vec_len, vec_capacity};
    ghost use Rattle.ds_log.specs.Logged.{AreLogged};
    ghost use Rattle.ds_log.specs.LogValues.{LogValue};

    ghost Value = { LogValue };

    ghost view = { λ log. record {
      events = log.events.items;
      replies = log.replies.items;
      spare = min (vec_capacity log.events - vec_len log.events) (vec_capacity log.replies - vec_len log.replies);
    } };

    ghost invariant = { λ log. AreLogged log.events.items log.replies.items };
}

impl Log {
    /// The log in which nothing has happened.
    pub fn new(alloc: Global) -> Log
        ensures events { result.events ≡ [] }
        ensures replies { result.replies ≡ [] }
    {
        Log {
            events: Vec::new(alloc),
            replies: Vec::new(alloc),
        }
    }

    pub fn events(&self) -> &[Event]
        ensures { result.now ≡ self.now.events }
    {
        self.events.as_slice()
    }

    /// The replies, in the order of their events.
    pub fn replies(&self) -> &[Reply]
        ensures replies { result.now ≡ self.now.replies }
        ensures order { AreLogged self.now.events result.now }
    {
        self.replies.as_slice()
    }

    /// The number of events.
    pub fn len(&self) -> usize
        ensures { result ≡ length self.now.events }
    {
        self.events.len()
    }

    pub fn is_empty(&self) -> bool
        ensures { IsTrue result ↔ (self.now.events ≡ []) }
    {
        self.events.is_empty()
    }

    /// Makes room for one event and its reply.
    pub fn make_room(&mut self) -> Result<(), NoMemory>
        ensures room { OnOk result (0 < self.new.spare) }
        ensures events { self.new.events ≡ self.old.events }
        ensures replies { self.new.replies ≡ self.old.replies }
    {
        self.events.reserve(1).map_err(|_| NoMemory)?;
        self.replies.reserve(1).map_err(|_| NoMemory)
    }

    /// Adds an event, which has no reply.
    pub fn add(&mut self, event: Event)
        requires { 0 < self.old.spare }
        ensures events { self.new.events ≡ self.old.events ++ event ∷ [] }
        ensures replies { self.new.replies ≡ self.old.replies }
    {
        self.events.push_reserved(event);
    }

    /// Adds an event and the reply that is given in it.
    pub fn add_answered(&mut self, event: Event, reply: Reply)
        requires room { 0 < self.old.spare }
        requires given { reply.event ≡ length self.old.events }
        ensures events { self.new.events ≡ self.old.events ++ event ∷ [] }
        ensures replies { self.new.replies ≡ self.old.replies ++ reply ∷ [] }
    {
        self.events.push_reserved(event);
        self.replies.push_reserved(reply);
    }
}

//! A source and a sink over memory, whose calls fail where they are told to.
ghost use Rattle.std.specs.Prelude.{◌≡◌, ◌≢◌, ◌↔◌, ◌≤◌, ◌<◌, ◌-◌, ◌⊎◌, ℕ, min, [], Some, IsTrue, IfOk, Contains, length};
ghost use Rattle.ds_base.specs.Outside.{risen, Gives, Accepts};

use crate::outside::{Gave, NoMemory, Sink, Source, Taken, copy_front};
use std::alloc::Global;
use std::marker::Model;

/// A source over bytes in memory; the calls with these numbers, counted from 1, fail.
#[derive(Drop)]
pub struct MemSource {
    bytes: Vec<u8>,
    at: usize,
    failing: Vec<u32>,
    calls: u64,
    faults: u64,
}

impl Model for MemSource {
    ghost use Rattle.std.specs.Prelude.{◌≤◌, drop, length};
    ghost use Rattle.ds_base.specs.Memory.{SourceState};

    ghost Value = { SourceState };

    ghost view = { λ s. record {
      left = drop s.at s.bytes.items;
      failing = s.failing.items;
      calls = s.calls;
      faults = s.faults;
    } };

    ghost invariant = { λ s. s.at ≤ length s.bytes.items };
}

impl MemSource {
    pub fn new(bytes: Vec<u8>, failing: Vec<u32>) -> MemSource
        ensures left { result.left ≡ bytes.items }
        ensures failing { result.failing ≡ failing.items }
        ensures calls { result.calls ≡ 0 }
        ensures faults { result.faults ≡ 0 }
    {
        MemSource {
            bytes,
            at: 0,
            failing,
            calls: 0,
            faults: 0,
        }
    }
}

impl Source for MemSource {
    ghost left = { λ s. Some s.left };

    ghost faults = { λ s. s.faults };

    #[tactic(auto, using(crate::proofs::Reading::drop_split))]
    fn next(&mut self, buf: &mut [u8]) -> Taken
        requires { 0 < length buf.old }
        ensures gives { Gives (Some self.old.left) (Some self.new.left) result buf.new }
        ensures faults { self.old.faults ≤ self.new.faults }
        ensures failed { result ≡ Taken.Failed → self.new.faults ≡ risen self.old.faults }

        // A call fails exactly where its number is listed, and else gives as much as fits.
        ensures calls { self.new.calls ≡ risen self.old.calls }
        ensures fails { (result ≡ Taken.Failed) ↔ Contains self.old.failing self.new.calls }
        ensures fits { (n : ℕ) → result ≡ Taken.Got n → n ≡ min (length self.old.left) (length buf.old) }
        ensures well { result ≢ Taken.Failed → self.new.faults ≡ self.old.faults }
        ensures failing { self.new.failing ≡ self.old.failing }
    {
        self.calls = self.calls.saturating_add(1);
        if is_listed(&self.failing, self.calls) {
            self.faults = self.faults.saturating_add(1);
            return Taken::Failed;
        }
        let n = copy_front(&self.bytes[self.at..], buf);
        if n == 0 {
            return Taken::End;
        }
        self.at += n;
        Taken::Got(n)
    }
}

/// A sink that keeps what it takes in room made beforehand; the calls with these numbers, counted from 1, fail, and so
/// does each call for which nothing fits.
#[derive(Drop)]
pub struct MemSink {
    bytes: Vec<u8>,
    room: usize,
    failing: Vec<u32>,
    calls: u64,
    faults: u64,
}

impl Model for MemSink {
    ghost use Rattle.std.specs.Prelude.{◌≤◌, length, vec_capacity};
    ghost use Rattle.ds_base.specs.Memory.{SinkState};

    ghost Value = { SinkState };

    ghost view = { λ s. record {
      taken = s.bytes.items;
      room = s.room;
      failing = s.failing.items;
      calls = s.calls;
      faults = s.faults;
    } };

    ghost invariant = { λ s. (length s.bytes.items ≤ s.room) × (s.room ≤ vec_capacity s.bytes) };
}

impl MemSink {
    /// A sink with room for so many bytes.
    pub fn new(alloc: Global, room: usize, failing: Vec<u32>) -> Result<MemSink, NoMemory>
        ensures taken { IfOk result (λ sink. sink.taken ≡ []) }
        ensures room { IfOk result (λ sink. sink.room ≡ room) }
        ensures failing { IfOk result (λ sink. sink.failing ≡ failing.items) }
        ensures calls { IfOk result (λ sink. sink.calls ≡ 0) }
        ensures faults { IfOk result (λ sink. sink.faults ≡ 0) }
    {
        let bytes = Vec::with_capacity(alloc, room)?;
        Ok(MemSink {
            bytes,
            room,
            failing,
            calls: 0,
            faults: 0,
        })
    }

    /// What was taken so far.
    pub fn bytes(&self) -> &[u8]
        ensures { result.now ≡ self.now.taken }
    {
        self.bytes.as_slice()
    }
}

impl Sink for MemSink {
    ghost taken = { λ s. Some s.taken };

    ghost faults = { λ s. s.faults };

    fn put(&mut self, piece: &[u8]) -> Gave
        requires { 0 < length piece.now }
        ensures accepts { Accepts (Some self.old.taken) (Some self.new.taken) result piece.now }
        ensures faults { self.old.faults ≤ self.new.faults }
        ensures failed { result ≡ Gave.Failed → self.new.faults ≡ risen self.old.faults }

        // A call fails exactly where its number is listed or nothing fits, and else takes as much as fits.
        ensures calls { self.new.calls ≡ risen self.old.calls }
        ensures fails { (result ≡ Gave.Failed)
            ↔ (Contains self.old.failing self.new.calls ⊎ (self.old.room ≤ length self.old.taken)) }
        ensures fits { (n : ℕ) → result ≡ Gave.Took n
            → n ≡ min (self.old.room - length self.old.taken) (length piece.now) }
        ensures well { result ≢ Gave.Failed → self.new.faults ≡ self.old.faults }
        ensures failing { self.new.failing ≡ self.old.failing }
        ensures room { self.new.room ≡ self.old.room }
    {
        self.calls = self.calls.saturating_add(1);
        let n = (self.room - self.bytes.len()).min(piece.len());
        if n == 0
            || is_listed(&self.failing, self.calls)
            || self.bytes.extend_from_slice(&piece[..n]).is_err()
        {
            self.faults = self.faults.saturating_add(1);
            return Gave::Failed;
        }
        Gave::Took(n)
    }
}

fn is_listed(calls: &[u32], call: u64) -> bool
    ensures { IsTrue result ↔ Contains calls.now call }
{
    calls.iter().any(|listed| u64::from(*listed) == call)
}

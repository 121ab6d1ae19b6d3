//! A source and a sink that never fail.
ghost use Rattle.std.specs.Prelude.{◌≡◌, ◌≢◌, ◌<◌, ℕ, min, Some, None, length};
ghost use Rattle.ds_base.specs.Outside.{Gives, Accepts};

use crate::outside::{Gave, Sink, Source, Taken, copy_front};
use std::marker::Model;

/// A source over bytes in memory, which contracts see as the bytes still to come. It never fails.
#[derive(Drop)]
pub struct SureSource {
    bytes: Vec<u8>,
    at: usize,
}

impl Model for SureSource {
    ghost use Rattle.std.specs.Prelude.{◌≤◌, ℕ, List, drop, length};

    ghost Value = { List ℕ };

    ghost view = { λ s. drop s.at s.bytes.items };

    ghost invariant = { λ s. s.at ≤ length s.bytes.items };
}

impl SureSource {
    pub fn new(bytes: Vec<u8>) -> SureSource
        ensures { result ≡ bytes.items }
    {
        SureSource { bytes, at: 0 }
    }
}

impl Source for SureSource {
    ghost left = { λ s. Some s };

    ghost faults = { λ _. 0 };

    #[tactic(auto, using(crate::proofs::Reading::drop_split))]
    fn next(&mut self, buf: &mut [u8]) -> Taken
        requires { 0 < length buf.old }
        ensures gives { Gives (Some self.old) (Some self.new) result buf.new }
        ensures sure { result ≢ Taken.Failed }
        ensures fits { (n : ℕ) → result ≡ Taken.Got n → n ≡ min (length self.old) (length buf.old) }
    {
        let n = copy_front(&self.bytes[self.at..], buf);
        if n == 0 {
            return Taken::End;
        }
        self.at += n;
        Taken::Got(n)
    }
}

/// A sink that takes every piece whole, keeps none of it and tells nothing of it.
#[derive(Default, Drop)]
pub struct SureSink;

impl SureSink {
    pub fn new() -> SureSink {
        SureSink
    }
}

impl Sink for SureSink {
    ghost taken = { λ _. None };

    ghost faults = { λ _. 0 };

    fn put(&mut self, piece: &[u8]) -> Gave
        requires { 0 < length piece.now }
        ensures { result ≡ Gave.Took (length piece.now) }
    {
        Gave::Took(piece.len())
    }
}

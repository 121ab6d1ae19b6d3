//! What a host noted of the slots of others.
ghost use Rattle.std.specs.Prelude.{◌≡◌, ◌<◌, ◌↔◌, List, [], ◌∷◌, IsTrue};
ghost use Rattle.ds_watch.specs.Notes.{IsStale, Note};
ghost use Rattle.ds_watch.specs.Remembering.{IsOld, Remembers, since_of};

use ds_base::{Sector, SlotNo, Tick};
use std::marker::Model;

/// The image that a slot showed last, and the tick at which the run of it began.
#[derive(Clone, Copy, Debug, PartialEq, Eq)]
pub struct Shown {
    pub image: Sector,
    pub since: Tick,
}

/// For each of 16 slots, the image that was noted of it last, and since when it was noted without another between. It is seen as
/// that list.
#[derive(Drop)]
pub struct Watch {
    shown: [Option<Shown>; 16],
}

impl Model for Watch {
    ghost use Rattle.std.specs.Prelude.{◌≡◌, List, Option, length};
    ghost use Rattle.ds_watch.specs.declared.watch.Shown.{Shown};

    ghost Value = { List (Option Shown) };

    ghost view = { λ watch. watch.shown };

    ghost invariant = { λ watch. length watch.shown ≡ 16 };
}

impl Watch {
    /// Nothing is noted.
    pub fn new() -> Watch
        ensures { Remembers result [] }
    {
        Watch { shown: [None; 16] }
    }

    /// Notes that the slot, a number below 16, showed the image at this tick. Takes no memory.
    pub fn note(&mut self, slot: SlotNo, image: &Sector, now: Tick)
        requires { slot < 16 }
        ensures { (notes : List Note) → Remembers self.old notes
            → Remembers self.new (record { slot = slot; image = image.now; tick = now } ∷ notes) }
    {
        let at = slot as usize;
        let since = since(&self.shown[at], image, now);
        self.shown[at] = Some(Shown {
            image: *image,
            since,
        });
    }

    /// Whether the notes of the slot, a number below 16, end with the image, and the first of the longest run of it there was made
    /// 16 ticks ago or earlier.
    pub fn stale(&self, slot: SlotNo, image: &Sector, now: Tick) -> bool
        requires { slot < 16 }
        ensures { (notes : List Note) → Remembers self.now notes → IsTrue result ↔ IsStale notes slot image.now now }
    {
        is_stale(&self.shown[slot as usize], image, now)
    }

    /// Forgets all notes.
    pub fn clear(&mut self)
        ensures { Remembers self.new [] }
    {
        self.shown = [None; 16];
    }
}

/// Since when an image is shown that is noted now, after what was shown before.
fn since(shown: &Option<Shown>, image: &Sector, now: Tick) -> Tick
    ensures { result ≡ since_of shown.now image.now now }
{
    match shown {
        None => now,
        Some(shown) => {
            if shown.image == *image {
                shown.since
            } else {
                now
            }
        }
    }
}

fn is_stale(shown: &Option<Shown>, image: &Sector, now: Tick) -> bool
    ensures { IsTrue result ↔ IsOld shown.now image.now now }
{
    match shown {
        None => false,
        Some(shown) => shown.image == *image && now >= shown.since && now - shown.since >= 16,
    }
}

//! How many names each object has.
ghost use Rattle.std.specs.Prelude.{
  ◌≡◌,
  ◌<◌,
  ◌-◌,
  ◌^◌,
  ◌==◌,
  ℕ,
  List,
  [],
  ◌∷◌,
  ◌++◌,
  IfOk,
  length,
  replicate,
  count_by,
  slice_index,
  slice_set,
};
ghost use Rattle.ds_base.specs.Outside.{risen};
ghost use Rattle.ds_image_tables.specs.NameCounts.{CountsNames};

use ds_base::NoMemory;
use std::alloc::Global;
use std::marker::Model;

/// The number of names of each object, by its number.
#[derive(Drop)]
pub struct NameCounts {
    counts: Vec<u64>,
}

impl Model for NameCounts {
    ghost use Rattle.std.specs.Prelude.{ℕ, List};

    ghost Value = { List ℕ };

    ghost view = { λ c. c.counts.items };
}

impl NameCounts {
    /// So many objects, none of which has a name.
    pub fn new(alloc: Global, count: u32) -> Result<NameCounts, NoMemory>
        ensures unnamed { IfOk result (λ table. table ≡ replicate count 0) }
        ensures counts { IfOk result (λ table. CountsNames table []) }
    {
        let counts = vec![in alloc; 0; count as usize]?;
        Ok(NameCounts { counts })
    }

    /// Notes a name of an object.
    pub fn note(&mut self, object: u32)
        requires { object < length self.old }
        ensures noted { self.new ≡ slice_set self.old object (risen (slice_index self.old object)) }
        ensures count { length self.new ≡ length self.old }
        ensures counts { (named : List ℕ) → length named < 2 ^ 64 - 1 → CountsNames self.old named
            → CountsNames self.new (named ++ object ∷ []) }
    {
        let count = self.counts[object as usize];
        self.counts[object as usize] = count.saturating_add(1);
    }

    /// How many names an object has; none of an object past the last.
    pub fn of(&self, object: u32) -> u64
        ensures exact { result ≡ slice_index self.now object }
        ensures counted { (named : List ℕ) → CountsNames self.now named → object < length self.now
            → result ≡ count_by (λ o. o == object) named }
    {
        match self.counts.get(object as usize) {
            None => 0,
            Some(count) => *count,
        }
    }
}

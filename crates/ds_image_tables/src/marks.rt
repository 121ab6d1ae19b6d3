//! Items marked one list after another.
ghost use Rattle.std.specs.Prelude.{
  ◌≡◌,
  ◌+◌,
  ◌≤◌,
  ◌↔◌,
  ℕ,
  Bool,
  true,
  false,
  List,
  [],
  ◌∷◌,
  ◌++◌,
  Some,
  IsTrue,
  IfOk,
  length,
  take,
  drop,
  replicate,
  slice_get,
  slice_set,
  if◌then◌else◌,
};
ghost use Rattle.ds_image_tables.specs.Owns.{Owns, bit};
ghost use Rattle.ds_image_tables.specs.Owned.{CanMark, AddsMarks, StopsMarking};

use ds_base::NoMemory;
use std::alloc::Global;
use std::marker::Model;

/// A set of items by number, which contracts see as one truth value for each item.
#[derive(Drop)]
pub struct Marks {
    marked: Vec<bool>,
}

impl Model for Marks {
    ghost use Rattle.std.specs.Prelude.{Bool, List};

    ghost Value = { List Bool };

    ghost view = { λ m. m.marked.items };
}

impl Marks {
    /// So many items, none of which is marked.
    pub fn new(alloc: Global, count: u32) -> Result<Marks, NoMemory>
        ensures { IfOk result (λ marks. marks ≡ replicate count false) }
    {
        let marked = vec![in alloc; false; count as usize]?;
        Ok(Marks { marked })
    }

    /// Whether an item is marked; items past the last are not.
    pub fn is_marked(&self, item: u32) -> bool
        ensures { result ≡ bit self.now item }
    {
        self.marked.get(item as usize) == Some(&true)
    }

    /// Marks an item that is there and not marked; says whether it was such a one.
    pub fn mark(&mut self, item: u32) -> bool
        ensures exact { IsTrue result ↔ (slice_get self.old item ≡ Some false) }
        ensures marked { self.new ≡ (if result then slice_set self.old item true else self.old) }
    {
        if self.marked.get(item as usize) != Some(&false) {
            return false;
        }
        self.marked[item as usize] = true;
        true
    }

    /// Marks the items of a list, up to the first that isn't there or is marked already; says whether there was none.
    pub fn mark_list(&mut self, items: &[u32]) -> bool
        ensures exact { IsTrue result ↔ CanMark self.old items.now }
        ensures marked { result ≡ true → AddsMarks self.old items.now self.new }
        ensures stops { result ≡ false → (n : ℕ) × StopsMarking self.old items.now n self.new }
        ensures count { length self.new ≡ length self.old }

        // Where the marks are those of the lists before, they are those of all lists after it, or no marks are.
        ensures owns { result ≡ true → (lists : List (List ℕ)) → Owns lists self.old → Owns (lists ++ items.now ∷ []) self.new }
        ensures twice { result ≡ false → (lists : List (List ℕ)) (bits : List Bool) → Owns lists self.old
            → length bits ≡ length self.old → ¬ Owns (lists ++ items.now ∷ []) bits }
    {
        for item in items {
            if !self.mark(*item) {
                return false;
            }
        }
        true
    }

    /// Whether the marks are just these.
    pub fn are(&self, bits: &[bool]) -> bool
        ensures { IsTrue result ↔ (self.now ≡ bits.now) }
    {
        self.marked.as_slice() == bits
    }

    /// Whether the marks from an item on begin with these, as those of one cluster.
    pub fn are_from(&self, first: usize, bits: &[bool]) -> bool
        ensures { IsTrue result ↔ (take (length bits.now) (drop first self.now) ≡ bits.now) }
    {
        let rest = &self.marked[first.min(self.marked.len())..];
        bits.len() <= rest.len() && &rest[..bits.len()] == bits
    }
}

//! The entries of a directory.
ghost use Rattle.std.specs.Prelude.{◌≡◌, OnOk, OnErr, slice_get, option_map, option_copied};
ghost use Rattle.std.specs.FinMap as maps;
ghost use Rattle.ds_tree.specs.Steps.{entries_above};

use ds_base::{Name, NoMemory, ObjNo};
use std::alloc::Global;
use std::collections::BTreeMap;
use std::collections::btree_map::Range;
use std::marker::Model;
use std::ops::Bound;

/// The entries of a directory in memory: object numbers by name, in the byte order of the names.
#[derive(Debug, Drop)]
pub struct Listing {
    map: BTreeMap<Name, ObjNo>,
}

impl Model for Listing {
    ghost use Rattle.std.specs.Prelude.{ℕ, T};
    ghost use Rattle.std.specs.Ordering.{nat_cmp};
    ghost use Rattle.std.specs.Cmp.Lexicographic.{slice_cmp};
    ghost use Rattle.std.specs.FinMap as maps;
    ghost use Rattle.std.specs.Coded.{coded_ℕ, coded_list};

    ghost Value = { maps.FinMap (slice_cmp nat_cmp) ℕ };

    ghost coded = { maps.code (coded_list coded_ℕ) coded_ℕ };

    ghost view = { λ a. maps.from_sorted a.map.entries };

    ghost invariant = { λ a. T (maps.is_sorted (slice_cmp nat_cmp) a.map.entries) };
}

impl Listing {
    pub fn new(alloc: Global) -> Listing
        ensures { result ≡ maps.empty }
    {
        Listing {
            map: BTreeMap::new(alloc),
        }
    }

    pub fn len(&self) -> usize
        ensures { result ≡ maps.len self.now }
    {
        self.map.len()
    }

    pub fn get(&self, name: &Name) -> Option<ObjNo>
        ensures { result ≡ maps.get self.now name.now }
    {
        self.map.get(name).copied()
    }

    pub fn insert(&mut self, name: Name, object: ObjNo) -> Result<(), NoMemory>
        ensures ok { OnOk result (self.new ≡ maps.insert self.old name object) }
        ensures err { OnErr result (self.new ≡ self.old) }
    {
        match self.map.insert(name, object) {
            Ok(_) => Ok(()),
            Err(_) => Err(NoMemory),
        }
    }

    pub fn remove(&mut self, name: &Name)
        ensures { self.new ≡ maps.remove self.old name.now }
    {
        self.map.remove(name);
    }

    /// The entry with the least name above `after`, or with the least name of all.
    pub fn next(&self, after: Option<&Name>) -> Option<(&Name, ObjNo)>
        ensures { option_map (λ e. (e.0.now, e.1)) result
            ≡ slice_get (entries_above self.now (option_copied after.entry)) 0 }
    {
        let (name, object) = self.above(after).next()?;
        Some((name, *object))
    }

    /// The entries above a name, in order.
    pub fn above(&self, after: Option<&Name>) -> Range<'_, Name, ObjNo>
        ensures { result ≡ entries_above self.now (option_copied after.entry) }
    {
        let Some(name) = after else {
            return self
                .map
                .range((Bound::Unbounded, Bound::<&Name>::Unbounded));
        };
        self.map.range((Bound::Excluded(name), Bound::Unbounded))
    }
}

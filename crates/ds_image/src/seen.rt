//! What a call has seen of a volume.
ghost use Rattle.std.specs.Prelude.{◌≡◌, ◌<◌, [], None, Some, IfOk, MatchOption, false, length};
ghost use Rattle.ds_image.specs.SeenValues.{IsSeen, has_lock, sector_in, with_lock, with_sector};

use ds_base::{NoMemory, ObjNo, Sector, SectorNo};
use std::alloc::Global;
use std::marker::Model;

/// The objects that a call holds, at most 64, and the sectors that it has read under them, at most 256. All memory is taken
/// by `new`.
#[derive(Drop)]
pub struct Seen {
    locks: Vec<ObjNo>,
    sectors: Vec<(SectorNo, Sector)>,
}

impl Model for Seen {
    ghost use Rattle.std.specs.Prelude.{◌≤◌, vec_capacity};
    ghost use Rattle.ds_image.specs.SeenValues.{SeenValue, IsSeen};

    ghost Value = { SeenValue };

    ghost view = { λ seen. record { locks = seen.locks.items; sectors = seen.sectors.items } };

    ghost invariant = { λ seen. IsSeen (record { locks = seen.locks.items; sectors = seen.sectors.items })
        × (64 ≤ vec_capacity seen.locks) × (256 ≤ vec_capacity seen.sectors) };
}

impl Seen {
    /// No object and no sector, with room for all.
    pub fn new(alloc: Global) -> Result<Seen, NoMemory>
        ensures locks { IfOk result (λ seen. seen.locks ≡ []) }
        ensures sectors { IfOk result (λ seen. seen.sectors ≡ []) }
    {
        let locks = Vec::with_capacity(alloc, 64)?;
        let sectors = Vec::with_capacity(alloc, 256)?;
        Ok(Seen { locks, sectors })
    }

    /// Whether the call holds the object.
    pub fn has_lock(&self, object: ObjNo) -> bool
        ensures exact { result ≡ has_lock self.now object }
        ensures whole { IsSeen self.now }
    {
        self.locks.contains(&object)
    }

    /// The sector, where the call has read it.
    pub fn sector(&self, at: SectorNo) -> Option<&Sector>
        ensures exact { MatchOption result (sector_in self.now.sectors at ≡ None)
            (λ s. sector_in self.now.sectors at ≡ Some s.now) }
        ensures whole { IsSeen self.now }
    {
        for pair in &self.sectors {
            if pair.0 == at {
                return Some(&pair.1);
            }
        }
        None
    }

    /// The call holds one more object. Takes no memory.
    pub fn lock(&mut self, object: ObjNo)
        requires fresh { has_lock self.old object ≡ false }
        requires room { length self.old.locks < 64 }
        ensures { self.new ≡ with_lock self.old object }
    {
        self.locks.push_reserved(object);
    }

    /// The call has read one more sector. Takes no memory.
    pub fn put(&mut self, at: SectorNo, sector: &Sector)
        requires fresh { sector_in self.old.sectors at ≡ None }
        requires room { length self.old.sectors < 256 }
        ensures { self.new ≡ with_sector self.old at sector.now }
    {
        self.add(at, *sector);
    }

    fn add(&mut self, at: SectorNo, sector: Sector)
        requires { length self.old.sectors < 256 }
        ensures { self.new ≡ with_sector self.old at sector }
    {
        self.sectors.push_reserved((at, sector));
    }

    /// The call holds no object, and has read no sector.
    pub fn clear(&mut self)
        ensures locks { self.new.locks ≡ [] }
        ensures sectors { self.new.sectors ≡ [] }
    {
        self.locks.clear();
        self.sectors.clear();
    }
}

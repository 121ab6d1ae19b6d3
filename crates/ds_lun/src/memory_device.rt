//! A device that keeps only the sectors in use, and the commands on it.
ghost use Rattle.std.specs.Prelude.{◌≡◌, ◌<◌, ◌≤◌, ◌+◌, ◌^◌, ℕ, length, replicate, slice_get, slice_set, MatchOption, IfSome, IfOk, OnOk, Some, None, nat_eq, option_copied};
ghost use Rattle.ds_base.specs.Device.{stored, target_of, Answers, IsTheAnswer, IsFirstDifference};
ghost use Rattle.ds_lun.specs.Devices.{zero_sector, kept_or_zero, writes_of};

use crate::comparing::{first_difference, is_zero};
use ds_base::{Command, NoMemory, Response, Sector, SectorNo};
use std::alloc::Global;
use std::collections::HashMap;
use std::marker::Model;

/// A device of fewer than 2^32 sectors. It keeps only those that are, or once were, other than zero: the first of them without a gap in
/// front, by their numbers, and the others in a map.
#[derive(Drop)]
pub struct MemLun {
    len: u32,
    front: Vec<Sector>,
    kept: HashMap<SectorNo, Sector>,
}

impl Model for MemLun {
    ghost use Rattle.std.specs.Prelude.{nat_eq};
    ghost use Rattle.std.specs.HashMap.{get, spare as room_of};
    ghost use Rattle.ds_lun.specs.Devices.{DeviceValue, held_in, sectors_of};

    ghost Value = { DeviceValue };

    ghost view = { λ l. record { sectors = sectors_of (held_in l.front.items (get nat_eq l.kept)) l.len; spare = room_of l.kept } };
}

impl MemLun {
    /// A device that holds these sectors.
    pub fn from_list(alloc: Global, sectors: Vec<Sector>) -> Result<MemLun, NoMemory>
        requires { length sectors.items < 2 ^ 32 }
        ensures { IfOk result (λ lun. lun.sectors ≡ sectors.items) }
    {
        let len = sectors.len() as u32;
        let mut lun = MemLun::sparse(alloc, len)?;
        for at in 0..len {
            lun.make_room(1)?;
            lun.put(at, &sectors[at as usize]);
        }
        Ok(lun)
    }

    /// A device of `len` sectors that are all zero.
    pub fn sparse(alloc: Global, len: u32) -> Result<MemLun, NoMemory>
        ensures { IfOk result (λ lun. lun.sectors ≡ replicate len zero_sector) }
    {
        Ok(MemLun {
            len,
            front: Vec::new(alloc),
            kept: HashMap::new(alloc),
        })
    }

    /// Makes room for so many sectors more. Without memory it may still have made some. Where the front gets none, the map has it.
    pub fn make_room(&mut self, sectors: u32) -> Result<(), NoMemory>
        ensures room { OnOk result (sectors ≤ self.new.spare) }
        ensures sectors { self.new.sectors ≡ self.old.sectors }
        ensures spare { self.old.spare ≤ self.new.spare }
    {
        let _in_front = self.front.reserve(sectors as usize);
        self.kept.reserve(sectors as usize).map_err(|_| NoMemory)
    }

    /// The number of sectors.
    pub fn len(&self) -> u32
        ensures { result ≡ length self.now.sectors }
    {
        self.len
    }

    pub fn sector(&self, at: SectorNo) -> Sector
        requires { at < length self.now.sectors }
        ensures { slice_get self.now.sectors at ≡ Some result }
    {
        match self.held(at) {
            Some(held) => *held,
            None => Sector::zero(),
        }
    }

    /// The sector where it is held; `None` where it is zero and is not.
    fn held(&self, at: SectorNo) -> Option<&Sector>
        requires { at < length self.now.sectors }
        ensures { slice_get self.now.sectors at ≡ Some (kept_or_zero (option_copied result)) }
    {
        if (at as usize) < self.front.len() {
            return Some(&self.front[at as usize]);
        }
        self.kept.get(&at)
    }

    /// Makes a sector zero, and no longer keeps it, unless it is in front. Takes no room.
    pub fn zero(&mut self, at: SectorNo)
        requires { at < length self.old.sectors }
        ensures sectors { self.new.sectors ≡ slice_set self.old.sectors at zero_sector }
        ensures spare { self.old.spare ≤ self.new.spare }
    {
        if (at as usize) < self.front.len() {
            self.front[at as usize] = Sector::zero();
            return;
        }
        self.kept.remove(&at);
    }

    /// Does a command, and answers it: never by `Fault`. Takes no memory.
    #[inline(always)]
    pub fn do_command(&mut self, command: &Command) -> Response
        requires there { target_of command.now < length self.old.sectors }
        requires room { 0 < self.old.spare }
        ensures stored { self.new.sectors ≡ stored self.old.sectors command.now }
        ensures answer { Answers self.old.sectors command.now result }
        ensures only { IsTheAnswer self.old.sectors command.now result }
        ensures within { (offset : ℕ) → result ≡ Response.Miscompare offset → offset < 512 }
        ensures spare { self.old.spare ≤ self.new.spare + writes_of self.old.sectors command.now }
    {
        match command {
            Command::Read { at } => match self.held(*at) {
                Some(held) => Response::Got(*held),
                None => Response::Got(Sector::zero()),
            },
            Command::Write { at, fresh } => {
                self.put(*at, fresh);
                Response::Done
            }
            Command::Swap { at, verify, fresh } => match self.mismatch(*at, verify) {
                None => {
                    self.put(*at, fresh);
                    Response::Done
                }
                Some(offset) => Response::Miscompare { offset },
            },
        }
    }

    /// The least offset at which the sector and the image differ.
    fn mismatch(&self, at: SectorNo, verify: &Sector) -> Option<u16>
        requires { at < length self.now.sectors }
        ensures first { MatchOption result (slice_get self.now.sectors at ≡ Some verify.now)
            (λ offset. (s : Sector) × (slice_get self.now.sectors at ≡ Some s)
            × IsFirstDifference s.bytes verify.now.bytes offset) }
        ensures within { IfSome result (λ offset. offset < 512) }
    {
        match self.held(at) {
            Some(held) => first_difference(held, verify),
            None => first_difference(&Sector::zero(), verify),
        }
    }

    /// Puts the image into its sector. One that is zero and not kept stays so.
    fn put(&mut self, at: SectorNo, fresh: &Sector)
        requires there { at < length self.old.sectors }
        requires room { 0 < self.old.spare }
        ensures sectors { self.new.sectors ≡ slice_set self.old.sectors at fresh.now }
        ensures spare { self.old.spare ≤ self.new.spare + 1 }
    {
        if (at as usize) < self.front.len() {
            self.front[at as usize] = *fresh;
            return;
        }
        if let Some(held) = self.kept.get_mut(&at) {
            *held = *fresh;
            return;
        }
        if is_zero(fresh) {
            return;
        }
        if at as usize == self.front.len() && self.front.len() < self.front.capacity() {
            self.front.push_reserved(*fresh);
            return;
        }
        match self.kept.insert(at, *fresh) {
            Ok(_) => {}
            Err(_) => unreachable!(),
        }
    }
}

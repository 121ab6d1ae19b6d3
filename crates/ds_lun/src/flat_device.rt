//! A flat list of sectors, and the commands on it: the plain program beside the device that keeps only what is in use.
ghost use Rattle.std.specs.Prelude.{◌≡◌, ◌<◌, ◌^◌, length, slice_get, slice_set, MatchOption, IfSome, Some};
ghost use Rattle.ds_base.specs.Device.{stored, target_of, Answers, IsTheAnswer};

use crate::comparing::first_difference;
use ds_base::{Command, Response, Sector, SectorNo};
use std::marker::Model;

/// The sectors of a device: fewer than 2^32.
#[derive(Drop)]
pub struct FlatLun {
    sectors: Vec<Sector>,
}

impl Model for FlatLun {
    ghost use Rattle.std.specs.Prelude.{◌<◌, ◌^◌, List, length};
    ghost use Rattle.ds_base.specs.declared.sectors.Sector.{Sector};

    ghost Value = { List Sector };

    ghost view = { λ lun. lun.sectors.items };

    ghost invariant = { λ lun. length lun.sectors.items < 2 ^ 32 };
}

impl FlatLun {
    /// A device that holds these sectors.
    pub fn from_list(sectors: Vec<Sector>) -> FlatLun
        requires { length sectors.items < 2 ^ 32 }
        ensures { result ≡ sectors.items }
    {
        FlatLun { sectors }
    }

    /// The number of sectors.
    pub fn len(&self) -> u32
        ensures { result ≡ length self.now }
    {
        self.sectors.len() as u32
    }

    pub fn sector(&self, at: SectorNo) -> Sector
        requires { at < length self.now }
        ensures { slice_get self.now at ≡ Some result }
    {
        *self.held(at)
    }

    fn held(&self, at: SectorNo) -> &Sector
        requires { at < length self.now }
        ensures { slice_get self.now at ≡ Some result.now }
    {
        &self.sectors[at as usize]
    }

    fn write(&mut self, at: SectorNo, fresh: &Sector)
        requires { at < length self.old }
        ensures { self.new ≡ slice_set self.old at fresh.now }
    {
        self.sectors[at as usize] = *fresh;
    }

    fn compare_and_write(&mut self, at: SectorNo, verify: &Sector, fresh: &Sector) -> Option<u16>
        requires { at < length self.old }
        ensures stored { self.new ≡ stored self.old (Command.Swap at verify.now fresh.now) }
        ensures answer { MatchOption result (Answers self.old (Command.Swap at verify.now fresh.now) Response.Done)
            (λ offset. Answers self.old (Command.Swap at verify.now fresh.now) (Response.Miscompare offset)) }
        ensures within { IfSome result (λ offset. offset < 512) }
    {
        match first_difference(self.held(at), verify) {
            None => {
                self.write(at, fresh);
                None
            }
            Some(offset) => Some(offset),
        }
    }

    /// Does a command, and answers it: never by `Fault`. Takes no memory.
    pub fn do_command(&mut self, command: &Command) -> Response
        requires { target_of command.now < length self.old }
        ensures stored { self.new ≡ stored self.old command.now }
        ensures answer { Answers self.old command.now result }
        ensures only { IsTheAnswer self.old command.now result }
    {
        match command {
            Command::Read { at } => Response::Got(self.sector(*at)),
            Command::Write { at, fresh } => {
                self.write(*at, fresh);
                Response::Done
            }
            Command::Swap { at, verify, fresh } => match self.compare_and_write(
                *at, verify, fresh,
            ) {
                None => Response::Done,
                Some(offset) => Response::Miscompare { offset },
            },
        }
    }
}

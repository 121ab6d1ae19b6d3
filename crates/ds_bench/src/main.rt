//! Carries out commands on a device in memory, to be timed: on the flat one, or on the one that keeps only the sectors in use.
//!
//! Its input is one line, `flat SECTORS COMMANDS`, `full SECTORS COMMANDS` or `thin SECTORS COMMANDS`. A flat and a full device hold an
//! image in every sector at first, a thin one in none. Each command writes one sector, reads it, or swaps it, and the sectors follow one
//! another as if by chance. The output is the sum of the first bytes that were read.
#![tactic(auto)]

ghost use Rattle.std.specs.Prelude.{◌≡◌, ◌<◌};
ghost use Rattle.ds_base.specs.Device.{target_of};

use ds_base::{Command, NoMemory, Response, Sector, SectorNo};
use ds_lun::{FlatLun, MemLun};
use std::alloc::Global;
use std::io;

/// The sector of a command with this number, in a device of so many sectors, which are not none.
fn sector_of(number: u32, sectors: u32) -> SectorNo
    requires { 0 < sectors }
    ensures { result < sectors }
{
    number.wrapping_mul(2_654_435_761) % sectors
}

fn image(byte: u8) -> Sector {
    Sector { bytes: [byte; 512] }
}

/// The command with this number: a Write, a Read or a Swap of the sector, in turn.
fn command_of(number: u32, at: SectorNo) -> Command
    ensures { target_of result ≡ at }
{
    match number % 3 {
        0 => Command::Write {
            at,
            fresh: image((number / 3 % 251) as u8),
        },
        1 => Command::Read { at },
        _ => Command::Swap {
            at,
            verify: image(1),
            fresh: image(2),
        },
    }
}

fn byte_of(response: &Response) -> u64 {
    match response {
        Response::Got(sector) => u64::from(sector.bytes[0]),
        _ => 0,
    }
}

/// The flat device, with an image in every sector.
fn run_flat(alloc: Global, sectors: u32, commands: u32) -> Result<u64, NoMemory> {
    let mut list = Vec::with_capacity(alloc, sectors as usize).map_err(|_| NoMemory)?;
    for _ in 0..sectors {
        list.push(image(1)).map_err(|_| NoMemory)?;
    }
    let mut sum: u64 = 0;
    if list.len() >= 1 << 32 {
        return Ok(sum);
    }
    let mut lun = FlatLun::from_list(list);
    for number in 0..commands {
        let len = lun.len();
        if len == 0 {
            return Ok(sum);
        }
        let command = command_of(number, sector_of(number, len));
        sum = sum.wrapping_add(byte_of(&lun.do_command(&command)));
    }
    Ok(sum)
}

/// The device that keeps only the sectors in use, with an image in every sector, or in none.
fn run_sparse(alloc: Global, sectors: u32, commands: u32, full: bool) -> Result<u64, NoMemory> {
    let mut lun = MemLun::sparse(alloc, sectors)?;
    if full {
        for at in 0..sectors {
            lun.make_room(1)?;
            if at < lun.len() {
                let fresh = image(1);
                lun.do_command(&Command::Write { at, fresh });
            }
        }
    }
    let mut sum: u64 = 0;
    for number in 0..commands {
        let len = lun.len();
        if len == 0 {
            return Ok(sum);
        }
        lun.make_room(1)?;
        let command = command_of(number, sector_of(number, len));
        sum = sum.wrapping_add(byte_of(&lun.do_command(&command)));
    }
    Ok(sum)
}

fn number(word: Option<&str>) -> u32 {
    match word {
        Some(word) => word.parse().unwrap_or(0),
        None => 0,
    }
}

fn main(rt: HostRuntime) -> io::Result<()> {
    for line in rt.lines(rt.alloc()) {
        let line = line?;
        let mut words = line.as_str().split_whitespace();
        let kind = words.next().unwrap_or("");
        let sectors = number(words.next());
        let commands = number(words.next());
        let sum = match kind {
            "flat" => run_flat(rt.alloc(), sectors, commands),
            "full" => run_sparse(rt.alloc(), sectors, commands, true),
            _ => run_sparse(rt.alloc(), sectors, commands, false),
        };
        match sum {
            Ok(sum) => println!(rt; "{sum}")?,
            Err(NoMemory) => println!(rt; "out of memory")?,
        }
    }
    Ok(())
}

//! An initiator of single commands: each goes through the bytes of a command descriptor block, and its answer through a
//! reply with sense data.
ghost use Rattle.std.specs.Prelude.{◌≡◌, ◌<◌, ◌≤◌, ◌+◌, ℕ, length, take, drop, Some, None};
ghost use Rattle.ds_base.specs.Device.{stored, target_of, Answers, IsTheAnswer};
ghost use Rattle.ds_lun.specs.Devices.{writes_of};
ghost use Rattle.ds_scsi.specs.SenseData.{sense_bytes};

use crate::execution::{ScsiReply, execute};
use ds_base::{Command, Response, Sector};
use ds_lun::MemLun;
use ds_scsi::{Sense, cdb_of, read_sense};

/// Does a command, and answers it, as `MemLun::do_command` does: never by `Fault`, and without memory.
pub fn send(lun: &mut MemLun, command: &Command) -> Response
    requires there { target_of command.now < length lun.old.sectors }
    requires room { 0 < lun.old.spare }
    ensures stored { lun.new.sectors ≡ stored lun.old.sectors command.now }
    ensures answer { Answers lun.old.sectors command.now result }
    ensures only { IsTheAnswer lun.old.sectors command.now result }
    ensures within { (offset : ℕ) → result ≡ Response.Miscompare offset → offset < 512 }
    ensures spare { lun.old.spare ≤ lun.new.spare + writes_of lun.old.sectors command.now }
{
    let cdb = cdb_of(command);
    match command {
        Command::Read { .. } => {
            let mut bytes = [0; 512];
            let reply = execute(lun, &cdb, &[], &mut bytes);
            match response_to(reply) {
                Response::Done => Response::Got(Sector { bytes }),
                other => other,
            }
        }
        Command::Write { fresh, .. } => response_to(execute(lun, &cdb, &fresh.bytes, &mut [])),
        Command::Swap { verify, fresh, .. } => {
            let mut out = [0; 1024];
            put_instances(&mut out, verify, fresh);
            response_to(execute(lun, &cdb, &out, &mut []))
        }
    }
}

/// Puts the verify instance and then the write instance, as COMPARE AND WRITE takes them.
fn put_instances(out: &mut [u8], verify: &Sector, fresh: &Sector)
    requires { length out.old ≡ 1024 }
    ensures front { take 512 out.new ≡ verify.now.bytes }
    ensures back { drop 512 out.new ≡ fresh.now.bytes }
{
    out[..512].copy_from_slice(&verify.bytes);
    out[512..].copy_from_slice(&fresh.bytes);
}

/// What the sense data of a reply tells: that the command is done, a mismatch, or else a fault.
fn response_to(reply: ScsiReply) -> Response
    ensures done { reply.sense ≡ None → result ≡ Response.Done }
    ensures mismatch { (offset : ℕ) → offset < 512 → reply.sense ≡ Some (sense_bytes (Sense.Miscompare offset))
        → result ≡ Response.Miscompare offset }
    ensures within { (offset : ℕ) → result ≡ Response.Miscompare offset → offset < 512 }
{
    let Some(bytes) = reply.sense else {
        return Response::Done;
    };
    match read_sense(&bytes) {
        Some(Sense::Miscompare { offset }) if offset < 512 => Response::Miscompare {
            offset: offset as u16,
        },
        _ => Response::Fault,
    }
}

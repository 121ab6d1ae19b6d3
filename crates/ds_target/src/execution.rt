//! One command of a host: looked at, carried out and answered.
ghost use Rattle.std.specs.Prelude.{◌≡◌, ◌+◌, ◌^◌, ◌<◌, ◌≤◌, ◌++◌, length, drop, MatchBool, MatchOption, if◌then◌else◌};
ghost use Rattle.std.specs.Result.{ForOk};
ghost use Rattle.ds_scsi.specs.CommandBlocks.{cdb_at, in_len_of, out_len_of, IsWithinProfile};
ghost use Rattle.ds_target.specs.Execution.{lba_of, count_of, room_of, is_verified, written, bytes_read, TellsMismatch, Replies, IsTheReply, sectors_after, blocks_written, data_in, cause_of, good, check_condition};

use crate::transfers::{compare_and_write, read_blocks, write_blocks};
use ds_base::SectorNo;
use ds_lun::MemLun;
use ds_scsi::{Cdb, CdbFault, Sense, in_len, read_cdb, sense_of};

/// The status of a command, its sense data where it ended in CHECK CONDITION, and how many bytes of Data-In were sent.
#[derive(Clone, Copy, Debug, PartialEq, Eq)]
pub struct ScsiReply {
    pub status: u8,
    pub sense: Option<[u8; 18]>,
    pub sent: usize,
}

const GOOD: u8 = 0x00;

const CHECK_CONDITION: u8 = 0x02;

/// Carries out the command of a command descriptor block. `out` is its Data-Out buffer, the front of `into` its Data-In
/// buffer.
pub fn execute(lun: &mut MemLun, cdb: &[u8], out: &[u8], into: &mut [u8]) -> ScsiReply
    requires data_out { ForOk (cdb_at cdb.now) (λ form. length out.now ≡ out_len_of form) }
    requires data_in { ForOk (cdb_at cdb.now) (λ form. in_len_of form ≤ length into.old) }
    requires room { ForOk (cdb_at cdb.now) (λ form. room_of form ≤ lun.old.spare) }
    ensures reply { Replies lun.old.sectors (cdb_at cdb.now) out.now result }
    ensures only { IsTheReply lun.old.sectors (cdb_at cdb.now) out.now result }
    ensures sectors { lun.new.sectors ≡ sectors_after lun.old.sectors (cdb_at cdb.now) out.now }
    ensures data_in { into.new ≡ data_in lun.old.sectors (cdb_at cdb.now) ++ drop result.sent into.old }
    ensures spare { lun.old.spare ≤ lun.new.spare + blocks_written lun.old.sectors (cdb_at cdb.now) out.now }
{
    match read_cdb(cdb) {
        Ok(form) => execute_form(lun, &form, out, into),
        Err(fault) => check_condition(cause_of(fault)),
    }
}

fn execute_form(lun: &mut MemLun, form: &Cdb, out: &[u8], into: &mut [u8]) -> ScsiReply
    requires limits { IsWithinProfile form.now }
    requires data_out { length out.now ≡ out_len_of form.now }
    requires data_in { in_len_of form.now ≤ length into.old }
    requires room { room_of form.now ≤ lun.old.spare }
    ensures reply { Replies lun.old.sectors (Ok form.now) out.now result }
    ensures sectors { lun.new.sectors ≡ sectors_after lun.old.sectors (Ok form.now) out.now }
    ensures data_in { into.new ≡ data_in lun.old.sectors (Ok form.now) ++ drop result.sent into.old }
    ensures spare { lun.old.spare ≤ lun.new.spare + blocks_written lun.old.sectors (Ok form.now) out.now }
{
    if count_of(form) == 0 {
        return good(0);
    }
    match first_sector(lun, form) {
        Some(at) => carry_out(lun, form, at, out, into),
        None => check_condition(Sense::OutOfRange),
    }
}

/// Carries out a command whose sectors, of which `at` is the first, are there.
fn carry_out(lun: &mut MemLun, form: &Cdb, at: SectorNo, out: &[u8], into: &mut [u8]) -> ScsiReply
    requires limits { IsWithinProfile form.now }
    requires some { 0 < count_of form.now }
    requires first { at ≡ lba_of form.now }
    requires range { at + count_of form.now ≤ length lun.old.sectors }
    requires fits { at + count_of form.now < 2 ^ 32 }
    requires data_out { length out.now ≡ out_len_of form.now }
    requires data_in { in_len_of form.now ≤ length into.old }
    requires room { room_of form.now ≤ lun.old.spare }
    ensures reply { MatchBool (is_verified lun.old.sectors form.now out.now)
        (result ≡ good (in_len_of form.now)) (TellsMismatch lun.old.sectors form.now out.now result) }
    ensures sectors { lun.new.sectors
        ≡ (if is_verified lun.old.sectors form.now out.now then written lun.old.sectors form.now out.now else lun.old.sectors) }
    ensures data_in { into.new ≡ bytes_read lun.old.sectors form.now ++ drop result.sent into.old }
    ensures spare { lun.old.spare
        ≤ lun.new.spare + (if is_verified lun.old.sectors form.now out.now then room_of form.now else 0) }
{
    match form {
        Cdb::Read { count, .. } => {
            read_blocks(lun, at, *count, into);
            good(in_len(form))
        }
        Cdb::Write { count, .. } => {
            write_blocks(lun, at, *count, out);
            good(0)
        }
        Cdb::Swap { .. } => match compare_and_write(lun, at, out) {
            None => good(0),
            Some(offset) => check_condition(Sense::Miscompare {
                offset: u32::from(offset),
            }),
        },
    }
}

/// The first sector that a command asks for; `None` where it asks for one that isn't there.
fn first_sector(lun: &MemLun, form: &Cdb) -> Option<SectorNo>
    ensures { MatchOption result (length lun.now.sectors < lba_of form.now + count_of form.now)
        (λ at. (at ≡ lba_of form.now) × (at + count_of form.now ≤ length lun.now.sectors) × (at + count_of form.now < 2 ^ 32)) }
{
    let len = lun.len();
    let lba = lba_of(form);
    let count = count_of(form);
    if lba > u64::from(len) || u64::from(count) > u64::from(len) - lba {
        return None;
    }
    Some(lba as u32)
}

fn lba_of(form: &Cdb) -> u64
    ensures { result ≡ lba_of form.now }
{
    match form {
        Cdb::Read { lba, .. } | Cdb::Write { lba, .. } | Cdb::Swap { lba, .. } => *lba,
    }
}

fn count_of(form: &Cdb) -> u32
    ensures { result ≡ count_of form.now }
{
    match form {
        Cdb::Read { count, .. } | Cdb::Write { count, .. } => *count,
        Cdb::Swap { count, .. } => u32::from(*count),
    }
}

fn cause_of(fault: CdbFault) -> Sense
    ensures { result ≡ cause_of fault }
{
    match fault {
        CdbFault::BadOpcode => Sense::BadOpcode,
        CdbFault::ShortCdb | CdbFault::BadField { .. } => Sense::BadField,
    }
}

fn good(sent: usize) -> ScsiReply
    ensures { result ≡ good sent }
{
    ScsiReply {
        status: GOOD,
        sense: None,
        sent,
    }
}

fn check_condition(cause: Sense) -> ScsiReply
    ensures { result ≡ check_condition cause }
{
    ScsiReply {
        status: CHECK_CONDITION,
        sense: Some(sense_of(&cause)),
        sent: 0,
    }
}

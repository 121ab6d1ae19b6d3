//! Runs of logical blocks between the device and a buffer.
ghost use Rattle.std.specs.Prelude.{◌≡◌, ◌+◌, ◌*◌, ◌^◌, ◌<◌, ◌≤◌, ◌++◌, length, drop, slice_range, true, false, MatchOption, if◌then◌else◌};
ghost use Rattle.ds_base.specs.Device.{IsFirstDifference};
ghost use Rattle.ds_target.specs.Blocks.{bytes_from, images_in, overwritten};
ghost use Rattle.ds_target.specs.Execution.{is_verified, written};

use ds_base::{Command, Response, Sector, SectorNo};
use ds_lun::MemLun;
use ds_scsi::Cdb;

/// Puts the bytes of `count` sectors from `at` on at the front of `into`.
pub fn read_blocks(lun: &MemLun, at: SectorNo, count: u32, into: &mut [u8])
    requires range { at + count ≤ length lun.now.sectors }
    requires fits { at + count < 2 ^ 32 }
    requires room { 512 * count ≤ length into.old }
    ensures { into.new ≡ bytes_from lun.now.sectors at count ++ drop (512 * count) into.old }
{
    for i in 0..count {
        let sector = lun.sector(at + i);
        let start = 512 * i as usize;
        into[start..start + 512].copy_from_slice(&sector.bytes);
    }
}

/// Puts the blocks of `out` into `count` sectors from `at` on.
pub fn write_blocks(lun: &mut MemLun, at: SectorNo, count: u32, out: &[u8])
    requires range { at + count ≤ length lun.old.sectors }
    requires fits { at + count < 2 ^ 32 }
    requires whole { length out.now ≡ 512 * count }
    requires room { count ≤ lun.old.spare }
    ensures sectors { lun.new.sectors ≡ overwritten lun.old.sectors at (images_in count out.now) }
    ensures spare { lun.old.spare ≤ lun.new.spare + count }
{
    let mut fresh = Sector::zero();
    for i in 0..count {
        let start = 512 * i as usize;
        fresh.bytes.copy_from_slice(&out[start..start + 512]);
        let next = at + i;
        lun.do_command(&Command::Write { at: next, fresh });
    }
}

/// Puts the second block of `out` into the sector that holds the first. Otherwise nothing changes, and the least offset at
/// which the two differ is told.
pub fn compare_and_write(lun: &mut MemLun, at: SectorNo, out: &[u8]) -> Option<u16>
    requires range { at < length lun.old.sectors }
    requires whole { length out.now ≡ 1024 }
    requires room { 0 < lun.old.spare }
    ensures sectors { let form = Cdb.Swap at 1 in lun.new.sectors
        ≡ (if is_verified lun.old.sectors form out.now then written lun.old.sectors form out.now else lun.old.sectors) }
    ensures answer { let verified = is_verified lun.old.sectors (Cdb.Swap at 1) out.now in
        MatchOption result (verified ≡ true) (λ offset. (verified ≡ false) × (offset < 512)
        × IsFirstDifference (bytes_from lun.old.sectors at 1) out.now offset) }
    ensures spare { lun.old.spare ≤ lun.new.spare + (if is_verified lun.old.sectors (Cdb.Swap at 1) out.now then 1 else 0) }
{
    let verify = image_at(out, 0);
    let fresh = image_at(out, 512);
    match lun.do_command(&Command::Swap { at, verify, fresh }) {
        Response::Done => None,
        Response::Miscompare { offset } => Some(offset),
        Response::Got(_) | Response::Fault => unreachable!(),
    }
}

/// The image in the 512 bytes from `start` on.
pub fn image_at(bytes: &[u8], start: usize) -> Sector
    requires { start + 512 ≤ length bytes.now }
    ensures { result.bytes ≡ slice_range bytes.now start (start + 512) }
{
    let mut image = [0; 512];
    image.copy_from_slice(&bytes[start..start + 512]);
    Sector { bytes: image }
}

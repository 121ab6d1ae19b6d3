//! Worked commands: what is read of their bytes, how they are answered, and what the device holds then.
ghost use Rattle.std.specs.Prelude.{◌≡◌, ◌<◌, length};

use ds_base::{Command, Response, Sector, SectorNo};
use ds_lun::{FlatLun, MemLun};
use ds_scsi::{Cdb, CdbFault, cdb_of, in_len, out_len, read_cdb};
use ds_target::{ScsiReply, execute, send};
use std::alloc::Global;
use std::process::Abort;
use std::test::Fail;

const READ: u8 = 0x88;

const COMPARE_AND_WRITE: u8 = 0x89;

const WRITE: u8 = 0x8a;

/// A block with this operation code, byte 1, LBA and bytes 10 to 13, and ones in the bytes that are ignored.
fn block(code: u8, byte_1: u8, lba: u64, length: u32) -> [u8; 16] {
    let [a, b, c, d, e, f, g, h] = lba.to_be_bytes();
    let [i, j, k, l] = length.to_be_bytes();
    [code, byte_1, a, b, c, d, e, f, g, h, i, j, k, l, 0xff, 0xff]
}

fn bad_field(byte: u8) -> Result<Cdb, CdbFault> {
    Err(CdbFault::BadField { byte })
}

#[test]
fn a_block_is_looked_at_in_order(rt: HostRuntime) {
    let lba = 0x0102_0304_0506_0708;
    let read = Cdb::Read { lba, count: 256 };
    let write = Cdb::Write { lba, count: 256 };
    let swap = Cdb::Swap { lba, count: 1 };
    let cases = [
        (block(READ, 0, lba, 256), Ok(read)),
        (block(WRITE, 0x1f, lba, 256), Ok(write)),
        (block(COMPARE_AND_WRITE, 0x1f, lba, 0xffff_ff01), Ok(swap)),
        (block(READ, 0, lba, 257), bad_field(10)),
        (block(WRITE, 0, lba, 0x0100_0000), bad_field(10)),
        (block(COMPARE_AND_WRITE, 0, lba, 2), bad_field(13)),
        (block(READ, 0x20, lba, 257), bad_field(1)),
        (block(COMPARE_AND_WRITE, 0x80, lba, 2), bad_field(1)),
        (block(0x28, 0x20, lba, 257), Err(CdbFault::BadOpcode)),
    ];
    for (bytes, want) in cases {
        assert_eq!(rt; read_cdb(&bytes), want, "{bytes:?}");
    }
    let refused = block(READ, 0x20, lba, 257);
    for len in [0, 1, 15] {
        assert_eq!(rt; read_cdb(&refused[..len]), Err(CdbFault::ShortCdb), "{len}");
    }
    assert_eq!(rt; read_cdb(&[0x28]), Err(CdbFault::BadOpcode));
    let longer = [READ, 0, 0, 0, 0, 0, 0, 0, 0, 5, 0, 0, 0, 0, 0, 0, 0xff];
    assert_eq!(rt; read_cdb(&longer), Ok(Cdb::Read { lba: 5, count: 0 }));
}

/// A device of sectors that are all zero.
fn device(alloc: Global, count: u32) -> Result<MemLun, Fail> {
    Ok(MemLun::sparse(alloc, count)?)
}

/// Executes a command with buffers as long and as much room as it needs.
fn run(rt: &impl Abort, lun: &mut MemLun, cdb: &[u8], out: &[u8], into: &mut [u8]) -> ScsiReply {
    assert!(rt; lun.make_room(256).is_ok());
    match read_cdb(cdb) {
        Ok(form) => {
            let (needs, room) = (out_len(&form), in_len(&form));
            assert_eq!(rt; out.len(), needs);
            assert!(rt; room <= into.len());
            execute(lun, cdb, out, into)
        }
        Err(_) => execute(lun, cdb, out, into),
    }
}

fn sector_of(rt: &impl Abort, lun: &MemLun, at: u32) -> Sector {
    assert!(rt; at < lun.len());
    lun.sector(at)
}

fn assert_good(rt: &impl Abort, reply: ScsiReply, sent: usize) {
    let want = ScsiReply {
        status: 0x00,
        sense: None,
        sent,
    };
    assert_eq!(rt; reply, want);
}

fn assert_check(rt: &impl Abort, reply: ScsiReply, sense: [u8; 18]) {
    let want = ScsiReply {
        status: 0x02,
        sense: Some(sense),
        sent: 0,
    };
    assert_eq!(rt; reply, want);
}

const BAD_FIELD: [u8; 18] = [
    0x70, 0, 0x05, 0, 0, 0, 0, 0x0a, 0, 0, 0, 0, 0x24, 0, 0, 0, 0, 0,
];

const BAD_OPCODE: [u8; 18] = [
    0x70, 0, 0x05, 0, 0, 0, 0, 0x0a, 0, 0, 0, 0, 0x20, 0, 0, 0, 0, 0,
];

const OUT_OF_RANGE: [u8; 18] = [
    0x70, 0, 0x05, 0, 0, 0, 0, 0x0a, 0, 0, 0, 0, 0x21, 0, 0, 0, 0, 0,
];

const MISCOMPARE_AT_511: [u8; 18] = [
    0xf0, 0, 0x0e, 0, 0, 0x01, 0xff, 0x0a, 0, 0, 0, 0, 0x1d, 0, 0, 0, 0, 0,
];

#[test]
fn compare_and_write_is_carried_out_or_refused(rt: HostRuntime) -> Result<(), Fail> {
    let mut lun = device(rt.alloc(), 254)?;
    let written = Sector { bytes: [0xaa; 512] };
    let mut out = [0; 1024];
    out[512..].copy_from_slice(&written.bytes);
    let mut other = out;
    other[511] = 1;
    let at_5 = [0x89, 0, 0, 0, 0, 0, 0, 0, 0, 5, 0, 0, 0, 1, 0, 0];
    let reply = run(&rt, &mut lun, &at_5, &other, &mut []);
    assert_check(&rt, reply, MISCOMPARE_AT_511);
    assert_eq!(rt; sector_of(&rt, &lun, 5), Sector::zero());

    let none = block(COMPARE_AND_WRITE, 0, 5, 0);
    let reply = run(&rt, &mut lun, &none, &[], &mut []);
    assert_good(&rt, reply, 0);
    let two = block(COMPARE_AND_WRITE, 0, 5, 2);
    let reply = run(&rt, &mut lun, &two, &out, &mut []);
    assert_check(&rt, reply, BAD_FIELD);
    let reply = run(&rt, &mut lun, &[], &out, &mut []);
    assert_check(&rt, reply, BAD_FIELD);
    let reply = run(&rt, &mut lun, &[0x28], &out, &mut []);
    assert_check(&rt, reply, BAD_OPCODE);
    assert_eq!(rt; sector_of(&rt, &lun, 5), Sector::zero());

    let last = block(COMPARE_AND_WRITE, 0, 253, 1);
    let reply = run(&rt, &mut lun, &last, &out, &mut []);
    assert_good(&rt, reply, 0);
    assert_eq!(rt; sector_of(&rt, &lun, 253), written);
    let past = block(COMPARE_AND_WRITE, 0, 254, 1);
    let reply = run(&rt, &mut lun, &past, &out, &mut []);
    assert_check(&rt, reply, OUT_OF_RANGE);
    Ok(())
}

/// A buffer of so many equal bytes.
fn buffer(alloc: Global, byte: u8, count: usize) -> Result<Vec<u8>, Fail> {
    let bytes = vec![in alloc; byte; count]?;
    Ok(bytes)
}

/// Writes and reads a run that is refused, and sees that nothing is sent.
fn assert_refused(
    rt: &impl Abort,
    lun: &mut MemLun,
    lba: u64,
    count: u32,
    buffer: &mut [u8],
    sense: [u8; 18],
) {
    let write = block(WRITE, 0, lba, count);
    let reply = run(rt, lun, &write, buffer, &mut []);
    assert_check(rt, reply, sense);
    let read = block(READ, 0, lba, count);
    let reply = run(rt, lun, &read, &[], buffer);
    assert_check(rt, reply, sense);
    assert!(rt; buffer.iter().all(|byte| *byte == 0x55));
}

#[test]
fn runs_past_the_end_are_refused(rt: HostRuntime) -> Result<(), Fail> {
    let mut lun = device(rt.alloc(), 300)?;
    let mut buffer = buffer(rt.alloc(), 0x55, 512 * 256)?;
    let bytes = buffer.as_mut_slice();
    let top = u64::MAX;
    assert_refused(&rt, &mut lun, 43, 257, bytes, BAD_FIELD);
    for lba in [45, 0x1_0000_0000, top - 255, top] {
        assert_refused(&rt, &mut lun, lba, 256, bytes, OUT_OF_RANGE);
    }
    for code in [READ, WRITE, COMPARE_AND_WRITE] {
        let none = block(code, 0, top, 0);
        let reply = run(&rt, &mut lun, &none, &[], &mut []);
        assert_good(&rt, reply, 0);
    }
    for at in 0..300 {
        assert_eq!(rt; sector_of(&rt, &lun, at), Sector::zero());
    }
    Ok(())
}

/// Writes `out` from sector 44 on, and reads as many sectors from there into the front of `into`.
fn write_and_read(
    rt: &impl Abort,
    lun: &mut MemLun,
    out: &[u8],
    count: u32,
    into: &mut [u8],
) -> usize {
    let write = block(WRITE, 0, 44, count);
    let reply = run(rt, lun, &write, out, &mut []);
    assert_good(rt, reply, 0);
    let read = block(READ, 0, 44, count);
    let reply = run(rt, lun, &read, &[], into);
    assert_good(rt, reply, out.len());
    reply.sent
}

#[test]
fn a_run_of_256_blocks_is_written_and_read(rt: HostRuntime) -> Result<(), Fail> {
    let mut lun = device(rt.alloc(), 300)?;
    let mut out = buffer(rt.alloc(), 0, 512 * 256)?;
    for (i, byte) in out.iter_mut().enumerate() {
        *byte = (i % 251) as u8;
    }
    let mut into = buffer(rt.alloc(), 0x55, 512 * 256 + 3)?;
    let sent = write_and_read(&rt, &mut lun, out.as_slice(), 256, into.as_mut_slice());
    assert_eq!(rt; sector_of(&rt, &lun, 43), Sector::zero());
    assert!(rt; sent <= into.len());
    let (front, rest) = into.as_slice().split_at(sent);
    assert_eq!(rt; front, out.as_slice());
    assert_eq!(rt; rest, [0x55, 0x55, 0x55].as_slice());
    Ok(())
}

/// Makes room for a command on a sector that is there.
fn make_ready(rt: &impl Abort, lun: &mut MemLun, at: SectorNo)
    ensures there { at < length lun.new.sectors }
    ensures room { 0 < lun.new.spare }
{
    assert!(rt; lun.make_room(1).is_ok());
    assert!(rt; at < lun.len());
}

#[test]
fn commands_are_sent(rt: HostRuntime) -> Result<(), Fail> {
    let mut flat = FlatLun::from_list(vec![in rt.alloc(); Sector::zero(); 6]?);
    let mut done = MemLun::from_list(rt.alloc(), vec![in rt.alloc(); Sector::zero(); 6]?)?;
    let mut sent = device(rt.alloc(), 6)?;
    let fresh = Sector { bytes: [7; 512] };
    let mut verify = fresh;
    verify.bytes[300] = 8;
    let at = 5;
    let differs = Command::Swap { at, verify, fresh };
    let equal = Command::Swap {
        at,
        verify: fresh,
        fresh: verify,
    };
    let cases = [
        (Command::Read { at }, Response::Got(Sector::zero())),
        (Command::Write { at, fresh }, Response::Done),
        (differs, Response::Miscompare { offset: 300 }),
        (Command::Read { at }, Response::Got(fresh)),
        (equal, Response::Done),
        (Command::Read { at }, Response::Got(verify)),
    ];
    for (command, want) in cases {
        assert!(rt; at < flat.len());
        assert_eq!(rt; flat.do_command(&command), want);
        make_ready(&rt, &mut done, at);
        assert_eq!(rt; done.do_command(&command), want);
        make_ready(&rt, &mut sent, at);
        assert_eq!(rt; send(&mut sent, &command), want);
    }
    assert!(rt; at < sent.len());
    sent.zero(at);
    assert_eq!(rt; sector_of(&rt, &sent, at), Sector::zero());
    let cdb = [0x89, 0, 0, 0, 0, 0, 0, 0, 0, 5, 0, 0, 0, 1, 0, 0];
    assert_eq!(rt; cdb_of(&differs), cdb);
    Ok(())
}

ghost use Rattle.std.specs.Prelude.{◌≡◌, ◌↔◌, IsTrue, IfOk};

use crate::{Entry, SubBlock};
use ds_base::{Key, Name, NodeKind, Sector};
use std::alloc::AllocError;
use std::test::Fail;

// That `==` and `clone` say what callers take them to say.
fn are_same_entries(a: &Entry, b: &Entry) -> bool
    ensures { IsTrue result ↔ (a.now ≡ b.now) }
{
    *a == *b
}

fn are_same_blocks(a: &SubBlock, b: &SubBlock) -> bool
    ensures { IsTrue result ↔ (a.now ≡ b.now) }
{
    *a == *b
}

fn copy_of_block(block: &SubBlock) -> Result<SubBlock, AllocError>
    ensures { IfOk result (λ copy. copy ≡ block.now) }
{
    block.clone()
}

/// A file `a.txt`, a free room, a file `x` with the greatest birth, and a directory `.x` with the greatest object.
fn good_bytes() -> [u8; 512] {
    let mut bytes = [0; 512];
    bytes[..21].copy_from_slice(
        b"\x01\x05\x00\x00\x04\x03\x02\x01\x08\x07\x06\x05\x04\x03\x02\x01a.txt",
    );
    bytes[256..273].copy_from_slice(
        b"\x01\x01\x00\x00\x09\x00\x00\x00\x00\x00\x00\x00\x00\x00\x00\x40x",
    );
    bytes[384..402].copy_from_slice(
        b"\x02\x02\x00\x00\xff\xff\xff\xff\x01\x00\x00\x00\x00\x00\x00\x00.x",
    );
    bytes
}

fn entry(name: &[u8], object: u32, birth: u64, kind: NodeKind) -> Option<Entry> {
    let name = Name::from_bytes(name)?;
    let key = Key { object, birth };
    Some(Entry { name, key, kind })
}

#[test]
fn spells_the_four_rooms_byte_for_byte(rt: HostRuntime) -> Result<(), Fail> {
    let bytes = good_bytes();
    let sector = Sector { bytes };
    let first = entry(b"a.txt", 0x0102_0304, 0x0102_0304_0506_0708, NodeKind::File);
    let third = entry(b"x", 9, 1 << 62, NodeKind::File);
    let fourth = entry(b".x", 0xffff_ffff, 1, NodeKind::Dir);
    let rooms = [first, None, third, fourth];
    let block = SubBlock { rooms };
    assert!(rt; block.is_valid());
    assert_eq!(rt; block.encode(), sector);
    assert_eq!(rt; SubBlock::decode(&sector), Some(block));
    let empty = SubBlock::decode(&Sector::zero()).ok_or("no empty sub-block")?;
    let free = [None, None, None, None];
    assert_eq!(rt; empty, SubBlock { rooms: free });
    Ok(())
}

#[test]
fn refuses_sectors_that_differ_in_one_byte(rt: HostRuntime) {
    let bad: [(usize, u8); 24] = [
        // the kind; the length; the two bytes behind it
        (0, 0),
        (0, 3),
        (1, 0),
        (1, 4),
        (1, 6),
        (1, 101),
        (1, 113),
        (1, 255),
        (2, 1),
        (3, 1),
        // a birth above 2^62; 2^62 + 1; 0
        (15, 0x40),
        (264, 1),
        (271, 0),
        (392, 0),
        // a byte that no name has; `.` and `..`; past the name's end; past 116
        (18, b' '),
        (18, 0),
        (272, b'.'),
        (401, b'.'),
        (21, b'x'),
        (115, b'x'),
        (116, 1),
        (127, 1),
        // in a free room
        (128, 1),
        (255, 1),
    ];
    for (at, byte) in bad {
        let mut bytes = good_bytes();
        if let Some(cell) = bytes.get_mut(at) {
            *cell = byte;
        }
        let sector = Sector { bytes };
        assert_eq!(rt; SubBlock::decode(&sector), None, "with {byte} at {at}");
    }
}

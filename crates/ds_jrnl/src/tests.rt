use crate::{Index, Redo};
use arrayvec::ArrayVec;
use ds_base::Sector;
use std::test::Fail;

/// Transaction 1 of generation 2 of slot 3, which writes sectors 145 and 0x01020304.
fn good_bytes() -> [u8; 512] {
    let mut bytes = [0; 512];
    bytes[..32].copy_from_slice(
        b"DSJI\x03\x02\x00\x00\x02\x00\x00\x00\x00\x00\x00\x00\x01\x00\x00\x00\x00\x00\x00\x00\x91\x00\x00\x00\x04\x03\x02\x01",
    );
    bytes
}

fn list(numbers: &[u32]) -> Result<ArrayVec<u32, 31>, Fail> {
    let mut list = ArrayVec::new();
    if list.try_extend_from_slice(numbers).is_err() {
        return Err(Fail::from("too many numbers"));
    }
    Ok(list)
}

#[test]
fn spells_indexes_byte_for_byte(rt: HostRuntime) -> Result<(), Fail> {
    let bytes = good_bytes();
    let sector = Sector { bytes };
    let index = Index {
        slot: 3,
        generation: 2,
        txn: 1,
        targets: list(&[145, 0x0102_0304])?,
    };
    assert!(rt; index.is_valid());
    assert_eq!(rt; index.encode(), sector);
    assert_eq!(rt; Index::decode(&sector), Some(index));
    let mut bytes = [0; 512];
    bytes[..8].copy_from_slice(b"DSJI\x0f\x1f\x00\x00");
    bytes[8..24].copy_from_slice(&[0xff; 16]);
    let mut numbers = [0; 31];
    for i in 0..31u8 {
        let k = usize::from(i);
        bytes[24 + 4 * k] = i;
        numbers[k] = u32::from(i);
    }
    let sector = Sector { bytes };
    let full = Index {
        slot: 15,
        generation: u64::MAX,
        txn: u64::MAX,
        targets: list(&numbers)?,
    };
    assert!(rt; full.is_valid());
    assert_eq!(rt; full.encode(), sector);
    assert_eq!(rt; Index::decode(&sector), Some(full));
    let pairs = ArrayVec::new();
    assert_eq!(rt; Redo { pairs }.pairs.len(), 0);
    Ok(())
}

#[test]
fn refuses_sectors_that_differ_in_one_byte(rt: HostRuntime) {
    // the mark; counts; the two bytes behind them; targets that don't rise; targets past the count; past the fields
    let bad: [(usize, u8); 16] = [
        (0, b'd'),
        (3, 0),
        (5, 0),
        (5, 1),
        (5, 3),
        (5, 31),
        (5, 32),
        (5, 255),
        (6, 1),
        (7, 1),
        (27, 2),
        (32, 1),
        (147, 1),
        (148, 1),
        (150, 1),
        (511, 1),
    ];
    for (at, byte) in bad {
        let mut bytes = good_bytes();
        if let Some(cell) = bytes.get_mut(at) {
            *cell = byte;
        }
        let sector = Sector { bytes };
        assert_eq!(rt; Index::decode(&sector), None, "with {byte} at {at}");
    }
}

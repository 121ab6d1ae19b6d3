use crate::Bits;
use ds_base::{Geom, Kind, Sector};
use std::test::Fail;

/// The bitmap of cluster 1 of sub-blocks, of whose 12 items the first nine are used.
fn good_bytes() -> [u8; 512] {
    let mut bytes = [0; 512];
    bytes[..8].copy_from_slice(b"DSRB\x01\x01\x0c\x00");
    bytes[32] = 0xff;
    bytes[33] = 0x01;
    bytes
}

#[test]
fn takes_and_spells_items(rt: HostRuntime) -> Result<(), Fail> {
    let geom = Geom {
        slots: 4,
        block: 1,
        clusters: [1, 2, 1, 1],
        items: [16, 12, 8, 3840],
    };
    geom.check()?;
    let mut bits = Bits::new(&geom, Kind::Sb, 1);
    assert_eq!(rt; bits.free(), 12);
    for item in 0..9u16 {
        assert_eq!(rt; bits.first_free(), Some(item));
        if let Some(free) = bits.first_free() {
            bits.take(free);
        }
    }
    assert_eq!(rt; bits.free(), 3);
    let bytes = good_bytes();
    let sector = Sector { bytes };
    assert_eq!(rt; bits.encode(), sector);
    let read = Bits::decode(&geom, Kind::Sb, 1, &sector).ok_or("no bitmap")?;
    assert_eq!(rt; read.first_free(), Some(9));
    assert_eq!(rt; read.free(), 3);
    assert_eq!(rt; read.encode(), sector);
    Ok(())
}

#[test]
fn gives_back_what_it_took(rt: HostRuntime) -> Result<(), Fail> {
    let geom = Geom {
        slots: 4,
        block: 1,
        clusters: [1, 2, 1, 1],
        items: [16, 12, 8, 3840],
    };
    geom.check()?;
    let mut bits = Bits::new(&geom, Kind::Pb, 0);
    for _ in 0..8 {
        if let Some(free) = bits.first_free() {
            bits.take(free);
            bits.give(free);
            assert_eq!(rt; bits.first_free(), Some(free));
            bits.take(free);
        }
    }
    assert_eq!(rt; bits.first_free(), None);
    assert_eq!(rt; bits.free(), 0);
    Ok(())
}

#[test]
fn refuses_sectors_that_differ_in_one_byte(rt: HostRuntime) -> Result<(), Fail> {
    let geom = Geom {
        slots: 4,
        block: 1,
        clusters: [1, 2, 1, 1],
        items: [16, 12, 8, 3840],
    };
    geom.check()?;
    // the mark; another kind, cluster or count of items; the bytes behind them; bits past the items
    let bad: [(usize, u8); 14] = [
        (0, b'd'),
        (3, 0),
        (4, 0),
        (4, 4),
        (5, 0),
        (5, 2),
        (6, 11),
        (6, 13),
        (7, 1),
        (8, 1),
        (31, 1),
        (33, 0x11),
        (34, 1),
        (511, 0x80),
    ];
    for (at, byte) in bad {
        let mut bytes = good_bytes();
        if let Some(cell) = bytes.get_mut(at) {
            *cell = byte;
        }
        let sector = Sector { bytes };
        assert!(rt;
            Bits::decode(&geom, Kind::Sb, 1, &sector).is_none(),
            "with {byte} at {at}"
        );
    }
    Ok(())
}

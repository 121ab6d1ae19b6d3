use ds_base::{Geom, Kind, Sector};
use ds_layout::{Place, decode_fs, decode_vol, encode_fs, encode_vol, place_of, sector_of, total};
use std::test::Fail;
use uuid::Uuid;

const ID: [u8; 16] = [
    0x6f, 0x1d, 0x0c, 0x52, 0x8a, 0x3b, 0x4e, 0x57, 0x9c, 0x11, 0x2b, 0x7a, 0x90, 0xd4, 0xe0, 0x01,
];

/// 4 slots, blocks of one sector, and a cluster of each kind: 16 descriptors, 8 sub-blocks, 8 pointer blocks, 64 blocks.
fn small() -> Geom {
    Geom {
        slots: 4,
        block: 1,
        clusters: [1, 1, 1, 1],
        items: [16, 8, 8, 64],
    }
}

#[test]
fn places_of_a_small_volume(rt: HostRuntime) -> Result<(), Fail> {
    let geom = small();
    geom.check()?;
    assert_eq!(rt; total(&geom), 254);
    let places = [
        (0, Place::VolInfo),
        (1, Place::FsInfo),
        (2, Place::Slot(0)),
        (5, Place::Slot(3)),
        (6, Place::Journal { slot: 0, index: 0 }),
        (69, Place::Journal { slot: 1, index: 31 }),
        (133, Place::Journal { slot: 3, index: 31 }),
        (134, Place::Header(2048)),
        (136, Place::Header(2056)),
        (138, Place::Header(2064)),
        (140, Place::Header(2072)),
        (
            141,
            Place::Bitmap {
                kind: Kind::Fb,
                cluster: 0,
            },
        ),
        (142, Place::Header(0)),
        (145, Place::Body(1)),
        (173, Place::Body(15)),
        (174, Place::SubBlock(0)),
        (181, Place::SubBlock(7)),
        (182, Place::PtrBlock(0)),
        (189, Place::PtrBlock(7)),
        (190, Place::Block { block: 0, index: 0 }),
        (
            253,
            Place::Block {
                block: 63,
                index: 0,
            },
        ),
    ];
    for (at, place) in places {
        let found = place_of(&geom, at);
        assert_eq!(rt; found, Some(place), "at {at}");
        if let Some(found) = found {
            assert_eq!(rt; sector_of(&geom, &found), at, "of {found:?}");
        }
    }
    assert_eq!(rt; place_of(&geom, 254), None);
    assert_eq!(rt; place_of(&geom, u32::MAX), None);
    Ok(())
}

#[test]
fn the_largest_and_the_smallest_volume(rt: HostRuntime) -> Result<(), Fail> {
    let largest = Geom {
        slots: 16,
        block: 2048,
        clusters: [8, 8, 8, 8],
        items: [256, 3840, 3840, 3840],
    };
    largest.check()?;
    assert_eq!(rt; total(&largest), 62_980_690);
    let last = Place::Block {
        block: 30_719,
        index: 2047,
    };
    assert_eq!(rt; place_of(&largest, 62_980_689), Some(last));
    assert_eq!(rt;
        place_of(&largest, 593),
        Some(Place::Bitmap {
            kind: Kind::Fb,
            cluster: 7
        })
    );
    assert_eq!(rt; place_of(&largest, 592), Some(Place::Header(2079)));
    assert_eq!(rt;
        place_of(&largest, 66_130 + 2048),
        Some(Place::Block { block: 1, index: 0 })
    );
    let smallest = Geom {
        slots: 1,
        block: 1,
        clusters: [1, 1, 1, 1],
        items: [1, 1, 1, 1],
    };
    smallest.check()?;
    assert_eq!(rt; total(&smallest), 48);
    Ok(())
}

fn vol_bytes() -> [u8; 512] {
    let mut bytes = [0; 512];
    bytes[..16].copy_from_slice(b"DSVOL5\x00\x00\x05\x00\x00\x00\xfe\x00\x00\x00");
    bytes[16..32].copy_from_slice(&ID);
    bytes[32..52].copy_from_slice(
        b"\x04\x00\x01\x00\x01\x00\x10\x00\x01\x00\x08\x00\x01\x00\x08\x00\x01\x00\x40\x00",
    );
    bytes
}

fn fs_bytes() -> [u8; 512] {
    let mut bytes = [0; 512];
    bytes[..16].copy_from_slice(b"DSFS\x00\x00\x00\x00\x05\x00\x00\x00\x00\x00\x00\x00");
    bytes[16..32].copy_from_slice(&ID);
    bytes
}

#[test]
fn spells_the_first_two_sectors_byte_for_byte(rt: HostRuntime) -> Result<(), Fail> {
    let geom = small();
    geom.check()?;
    let id = Uuid::from_bytes(ID);
    let bytes = vol_bytes();
    let sector = Sector { bytes };
    assert_eq!(rt; encode_vol(&geom, id), sector);
    assert_eq!(rt; decode_vol(&sector), Some((geom, id)));
    let bytes = fs_bytes();
    let sector = Sector { bytes };
    assert_eq!(rt; encode_fs(id), sector);
    assert_eq!(rt; decode_fs(&sector), Some(id));
    Ok(())
}

fn with_byte(mut bytes: [u8; 512], at: usize, byte: u8) -> Sector {
    if let Some(cell) = bytes.get_mut(at) {
        *cell = byte;
    }
    Sector { bytes }
}

#[test]
fn refuses_sectors_that_differ_in_one_byte(rt: HostRuntime) {
    // the mark, the version, the number of sectors, a geometry out of its ranges or of another size, past the fields
    let of_vol: [(usize, u8); 26] = [
        (0, b'd'),
        (5, b'6'),
        (6, 1),
        (7, 1),
        (8, 4),
        (11, 1),
        (12, 0xfd),
        (12, 0xff),
        (13, 1),
        (15, 1),
        (32, 0),
        (32, 5),
        (32, 17),
        (33, 1),
        (34, 0),
        (34, 2),
        (36, 0),
        (36, 9),
        (37, 1),
        (38, 0),
        (38, 17),
        (39, 1),
        (49, 1),
        (51, 1),
        (52, 1),
        (511, 1),
    ];
    for (at, byte) in of_vol {
        assert_eq!(rt;
            decode_vol(&with_byte(vol_bytes(), at, byte)),
            None,
            "{byte} at {at}"
        );
    }
    let of_fs: [(usize, u8); 11] = [
        (0, 0),
        (3, b's'),
        (4, 1),
        (7, 1),
        (8, 6),
        (12, 1),
        (15, 1),
        (32, 1),
        (35, 1),
        (36, 1),
        (511, 1),
    ];
    for (at, byte) in of_fs {
        assert_eq!(rt;
            decode_fs(&with_byte(fs_bytes(), at, byte)),
            None,
            "{byte} at {at}"
        );
    }
}

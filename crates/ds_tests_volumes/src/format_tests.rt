use ds_base::{Geom, Sector};
use ds_image::{format, format_sparse};
use ds_layout::decode_vol;
use std::test::Fail;
use uuid::Uuid;

const ID: [u8; 16] = [
    0x6f, 0x1d, 0x0c, 0x52, 0x8a, 0x3b, 0x4e, 0x57, 0x9c, 0x11, 0x2b, 0x7a, 0x90, 0xd4, 0xe0, 0x01,
];

/// A sector that begins with these bytes, and then is zero but for the byte at offset 32 and that at offset 56.
fn sector(front: [u8; 32], at_32: u8, at_56: u8) -> Sector {
    let mut bytes = [0; 512];
    bytes[..32].copy_from_slice(&front);
    bytes[32] = at_32;
    bytes[56] = at_56;
    Sector { bytes }
}

/// 4 slots, blocks of one sector, and a cluster of each kind: 16 descriptors, 8 sub-blocks, 8 pointer blocks, 64 blocks.
#[test]
fn a_small_volume_is_formatted(rt: HostRuntime) -> Result<(), Fail> {
    let geom = Geom {
        slots: 4,
        block: 1,
        clusters: [1, 1, 1, 1],
        items: [16, 8, 8, 64],
    };
    geom.check()?;
    let volume = Uuid::from_bytes(ID);
    let sectors = format(rt.alloc(), &geom, volume)?;
    assert_eq!(rt; sectors.len(), 254);
    assert_eq!(rt; decode_vol(&sectors[0]), Some((geom, volume)));
    let slot = *b"DSHB\0\0\0\0\x01\0\0\0\0\0\0\0\0\0\0\0\0\0\0\0\0\0\0\0\0\0\0\0";
    let header = *b"DSLK\0\0\0\0\0\x08\0\0\0\0\0\0\0\0\0\0\0\0\0\0\0\0\0\0\0\0\0\0";
    let descriptors = *b"DSRB\0\0\x10\0\0\0\0\0\0\0\0\0\0\0\0\0\0\0\0\0\0\0\0\0\0\0\0\0";
    let blocks = *b"DSRB\x03\0\x40\0\0\0\0\0\0\0\0\0\0\0\0\0\0\0\0\0\0\0\0\0\0\0\0\0";
    let root = *b"DSFD\x02\0\0\0\0\0\0\0\0\0\0\0\x01\0\0\0\0\0\0\0\0\0\0\0\0\0\0\0";
    let last = *b"DSFD\0\0\0\0\x0f\0\0\0\0\0\0\0\0\0\0\0\0\0\0\0\0\0\0\0\0\0\0\0";
    let expected = [
        (2, sector(slot, 0, 0)),
        (5, sector(slot, 0, 3)),
        (6, Sector::zero()),
        (133, Sector::zero()),
        (134, sector(header, 0, 0)),
        (135, sector(descriptors, 1, 0)),
        (141, sector(blocks, 0, 0)),
        (143, sector(root, 0, 0)),
        (173, sector(last, 0, 0)),
        (174, Sector::zero()),
        (189, Sector::zero()),
        (190, Sector::zero()),
        (253, Sector::zero()),
    ];
    for (at, sector) in expected {
        assert_eq!(rt; sectors.get(at).copied(), Some(sector), "at {at}");
    }
    let lun = format_sparse(rt.alloc(), &geom, volume)?;
    for (at, sector) in sectors.iter().enumerate() {
        assert!(rt; at < lun.len() as usize);
        assert_eq!(rt; lun.sector(at as u32), *sector, "at {at}");
    }
    Ok(())
}

//! Images for tests: formatted volumes with some bytes changed.

use ds_base::{Geom, Sector};
use ds_check::{Report, check};
use ds_image::format;
use std::alloc::Global;
use std::test::Fail;
use uuid::Uuid;

/// The bytes from an offset of a sector.
pub(crate) type Change = (usize, usize, &'static [u8]);

/// 4 slots at sectors 2 to 5, and their journals at 6, 38, 70 and 102. Clusters of descriptors, sub-blocks, pointer blocks and
/// blocks at 134, 136, 138 and 140, each with its bitmap behind it. 16 descriptors at 142 to 173, each a header and a body,
/// 8 sub-blocks at 174, 8 pointer blocks at 182 and 64 blocks at 190 to 253.
pub(crate) const SMALL: Geom = Geom {
    slots: 4,
    block: 1,
    clusters: [1, 1, 1, 1],
    items: [16, 8, 8, 64],
};

const ID: [u8; 16] = [
    0x6f, 0x1d, 0x0c, 0x52, 0x8a, 0x3b, 0x4e, 0x57, 0x9c, 0x11, 0x2b, 0x7a, 0x90, 0xd4, 0xe0, 0x01,
];

/// Object 2 is a file with birth 3 and without blocks.
pub(crate) const FILE_2: Change = (147, 4, b"\x01\0\0\0\x02\0\0\0\x01\0\0\0\x03");

/// Object 3 is a file with birth 4 and without blocks.
pub(crate) const FILE_3: Change = (149, 4, b"\x01\0\0\0\x03\0\0\0\x01\0\0\0\x04");

/// The root lists sub-block 0, whose first room names the file `f`, object 1 with birth 2, without blocks.
pub(crate) const A_FILE: [Change; 5] = [
    (135, 32, b"\x03"),
    (137, 32, b"\x01"),
    (143, 24, b"\x01"),
    (145, 4, b"\x01\0\0\0\x01\0\0\0\x01\0\0\0\x02"),
    (174, 0, b"\x01\x01\0\0\x01\0\0\0\x02\0\0\0\0\0\0\0f"),
];

/// The sectors of a new volume.
pub(crate) fn formatted(alloc: Global, geom: &Geom) -> Result<Vec<Sector>, Fail> {
    geom.check()?;
    Ok(format(alloc, geom, Uuid::from_bytes(ID))?)
}

/// The sectors of a new small volume with these changes.
pub(crate) fn changed(alloc: Global, changes: &[&[Change]]) -> Result<Vec<Sector>, Fail> {
    let mut sectors = formatted(alloc, &SMALL)?;
    for list in changes {
        put_all(&mut sectors, list);
    }
    Ok(sectors)
}

pub(crate) fn put_all(sectors: &mut [Sector], changes: &[Change]) {
    for (at, offset, bytes) in changes {
        put(sectors, *at, *offset, bytes);
    }
}

/// Puts bytes into a sector, as far as they are inside it.
pub(crate) fn put(sectors: &mut [Sector], at: usize, offset: usize, bytes: &[u8]) {
    if at < sectors.len() {
        for (place, byte) in sectors[at].bytes.iter_mut().skip(offset).zip(bytes) {
            *place = *byte;
        }
    }
}

/// What is found in the small volume with these changes.
pub(crate) fn found(alloc: Global, changes: &[&[Change]]) -> Result<Report, Fail> {
    let sectors = changed(alloc, changes)?;
    Ok(check(alloc, &sectors)?)
}

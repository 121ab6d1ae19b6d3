use crate::Body;
use ds_base::{NodeKind, Sector};

/// The file 0x01020304 with 129 blocks, whose pointer blocks are 5 and 6.
fn file_bytes() -> [u8; 512] {
    let mut bytes = [0; 512];
    bytes[..40].copy_from_slice(
        b"DSFD\x01\x00\x00\x00\x04\x03\x02\x01\x01\x00\x00\x00\x08\x07\x06\x05\x04\x03\x02\x01\x81\x00\x00\x00\x00\x00\x00\x00\x05\x00\x00\x00\x06\x00\x00\x00",
    );
    bytes
}

/// The directory 9 with the greatest birth and the sub-blocks 7 and 0.
fn directory_bytes() -> [u8; 512] {
    let mut bytes = [0; 512];
    bytes[..40].copy_from_slice(
        b"DSFD\x02\x00\x00\x00\x09\x00\x00\x00\x00\x00\x00\x00\x00\x00\x00\x00\x00\x00\x00\x40\x02\x00\x00\x00\x00\x00\x00\x00\x07\x00\x00\x00\x00\x00\x00\x00",
    );
    bytes
}

/// A descriptor that is not in use, of object 9, whose last birth was 3.
fn free_bytes() -> [u8; 512] {
    let mut bytes = [0; 512];
    bytes[..24].copy_from_slice(
        b"DSFD\x00\x00\x00\x00\x09\x00\x00\x00\x00\x00\x00\x00\x03\x00\x00\x00\x00\x00\x00\x00",
    );
    bytes
}

fn body(
    object: u32,
    kind: Option<NodeKind>,
    links: u32,
    birth: u64,
    count: u32,
    first: [u32; 2],
) -> Body {
    let mut addresses = [0; 96];
    addresses[0] = first[0];
    addresses[1] = first[1];
    Body {
        object,
        kind,
        links,
        birth,
        count,
        addresses,
    }
}

#[test]
fn spells_bodies_byte_for_byte(rt: HostRuntime) {
    let cases = [
        (
            file_bytes(),
            body(
                0x0102_0304,
                Some(NodeKind::File),
                1,
                0x0102_0304_0506_0708,
                129,
                [5, 6],
            ),
        ),
        (
            directory_bytes(),
            body(9, Some(NodeKind::Dir), 0, 1 << 62, 2, [7, 0]),
        ),
        (free_bytes(), body(9, None, 0, 3, 0, [0, 0])),
    ];
    for (bytes, body) in cases {
        let sector = Sector { bytes };
        assert!(rt; body.is_valid());
        assert_eq!(rt; body.encode(), sector);
        assert_eq!(rt; Body::decode(body.object, &sector), Some(body));
        let another = body.object ^ 1;
        assert_eq!(rt; Body::decode(another, &sector), None);
    }
}

fn with_byte(mut bytes: [u8; 512], at: usize, byte: u8) -> Sector {
    if let Some(cell) = bytes.get_mut(at) {
        *cell = byte;
    }
    Sector { bytes }
}

#[test]
fn refuses_sectors_that_differ_in_one_byte(rt: HostRuntime) {
    // the magic; the kind; gaps; links; a birth above 2^62; counts; addresses past those in use; past the fields
    let of_file: [(usize, u8); 18] = [
        (0, b'd'),
        (3, 0),
        (4, 0),
        (4, 2),
        (4, 3),
        (5, 1),
        (7, 1),
        (12, 0),
        (12, 2),
        (23, 0x40),
        (24, 128),
        (25, 0x31),
        (28, 1),
        (31, 1),
        (40, 1),
        (415, 1),
        (416, 1),
        (511, 1),
    ];
    for (at, byte) in of_file {
        assert_eq!(rt;
            Body::decode(0x0102_0304, &with_byte(file_bytes(), at, byte)),
            None,
            "a file with {byte} at {at}"
        );
    }
    let of_directory: [(usize, u8); 7] = [
        (4, 0),
        (4, 1),
        (12, 1),
        (16, 1),
        (23, 0),
        (24, 0),
        (24, 97),
    ];
    for (at, byte) in of_directory {
        assert_eq!(rt;
            Body::decode(9, &with_byte(directory_bytes(), at, byte)),
            None,
            "a directory with {byte} at {at}"
        );
    }
    let of_free: [(usize, u8); 6] = [(4, 1), (12, 1), (23, 0x40), (24, 1), (32, 1), (415, 1)];
    for (at, byte) in of_free {
        assert_eq!(rt;
            Body::decode(9, &with_byte(free_bytes(), at, byte)),
            None,
            "none with {byte} at {at}"
        );
    }
}

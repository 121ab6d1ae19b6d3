use crate::changes_for_tests::{A_FILE, Change, formatted, put, put_all};
use ds_base::{Geom, Kind};
use ds_check::{Find, check};
use std::test::Fail;

/// As the small volume, with 512 blocks at sectors 190 to 701.
const LARGE: Geom = Geom {
    slots: 4,
    block: 1,
    clusters: [1, 1, 1, 1],
    items: [16, 8, 8, 512],
};

/// The file of the root has the blocks 0 to 199, by the pointer blocks 0 and 1.
const TWO_HUNDRED: [Change; 4] = [
    (139, 32, b"\x03"),
    (141, 32, &[0xff; 25]),
    (145, 24, b"\xc8"),
    (145, 36, b"\x01"),
];

#[test]
fn a_file_with_two_pointer_blocks_is_checked(rt: HostRuntime) -> Result<(), Fail> {
    let alloc = rt.alloc();
    for (what, changes, finds) in CASES {
        let mut sectors = formatted(alloc, &LARGE)?;
        put_all(&mut sectors, &A_FILE);
        put_all(&mut sectors, &TWO_HUNDRED);
        for block in 0..200u8 {
            let i = usize::from(block);
            put(&mut sectors, 182 + i / 128, 4 * (i % 128), &[block]);
        }
        put_all(&mut sectors, changes);
        let report = check(alloc, &sectors)?;
        assert_eq!(rt; report.findings(), finds, "{what}");
    }
    Ok(())
}

const CASES: [(&str, &[Change], &[Find]); 11] = [
    ("nothing", &[], &[]),
    (
        "128 blocks, which fill a pointer block",
        &[
            (139, 32, b"\x01"),
            (141, 48, &[0; 9]),
            (145, 24, b"\x80"),
            (145, 36, b"\0"),
        ],
        &[],
    ),
    (
        "a block behind the last",
        &[(183, 0, b"\0\x02")],
        &[Find::Address {
            object: 1,
            index: 128,
        }],
    ),
    (
        "addresses behind the file's last block",
        &[(183, 288, b"\x01"), (183, 400, b"\0\x02")],
        &[Find::Address {
            object: 1,
            index: 200,
        }],
    ),
    (
        "the last address of the last pointer block",
        &[(183, 508, b"\x01")],
        &[Find::Address {
            object: 1,
            index: 255,
        }],
    ),
    (
        "a pointer block behind the last",
        &[(145, 36, b"\x08")],
        &[Find::Address {
            object: 1,
            index: 1,
        }],
    ),
    (
        "a pointer block and a block with one number",
        &[(145, 36, b"\x08"), (182, 4, b"\0\x02")],
        &[Find::Address {
            object: 1,
            index: 1,
        }],
    ),
    (
        "a pointer block and a block with its next number",
        &[(145, 36, b"\x08"), (182, 8, b"\0\x02")],
        &[
            Find::Address {
                object: 1,
                index: 1,
            },
            Find::Address {
                object: 1,
                index: 2,
            },
        ],
    ),
    (
        "a block twice",
        &[(183, 284, b"\x03")],
        &[Find::Twice {
            kind: Kind::Fb,
            item: 3,
            first: 1,
            second: 1,
        }],
    ),
    (
        "a pointer block's clear bit",
        &[(139, 32, b"\x01")],
        &[Find::Unmarked {
            kind: Kind::Pb,
            item: 1,
        }],
    ),
    (
        "the last block's clear bit",
        &[(141, 56, b"\x7f")],
        &[Find::Unmarked {
            kind: Kind::Fb,
            item: 199,
        }],
    ),
];

use crate::changes_for_tests::{A_FILE, Change, FILE_2, FILE_3, SMALL, changed, formatted, found};
use ds_base::{Kind, Sector};
use ds_check::{CheckFault, Find, check};
use std::alloc::Global;
use std::test::Fail;

/// The lines that a check of the small volume with these changes tells.
fn text_of(alloc: Global, changes: &[Change]) -> Result<Vec<u8>, Fail> {
    let sectors = changed(alloc, &[changes])?;
    Ok(check(alloc, &sectors)?.text()?)
}

#[test]
fn each_change_of_a_new_volume_is_told(rt: HostRuntime) -> Result<(), Fail> {
    let cases: [(&[Change], &[u8]); 9] = [
        (&[], b"clean\n"),
        (&[(1, 16, b"\0")], b"sector 1 form\n"),
        (&[(2, 8, b"\0")], b"sector 2 form\n"),
        (&[(134, 4, b"\x01")], b"sector 134 form\n"),
        (
            &[(142, 4, b"\x01"), (142, 24, b"\x01")],
            b"object 0 owner\n",
        ),
        (&[(143, 16, b"\x02")], b"root\n"),
        (&[(143, 24, b"\x01")], b"sb 0 unmarked\n"),
        (&[(135, 32, b"\x03")], b"fd 1 marked\n"),
        (&[(135, 32, b"\0")], b"fd 0 unmarked\n"),
    ];
    for (changes, text) in cases {
        let told = text_of(rt.alloc(), changes)?;
        assert_eq!(rt; told.as_slice(), text, "{changes:?}");
    }
    Ok(())
}

#[test]
fn sectors_that_are_no_volume_are_refused(rt: HostRuntime) -> Result<(), Fail> {
    let alloc = rt.alloc();
    let mut sectors = formatted(alloc, &SMALL)?;
    for (count, sector) in [(0, 0), (1, 1), (2, 2), (253, 253)] {
        let fault = check(alloc, sectors.get(..count).unwrap_or(&[])).err();
        assert_eq!(rt; fault, Some(CheckFault::BadImage { sector }));
    }
    sectors.push(Sector::zero())?;
    let fault = check(alloc, &sectors).err();
    assert_eq!(rt; fault, Some(CheckFault::BadImage { sector: 254 }));
    // Another number of sectors than the geometry's, and bytes that no field covers.
    for change in [(0, 12, b"\xff".as_slice()), (0, 511, b"\x01".as_slice())] {
        let sectors = changed(alloc, &[&[change]])?;
        let fault = check(alloc, &sectors).err();
        assert_eq!(rt; fault, Some(CheckFault::BadImage { sector: 0 }));
    }
    Ok(())
}

/// Slot 3 is live in generation 1.
const LIVE_3: [Change; 3] = [(5, 4, b"\x01"), (5, 16, b"\x07"), (5, 32, b"\x01")];

/// Slot 1 is broken in generation 1 by slot 3 in generation 1.
const BROKEN_1: [Change; 4] = [
    (3, 4, b"\x02\0\x03"),
    (3, 16, b"\x07"),
    (3, 32, b"\x01"),
    (3, 48, b"\x01"),
];

/// The last cluster has an owner, slot 3 in generation 1.
const OWNED_BY_3: [Change; 2] = [(140, 4, b"\x01\x03"), (140, 24, b"\x01")];

const MARKS: [(&str, &[&[Change]], &[Find]); 13] = [
    (
        "the information of another version",
        &[&[(1, 8, b"\x04")]],
        &[Find::SectorForm { sector: 1 }],
    ),
    (
        "a byte behind the information",
        &[&[(1, 511, b"\x01")]],
        &[Find::SectorForm { sector: 1 }],
    ),
    (
        "a slot with another's number",
        &[&[(5, 56, b"\x02")]],
        &[Find::SectorForm { sector: 5 }],
    ),
    (
        "a header with another's object",
        &[&[(144, 8, b"\x02")]],
        &[Find::SectorForm { sector: 144 }],
    ),
    (
        "an owner in a slot behind the last",
        &[&[(134, 4, b"\x01\x04"), (134, 24, b"\x01")]],
        &[Find::HeaderOwner { object: 2048 }],
    ),
    (
        "an owner in a live slot's next generation",
        &[&LIVE_3, &OWNED_BY_3, &[(140, 24, b"\x02")]],
        &[Find::HeaderOwner { object: 2072 }],
    ),
    (
        "an owner in a free slot's generation",
        &[&OWNED_BY_3],
        &[Find::HeaderOwner { object: 2072 }],
    ),
    (
        "a breaker behind the last slot",
        &[&BROKEN_1, &[(3, 6, b"\x04")]],
        &[Find::SlotBreaker { slot: 1 }],
    ),
    ("a breaker", &[&BROKEN_1], &[]),
    (
        "an owner in a live slot's generation",
        &[&LIVE_3, &OWNED_BY_3],
        &[],
    ),
    (
        "an owner in a broken slot's generation",
        &[&BROKEN_1, &OWNED_BY_3, &[(140, 5, b"\x01")]],
        &[],
    ),
    (
        "an owner in a free slot's last generation",
        &[&OWNED_BY_3, &[(5, 8, b"\x02")]],
        &[],
    ),
    (
        "an owner in a slot without its form",
        &[&OWNED_BY_3, &[(5, 0, b"\0")]],
        &[Find::SectorForm { sector: 5 }],
    ),
];

#[test]
fn each_finding_of_marks_is_told_alone(rt: HostRuntime) -> Result<(), Fail> {
    for (what, changes, finds) in MARKS {
        let report = found(rt.alloc(), changes)?;
        assert_eq!(rt; report.findings(), finds, "{what}");
    }
    Ok(())
}

/// Object 1 is a file in its first life, with birth 2 and without blocks.
const FILE_1: Change = (145, 4, b"\x01\0\0\0\x01\0\0\0\x01\0\0\0\x02");

/// The root lists sub-block 0, whose bit is set.
const ROOT: [Change; 2] = [(143, 24, b"\x01"), (137, 32, b"\x01")];

/// Object 1 is a directory that lists sub-block 0, whose first room names the directory itself.
const LOOP: [Change; 5] = [
    (135, 32, b"\x03"),
    (137, 32, b"\x01"),
    (145, 4, b"\x02\0\0\0\x01\0\0\0\0\0\0\0\x02"),
    (145, 24, b"\x01"),
    (174, 0, b"\x02\x01\0\0\x01\0\0\0\x02\0\0\0\0\0\0\0d"),
];

const BODIES_AND_ADDRESSES: [(&str, &[Change], Find); 17] = [
    (
        "a body of another object",
        &[(145, 8, b"\x02")],
        Find::MetaForm { sector: 145 },
    ),
    (
        "a file with two links",
        &[FILE_1, (145, 12, b"\x02")],
        Find::MetaForm { sector: 145 },
    ),
    (
        "a bitmap of another cluster",
        &[(137, 5, b"\x01")],
        Find::MetaForm { sector: 137 },
    ),
    (
        "a bit behind the last item",
        &[(137, 33, b"\x01")],
        Find::MetaForm { sector: 137 },
    ),
    (
        "a root that is a file",
        &[(143, 4, b"\x01"), (143, 12, b"\x01")],
        Find::Root,
    ),
    ("a root that isn't in use", &[(143, 4, b"\0")], Find::Root),
    (
        "a sub-block behind the last",
        &[(143, 24, b"\x01"), (143, 32, b"\x08")],
        Find::Address {
            object: 0,
            index: 0,
        },
    ),
    (
        "a block behind the last",
        &[FILE_1, (145, 24, b"\x02"), (145, 36, b"\x40")],
        Find::Address {
            object: 1,
            index: 1,
        },
    ),
    (
        "a pointer block behind the last",
        &[FILE_1, (145, 24, b"\x61"), (145, 32, b"\x08")],
        Find::Address {
            object: 1,
            index: 0,
        },
    ),
    (
        "a block behind the last in a pointer block",
        &[FILE_1, (145, 24, b"\x61"), (182, 384, b"\x40")],
        Find::Address {
            object: 1,
            index: 96,
        },
    ),
    (
        "two addresses behind a file's last block",
        &[
            FILE_1,
            (145, 24, b"\x61"),
            (182, 388, b"\x01"),
            (182, 508, b"\x01"),
        ],
        Find::Address {
            object: 1,
            index: 97,
        },
    ),
    (
        "a pointer block and a block with one number",
        &[
            FILE_1,
            (145, 24, b"\x81"),
            (145, 36, b"\x09"),
            (182, 4, b"\x40"),
        ],
        Find::Address {
            object: 1,
            index: 1,
        },
    ),
    (
        "a room with a length alone",
        &[(143, 24, b"\x01"), (174, 1, b"\x01")],
        Find::Room { object: 0, room: 0 },
    ),
    (
        "a room without a name",
        &[(143, 24, b"\x02"), (143, 36, b"\x01"), (175, 128, b"\x01")],
        Find::Room { object: 0, room: 4 },
    ),
    (
        "a sub-block that one directory lists twice",
        &[(143, 24, b"\x02")],
        Find::Twice {
            kind: Kind::Sb,
            item: 0,
            first: 0,
            second: 0,
        },
    ),
    (
        "a block of three files",
        &[
            FILE_1,
            FILE_2,
            FILE_3,
            (145, 24, b"\x01"),
            (145, 32, b"\x05"),
            (147, 24, b"\x01"),
            (147, 32, b"\x05"),
            (149, 24, b"\x01"),
            (149, 32, b"\x05"),
        ],
        Find::Twice {
            kind: Kind::Fb,
            item: 5,
            first: 1,
            second: 2,
        },
    ),
    (
        "a directory that names itself",
        &LOOP,
        Find::Lost { object: 1 },
    ),
];

#[test]
fn each_finding_of_bodies_and_addresses_is_told_alone(rt: HostRuntime) -> Result<(), Fail> {
    for (what, changes, find) in BODIES_AND_ADDRESSES {
        let report = found(rt.alloc(), &[changes])?;
        assert_eq!(rt; report.findings(), [find].as_slice(), "{what}");
    }
    Ok(())
}

const BITS_AND_NAMES: [(&str, &[&[Change]], Find); 14] = [
    (
        "a bit of a descriptor",
        &[&[(135, 33, b"\x80")]],
        Find::Marked {
            kind: Kind::Fd,
            item: 15,
        },
    ),
    (
        "a bit of a sub-block",
        &[&[(137, 32, b"\x80")]],
        Find::Marked {
            kind: Kind::Sb,
            item: 7,
        },
    ),
    (
        "a bit of a pointer block",
        &[&[(139, 32, b"\x08")]],
        Find::Marked {
            kind: Kind::Pb,
            item: 3,
        },
    ),
    (
        "a bit of a block",
        &[&[(141, 39, b"\x80")]],
        Find::Marked {
            kind: Kind::Fb,
            item: 63,
        },
    ),
    (
        "a descriptor in use",
        &[&A_FILE, &[(135, 32, b"\x01")]],
        Find::Unmarked {
            kind: Kind::Fd,
            item: 1,
        },
    ),
    (
        "a block in use",
        &[&A_FILE, &[(145, 24, b"\x01"), (145, 32, b"\x05")]],
        Find::Unmarked {
            kind: Kind::Fb,
            item: 5,
        },
    ),
    (
        "an entry of a free number",
        &[
            &ROOT,
            &[(174, 0, b"\x01\x01\0\0\x01\0\0\0\x02\0\0\0\0\0\0\0f")],
        ],
        Find::Dangling { object: 0, room: 0 },
    ),
    (
        "an entry of a number behind the last",
        &[
            &ROOT,
            &[(174, 0, b"\x01\x01\0\0\x10\0\0\0\x02\0\0\0\0\0\0\0f")],
        ],
        Find::Dangling { object: 0, room: 0 },
    ),
    (
        "an entry of another life",
        &[
            &A_FILE,
            &[(174, 128, b"\x01\x01\0\0\x01\0\0\0\x03\0\0\0\0\0\0\0g")],
        ],
        Find::Dangling { object: 0, room: 1 },
    ),
    (
        "an entry of another kind",
        &[
            &A_FILE,
            &[(174, 384, b"\x02\x01\0\0\x01\0\0\0\x02\0\0\0\0\0\0\0g")],
        ],
        Find::Dangling { object: 0, room: 3 },
    ),
    (
        "a name twice",
        &[
            &A_FILE,
            &[
                (135, 32, b"\x07"),
                FILE_2,
                (174, 256, b"\x01\x01\0\0\x02\0\0\0\x03\0\0\0\0\0\0\0f"),
            ],
        ],
        Find::Again { object: 0, room: 2 },
    ),
    (
        "a file without a name",
        &[&[(135, 32, b"\x03"), FILE_1]],
        Find::Names {
            object: 1,
            names: 0,
        },
    ),
    (
        "a file with two names",
        &[
            &A_FILE,
            &[(174, 128, b"\x01\x01\0\0\x01\0\0\0\x02\0\0\0\0\0\0\0g")],
        ],
        Find::Names {
            object: 1,
            names: 2,
        },
    ),
    (
        "a root with a name",
        &[
            &ROOT,
            &[(174, 0, b"\x02\x01\0\0\0\0\0\0\x01\0\0\0\0\0\0\0r")],
        ],
        Find::Names {
            object: 0,
            names: 1,
        },
    ),
];

#[test]
fn each_finding_of_bits_and_names_is_told_alone(rt: HostRuntime) -> Result<(), Fail> {
    for (what, changes, find) in BITS_AND_NAMES {
        let report = found(rt.alloc(), changes)?;
        assert_eq!(rt; report.findings(), [find].as_slice(), "{what}");
    }
    assert!(rt; found(rt.alloc(), &[&A_FILE])?.findings().is_empty());
    Ok(())
}

use crate::changes_for_tests::{A_FILE, Change, FILE_2, FILE_3, found};
use ds_base::Kind;
use ds_check::Find;
use std::test::Fail;

#[test]
fn findings_of_a_stage_go_by_rows_and_then_by_numbers(rt: HostRuntime) -> Result<(), Fail> {
    for (changes, text) in CASES {
        let report = found(rt.alloc(), &[changes])?;
        assert_eq!(rt; report.text()?.as_slice(), text, "{changes:?}");
    }
    Ok(())
}

const CASES: [(&[Change], &[u8]); 7] = [
    (
        &[
            // Slot 0 is broken by slot 4, slot 3 and a header have lost their form, and three headers name owners.
            (2, 4, b"\x02\0\x04"),
            (2, 16, b"\x07"),
            (2, 32, b"\x01"),
            (2, 48, b"\x01"),
            (5, 8, b"\0"),
            (134, 4, b"\x01\x01"),
            (134, 24, b"\x02"),
            (142, 4, b"\x01\x04"),
            (142, 24, b"\x01"),
            (144, 8, b"\x02"),
            (146, 4, b"\x01\x03"),
            (146, 24, b"\x01"),
        ],
        b"sector 5 form\nsector 144 form\nobject 0 owner\nobject 2048 owner\nslot 0 breaker\n",
    ),
    (
        &[(137, 5, b"\x01"), (143, 0, b"\0"), (145, 8, b"\x02")],
        b"sector 137 form\nsector 143 form\nsector 145 form\nroot\n",
    ),
    (
        // The root lists the sub-blocks 0, 9 and 8, and a file the block 64.
        &[
            (143, 24, b"\x03"),
            (143, 36, b"\x09\0\0\0\x08"),
            (145, 4, b"\x01\0\0\0\x01\0\0\0\x01\0\0\0\x02"),
            (145, 24, b"\x01"),
            (145, 32, b"\x40"),
            (174, 1, b"\x01"),
        ],
        b"object 0 address 1\nobject 0 address 2\nobject 1 address 0\nobject 0 room 0\n",
    ),
    (
        // The root lists the sub-blocks 1, 0, 0 and 1, and two files of 97 blocks the same pointer block.
        &[
            (143, 24, b"\x04"),
            (143, 32, b"\x01"),
            (143, 44, b"\x01"),
            (145, 4, b"\x01\0\0\0\x01\0\0\0\x01\0\0\0\x02"),
            (145, 24, b"\x61"),
            FILE_2,
            (147, 24, b"\x61"),
        ],
        b"sb 0 twice 0 0\nsb 1 twice 0 0\npb 0 twice 1 2\nfb 0 twice 1 1\n",
    ),
    (
        // Object 3 lists block 5.
        &[
            (135, 32, b"\x06"),
            (137, 32, b"\x01"),
            (141, 32, b"\x01\x02"),
            FILE_3,
            (149, 24, b"\x01"),
            (149, 32, b"\x05"),
        ],
        b"fd 1 marked\nfd 2 marked\nfd 0 unmarked\nfd 3 unmarked\nsb 0 marked\nfb 0 marked\nfb 9 marked\nfb 5 unmarked\n",
    ),
    (
        // The root names `f` twice and, twice again, the free object 9 by `x`; nothing names object 3.
        &[
            (135, 32, b"\x0f"),
            (137, 32, b"\x01"),
            (143, 24, b"\x01"),
            (145, 4, b"\x01\0\0\0\x01\0\0\0\x01\0\0\0\x02"),
            FILE_2,
            FILE_3,
            (174, 0, b"\x01\x01\0\0\x01\0\0\0\x02\0\0\0\0\0\0\0f"),
            (174, 128, b"\x01\x01\0\0\x02\0\0\0\x03\0\0\0\0\0\0\0f"),
            (174, 256, b"\x01\x01\0\0\x09\0\0\0\x03\0\0\0\0\0\0\0x"),
            (174, 384, b"\x01\x01\0\0\x09\0\0\0\x03\0\0\0\0\0\0\0x"),
        ],
        b"object 0 room 2 dangling\nobject 0 room 3 dangling\nobject 0 room 1 again\nobject 0 room 3 again\nobject 3 names 0\n",
    ),
    (
        // Two directories that name each other.
        &[
            (135, 32, b"\x07"),
            (137, 32, b"\x03"),
            (145, 4, b"\x02\0\0\0\x01\0\0\0\0\0\0\0\x02"),
            (145, 24, b"\x01"),
            (147, 4, b"\x02\0\0\0\x02\0\0\0\0\0\0\0\x03"),
            (147, 24, b"\x01"),
            (147, 32, b"\x01"),
            (174, 0, b"\x02\x01\0\0\x02\0\0\0\x03\0\0\0\0\0\0\0e"),
            (175, 0, b"\x02\x01\0\0\x01\0\0\0\x02\0\0\0\0\0\0\0d"),
        ],
        b"object 1 lost\nobject 2 lost\n",
    ),
];

/// From the last stage to the first: what gives a finding there, and the finding.
const STAGES: [(&[Change], Find); 8] = [
    (
        // Object 1 is a directory that names itself.
        &[
            (135, 32, b"\x03"),
            (137, 32, b"\x01"),
            (145, 4, b"\x02\0\0\0\x01\0\0\0\0\0\0\0\x02"),
            (145, 24, b"\x01"),
            (174, 0, b"\x02\x01\0\0\x01\0\0\0\x02\0\0\0\0\0\0\0d"),
        ],
        Find::Lost { object: 1 },
    ),
    (
        &[FILE_2, (135, 32, b"\x07")],
        Find::Names {
            object: 2,
            names: 0,
        },
    ),
    (
        &[(141, 39, b"\x80")],
        Find::Marked {
            kind: Kind::Fb,
            item: 63,
        },
    ),
    (
        &[(147, 24, b"\x02"), (147, 32, b"\x05\0\0\0\x05")],
        Find::Twice {
            kind: Kind::Fb,
            item: 5,
            first: 2,
            second: 2,
        },
    ),
    (
        &[FILE_3, (149, 24, b"\x01"), (149, 32, b"\x40")],
        Find::Address {
            object: 3,
            index: 0,
        },
    ),
    (&[(141, 5, b"\x01")], Find::MetaForm { sector: 141 }),
    (
        &[
            (2, 4, b"\x01\x01\0\x01"),
            (2, 16, b"\x07"),
            (2, 32, b"\x01"),
            (2, 40, b"\x01"),
        ],
        Find::JournalForm { slot: 0 },
    ),
    (&[(1, 16, b"\0")], Find::SectorForm { sector: 1 }),
];

#[test]
fn findings_of_a_stage_hide_those_of_later_ones(rt: HostRuntime) -> Result<(), Fail> {
    let mut changes = Vec::new(rt.alloc());
    for (more, find) in STAGES {
        changes.extend_from_slice(more)?;
        let report = found(rt.alloc(), &[&changes])?;
        assert_eq!(rt; report.findings(), [find].as_slice());
    }
    Ok(())
}

use crate::changes_for_tests::{Change, found};
use std::test::Fail;

/// Slot 0 is live in generation 1 with one pair of transaction 1, a zero sector for pointer block 0 at sector 182.
const PAIR_0: [Change; 8] = [
    (2, 4, b"\x01\x01\0\x01"),
    (2, 16, b"\x07"),
    (2, 32, b"\x01"),
    (2, 40, b"\x01"),
    (37, 0, b"DSJI\0\x01"),
    (37, 8, b"\x01"),
    (37, 16, b"\x01"),
    (37, 24, b"\xb6"),
];

/// The same of slot 2, broken by slot 0.
const PAIR_2: [Change; 9] = [
    (4, 4, b"\x02\x01\0\x01"),
    (4, 16, b"\x07"),
    (4, 32, b"\x01"),
    (4, 40, b"\x01"),
    (4, 48, b"\x01"),
    (101, 0, b"DSJI\x02\x01"),
    (101, 8, b"\x01"),
    (101, 16, b"\x01"),
    (101, 24, b"\xb6"),
];

/// The same of slot 3.
const PAIR_3: [Change; 8] = [
    (5, 4, b"\x01\x01\0\x01"),
    (5, 16, b"\x07"),
    (5, 32, b"\x01"),
    (5, 40, b"\x01"),
    (133, 0, b"DSJI\x03\x01"),
    (133, 8, b"\x01"),
    (133, 16, b"\x01"),
    (133, 24, b"\xb6"),
];

/// Slot 0 has five pairs that make a file `f` in the root: its bit, the bit of the root's sub-block, the root, the file and the
/// sub-block.
const CREATES: [Change; 11] = [
    (2, 7, b"\x05"),
    (37, 5, b"\x05"),
    (37, 24, b"\x87\0\0\0\x89\0\0\0\x8f\0\0\0\x91\0\0\0\xae"),
    (6, 0, b"DSRB\0\0\x10"),
    (6, 32, b"\x03"),
    (7, 0, b"DSRB\x01\0\x08"),
    (7, 32, b"\x01"),
    (8, 0, b"DSFD\x02\0\0\0\0\0\0\0\0\0\0\0\x01"),
    (8, 24, b"\x01"),
    (9, 0, b"DSFD\x01\0\0\0\x01\0\0\0\x01\0\0\0\x02"),
    (10, 0, b"\x01\x01\0\0\x01\0\0\0\x02\0\0\0\0\0\0\0f"),
];

const LAID_OVER: [(&str, &[&[Change]], &[u8]); 7] = [
    ("a pair", &[&PAIR_0], b"clean\n"),
    ("a broken slot's pair", &[&PAIR_2], b"clean\n"),
    ("five pairs", &[&PAIR_0, &CREATES], b"clean\n"),
    // The root stands in place; the file's body and the sub-block have lost their form.
    (
        "five pairs, of which some stand in place",
        &[
            &PAIR_0,
            &CREATES,
            &[(143, 24, b"\x01"), (145, 0, b"?"), (174, 0, b"?")],
        ],
        b"clean\n",
    ),
    (
        "a pair whose sector has lost its form",
        &[&PAIR_0, &CREATES, &[(9, 0, b"?")]],
        b"sector 145 form\n",
    ),
    (
        "pairs that leave the bit of the file clear",
        &[&PAIR_0, &CREATES, &[(6, 32, b"\x01"), (135, 32, b"\x03")]],
        b"fd 1 unmarked\n",
    ),
    (
        "pairs of an idle slot",
        &[
            &PAIR_0,
            &CREATES,
            &[(2, 5, b"\0\0\0"), (2, 40, b"\0"), (143, 24, b"\x01")],
        ],
        b"sb 0 unmarked\n",
    ),
];

#[test]
fn pending_pairs_are_laid_over(rt: HostRuntime) -> Result<(), Fail> {
    for (what, changes, text) in LAID_OVER {
        let report = found(rt.alloc(), changes)?;
        assert_eq!(rt; report.text()?.as_slice(), text, "{what}");
    }
    Ok(())
}

const WRONG_INDEXES: [(&str, &[Change]); 13] = [
    ("no index", &[(37, 0, b"\0\0\0\0")]),
    ("of another slot", &[(37, 4, b"\x01")]),
    ("of another count", &[(37, 5, b"\x02"), (37, 28, b"\xb7")]),
    ("of another generation", &[(37, 8, b"\x02")]),
    ("of another transaction", &[(37, 16, b"\x02")]),
    ("of a slot with another transaction", &[(2, 40, b"\x02")]),
    ("with a byte behind the last target", &[(37, 148, b"\x01")]),
    ("with the file system information", &[(37, 24, b"\x01")]),
    ("with a slot", &[(37, 24, b"\x03")]),
    ("with a sector of a journal", &[(37, 24, b"\x06")]),
    ("with a header", &[(37, 24, b"\x90")]),
    ("with a block", &[(37, 24, b"\xbe")]),
    ("with a sector behind the last", &[(37, 24, b"\xfe")]),
];

#[test]
fn a_committed_journal_has_an_index_of_its_slot(rt: HostRuntime) -> Result<(), Fail> {
    for (what, changes) in WRONG_INDEXES {
        let report = found(rt.alloc(), &[&PAIR_0, changes])?;
        assert_eq!(rt;
            report.text()?.as_slice(),
            b"journal 0 form\n".as_slice(),
            "{what}"
        );
    }
    Ok(())
}

/// The pair of slot 2 is for the next pointer block.
const APART: [Change; 1] = [(101, 24, b"\xb7")];

/// The slots 0 and 3 have two pairs each, for a sub-block and the pointer block.
const TWO_EACH: [Change; 6] = [
    (2, 7, b"\x02"),
    (37, 5, b"\x02"),
    (37, 24, b"\xae\0\0\0\xb6"),
    (5, 7, b"\x02"),
    (133, 5, b"\x02"),
    (133, 24, b"\xae\0\0\0\xb6"),
];

const SHARED: [(&[&[Change]], &[u8]); 5] = [
    (&[&PAIR_0, &PAIR_2, &APART], b"clean\n"),
    (&[&PAIR_0, &PAIR_2], b"journals 0 2 share 182\n"),
    (
        &[&PAIR_0, &PAIR_2, &PAIR_3, &TWO_EACH],
        b"journals 0 2 share 182\njournals 0 3 share 174\njournals 0 3 share 182\njournals 2 3 share 182\n",
    ),
    // An index without its form has no targets.
    (
        &[&PAIR_0, &PAIR_2, &PAIR_3, &[(101, 0, b"?")]],
        b"journal 2 form\njournals 0 3 share 182\n",
    ),
    (&[&PAIR_0, &PAIR_2, &[(1, 16, b"\0")]], b"sector 1 form\n"),
];

#[test]
fn slots_share_targets_by_rising_numbers(rt: HostRuntime) -> Result<(), Fail> {
    for (changes, text) in SHARED {
        let report = found(rt.alloc(), changes)?;
        assert_eq!(rt; report.text()?.as_slice(), text);
    }
    Ok(())
}

//! Whole runs that format a volume, and check or list an image.
use crate::outcome::Why;
use crate::tests::run_of;
use ds_script::{LineFault, What};
use std::alloc::Global;
use std::test::Fail;

const VOLUME: &[u8] =
    b"volume 6f1d0c52-8a3b-4e57-9c11-2b7a90d4e001 slots 4 block 1 fd 1 16 sb 1 8 pb 1 8 fb 1 64\n";

/// The bytes of the volume's 254 sectors.
const SIZE: usize = 130_048;

/// What a run with this word on this input writes, once it has ended so, without a log.
fn written(alloc: Global, word: &str, input: &[u8], want: Why) -> Result<Vec<u8>, Fail> {
    let (outcome, bytes) = run_of(alloc, &[word], input, (0, 0), SIZE)?;
    if outcome.why == want && outcome.status == want.status() && outcome.log.is_none() {
        Ok(bytes)
    } else {
        Err(outcome.why)?
    }
}

fn formatted(alloc: Global) -> Result<Vec<u8>, Fail> {
    written(alloc, "format", VOLUME, Why::Done)
}

#[test]
fn a_new_volume_is_clean_and_has_the_root_alone(rt: HostRuntime) -> Result<(), Fail> {
    let alloc = rt.alloc();
    let image = formatted(alloc)?;
    assert_eq!(rt; image.len(), SIZE);
    let mut slot = [0u8; 512];
    slot[..4].copy_from_slice(b"DSHB");
    slot[8] = 1;
    slot[56] = 3;
    assert_eq!(rt; image.get(5 * 512..6 * 512), Some(slot.as_slice()));

    let clean = written(alloc, "check", image.as_slice(), Why::Done)?;
    assert_eq!(rt; clean.as_slice(), b"clean\n".as_slice());
    let tree = written(alloc, "tree", image.as_slice(), Why::Done)?;
    assert_eq!(rt; tree.as_slice(), b"/ 0.1 dir\n".as_slice());
    Ok(())
}

#[test]
fn a_text_that_is_no_volume_line_is_refused(rt: HostRuntime) -> Result<(), Fail> {
    let alloc = rt.alloc();
    let large =
        b"volume 6f1d0c52-8a3b-4e57-9c11-2b7a90d4e001 slots 4 block 4 fd 1 16 sb 8 3840 pb 8 3840 fb 8 3840";
    let two =
        b"# none\nvolume 6f1d0c52-8a3b-4e57-9c11-2b7a90d4e001 slots 4 block 1 fd 1 16 sb 1 8 pb 1 8 fb 1 64\nhost a\n";
    for (input, want) in [
        (
            b"".as_slice(),
            Why::BadLine {
                line: 1,
                why: LineFault::Volume,
            },
        ),
        (
            two.as_slice(),
            Why::BadLine {
                line: 3,
                why: LineFault::Volume,
            },
        ),
        (large.as_slice(), Why::TooLarge { what: What::Volume }),
    ] {
        let bytes = written(alloc, "format", input, want)?;
        assert!(rt; bytes.is_empty());
    }
    Ok(())
}

#[test]
fn bytes_that_are_no_volume_are_told_by_a_sector(rt: HostRuntime) -> Result<(), Fail> {
    let alloc = rt.alloc();
    let image = formatted(alloc)?;
    let mut longer = image.clone()?;
    longer.push(0)?;
    let zeros = vec![in alloc; 0u8; SIZE]?;
    for (input, sector) in [
        (zeros.as_slice(), 0),
        (b"".as_slice(), 0),
        (image.get(..511).unwrap_or_default(), 0),
        (image.get(..512).unwrap_or_default(), 1),
        (image.get(..SIZE - 1).unwrap_or_default(), 253),
        (longer.as_slice(), 254),
    ] {
        for word in ["check", "tree"] {
            let bytes = written(alloc, word, input, Why::BadImage { sector })?;
            assert!(rt; bytes.is_empty());
        }
    }
    Ok(())
}

#[test]
fn each_kind_of_finding_of_a_new_volume_is_told(rt: HostRuntime) -> Result<(), Fail> {
    let alloc = rt.alloc();
    let image = formatted(alloc)?;
    // Each row sets one byte, and then another, of a sector.
    for (sector, first, second, text) in [
        (1, (16, 0), (16, 0), "sector 1 form\n"),
        (2, (8, 0), (8, 0), "sector 2 form\n"),
        (134, (4, 1), (4, 1), "sector 134 form\n"),
        (142, (4, 1), (24, 1), "object 0 owner\n"),
        (143, (16, 2), (16, 2), "root\n"),
        (143, (24, 1), (24, 1), "sb 0 unmarked\n"),
        (135, (32, 3), (32, 3), "fd 1 marked\n"),
        (135, (32, 0), (32, 0), "fd 0 unmarked\n"),
    ] {
        let mut changed = image.clone()?;
        for (at, byte) in [first, second] {
            if let Some(place) = changed.get_mut(sector * 512 + at) {
                *place = byte;
            }
        }
        for word in ["check", "tree"] {
            let want = Why::Findings { count: 1 };
            let bytes = written(alloc, word, changed.as_slice(), want)?;
            assert_eq!(rt; bytes.as_slice(), text.as_bytes());
        }
    }
    Ok(())
}

#[test]
fn a_fault_of_the_input_or_the_output_is_told(rt: HostRuntime) -> Result<(), Fail> {
    let alloc = rt.alloc();
    let image = formatted(alloc)?;
    for (word, input, failing, want, count) in [
        ("format", VOLUME, (1, 0), Why::ReadFault, 0),
        ("format", VOLUME, (2, 0), Why::ReadFault, 0),
        ("format", VOLUME, (0, 1), Why::WriteFault, 0),
        ("format", VOLUME, (0, 3), Why::WriteFault, 1024),
        ("check", image.as_slice(), (255, 0), Why::ReadFault, 0),
        ("check", image.as_slice(), (0, 1), Why::WriteFault, 0),
        ("tree", image.as_slice(), (254, 0), Why::ReadFault, 0),
        ("tree", image.as_slice(), (0, 1), Why::WriteFault, 0),
    ] {
        let (outcome, bytes) = run_of(alloc, &[word], input, failing, SIZE)?;
        assert_eq!(rt; outcome.why, want);
        assert_eq!(rt; outcome.status, want.status());
        assert!(rt; outcome.log.is_none());
        assert_eq!(rt; bytes.len(), count);
    }
    Ok(())
}

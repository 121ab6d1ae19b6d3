//! Which fault of a line is told: the first from left to right, and the want of a call behind all others.
use ds_script::{LineFault, ScriptFault, read};
use std::alloc::Global;
use std::test::Fail;

const VOLUME: &[u8] =
    b"volume 6f1d0c52-8a3b-4e57-9c11-2b7a90d4e001 slots 4 block 1 fd 1 16 sb 1 8 pb 1 8 fb 1 64\nhost a\n";

/// What is wrong with a text of two parts, of which the second is the last line.
fn fault_of(alloc: Global, text: &[u8], line: &[u8]) -> Result<Option<ScriptFault>, Fail> {
    let mut whole = Vec::from_slice(alloc, text)?;
    whole.extend_from_slice(line)?;
    Ok(read(alloc, whole.as_slice()).err())
}

#[test]
fn tells_the_first_of_two_faults(rt: HostRuntime) -> Result<(), Fail> {
    let table = [
        // the first word: a bad byte, a line of the volume, an unknown host
        (b"\x7f a".as_slice(), LineFault::Word),
        (b"\xc3\xa4 scan", LineFault::Word),
        (b"volume \x80", LineFault::Volume),
        (b"b jump", LineFault::Host),
        (b"b \x80", LineFault::Host),
        // an unknown directive before all behind it
        (b"a jump A 01", LineFault::Word),
        (b"a SCAN b", LineFault::Word),
        (b"a \x80 b", LineFault::Word),
        // keys, words and variables
        (b"a mkdir A", LineFault::Variable),
        (b"a mkdir A \x80", LineFault::Variable),
        (b"a mkdir root \x80 as", LineFault::Word),
        (b"a mkdir root d at A", LineFault::Word),
        (b"a mkdir root d as A b", LineFault::Variable),
        (b"a mkdir root d as v \x80", LineFault::Word),
        (b"a mkdir root d as v b", LineFault::Count),
        (b"a list A before", LineFault::Variable),
        (b"a list root before", LineFault::Word),
        (b"a list root after", LineFault::Count),
        (b"a rename root x A", LineFault::Variable),
        (b"a rename root x root", LineFault::Count),
        // numbers
        (b"a map A 01", LineFault::Variable),
        (b"a map root 01 b", LineFault::Number),
        (b"a map root 1 b", LineFault::Count),
        (b"a map root 1 \x80", LineFault::Word),
        (b"a map root \x80 b", LineFault::Word),
        (b"a put root 4294967296 256", LineFault::Number),
        (b"a put root 0 256 b", LineFault::Number),
        (b"a tick 0 1", LineFault::Number),
        // points, hosts and landings
        (b"a hold commits b 0", LineFault::Point),
        (b"a hold commit b 0", LineFault::Host),
        (b"a hold commit a 0 1", LineFault::Number),
        (b"a hold commit a 1 1", LineFault::Count),
        (b"a wait b 0", LineFault::Host),
        (b"a wait a 0 1", LineFault::Number),
        (b"a fail commits x", LineFault::Point),
        (b"a fail commit x y", LineFault::Word),
        (b"a fail commit lost y", LineFault::Count),
        // lines of hosts and steps
        (b"host 1 \x80", LineFault::Host),
        (b"host b \x80", LineFault::Word),
        (b"host b c \x80", LineFault::Count),
        (b"step b 0", LineFault::Host),
        (b"step a 0 1", LineFault::Number),
        (b"step a 1 1", LineFault::Count),
        (b"step a \x80", LineFault::Word),
        // no call follows
        (b"a crash", LineFault::Count),
        (b"a crash \x80", LineFault::Word),
        (b"a crash commits", LineFault::Point),
        (b"a fail commit x", LineFault::Word),
        (b"a hold commit b 1", LineFault::Host),
        (b"a hold commit a 4097", LineFault::Number),
        (b"a hold commit a 1", LineFault::Arm),
        (b"a fail commit lost", LineFault::Arm),
        (b"a crash commit\nb scan", LineFault::Arm),
        (b"a crash commit\nhost b", LineFault::Arm),
        (b"a crash commit\na tick 1\na scan", LineFault::Arm),
    ];
    for (line, why) in &table {
        let want = Some(ScriptFault::BadLine { line: 3, why: *why });
        assert_eq!(rt; fault_of(rt.alloc(), VOLUME, line)?, want);
    }
    Ok(())
}

#[test]
fn tells_the_first_of_two_faults_of_a_volume(rt: HostRuntime) -> Result<(), Fail> {
    let table = [
        (b"VOLUME x".as_slice(), LineFault::Volume),
        (b"\x80 volume", LineFault::Word),
        (b"volume x slot", LineFault::Uuid),
        (b"volume \x80 slot", LineFault::Word),
        (
            b"volume 6f1d0c528a3b4e579c112b7a90d4e001 slot 17",
            LineFault::Word,
        ),
        (
            b"volume 6f1d0c528a3b4e579c112b7a90d4e001 slots 17 blocks",
            LineFault::Geom,
        ),
        (
            b"volume 6f1d0c528a3b4e579c112b7a90d4e001 slots 04 block 0",
            LineFault::Number,
        ),
        (
            b"volume 6f1d0c528a3b4e579c112b7a90d4e001 slots 4 block 1 fd 9",
            LineFault::Geom,
        ),
        (
            b"volume 6f1d0c528a3b4e579c112b7a90d4e001 slots 4 block 1 fd 1",
            LineFault::Count,
        ),
        (
            b"volume 6f1d0c528a3b4e579c112b7a90d4e001 slots 4 block 1 fd 1 16 sb 1 8 pb 1 8 fb 1 0 1",
            LineFault::Geom,
        ),
        (
            b"volume 6f1d0c528a3b4e579c112b7a90d4e001 slots 4 block 2048 fd 1 16 sb 1 8 pb 1 8 fb 8 3840 1",
            LineFault::Count,
        ),
    ];
    for (line, why) in &table {
        let want = Some(ScriptFault::BadLine { line: 1, why: *why });
        assert_eq!(rt; fault_of(rt.alloc(), b"", line)?, want);
    }
    Ok(())
}

#[test]
fn reads_words_of_at_most_255_bytes(rt: HostRuntime) -> Result<(), Fail> {
    let alloc = rt.alloc();
    let mut text = Vec::from_slice(alloc, VOLUME)?;
    text.extend_from_slice(b"a mkdir root ")?;
    for _ in 0..255 {
        text.push(b'~')?;
    }
    assert_eq!(rt; read(alloc, text.as_slice()).err(), None);
    let long = Some(ScriptFault::BadLine {
        line: 3,
        why: LineFault::Word,
    });
    assert_eq!(rt; fault_of(alloc, text.as_slice(), b"~")?, long);
    // in a line that is passed over, it may be longer
    let mut comment = Vec::from_slice(alloc, VOLUME)?;
    comment.extend_from_slice(b"#")?;
    for _ in 0..256 {
        comment.push(b'~')?;
    }
    assert_eq!(rt; read(alloc, comment.as_slice()).err(), None);
    Ok(())
}

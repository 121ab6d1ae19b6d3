//! Whole runs, input and output with faults, and the texts of outcomes.
use crate::input::{InputFault, read_all};
use crate::outcome::{Outcome, Why};
use crate::output::{OutputFault, write_all};
use crate::running::plain;
use ds_base::{MemSink, MemSource};
use ds_script::{LineFault, What};
use std::alloc::Global;
use std::test::Fail;

#[test]
fn reads_and_writes_whole_or_tells_the_fault(rt: HostRuntime) -> Result<(), Fail> {
    let alloc = rt.alloc();
    let bytes = vec![in alloc; 7u8; 5000]?;
    for (limit, failing, want) in [
        (5000, 0, None),
        (4999, 0, Some(InputFault::TooLarge)),
        (5000, 2, Some(InputFault::Fault)),
    ] {
        let mut source = MemSource::new(bytes.clone()?, vec![in alloc; failing]?);
        let read = read_all(alloc, &mut source, limit);
        assert_eq!(rt; read.as_ref().err().copied(), want);
        assert_eq!(rt; read.unwrap_or(bytes.clone()?).as_slice(), bytes.as_slice());
    }
    for (room, failing, want) in [
        (5000, 9, Ok(())),
        (4999, 9, Err(OutputFault)),
        (5000, 1, Err(OutputFault)),
    ] {
        let mut sink = MemSink::new(alloc, room, vec![in alloc; failing]?)?;
        assert_eq!(rt; write_all(&mut sink, bytes.as_slice()), want);
        assert_eq!(rt; want.is_ok(), sink.bytes() == bytes.as_slice());
    }
    Ok(())
}

#[test]
fn each_outcome_has_its_status_and_text(rt: HostRuntime) -> Result<(), Fail> {
    let table = [
        (Why::Done, 0, ""),
        (bad_line(4097, LineFault::Arm), 1, "bad line 4097: arm"),
        (too_large(What::Volume), 1, "too large: volume"),
        (stuck(0, 12), 1, "stuck: host 0 at 12"),
        (not_built(1, 0), 1, "not built: host 1 at 0"),
        (Why::BadImage { sector: 253 }, 1, "bad image: sector 253"),
        (Why::BadWords, 2, "bad words"),
        (Why::ReadFault, 3, "read fault"),
        (Why::WriteFault, 4, "write fault"),
        (Why::Memory, 5, "out of memory"),
        (Why::Findings { count: 2 }, 6, "findings: 2"),
    ];
    for (why, status, text) in table {
        assert_eq!(rt; why.status(), status);
        assert_eq!(rt; why.to_string(rt.alloc())?.as_str(), text);
    }
    Ok(())
}

fn bad_line(line: u32, why: LineFault) -> Why {
    Why::BadLine { line, why }
}

fn too_large(what: What) -> Why {
    Why::TooLarge { what }
}

fn stuck(host: u8, directive: u32) -> Why {
    Why::Stuck { host, directive }
}

fn not_built(host: u8, directive: u32) -> Why {
    Why::NotBuilt { host, directive }
}

const VOLUME: &str =
    "volume 6f1d0c52-8a3b-4e57-9c11-2b7a90d4e001 slots 4 block 1 fd 1 16 sb 1 8 pb 1 8 fb 1 64\n";

const ROW: &str = "host a
a register
a create root disk
a create root disk
a lookup root disk
a lookup root log
";

const REPORT: &[u8] = b"a 1 register ok 0.1
a 2 create ok 1.1 at 1
a 3 create exists at 1
a 4 lookup ok 1.1 file at 1
a 5 lookup not-found at 1
changes 1
/ 0.1 dir
/disk 1.1 file 0
";

/// The volume line, and these lines.
fn scenario_of(alloc: Global, lines: &str) -> Result<Vec<u8>, Fail> {
    let mut text = Vec::from_slice(alloc, VOLUME.as_bytes())?;
    text.extend_from_slice(lines.as_bytes())?;
    Ok(text)
}

/// How a run on these words and this input ends, and what it wrote. The calls of the source and of the sink with these
/// numbers fail, and the sink has room for so many bytes.
pub(crate) fn run_of(
    alloc: Global,
    words: &[&str],
    input: &[u8],
    failing: (u32, u32),
    room: usize,
) -> Result<(Outcome, Vec<u8>), Fail> {
    let mut list = Vec::new(alloc);
    for word in words {
        list.push(String::from_str(alloc, word)?)?;
    }
    let mut source = MemSource::new(Vec::from_slice(alloc, input)?, vec![in alloc; failing.0]?);
    let mut sink = MemSink::new(alloc, room, vec![in alloc; failing.1]?)?;
    let outcome = plain(alloc, list.as_slice(), &mut source, &mut sink);
    Ok((outcome, Vec::from_slice(alloc, sink.bytes())?))
}

#[test]
fn a_run_writes_its_report_or_tells_the_fault(rt: HostRuntime) -> Result<(), Fail> {
    let alloc = rt.alloc();
    let row = scenario_of(alloc, ROW)?;
    let all = REPORT.len();
    for (failing, room, want, written) in [
        ((0, 0), all, Why::Done, all),
        ((1, 0), all, Why::ReadFault, 0),
        ((2, 0), all, Why::ReadFault, 0),
        ((3, 0), all, Why::Done, all),
        ((0, 1), all, Why::WriteFault, 0),
        ((0, 2), all, Why::Done, all),
        ((0, 0), 20, Why::WriteFault, 20),
    ] {
        let (outcome, bytes) = run_of(alloc, &["replay"], row.as_slice(), failing, room)?;
        assert_eq!(rt; outcome.why, want);
        assert_eq!(rt; outcome.status, want.status());
        assert_eq!(rt; Some(bytes.as_slice()), REPORT.get(..written));
        assert_eq!(rt;
            outcome.log.is_some(),
            want == Why::Done || want == Why::WriteFault
        );
    }
    Ok(())
}

/// Whether a run on these words and this input is refused so, and writes nothing.
fn is_refused(alloc: Global, words: &[&str], input: &[u8], want: Why) -> Result<bool, Fail> {
    let (outcome, bytes) = run_of(alloc, words, input, (0, 0), 1000)?;
    let is_told = outcome.why == want && outcome.status == want.status();
    Ok(is_told && bytes.is_empty() && outcome.log.is_none())
}

#[test]
fn a_run_is_refused_for_its_words_first_and_then_for_its_bytes(
    rt: HostRuntime,
) -> Result<(), Fail> {
    let alloc = rt.alloc();
    let row = scenario_of(alloc, ROW)?;
    let large = vec![in alloc; b'\n'; 1_048_577]?;
    let empty: [&str; 0] = [];
    for (words, input, want) in [
        (empty.as_slice(), row.as_slice(), Why::BadWords),
        (&["replay", "now"], row.as_slice(), Why::BadWords),
        (&["Replay"], row.as_slice(), Why::BadWords),
        (&["run"], b"", Why::BadWords),
        (&["replay"], b"", bad_line(1, LineFault::Volume)),
        (
            &["replay"],
            large.get(1..).unwrap_or_default(),
            bad_line(1_048_577, LineFault::Volume),
        ),
        (&["replay"], large.as_slice(), too_large(What::Bytes)),
    ] {
        assert!(rt; is_refused(alloc, words, input, want)?, "{want}");
    }
    Ok(())
}

#[test]
fn a_scenario_is_refused_where_it_is_bad_stuck_or_not_built(rt: HostRuntime) -> Result<(), Fail> {
    let alloc = rt.alloc();
    for (lines, want) in [
        ("host a\na registers\n", bad_line(3, LineFault::Word)),
        ("host a\na tick 0\n", bad_line(3, LineFault::Number)),
        ("host a\nhost b\na wait b 1\nb wait a 1\n", stuck(0, 1)),
        ("host a\nhost b\n", not_built(1, 0)),
        // A variable is no fault whichever host gives it a key, and no scenario with one can be run.
        (
            "host a\nhost b\nb create root f as v\na stat v\n",
            not_built(1, 0),
        ),
        (
            "host a\na register\na create root f as v\n",
            not_built(0, 2),
        ),
        ("host a\na register\na create v f\n", not_built(0, 2)),
        ("host a\n", not_built(0, 1)),
        ("host a\na create root disk\n", not_built(0, 1)),
        (
            "host a\na register\na lookup root x\na mkdir root x\n",
            not_built(0, 3),
        ),
        ("host a\na register\na create root a/b\n", not_built(0, 2)),
        // A name of 101 bytes.
        (
            "host a\na register\na lookup root nnnnnnnnnnnnnnnnnnnnnnnnnnnnnnnnnnnnnnnnnnnnnnnnnnnnnnnnnnnnnnnnnnnnnnnnnnnnnnnnnnnnnnnnnnnnnnnnnnnnn\n",
            not_built(0, 2),
        ),
        (
            "host a\na register\na create root a\na create root b\na create root c\na create root d\na create root e\n",
            not_built(0, 6),
        ),
    ] {
        let text = scenario_of(alloc, lines)?;
        assert!(rt;
            is_refused(alloc, &["replay"], text.as_slice(), want)?,
            "{want}"
        );
    }
    let other =
        b"volume 6f1d0c52-8a3b-4e57-9c11-2b7a90d4e001 slots 4 block 1 fd 1 16 sb 1 8 pb 1 8 fb 1 65\nhost a\na register\n";
    assert!(rt; is_refused(alloc, &["replay"], other, not_built(0, 0))?);
    Ok(())
}

/// Whether the replay of these lines behind the volume line writes this report.
fn reports(alloc: Global, lines: &str, report: &[u8]) -> Result<bool, Fail> {
    let text = scenario_of(alloc, lines)?;
    let (outcome, bytes) = run_of(alloc, &["replay"], text.as_slice(), (0, 0), 1000)?;
    Ok(outcome.why == Why::Done && bytes.as_slice() == report)
}

#[test]
fn a_report_has_each_answer_and_the_tree(rt: HostRuntime) -> Result<(), Fail> {
    let alloc = rt.alloc();
    let spaced =
        "# one host\r\nhost\ta\r\n\n a  register \na create root disk\nstep a 3\n#a die\na create root disk\na lookup root disk\na lookup root log";
    assert!(rt; reports(alloc, spaced, REPORT)?);
    assert!(rt; reports(alloc, "", b"changes 0\n/ 0.1 dir\n")?);
    // A name of 100 bytes.
    assert!(rt;
        reports(
            alloc,
            "host a\na register\na lookup root nnnnnnnnnnnnnnnnnnnnnnnnnnnnnnnnnnnnnnnnnnnnnnnnnnnnnnnnnnnnnnnnnnnnnnnnnnnnnnnnnnnnnnnnnnnnnnnnnnnn\n",
            b"a 1 register ok 0.1\na 2 lookup not-found at 0\nchanges 0\n/ 0.1 dir\n",
        )?
    );
    assert!(rt;
        reports(
            alloc,
            "host a\na register\na create root d\na create root b\na create root c\na create root a\na lookup root c\n",
            b"a 1 register ok 0.1\na 2 create ok 1.1 at 1\na 3 create ok 2.1 at 2\na 4 create ok 3.1 at 3\na 5 create ok 4.1 at 4\na 6 lookup ok 3.1 file at 4\nchanges 4\n/ 0.1 dir\n/a 4.1 file 0\n/b 2.1 file 0\n/c 3.1 file 0\n/d 1.1 file 0\n",
        )?
    );
    Ok(())
}

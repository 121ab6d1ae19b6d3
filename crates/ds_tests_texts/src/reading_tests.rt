//! Which texts are read, and where the others are bad.
use ds_base::{Geom, Kind};
use ds_script::{LineFault, ScriptFault, What, read, read_volume};
use ds_tree::{Directive, HostPlan};
use std::alloc::Global;
use std::test::Fail;
use uuid::Uuid;

const VOLUME: &[u8] =
    b"volume 6f1d0c52-8a3b-4e57-9c11-2b7a90d4e001 slots 4 block 1 fd 1 16 sb 1 8 pb 1 8 fb 1 64\n";

fn bad(line: u32, why: LineFault) -> Option<ScriptFault> {
    Some(ScriptFault::BadLine { line, why })
}

/// Reads the volume line and these lines behind it.
fn fault_behind(alloc: Global, lines: &[u8]) -> Result<Option<ScriptFault>, Fail> {
    let mut text = Vec::from_slice(alloc, VOLUME)?;
    text.extend_from_slice(lines)?;
    Ok(read(alloc, text.as_slice()).err())
}

#[test]
fn reads_each_line_or_tells_its_first_fault(rt: HostRuntime) -> Result<(), Fail> {
    let table = [
        // the volume alone, hosts, and lines that are passed over
        (b"".as_slice(), None),
        (b"host a\nhost b2", None),
        (b"\n \t\r\n# <\xff>\n  #host\nhost a\n#\n", None),
        // all directives
        (b"host a\na register\na unregister\na beat\na scan\n", None),
        (
            b"host a\na mkdir root d as v\na create v f\na lookup v f as w2\na list v\na list root after ..\n",
            None,
        ),
        (
            b"host a\na stat w\na map w 4294967295\na resize w 0\na remove root x\na rmdir root x\na rename root x w y\n",
            None,
        ),
        (
            b"host a\na open w\na close w\na put w 0 255\na get w 7\na die\na return\na tick 1000000\na wait a 1\n",
            None,
        ),
        (
            b"host a\nhost b\na hold break b 4096\na crash clear\nb scan\n",
            bad(4, LineFault::Arm),
        ),
        (
            b"host a\nhost b\na hold break b 4096\nb crash clear\n#a die\n\na scan \xff\nb scan\n",
            bad(8, LineFault::Word),
        ),
        (
            b"host a\na fail enter lost\nstep a 65536\na get root 0\nstep a 1\n",
            None,
        ),
        // words, from left to right
        (b"<\x80>\n", bad(2, LineFault::Host)),
        (b"\x80x\n", bad(2, LineFault::Word)),
        (b"host\n", bad(2, LineFault::Count)),
        (b"host a b\n", bad(2, LineFault::Count)),
        (b"host a \x01\n", bad(2, LineFault::Word)),
        (b"host a\na\n", bad(3, LineFault::Count)),
        (b"host a\na jump\n", bad(3, LineFault::Word)),
        (b"host a\na mkdir root d v\n", bad(3, LineFault::Word)),
        (b"host a\na mkdir root d as\n", bad(3, LineFault::Count)),
        (b"host a\na list root before x\n", bad(3, LineFault::Word)),
        (b"host a\na fail lock x\n", bad(3, LineFault::Word)),
        (b"host a\na beat 1\n", bad(3, LineFault::Count)),
        // numbers
        (b"host a\na tick 0\n", bad(3, LineFault::Number)),
        (b"host a\na tick 1000001\n", bad(3, LineFault::Number)),
        (b"host a\na tick 01\n", bad(3, LineFault::Number)),
        (b"host a\na tick +1\n", bad(3, LineFault::Number)),
        (
            b"host a\na map root 4294967296\n",
            bad(3, LineFault::Number),
        ),
        (b"host a\na put root 0 256\n", bad(3, LineFault::Number)),
        (b"host a\na wait a 4097\n", bad(3, LineFault::Number)),
        (b"host a\nstep a 65537\n", bad(3, LineFault::Number)),
        // hosts
        (b"host root\n", None),
        (b"host step\n", bad(2, LineFault::Host)),
        (b"host 1a\n", bad(2, LineFault::Host)),
        (b"host abcdefghijklmnopq\n", bad(2, LineFault::Host)),
        (b"host a\nhost a\n", bad(3, LineFault::Host)),
        (b"host a\nstep a 1\nhost\n", bad(4, LineFault::Host)),
        (b"step a 1\n", bad(2, LineFault::Host)),
        (b"a scan\n", bad(2, LineFault::Host)),
        (b"host a\na wait b 1\n", bad(3, LineFault::Host)),
        // variables and points
        (b"host a\na stat A\n", bad(3, LineFault::Variable)),
        (
            b"host a\na mkdir root d as root\n",
            bad(3, LineFault::Variable),
        ),
        (b"host a\na crash commits\n", bad(3, LineFault::Point)),
        // want of a call, which is told behind the other faults of its line, and before those of later lines
        (b"host a\na crash beat\n", bad(3, LineFault::Arm)),
        (b"host a\na crash beat 1\n", bad(3, LineFault::Count)),
        (
            b"host a\na crash beat\njump\na die\n",
            bad(3, LineFault::Arm),
        ),
        (
            b"host a\na crash beat\njump\na scan\n",
            bad(4, LineFault::Host),
        ),
        // a second volume line
        (b"volume\n", bad(2, LineFault::Volume)),
        (b"host a\na scan\nvolume\n", bad(4, LineFault::Volume)),
        // a wait that is never met
        (
            b"host a\na scan\na wait a 3\n",
            Some(ScriptFault::Stuck {
                host: 0,
                directive: 2,
            }),
        ),
    ];
    for (lines, want) in &table {
        assert_eq!(rt; fault_behind(rt.alloc(), lines)?, *want);
    }
    Ok(())
}

/// Whether a directive of a host names a variable that takes a key.
fn binds(plan: &HostPlan) -> bool {
    plan.list.as_slice().iter().any(|directive| matches!(
        directive,
        Directive::Call { bind: Some(_), .. }
    ))
}

// Each host has its own variables, and reading asks of none whether a call has given it a key.
#[test]
fn a_variable_is_named_by_its_own_host(rt: HostRuntime) -> Result<(), Fail> {
    let alloc = rt.alloc();
    for (lines, want) in [
        (
            b"b create root f as v\na stat v\n".as_slice(),
            [false, true],
        ),
        (b"a stat v\nb stat v\na create v f as v\n", [true, false]),
        (
            b"a create root f as v\nb lookup root f as v\na stat v\n",
            [true, true],
        ),
    ] {
        let mut text = Vec::from_slice(alloc, VOLUME)?;
        text.extend_from_slice(b"host a\nhost b\n")?;
        text.extend_from_slice(lines)?;
        let scenario = read(alloc, text.as_slice())?;
        for (plan, named) in scenario.hosts.as_slice().iter().zip(want) {
            assert_eq!(rt; binds(plan), named);
        }
    }
    Ok(())
}

#[test]
fn tells_the_first_fault_of_a_volume(rt: HostRuntime) -> Result<(), Fail> {
    let table = [
        (b"".as_slice(), bad(1, LineFault::Volume)),
        (b"\n#\n", bad(3, LineFault::Volume)),
        (b"host a\n", bad(1, LineFault::Volume)),
        (b"volumes\n", bad(1, LineFault::Volume)),
        (b"volume\n", bad(1, LineFault::Count)),
        (b"volume 6f1d0c52\n", bad(1, LineFault::Uuid)),
        (
            b"volume {6F1D0C52-8a3b-4e57-9c11-2b7a90d4e001} slot 4\n",
            bad(1, LineFault::Word),
        ),
        (
            b"volume 6f1d0c528a3b4e579c112b7a90d4e001 slots 17 block x\n",
            bad(1, LineFault::Geom),
        ),
        (
            b"volume 6f1d0c528a3b4e579c112b7a90d4e001 slots 16 block x\n",
            bad(1, LineFault::Number),
        ),
        (
            b"volume 6f1d0c528a3b4e579c112b7a90d4e001 slots 99999999999999999999999\n",
            bad(1, LineFault::Geom),
        ),
        (
            b"volume 6f1d0c528a3b4e579c112b7a90d4e001 slots 4 block 1 fd 1 257\n",
            bad(1, LineFault::Geom),
        ),
        (
            b"volume 6f1d0c528a3b4e579c112b7a90d4e001 slots 4 block 1 fd 1 256 sb 8 3840 pb 8 3841\n",
            bad(1, LineFault::Geom),
        ),
        (
            b"volume 6f1d0c528a3b4e579c112b7a90d4e001 slots 4 block 2048 fd 1 1 sb 1 1 pb 1 1 fb 1 64\n",
            Some(ScriptFault::TooLarge { what: What::Volume }),
        ),
    ];
    for (text, want) in &table {
        assert_eq!(rt; read(rt.alloc(), text).err(), *want);
        assert_eq!(rt; read_volume(text).err(), *want);
    }
    Ok(())
}

#[test]
fn reads_a_text_of_one_volume_line(rt: HostRuntime) -> Result<(), Fail> {
    let id = Uuid::parse_str("6f1d0c52-8a3b-4e57-9c11-2b7a90d4e001")?;
    let geom = Geom {
        slots: 4,
        block: 1,
        clusters: [1; 4],
        items: [16, 8, 8, 64],
    };
    let table = [
        // the line alone, and lines around it that are passed over
        (VOLUME, None),
        (
            b"volume {6F1D0C52-8a3b-4e57-9c11-2b7a90d4e001} slots 4 block 1 fd 1 16 sb 1 8 pb 1 8 fb 1 64".as_slice(),
            None,
        ),
        (
            b"\n# one\n \t\r\n\tvolume 6f1d0c528a3b4e579c112b7a90d4e001 slots 4 block 1 fd 1 16 sb 1 8 pb 1 8\tfb 1 64\r\n\n #host a\n",
            None,
        ),
        // a line behind it
        (
            b"volume 6f1d0c528a3b4e579c112b7a90d4e001 slots 4 block 1 fd 1 16 sb 1 8 pb 1 8 fb 1 64\n# then\n\nhost a",
            bad(4, LineFault::Volume),
        ),
        (
            b"\nvolume 6f1d0c528a3b4e579c112b7a90d4e001 slots 4 block 1 fd 1 16 sb 1 8 pb 1 8 fb 1 64\n\x80\nhost a\n",
            bad(3, LineFault::Volume),
        ),
        // no line
        (b"", bad(1, LineFault::Volume)),
        (b"\n \t\n#volume", bad(4, LineFault::Volume)),
        (b"#\nhost a\n", bad(2, LineFault::Volume)),
        // sizes out of their ranges
        (
            b"#\n#\nvolume 6f1d0c528a3b4e579c112b7a90d4e001 slots 0 block 1 fd 1 16 sb 1 8 pb 1 8 fb 1 64\nhost a\n",
            bad(3, LineFault::Geom),
        ),
        (
            b"volume 6f1d0c528a3b4e579c112b7a90d4e001 slots 4 block 2049 fd 1 16 sb 1 8 pb 1 8 fb 1 64\n",
            bad(1, LineFault::Geom),
        ),
        (
            b"volume 6f1d0c528a3b4e579c112b7a90d4e001 slots 4 block 1 fd 1 16 sb 1 8 pb 1 8 fb 9 64\n",
            bad(1, LineFault::Geom),
        ),
        // too many sectors, which is told before a line behind
        (
            b"volume 6f1d0c528a3b4e579c112b7a90d4e001 slots 4 block 2048 fd 1 16 sb 1 8 pb 1 8 fb 1 64\nhost a\n",
            Some(ScriptFault::TooLarge { what: What::Volume }),
        ),
    ];
    for (text, want) in &table {
        let read = read_volume(text);
        assert_eq!(rt; read.is_ok(), want.is_none());
        match read {
            Ok(volume) => assert_eq!(rt; volume, (id, geom)),
            Err(fault) => assert_eq!(rt; Some(fault), *want),
        }
    }
    Ok(())
}

fn repeated(
    alloc: Global,
    head: &[u8],
    line: &[u8],
    count: usize,
) -> Result<Option<ScriptFault>, Fail> {
    let mut lines = Vec::from_slice(alloc, head)?;
    for _ in 0..count {
        lines.extend_from_slice(line)?;
    }
    fault_behind(alloc, lines.as_slice())
}

#[test]
fn tells_the_line_that_passes_a_limit(rt: HostRuntime) -> Result<(), Fail> {
    let alloc = rt.alloc();
    let hosts =
        b"host a\nhost b\nhost c\nhost d\nhost e\nhost f\nhost g\nhost h\nhost i\nhost j\nhost k\nhost l\nhost m\nhost n\nhost o\n";
    let too_large = |what: What| Some(ScriptFault::TooLarge { what });
    assert_eq!(rt; repeated(alloc, hosts, b"host p\n", 1)?, None);
    assert_eq!(rt;
        repeated(alloc, hosts, b"host p\nhost q\n", 1)?,
        too_large(What::Hosts)
    );
    assert_eq!(rt;
        repeated(alloc, hosts, b"host p\nhost p\n", 1)?,
        bad(18, LineFault::Host)
    );
    assert_eq!(rt; repeated(alloc, b"host a\n", b"a scan\n", 4096)?, None);
    assert_eq!(rt;
        repeated(alloc, b"host a\n", b"a scan\n", 4097)?,
        too_large(What::Directives)
    );
    assert_eq!(rt; repeated(alloc, b"host a\n", b"step a 50000\n", 20)?, None);
    assert_eq!(rt;
        repeated(alloc, b"host a\nstep a 1\n", b"step a 50000\n", 20)?,
        too_large(What::Steps)
    );
    let full = 1_048_576 - VOLUME.len();
    assert_eq!(rt; repeated(alloc, b"", b"#", full)?, None);
    assert_eq!(rt;
        repeated(alloc, b"", b"x", full + 1)?,
        too_large(What::Bytes)
    );
    Ok(())
}

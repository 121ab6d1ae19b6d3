//! What is printed of scenarios, and that it is read as the same scenario.
use ds_script::{print, read};
use ds_tree::Scenario;
use std::alloc::Global;
use std::test::Fail;

const CALLS: &[u8] = b"host a
a register
a unregister
a beat
a scan
a mkdir root d as v
a mkdir v #d
a create v f
a create root as as as
a lookup v f as w2
a lookup root w2
a list v
a list root after ..
a stat root
a map w 4294967295
a resize w 0
a remove root x
a rmdir v y
a rename root x w2 y
a open w
a close w2
a put w 10 255
a get root 7
";

const OTHERS: &[u8] = b"host a
host b2
a tick 1000000
a wait b2 4096
a die
a return
b2 hold enter a 1
b2 scan
b2 hold leave b2 1
b2 scan
b2 crash beat
b2 scan
b2 crash commit
b2 scan
b2 crash retire
b2 scan
b2 crash read
b2 scan
b2 fail lock landed
b2 scan
b2 fail free lost
b2 scan
b2 fail index landed
b2 scan
b2 fail place lost
b2 scan
b2 fail break landed
b2 scan
b2 fail clear lost
b2 scan
";

/// A text of two parts.
fn joined(alloc: Global, first: &[u8], second: &[u8]) -> Result<Vec<u8>, Fail> {
    let mut text = Vec::from_slice(alloc, first)?;
    text.extend_from_slice(second)?;
    Ok(text)
}

/// All values of a scenario.
fn shown(alloc: Global, scenario: &Scenario) -> Result<String, Fail> {
    Ok(format!(in alloc; "{scenario:?}")?)
}

/// Whether a text is printed as another, which is read as the same scenario.
fn prints(alloc: Global, text: &[u8], want: &[u8]) -> Result<bool, Fail> {
    let scenario = read(alloc, text)?;
    let printed = print(alloc, &scenario)?;
    let again = read(alloc, printed.as_slice())?;
    Ok(printed.as_slice() == want && shown(alloc, &again)? == shown(alloc, &scenario)?)
}

#[test]
fn prints_a_volume_in_one_form(rt: HostRuntime) -> Result<(), Fail> {
    let table = [
        (
            b"volume 6F1D0C528A3B4E579C112B7A90D4E001 slots 16 block 2048 fd 1 1 sb 1 1 pb 1 1 fb 1 1".as_slice(),
            b"volume 6f1d0c52-8a3b-4e57-9c11-2b7a90d4e001 slots 16 block 2048 fd 1 1 sb 1 1 pb 1 1 fb 1 1\n".as_slice(),
        ),
        (
            b"volume {6F1D0C52-8a3b-4e57-9c11-2b7a90d4e0FF} slots 1 block 1 fd 8 256 sb 2 3840 pb 3 9 fb 4 10\n",
            b"volume 6f1d0c52-8a3b-4e57-9c11-2b7a90d4e0ff slots 1 block 1 fd 8 256 sb 2 3840 pb 3 9 fb 4 10\n",
        ),
        (
            b"#\n\n\tvolume\turn:uuid:6f1d0c52-8a3b-4e57-9c11-2b7a90d4e001  slots 4 block 1 fd 1 16 sb 1 8 pb 1 8 fb 1 64 \r\n",
            b"volume 6f1d0c52-8a3b-4e57-9c11-2b7a90d4e001 slots 4 block 1 fd 1 16 sb 1 8 pb 1 8 fb 1 64\n",
        ),
    ];
    for (text, want) in &table {
        assert!(rt; prints(rt.alloc(), text, want)?);
    }
    Ok(())
}

#[test]
fn prints_the_lines_of_hosts(rt: HostRuntime) -> Result<(), Fail> {
    let alloc = rt.alloc();
    let volume: &[u8] =
        b"volume 6f1d0c52-8a3b-4e57-9c11-2b7a90d4e001 slots 4 block 1 fd 1 16 sb 1 8 pb 1 8 fb 1 64\n";
    let table = [
        // each directive, and each kind of command
        (CALLS, CALLS),
        (OTHERS, OTHERS),
        // lines that are passed over, other blanks, no line feed at the end
        (
            b" host  a\t\r\n#a die\n\na  scan".as_slice(),
            b"host a\na scan\n".as_slice(),
        ),
        // the directives host by host, and then the steps
        (
            b"host b\nhost a\nhost c\nstep c 65536\na scan\nc beat\nb die\nstep b 1\na beat\nb scan\nstep c 2\n",
            b"host b\nhost a\nhost c\nb die\nb scan\na scan\na beat\nc beat\nstep c 65536\nstep b 1\nstep c 2\n",
        ),
    ];
    for (lines, want) in &table {
        let text = joined(alloc, volume, lines)?;
        let printed = joined(alloc, volume, want)?;
        assert!(rt; prints(alloc, text.as_slice(), printed.as_slice())?);
    }
    Ok(())
}

//! Small reports and listings, written out by hand.
ghost use Rattle.ds_base.specs.Names.{IsName};
ghost use Rattle.ds_tree.specs.CallNames.{HasNames};

use crate::answers::{write_answer, write_page};
use crate::listing;
use crate::reports::{text, whole};
use arrayvec::ArrayVec;
use ds_base::{Command, Geom, Key, Kind, Name, NodeKind, Response, Sector, Word};
use ds_conduct::HostAnswer;
use ds_log::{Event, Log, Reply, Step};
use ds_text::Text;
use ds_tree::{
    Call, CallOf, Directive, HostCallOf, HostPlan, Items, Scenario, Spoken, Tree, TreeReply,
};
use std::alloc::Global;
use std::process::Abort;
use std::test::Fail;
use uuid::Uuid;

fn key(object: u32, birth: u64) -> Key {
    Key { object, birth }
}

fn blocks(rt: &impl Abort, numbers: &[u32]) -> TreeReply {
    let mut list = ArrayVec::new();
    assert!(rt; list.try_extend_from_slice(numbers).is_ok());
    TreeReply::Blocks { list }
}

fn name(rt: &impl Abort, bytes: &[u8]) -> Name {
    Name::from_bytes(bytes).expect(rt, "a name")
}

#[test]
fn each_answer_has_its_text(rt: HostRuntime) -> Result<(), Fail> {
    let kind = NodeKind::File;
    let table = [
        (
            HostAnswer::Registered {
                slot: 3,
                generation: 17,
            },
            b"ok 3.17".as_slice(),
        ),
        (HostAnswer::Plain, b"ok"),
        (HostAnswer::BadName, b"bad-name"),
        (HostAnswer::Unregistered, b"unregistered"),
        (HostAnswer::NotOpen, b"not-open"),
        (HostAnswer::StillOpen, b"still-open"),
        (HostAnswer::OpenFull, b"open-full"),
        (HostAnswer::NoSlot, b"no-slot"),
        (HostAnswer::Fenced { offset: 4 }, b"fenced 4"),
        (
            HostAnswer::LeaseLost { now: 16, last: 0 },
            b"lease-lost 16 0",
        ),
        (HostAnswer::DeviceFault, b"device-fault"),
        (HostAnswer::InDoubt, b"in-doubt"),
        (HostAnswer::Damaged { sector: 4096 }, b"damaged 4096"),
        (HostAnswer::WornOut, b"worn-out"),
        (
            HostAnswer::Tree(TreeReply::Made { key: key(12, 1) }),
            b"ok 12.1",
        ),
        (
            HostAnswer::Tree(TreeReply::Gone { key: key(7, 30) }),
            b"ok 7.30",
        ),
        (
            HostAnswer::Tree(TreeReply::Moved { key: key(5, 2) }),
            b"ok 5.2",
        ),
        (
            HostAnswer::Tree(TreeReply::Found {
                key: key(1, 9),
                kind,
            }),
            b"ok 1.9 file",
        ),
        (
            HostAnswer::Tree(TreeReply::Found {
                key: key(0, 1),
                kind: NodeKind::Dir,
            }),
            b"ok 0.1 dir",
        ),
        (
            HostAnswer::Tree(TreeReply::Info { kind, size: 12288 }),
            b"ok file 12288",
        ),
        (
            HostAnswer::Tree(TreeReply::Info {
                kind: NodeKind::Dir,
                size: 0,
            }),
            b"ok dir 0",
        ),
        (HostAnswer::Tree(blocks(&rt, &[5, 0, 3839])), b"ok 5 0 3839"),
        (HostAnswer::Tree(blocks(&rt, &[])), b"ok"),
        (HostAnswer::Tree(TreeReply::Sized { blocks: 97 }), b"ok 97"),
        (HostAnswer::Tree(TreeReply::Opened { blocks: 0 }), b"ok 0"),
        (HostAnswer::Tree(TreeReply::AtBlock { block: 41 }), b"ok 41"),
        (HostAnswer::Tree(TreeReply::NoObject), b"no-object"),
        (HostAnswer::Tree(TreeReply::NotDir), b"not-dir"),
        (HostAnswer::Tree(TreeReply::NotFile), b"not-file"),
        (HostAnswer::Tree(TreeReply::NotFound), b"not-found"),
        (HostAnswer::Tree(TreeReply::Exists), b"exists"),
        (HostAnswer::Tree(TreeReply::NotEmpty), b"not-empty"),
        (HostAnswer::Tree(TreeReply::DirFull), b"dir-full"),
        (
            HostAnswer::Tree(TreeReply::NoSpace { kind: Kind::Fd }),
            b"no-space fd",
        ),
        (
            HostAnswer::Tree(TreeReply::NoSpace { kind: Kind::Sb }),
            b"no-space sb",
        ),
        (
            HostAnswer::Tree(TreeReply::NoSpace { kind: Kind::Pb }),
            b"no-space pb",
        ),
        (
            HostAnswer::Tree(TreeReply::NoSpace { kind: Kind::Fb }),
            b"no-space fb",
        ),
        (HostAnswer::Tree(TreeReply::TooBig), b"too-big"),
        (HostAnswer::Tree(TreeReply::TooMuch), b"too-much"),
        (HostAnswer::Tree(TreeReply::CrossDir), b"cross-dir"),
        (HostAnswer::Tree(TreeReply::NoBlock), b"no-block"),
    ];
    for (answer, want) in &table {
        let mut text = Text::new(rt.alloc());
        write_answer(&mut text, answer)?;
        assert_eq!(rt; text.into_bytes().as_slice(), *want);
    }
    let mut page = Text::new(rt.alloc());
    write_page(
        &mut page,
        40,
        &[
            (name(&rt, b"a-1"), key(3, 1)),
            (name(&rt, b"b.c"), key(11, 4)),
        ],
    )?;
    assert_eq!(rt;
        page.into_bytes().as_slice(),
        b"ok 40 a-1=3.1 b.c=11.4".as_slice()
    );
    Ok(())
}

fn call(call: HostCallOf<Spoken>) -> Directive {
    Directive::Call { call, bind: None }
}

fn plan(rt: &impl Abort, name: &[u8], list: Items<Directive>) -> HostPlan {
    let name = Word::new(name).expect(rt, "a word");
    HostPlan { name, list }
}

/// Two hosts: `a` registers, creates a file and a directory; `b` looks the file up.
fn scenario(rt: &impl Abort, alloc: Global) -> Result<Scenario, Fail> {
    let mut list = Items::new(alloc);
    let word = Word::new(b"f1").expect(rt, "a word");
    list.push(call(HostCallOf::Register))?;
    list.push(call(HostCallOf::Tree(CallOf::Create {
        dir: Spoken::Root,
        name: word,
    })))?;
    let word = Word::new(b"d").expect(rt, "a word");
    list.push(call(HostCallOf::Tree(CallOf::Mkdir {
        dir: Spoken::Root,
        name: word,
    })))?;
    let mut hosts = Items::new(alloc);
    hosts.push(plan(rt, b"a", list))?;
    let mut list = Items::new(alloc);
    let word = Word::new(b"f1").expect(rt, "a word");
    list.push(call(HostCallOf::Tree(CallOf::Lookup {
        dir: Spoken::Root,
        name: word,
    })))?;
    hosts.push(plan(rt, b"b", list))?;
    Ok(Scenario {
        volume: Uuid::nil(),
        geom: small(),
        hosts,
        steps: Items::new(alloc),
    })
}

fn small() -> Geom {
    Geom {
        slots: 4,
        block: 1,
        clusters: [1; 4],
        items: [16, 8, 8, 64],
    }
}

fn swap(host: u8, directive: u32, took: bool, dies: bool) -> Event {
    let step = Step::Sent {
        under: Some((0, 1)),
        command: Command::Swap {
            at: 0,
            verify: Sector::zero(),
            fresh: Sector::zero(),
        },
        response: Response::Done,
        landed: true,
        took,
    };
    Event {
        host,
        at: 0,
        directive,
        step,
        dies,
    }
}

fn word(rt: &impl Abort, bytes: &[u8]) -> Word
    ensures { IsName result }
{
    Word::new(name(rt, bytes).bytes()).expect(rt, "a word")
}

fn step(rt: &impl Abort, tree: &mut Tree, call: &Call) -> Result<(), Fail>
    requires { HasNames call.now }
{
    assert!(rt; !tree.worn());
    tree.call(call)?;
    Ok(())
}

fn create(rt: &impl Abort, tree: &mut Tree, dir: Key, bytes: &[u8]) -> Result<(), Fail> {
    let name = word(rt, bytes);
    step(rt, tree, &CallOf::Create { dir, name })
}

fn mkdir(rt: &impl Abort, tree: &mut Tree, dir: Key, bytes: &[u8]) -> Result<(), Fail> {
    let name = word(rt, bytes);
    step(rt, tree, &CallOf::Mkdir { dir, name })
}

fn resize(rt: &impl Abort, tree: &mut Tree, file: Key) -> Result<(), Fail> {
    step(rt, tree, &CallOf::Resize { file, blocks: 2 })
}

/// A directory below a directory, a file below that one, and names that byte order and paths sort differently.
fn tree(rt: &impl Abort, alloc: Global) -> Result<Tree, Fail> {
    let geom = small();
    assert!(rt; geom.check().is_ok());
    let mut tree = Tree::fresh(alloc, &geom)?;
    let root = key(0, 1);
    create(rt, &mut tree, root, b"f1")?;
    resize(rt, &mut tree, key(1, 1))?;
    mkdir(rt, &mut tree, root, b"d")?;
    create(rt, &mut tree, root, b"B")?;
    let name = word(rt, b"B");
    step(rt, &mut tree, &CallOf::Remove { dir: root, name })?;
    mkdir(rt, &mut tree, key(2, 1), b"e")?;
    create(rt, &mut tree, key(3, 2), b"g")?;
    resize(rt, &mut tree, key(4, 1))?;
    mkdir(rt, &mut tree, root, b"d.x")?;
    create(rt, &mut tree, root, b"B")?;
    resize(rt, &mut tree, key(6, 1))?;
    Ok(tree)
}

const LISTING: &[u8] = b"/ 0.1 dir\n\
    /B 6.1 file 2\n\
    /d 2.1 dir\n\
    /d/e 3.2 dir\n\
    /d/e/g 4.1 file 2\n\
    /d.x 5.1 dir\n\
    /f1 1.1 file 2\n";

const PARTS: &[u8] = b"a 1 register ok 0.1\n\
    a 2 create ok 1.1 at 1\n\
    b 1 lookup ok 1.1 file at 1\n\
    b dies\n\
    a dies\n\
    changes 2\n";

#[test]
fn a_report_has_a_part_for_each_event(rt: HostRuntime) -> Result<(), Fail> {
    let alloc = rt.alloc();
    let found = TreeReply::Found {
        key: key(1, 1),
        kind: NodeKind::File,
    };
    let replies = [
        Reply {
            event: 0,
            host: 0,
            directive: 1,
            answer: HostAnswer::Registered {
                slot: 0,
                generation: 1,
            },
            place: None,
        },
        Reply {
            event: 2,
            host: 0,
            directive: 2,
            answer: HostAnswer::Tree(TreeReply::Made { key: key(1, 1) }),
            place: Some(1),
        },
        Reply {
            event: 3,
            host: 1,
            directive: 1,
            answer: HostAnswer::Tree(found),
            place: Some(1),
        },
    ];
    let events = [
        Event {
            host: 0,
            at: 0,
            directive: 1,
            step: Step::Local,
            dies: false,
        },
        swap(0, 2, false, false),
        swap(0, 2, true, false),
        swap(1, 1, false, true),
        swap(0, 3, true, true),
    ];
    let tree = tree(&rt, alloc)?;
    let scenario = scenario(&rt, alloc)?;
    assert!(rt; scenario.geom.check().is_ok());
    let mut want = Text::new(alloc);
    want.bytes(PARTS)?;
    want.bytes(LISTING)?;
    let report = whole(alloc, &scenario, &events, &replies, &tree)?;
    assert_eq!(rt; report.as_slice(), want.into_bytes().as_slice());
    assert_eq!(rt; listing(alloc, &tree)?.as_slice(), LISTING);
    Ok(())
}

#[test]
fn a_report_without_events_has_the_count_of_changes_and_the_tree(
    rt: HostRuntime,
) -> Result<(), Fail> {
    let alloc = rt.alloc();
    let tree = tree(&rt, alloc)?;
    let mut want = Text::new(alloc);
    want.bytes(b"changes 0\n")?;
    want.bytes(LISTING)?;
    let scenario = scenario(&rt, alloc)?;
    assert!(rt; scenario.geom.check().is_ok());
    let report = text(alloc, &scenario, &Log::new(alloc), &tree)?;
    assert_eq!(rt; report.as_slice(), want.into_bytes().as_slice());
    Ok(())
}

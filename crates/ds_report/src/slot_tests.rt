//! Reports of hosts that die, are broken and are replaced, and of what is read.
ghost use Rattle.std.specs.Prelude.{◌≡◌};
ghost use Rattle.ds_log.specs.Logged.{AreInOrder};

use crate::answers::write_answer;
use crate::reports::whole;
use ds_base::{Command, Gen, Geom, Key, NodeKind, Response, Sector, SlotNo, Word};
use ds_conduct::{HostAnswer, Spot};
use ds_lock::How;
use ds_log::{Event, Reply, Step};
use ds_marks::{Journal, Slot, SlotState};
use ds_text::Text;
use ds_tree::{
    CallOf, Directive, HostCallOf, HostPlan, Items, Point, Scenario, Spoken, Tree, TreeReply,
};
use std::alloc::Global;
use std::process::Abort;
use std::test::Fail;
use uuid::Uuid;

const COMMITTED: Journal = Journal::Committed { txn: 1, count: 5 };

fn breaking(by: SlotNo) -> SlotState {
    broken_by(by, 1)
}

fn broken_by(by: SlotNo, by_generation: Gen) -> SlotState {
    SlotState::Breaking { by, by_generation }
}

/// A slot whose host has shown itself once, if it has one.
fn slot(state: SlotState, generation: Gen, journal: Journal) -> Slot {
    Slot {
        state,
        generation,
        host: Uuid::nil(),
        stamp: if state == SlotState::Free { 0 } else { 1 },
        journal,
    }
}

fn held() -> How {
    How::Held {
        slot: 0,
        image: slot(SlotState::Live, 3, Journal::Idle),
    }
}

fn recovering() -> How {
    How::Recovering {
        slot: 2,
        image: slot(broken_by(1, 4), 5, COMMITTED),
        breaker: slot(SlotState::Live, 6, Journal::Idle),
    }
}

fn busy(spot: Spot, how: How) -> HostAnswer {
    HostAnswer::Busy { spot, how }
}

#[test]
fn a_busy_answer_tells_what_is_busy_and_how(rt: HostRuntime) -> Result<(), Fail> {
    let table = [
        (
            busy(Spot::Object(2072), held()),
            b"busy held 2072 0.3".as_slice(),
        ),
        (busy(Spot::Slot(3), held()), b"busy held slot-3 0.3"),
        (
            busy(Spot::Object(0), recovering()),
            b"busy recovering 0 2.5 1.4",
        ),
        (
            busy(Spot::Slot(3), recovering()),
            b"busy recovering slot-3 2.5 1.4",
        ),
        (busy(Spot::Object(2072), How::Raced), b"busy raced 2072"),
        (busy(Spot::Slot(3), How::Raced), b"busy raced slot-3"),
    ];
    for (answer, want) in &table {
        let mut text = Text::new(rt.alloc());
        write_answer(&mut text, answer)?;
        assert_eq!(rt; text.into_bytes().as_slice(), *want);
    }
    Ok(())
}

/// The sector of a slot.
fn image(
    rt: &impl Abort,
    number: SlotNo,
    state: SlotState,
    generation: Gen,
    journal: Journal,
) -> Sector {
    let slot = slot(state, generation, journal);
    assert!(rt; slot.is_valid());
    slot.encode(number)
}

fn sent(host: u8, directive: u32, command: Command, response: Response) -> Event {
    let step = Step::Sent {
        under: Some((host, 1)),
        command,
        response,
        landed: true,
        took: true,
    };
    Event {
        host,
        at: 0,
        directive,
        step,
        dies: false,
    }
}

/// A Swap of a slot in generation 1, by the host whose slot has the host's number.
fn swap(
    rt: &impl Abort,
    host: u8,
    directive: u32,
    slot: SlotNo,
    states: [SlotState; 2],
    journals: [Journal; 2],
) -> Event {
    let [before, after] = states;
    let [idle, committed] = journals;
    let generation = if after == SlotState::Free { 2 } else { 1 };
    let command = Command::Swap {
        at: 2 + u32::from(slot),
        verify: image(rt, slot, before, 1, idle),
        fresh: image(rt, slot, after, generation, committed),
    };
    sent(host, directive, command, Response::Done)
}

/// A Swap of a slot with an idle journal.
fn turn(rt: &impl Abort, host: u8, directive: u32, slot: SlotNo, states: [SlotState; 2]) -> Event {
    swap(rt, host, directive, slot, states, [Journal::Idle; 2])
}

fn last(event: Event) -> Event {
    Event {
        dies: true,
        ..event
    }
}

fn reply(event: usize, host: u8, directive: u32, answer: HostAnswer, place: Option<u32>) -> Reply
    ensures { result.event ≡ event }
{
    Reply {
        event,
        host,
        directive,
        answer,
        place,
    }
}

fn registered(slot: SlotNo) -> HostAnswer {
    HostAnswer::Registered {
        slot,
        generation: 1,
    }
}

const DISK: Key = Key {
    object: 1,
    birth: 1,
};

fn plan(rt: &impl Abort, name: &[u8], list: Items<Directive>) -> HostPlan {
    let name = Word::new(name).expect(rt, "a word");
    HostPlan { name, list }
}

fn call(call: HostCallOf<Spoken>) -> Directive {
    Directive::Call { call, bind: None }
}

fn tick(ticks: u32) -> Directive {
    Directive::Tick { ticks }
}

fn create_disk(rt: &impl Abort) -> Directive {
    let name = Word::new(b"disk").expect(rt, "a word");
    call(HostCallOf::Tree(CallOf::Create {
        dir: Spoken::Root,
        name,
    }))
}

fn lookup_disk(rt: &impl Abort) -> Directive {
    let name = Word::new(b"disk").expect(rt, "a word");
    call(HostCallOf::Tree(CallOf::Lookup {
        dir: Spoken::Root,
        name,
    }))
}

fn get() -> Directive {
    call(HostCallOf::Get {
        file: Spoken::Root,
        sector: 0,
    })
}

/// Three hosts: `a` dies at its commit, `b` dies while it carries that out, and `c` finds both.
fn scenario(rt: &impl Abort, alloc: Global) -> Result<Scenario, Fail> {
    let mut first = Items::new(alloc);
    first.push(call(HostCallOf::Register))?;
    first.push(Directive::Crash {
        point: Point::Commit,
    })?;
    first.push(create_disk(rt))?;
    let mut second = Items::new(alloc);
    second.push(tick(1))?;
    second.push(call(HostCallOf::Register))?;
    second.push(get())?;
    second.push(Directive::Crash {
        point: Point::Place,
    })?;
    second.push(call(HostCallOf::Scan))?;
    let mut third = Items::new(alloc);
    third.push(tick(16))?;
    third.push(call(HostCallOf::Register))?;
    third.push(lookup_disk(rt))?;
    third.push(get())?;
    third.push(call(HostCallOf::Scan))?;
    third.push(lookup_disk(rt))?;
    let mut hosts = Items::new(alloc);
    hosts.push(plan(rt, b"a", first))?;
    hosts.push(plan(rt, b"b", second))?;
    hosts.push(plan(rt, b"c", third))?;
    Ok(Scenario {
        volume: Uuid::nil(),
        geom: Geom {
            slots: 4,
            block: 1,
            clusters: [1; 4],
            items: [16, 8, 8, 64],
        },
        hosts,
        steps: Items::new(alloc),
    })
}

/// Whether the report of these events, with the tree of a new volume, is this text.
fn assert_told(
    rt: &impl Abort,
    alloc: Global,
    events: &[Event],
    replies: &[Reply],
    want: &[u8],
) -> Result<(), Fail>
    requires { AreInOrder replies.now }
{
    let scenario = scenario(rt, alloc)?;
    assert!(rt; scenario.geom.check().is_ok());
    let tree = Tree::fresh(alloc, &scenario.geom)?;
    let report = whole(alloc, &scenario, events, replies, &tree)?;
    assert_eq!(rt; report.as_slice(), want);
    Ok(())
}

#[test]
fn hosts_that_die_at_a_commit_and_while_they_break_a_slot(rt: HostRuntime) -> Result<(), Fail> {
    let alloc = rt.alloc();
    let live = SlotState::Live;
    let commit = swap(&rt, 0, 3, 0, [live, live], [Journal::Idle, COMMITTED]);
    let made = HostAnswer::Tree(TreeReply::Made { key: DISK });
    assert_told(
        &rt,
        alloc,
        &[turn(&rt, 0, 1, 0, [SlotState::Free, live]), last(commit)],
        &[
            reply(0, 0, 1, registered(0), None),
            reply(1, 0, 3, made, Some(1)),
        ],
        b"a 1 register ok 0.1\na 3 create ok 1.1 at 1\na dies\nchanges 1\n/ 0.1 dir\n",
    )?;
    let broken = swap(&rt, 1, 5, 0, [live, breaking(1)], [COMMITTED; 2]);
    let death = last(turn(&rt, 1, 5, 1, [live, live]));
    assert_told(
        &rt,
        alloc,
        &[turn(&rt, 1, 2, 1, [SlotState::Free, live]), broken, death],
        &[reply(0, 1, 2, registered(1), None)],
        b"b 2 register ok 1.1\nb breaks 0.1\nb dies\nchanges 0\n/ 0.1 dir\n",
    )
}

#[test]
fn a_scan_that_breaks_a_slot_and_seizes_another(rt: HostRuntime) -> Result<(), Fail> {
    let alloc = rt.alloc();
    let live = SlotState::Live;
    let found = HostAnswer::Tree(TreeReply::Found {
        key: DISK,
        kind: NodeKind::File,
    });
    let freed = [breaking(2), SlotState::Free];
    assert_told(
        &rt,
        alloc,
        &[
            turn(&rt, 2, 5, 1, [live, breaking(2)]),
            turn(&rt, 2, 5, 1, freed),
            turn(&rt, 2, 5, 2, [live, live]),
            swap(&rt, 2, 6, 0, [breaking(1), breaking(2)], [COMMITTED; 2]),
            swap(&rt, 2, 6, 0, freed, [COMMITTED, Journal::Idle]),
            turn(&rt, 2, 6, 2, [live, live]),
        ],
        &[
            reply(2, 2, 5, HostAnswer::Plain, None),
            reply(5, 2, 6, found, Some(1)),
        ],
        b"c breaks 1.1\n\
            c frees 1.1\n\
            c 5 scan ok\n\
            c seizes 0.1\n\
            c frees 0.1\n\
            c 6 lookup ok 1.1 file at 1\n\
            changes 0\n\
            / 0.1 dir\n",
    )
}

/// One event that breaks, seizes or frees a slot, has a reply and is its host's last.
#[test]
fn what_became_of_a_slot_comes_first_and_a_death_last(rt: HostRuntime) -> Result<(), Fail> {
    let alloc = rt.alloc();
    let table = [
        (SlotState::Live, breaking(2), b"c breaks 1.1\n".as_slice()),
        (breaking(0), breaking(2), b"c seizes 1.1\n"),
        (breaking(2), SlotState::Free, b"c frees 1.1\n"),
        (SlotState::Live, SlotState::Live, b""),
        (SlotState::Live, SlotState::Free, b""),
    ];
    for (before, after, want) in table {
        let mut text = Text::new(alloc);
        text.bytes(want)?;
        text.bytes(b"c 5 scan ok\nc dies\nchanges 0\n/ 0.1 dir\n")?;
        assert_told(
            &rt,
            alloc,
            &[last(turn(&rt, 2, 5, 1, [before, after]))],
            &[reply(0, 2, 5, HostAnswer::Plain, None)],
            text.into_bytes().as_slice(),
        )?;
    }
    Ok(())
}

fn read(host: u8, directive: u32, byte: u8) -> Event {
    let mut sector = Sector::zero();
    sector.bytes[0] = byte;
    sent(
        host,
        directive,
        Command::Read { at: 190 },
        Response::Got(sector),
    )
}

fn got(block: u32) -> HostAnswer {
    HostAnswer::Tree(TreeReply::AtBlock { block })
}

#[test]
fn a_get_tells_the_first_byte_that_its_last_read_gave(rt: HostRuntime) -> Result<(), Fail> {
    let alloc = rt.alloc();
    let live = SlotState::Live;
    assert_told(
        &rt,
        alloc,
        &[
            read(1, 2, 1),
            read(1, 3, 9),
            read(1, 3, 7),
            read(2, 3, 5),
            turn(&rt, 1, 3, 1, [live, live]),
            read(1, 3, 8),
        ],
        &[reply(4, 1, 3, got(41), Some(2))],
        b"b 3 get ok 41 7 at 2\nchanges 0\n/ 0.1 dir\n",
    )?;
    assert_told(
        &rt,
        alloc,
        &[read(2, 6, 5), turn(&rt, 2, 4, 2, [live, live])],
        &[
            reply(0, 2, 6, got(3), Some(2)),
            reply(1, 2, 4, got(0), Some(0)),
        ],
        b"c 6 lookup ok 3 at 2\nc 4 get ok 0 at 0\nchanges 0\n/ 0.1 dir\n",
    )
}

//! The texts of answers.
ghost use Rattle.std.specs.Prelude.{◌≡◌, ◌++◌, OnOk, codes, decimal};
ghost use Rattle.std.specs.List.{flat_map};
ghost use Rattle.ds_marks.specs.Slot.{breaker_of, breaker_generation_of};
ghost use Rattle.ds_report.specs.Answers.{answer_text, busy_text, spot_text, pair_text, tree_text, no_space_text, key_text, kind_text, entry_text, item_text, place_text};

use crate::pairs::{write_key_pair, write_pair};
use ds_base::{Key, Kind, Name, NoMemory, NodeKind, Tick};
use ds_conduct::{HostAnswer, Spot};
use ds_lock::How;
use ds_marks::SlotState;
use ds_text::Text;
use ds_tree::TreeReply;

pub(crate) fn write_answer(text: &mut Text, answer: &HostAnswer) -> Result<(), NoMemory>
    ensures { OnOk result (text.new ≡ text.old ++ answer_text answer.now) }
{
    match answer {
        HostAnswer::Tree(reply) => write_reply(text, reply),
        HostAnswer::Registered { slot, generation } => {
            text.bytes(b"ok ")?;
            write_pair(text, u64::from(*slot), *generation)
        }
        HostAnswer::Plain => text.bytes(b"ok"),
        HostAnswer::BadName => text.bytes(b"bad-name"),
        HostAnswer::Unregistered => text.bytes(b"unregistered"),
        HostAnswer::NotOpen => text.bytes(b"not-open"),
        HostAnswer::StillOpen => text.bytes(b"still-open"),
        HostAnswer::OpenFull => text.bytes(b"open-full"),
        HostAnswer::Busy { spot, how } => write_busy(text, *spot, how),
        HostAnswer::NoSlot => text.bytes(b"no-slot"),
        HostAnswer::Fenced { offset } => {
            text.bytes(b"fenced ")?;
            text.number(u64::from(*offset))
        }
        HostAnswer::LeaseLost { now, last } => {
            text.bytes(b"lease-lost ")?;
            write_ticks(text, *now, *last)
        }
        HostAnswer::DeviceFault => text.bytes(b"device-fault"),
        HostAnswer::InDoubt => text.bytes(b"in-doubt"),
        HostAnswer::Damaged { sector } => {
            text.bytes(b"damaged ")?;
            text.number(u64::from(*sector))
        }
        HostAnswer::WornOut => text.bytes(b"worn-out"),
    }
}

fn write_busy(text: &mut Text, spot: Spot, how: &How) -> Result<(), NoMemory>
    ensures { OnOk result (text.new ≡ text.old ++ busy_text spot how.now) }
{
    match how {
        How::Held { slot, image } => {
            text.bytes(b"busy held ")?;
            write_spot(text, spot)?;
            text.bytes(b" ")?;
            write_pair(text, u64::from(*slot), image.generation)
        }
        How::Recovering { slot, image, .. } => {
            text.bytes(b"busy recovering ")?;
            write_spot(text, spot)?;
            text.bytes(b" ")?;
            write_pair(text, u64::from(*slot), image.generation)?;
            text.bytes(b" ")?;
            write_breaker(text, image.state)
        }
        How::Raced => {
            text.bytes(b"busy raced ")?;
            write_spot(text, spot)
        }
    }
}

fn write_spot(text: &mut Text, spot: Spot) -> Result<(), NoMemory>
    ensures { OnOk result (text.new ≡ text.old ++ spot_text spot) }
{
    match spot {
        Spot::Object(object) => text.number(u64::from(object)),
        Spot::Slot(slot) => {
            text.bytes(b"slot-")?;
            text.number(u64::from(slot))
        }
    }
}

/// The breaker that a slot's image names.
fn write_breaker(text: &mut Text, state: SlotState) -> Result<(), NoMemory>
    ensures { OnOk result (text.new ≡ text.old ++ pair_text (breaker_of state) (breaker_generation_of state)) }
{
    match state {
        SlotState::Breaking { by, by_generation } => write_pair(text, u64::from(by), by_generation),
        SlotState::Free | SlotState::Live => write_pair(text, 0, 0),
    }
}

fn write_ticks(text: &mut Text, now: Tick, last: Tick) -> Result<(), NoMemory>
    ensures { OnOk result (text.new ≡ text.old ++ (decimal now ++ codes " " ++ decimal last)) }
{
    text.number(now)?;
    text.bytes(b" ")?;
    text.number(last)
}

pub(crate) fn write_place(
    text: &mut Text,
    answer: &HostAnswer,
    place: Option<u32>,
) -> Result<(), NoMemory>
    ensures { OnOk result (text.new ≡ text.old ++ place_text answer.now place) }
{
    match (answer, place) {
        (HostAnswer::Tree(_), Some(place)) => {
            text.bytes(b" at ")?;
            text.number(u64::from(place))
        }
        _ => Ok(()),
    }
}

fn write_reply(text: &mut Text, reply: &TreeReply) -> Result<(), NoMemory>
    ensures { OnOk result (text.new ≡ text.old ++ tree_text reply.now) }
{
    match reply {
        TreeReply::Made { key } | TreeReply::Gone { key } | TreeReply::Moved { key } => write_key(
            text, *key,
        ),
        TreeReply::Found { key, kind } => write_found(text, *key, *kind),
        TreeReply::Page { total, names } => write_page(text, *total, names.as_slice()),
        TreeReply::Info { kind, size } => write_info(text, *kind, *size),
        TreeReply::Blocks { list } => write_blocks(text, list.as_slice()),
        TreeReply::Sized { blocks } | TreeReply::Opened { blocks } => write_number(text, *blocks),
        TreeReply::AtBlock { block } => write_number(text, *block),
        TreeReply::NoObject => text.bytes(b"no-object"),
        TreeReply::NotDir => text.bytes(b"not-dir"),
        TreeReply::NotFile => text.bytes(b"not-file"),
        TreeReply::NotFound => text.bytes(b"not-found"),
        TreeReply::Exists => text.bytes(b"exists"),
        TreeReply::NotEmpty => text.bytes(b"not-empty"),
        TreeReply::DirFull => text.bytes(b"dir-full"),
        TreeReply::NoSpace { kind } => text.bytes(no_space(*kind)),
        TreeReply::TooBig => text.bytes(b"too-big"),
        TreeReply::TooMuch => text.bytes(b"too-much"),
        TreeReply::CrossDir => text.bytes(b"cross-dir"),
        TreeReply::NoBlock => text.bytes(b"no-block"),
    }
}

fn write_key(text: &mut Text, key: Key) -> Result<(), NoMemory>
    ensures { OnOk result (text.new ≡ text.old ++ (codes "ok " ++ key_text key)) }
{
    text.bytes(b"ok ")?;
    write_key_pair(text, key)
}

fn write_number(text: &mut Text, number: u32) -> Result<(), NoMemory>
    ensures { OnOk result (text.new ≡ text.old ++ (codes "ok " ++ decimal number)) }
{
    text.bytes(b"ok ")?;
    text.number(u64::from(number))
}

fn write_found(text: &mut Text, key: Key, kind: NodeKind) -> Result<(), NoMemory>
    ensures { OnOk result (text.new ≡ text.old ++ (codes "ok " ++ key_text key ++ codes " " ++ kind_text kind)) }
{
    write_key(text, key)?;
    text.bytes(b" ")?;
    text.bytes(kind_word(kind))
}

fn write_info(text: &mut Text, kind: NodeKind, size: u32) -> Result<(), NoMemory>
    ensures { OnOk result (text.new ≡ text.old ++ (codes "ok " ++ kind_text kind ++ codes " " ++ decimal size)) }
{
    text.bytes(b"ok ")?;
    text.bytes(kind_word(kind))?;
    text.bytes(b" ")?;
    text.number(u64::from(size))
}

pub(crate) fn write_page(text: &mut Text, total: u32, names: &[(Name, Key)]) -> Result<(), NoMemory>
    ensures { OnOk result (text.new ≡ text.old ++ (codes "ok " ++ decimal total ++ flat_map entry_text names.now)) }
{
    write_number(text, total)?;
    for (name, key) in names {
        write_entry(text, name, *key)?;
    }
    Ok(())
}

fn write_entry(text: &mut Text, name: &Name, key: Key) -> Result<(), NoMemory>
    ensures { OnOk result (text.new ≡ text.old ++ entry_text (name.now, key)) }
{
    text.bytes(b" ")?;
    text.bytes(name.bytes())?;
    text.bytes(b"=")?;
    write_key_pair(text, key)
}

fn write_blocks(text: &mut Text, blocks: &[u32]) -> Result<(), NoMemory>
    ensures { OnOk result (text.new ≡ text.old ++ (codes "ok" ++ flat_map item_text blocks.now)) }
{
    text.bytes(b"ok")?;
    for block in blocks {
        write_item(text, *block)?;
    }
    Ok(())
}

pub(crate) fn write_item(text: &mut Text, number: u32) -> Result<(), NoMemory>
    ensures { OnOk result (text.new ≡ text.old ++ item_text number) }
{
    text.bytes(b" ")?;
    text.number(u64::from(number))
}

fn kind_word(kind: NodeKind) -> &'static [u8]
    ensures { result.now ≡ kind_text kind }
{
    match kind {
        NodeKind::File => b"file",
        NodeKind::Dir => b"dir",
    }
}

fn no_space(kind: Kind) -> &'static [u8]
    ensures { result.now ≡ no_space_text kind }
{
    match kind {
        Kind::Fd => b"no-space fd",
        Kind::Sb => b"no-space sb",
        Kind::Pb => b"no-space pb",
        Kind::Fb => b"no-space fb",
    }
}

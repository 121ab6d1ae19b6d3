//! The texts of findings.
ghost use Rattle.std.specs.Prelude.{◌≡◌, ◌++◌, OnOk, codes, decimal};
ghost use Rattle.ds_check.specs.Texts.{find_text, object_text, room_text, item_text, both_text, kind_text};

use crate::findings::Find;
use ds_base::{Kind, NoMemory};
use ds_text::Text;

/// The text of a finding, behind what stands there.
pub(crate) fn write_find(text: &mut Text, find: &Find) -> Result<(), NoMemory>
    ensures { OnOk result (text.new ≡ text.old ++ find_text find.now) }
{
    match *find {
        Find::SectorForm { sector } | Find::MetaForm { sector } => write_numbered(
            text, b"sector ", sector, b" form",
        ),
        Find::HeaderOwner { object } => write_numbered(text, b"object ", object, b" owner"),
        Find::SlotBreaker { slot } => write_numbered(text, b"slot ", slot, b" breaker"),
        Find::JournalForm { slot } => write_numbered(text, b"journal ", slot, b" form"),
        Find::JournalsShare {
            first,
            second,
            sector,
        } => write_shared(text, first, second, sector),
        Find::Root => text.bytes(b"root"),
        Find::Address { object, index } => write_of_object(text, object, b" address ", index),
        Find::Room { object, room } => write_of_object(text, object, b" room ", room),
        Find::Twice {
            kind,
            item,
            first,
            second,
        } => write_twice(text, kind, item, first, second),
        Find::Marked { kind, item } => write_item(text, kind, item, b" marked"),
        Find::Unmarked { kind, item } => write_item(text, kind, item, b" unmarked"),
        Find::Dangling { object, room } => write_room(text, object, room, b" dangling"),
        Find::Again { object, room } => write_room(text, object, room, b" again"),
        Find::Names { object, names } => write_of_object(text, object, b" names ", names),
        Find::Lost { object } => write_numbered(text, b"object ", object, b" lost"),
    }
}

/// A number between two words.
fn write_numbered(text: &mut Text, before: &[u8], number: u32, after: &[u8]) -> Result<(), NoMemory>
    ensures { OnOk result (text.new ≡ text.old ++ (before.now ++ decimal number ++ after.now)) }
{
    text.bytes(before)?;
    text.number(u64::from(number))?;
    text.bytes(after)
}

/// Two numbers with a blank between them.
fn write_both(text: &mut Text, first: u32, second: u32) -> Result<(), NoMemory>
    ensures { OnOk result (text.new ≡ text.old ++ both_text first second) }
{
    text.number(u64::from(first))?;
    text.bytes(b" ")?;
    text.number(u64::from(second))
}

fn write_shared(text: &mut Text, first: u32, second: u32, sector: u32) -> Result<(), NoMemory>
    ensures { OnOk result (text.new ≡ text.old
        ++ (codes "journals " ++ both_text first second ++ codes " share " ++ decimal sector)) }
{
    text.bytes(b"journals ")?;
    write_both(text, first, second)?;
    text.bytes(b" share ")?;
    text.number(u64::from(sector))
}

/// An object, a word and a number of something of the object.
fn write_of_object(text: &mut Text, object: u32, word: &[u8], number: u32) -> Result<(), NoMemory>
    ensures { OnOk result (text.new ≡ text.old ++ (object_text object ++ word.now ++ decimal number)) }
{
    text.bytes(b"object ")?;
    text.number(u64::from(object))?;
    text.bytes(word)?;
    text.number(u64::from(number))
}

fn write_room(text: &mut Text, object: u32, room: u32, word: &[u8]) -> Result<(), NoMemory>
    ensures { OnOk result (text.new ≡ text.old ++ (room_text object room ++ word.now)) }
{
    write_of_object(text, object, b" room ", room)?;
    text.bytes(word)
}

fn write_twice(
    text: &mut Text,
    kind: Kind,
    item: u32,
    first: u32,
    second: u32,
) -> Result<(), NoMemory>
    ensures { OnOk result (text.new ≡ text.old ++ (item_text kind item ++ codes " twice " ++ both_text first second)) }
{
    write_item(text, kind, item, b" twice ")?;
    write_both(text, first, second)
}

/// An item and a word.
fn write_item(text: &mut Text, kind: Kind, item: u32, word: &[u8]) -> Result<(), NoMemory>
    ensures { OnOk result (text.new ≡ text.old ++ (item_text kind item ++ word.now)) }
{
    text.bytes(kind_word(kind))?;
    text.bytes(b" ")?;
    text.number(u64::from(item))?;
    text.bytes(word)
}

fn kind_word(kind: Kind) -> &'static [u8]
    ensures { result.now ≡ kind_text kind }
{
    match kind {
        Kind::Fd => b"fd",
        Kind::Sb => b"sb",
        Kind::Pb => b"pb",
        Kind::Fb => b"fb",
    }
}

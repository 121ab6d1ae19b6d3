//! What a check finds.

use ds_base::Kind;

/// What is at odds in an image. Objects are lock objects; sectors, slots, items, rooms and addresses count from 0.
#[derive(Clone, Copy, Debug, PartialEq, Eq)]
pub enum Find {
    /// The file system information, a slot or a header doesn't have its form, or the information has another volume's id.
    SectorForm {
        sector: u32,
    },
    /// A header names an owner that its slot can't have been.
    HeaderOwner {
        object: u32,
    },
    /// A slot names a breaker's slot that isn't there.
    SlotBreaker {
        slot: u32,
    },
    /// A committed slot's journal index isn't one of that slot, generation and transaction, or has a target that isn't metadata.
    JournalForm {
        slot: u32,
    },
    /// Two slots' pending pairs have a target in common.
    JournalsShare {
        first: u32,
        second: u32,
        sector: u32,
    },
    /// A body or a bitmap doesn't have its form.
    MetaForm {
        sector: u32,
    },
    /// Object 0 isn't a directory with birth 1.
    Root,
    /// An address in use isn't an item of its kind, or a pointer block has another number than zero past the last block.
    Address {
        object: u32,
        index: u32,
    },
    /// A sub-block doesn't have its form; `room` is its first one's number.
    Room {
        object: u32,
        room: u32,
    },
    /// An item is listed twice; the two least objects that list it.
    Twice {
        kind: Kind,
        item: u32,
        first: u32,
        second: u32,
    },
    /// An item's bit is set, and nothing uses it.
    Marked {
        kind: Kind,
        item: u32,
    },
    /// An item is used, and its bit is clear.
    Unmarked {
        kind: Kind,
        item: u32,
    },
    /// The object of an entry isn't in use with that birth and of that kind.
    Dangling {
        object: u32,
        room: u32,
    },
    /// An earlier room of the directory has the same name.
    Again {
        object: u32,
        room: u32,
    },
    /// A used object but the root has so many names, and not one; or the root has some.
    Names {
        object: u32,
        names: u32,
    },
    /// A used object isn't reached from the root.
    Lost {
        object: u32,
    },
}

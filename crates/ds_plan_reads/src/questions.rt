//! What is asked of an object.

/// What a call asks of an object without changing it: its kind and size; of a file the blocks of a page of its map, which
/// has 128; its size, to hold it open; the block with an index.
#[derive(Clone, Copy, Debug, PartialEq, Eq)]
pub enum Question {
    Stat,
    Map { page: u32 },
    OpenFile,
    At { index: u32 },
}

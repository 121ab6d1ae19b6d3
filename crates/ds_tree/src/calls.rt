//! The calls on a file tree and what it answers.

ghost use Rattle.std.specs.Prelude.{◌≡◌, IfOk};

use crate::variables::Spoken;
use arrayvec::ArrayVec;
use ds_base::{Key, Kind, Name, NoMemory, NodeKind, Word};

/// A call on the file tree. Sizes and indexes count file blocks; a page of a file's map has 128 of them.
#[derive(Debug, Drop)]
pub enum CallOf<K> {
    Mkdir {
        dir: K,
        name: Word,
    },
    Create {
        dir: K,
        name: Word,
    },
    Lookup {
        dir: K,
        name: Word,
    },
    List {
        dir: K,
        after: Option<Word>,
    },
    Stat {
        key: K,
    },
    Map {
        file: K,
        page: u32,
    },
    Resize {
        file: K,
        blocks: u32,
    },
    Remove {
        dir: K,
        name: Word,
    },
    Rmdir {
        dir: K,
        name: Word,
    },
    Rename {
        dir: K,
        name: Word,
        to: K,
        fresh: Word,
    },
    OpenFile {
        file: K,
    },
    At {
        file: K,
        index: u32,
    },
}

/// A call that a host is given. `sector` counts the sectors of a file's blocks from its first.
#[derive(Debug, Drop)]
pub enum HostCallOf<K> {
    Tree(CallOf<K>),
    Register,
    Unregister,
    Beat,
    Scan,
    Close { file: K },
    Put { file: K, sector: u32, fill: u8 },
    Get { file: K, sector: u32 },
}

pub type Call = CallOf<Key>;

pub type HostCall = HostCallOf<Key>;

/// What the file tree answers to a call. The size of a file is its number of blocks, that of a directory its number
/// of rooms.
#[derive(Debug, Drop, PartialEq, Eq)]
pub enum TreeReply {
    Made {
        key: Key,
    },
    Found {
        key: Key,
        kind: NodeKind,
    },
    Page {
        total: u32,
        names: ArrayVec<(Name, Key), 32>,
    },
    Info {
        kind: NodeKind,
        size: u32,
    },
    Blocks {
        list: ArrayVec<u32, 128>,
    },
    Sized {
        blocks: u32,
    },
    Gone {
        key: Key,
    },
    Moved {
        key: Key,
    },
    Opened {
        blocks: u32,
    },
    AtBlock {
        block: u32,
    },
    NoObject,
    NotDir,
    NotFile,
    NotFound,
    Exists,
    NotEmpty,
    DirFull,
    NoSpace {
        kind: Kind,
    },
    TooBig,
    TooMuch,
    CrossDir,
    NoBlock,
}

impl HostCallOf<Spoken> {
    /// A copy.
    pub fn copy(&self) -> Result<HostCallOf<Spoken>, NoMemory>
        ensures { IfOk result (λ call. call ≡ self.now) }
    {
        Ok(match self {
            HostCallOf::Tree(call) => HostCallOf::Tree(call.copy()?),
            HostCallOf::Register => HostCallOf::Register,
            HostCallOf::Unregister => HostCallOf::Unregister,
            HostCallOf::Beat => HostCallOf::Beat,
            HostCallOf::Scan => HostCallOf::Scan,
            HostCallOf::Close { file } => HostCallOf::Close { file: file.copy()? },
            HostCallOf::Put { file, sector, fill } => HostCallOf::Put {
                file: file.copy()?,
                sector: *sector,
                fill: *fill,
            },
            HostCallOf::Get { file, sector } => HostCallOf::Get {
                file: file.copy()?,
                sector: *sector,
            },
        })
    }
}

impl CallOf<Spoken> {
    /// A copy.
    pub fn copy(&self) -> Result<CallOf<Spoken>, NoMemory>
        ensures { IfOk result (λ call. call ≡ self.now) }
    {
        Ok(match self {
            CallOf::Mkdir { dir, name } => CallOf::Mkdir {
                dir: dir.copy()?,
                name: copy_of(name)?,
            },
            CallOf::Create { dir, name } => CallOf::Create {
                dir: dir.copy()?,
                name: copy_of(name)?,
            },
            CallOf::Lookup { dir, name } => CallOf::Lookup {
                dir: dir.copy()?,
                name: copy_of(name)?,
            },
            CallOf::List { dir, after } => CallOf::List {
                dir: dir.copy()?,
                after: copy_of_optional(after)?,
            },
            CallOf::Stat { key } => CallOf::Stat { key: key.copy()? },
            CallOf::Map { file, page } => CallOf::Map {
                file: file.copy()?,
                page: *page,
            },
            CallOf::Resize { file, blocks } => CallOf::Resize {
                file: file.copy()?,
                blocks: *blocks,
            },
            CallOf::Remove { dir, name } => CallOf::Remove {
                dir: dir.copy()?,
                name: copy_of(name)?,
            },
            CallOf::Rmdir { dir, name } => CallOf::Rmdir {
                dir: dir.copy()?,
                name: copy_of(name)?,
            },
            CallOf::Rename {
                dir,
                name,
                to,
                fresh,
            } => CallOf::Rename {
                dir: dir.copy()?,
                name: copy_of(name)?,
                to: to.copy()?,
                fresh: copy_of(fresh)?,
            },
            CallOf::OpenFile { file } => CallOf::OpenFile { file: file.copy()? },
            CallOf::At { file, index } => CallOf::At {
                file: file.copy()?,
                index: *index,
            },
        })
    }
}

fn copy_of(word: &Word) -> Result<Word, NoMemory>
    ensures { IfOk result (λ copied. copied ≡ word.now) }
{
    Ok(word.clone()?)
}

fn copy_of_optional(word: &Option<Word>) -> Result<Option<Word>, NoMemory>
    ensures { IfOk result (λ copied. copied ≡ word.now) }
{
    Ok(word.clone()?)
}

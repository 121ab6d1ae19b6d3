//! The refusals of calls.
ghost use Rattle.std.specs.Prelude.{◌≡◌, ◌==◌, nat_le, length, is_none, Some, None};
ghost use Rattle.ds_base.specs.Names.{IsName};
ghost use Rattle.ds_tree.specs.CallNames.{HasNames};
ghost use Rattle.ds_tree.specs.Nodes.{node_at, node_of_key};
ghost use Rattle.ds_tree.specs.Steps as steps;
ghost use Rattle.ds_tree.specs.WellFormed.{IsTree};

use crate::calls::{Call, CallOf, TreeReply};
use crate::counts::pointer_blocks;
use crate::listing::Listing;
use crate::objects::NodeInMemory;
use crate::tables::Table;
use ds_base::{Key, Kind, MOST_BLOCKS, MOST_ENTRIES, Name, ObjNo, Word};

impl Table {
    /// The first refusal of a call whose condition holds; `None` where the call succeeds.
    pub(crate) fn refusal(&self, call: &Call) -> Option<TreeReply>
        requires names { HasNames call.now }
        requires tree { IsTree self.now.geom self.now.tree }
        ensures { result ≡ steps.refusal self.now.geom self.now.tree call.now }
    {
        match call {
            CallOf::Mkdir { dir, name } => self.refuses_new(*dir, name),
            CallOf::Create { dir, name } => self.refuses_new(*dir, name),
            CallOf::Lookup { dir, name } => self.refuses_lookup(*dir, name),
            CallOf::List { dir, .. } => self.refuses_dir(*dir),
            CallOf::Stat { key } => self.refuses_stat(*key),
            CallOf::Map { file, .. } => self.refuses_file(*file),
            CallOf::Resize { file, blocks } => self.refuses_resize(*file, *blocks),
            CallOf::Remove { dir, name } => self.refuses_remove(*dir, name),
            CallOf::Rmdir { dir, name } => self.refuses_rmdir(*dir, name),
            CallOf::Rename {
                dir,
                name,
                to,
                fresh,
            } => self.refuses_rename(*dir, name, *to, fresh),
            CallOf::OpenFile { file } => self.refuses_file(*file),
            CallOf::At { file, index } => self.refuses_at(*file, *index),
        }
    }

    fn refuses_new(&self, dir: Key, word: &Word) -> Option<TreeReply>
        requires name { IsName word.now }
        requires tree { IsTree self.now.geom self.now.tree }
        ensures { result ≡ steps.in_dir (node_of_key self.now.tree dir)
            (steps.refuses_new self.now.geom self.now.tree word.now) }
    {
        let Some(node) = self.node(dir) else {
            return Some(TreeReply::NoObject);
        };
        let NodeInMemory::Dir { entries, rooms } = node else {
            return Some(TreeReply::NotDir);
        };
        if entries.get(&Name::of_word(word)).is_some() {
            return Some(TreeReply::Exists);
        }
        if entries.len() >= MOST_ENTRIES as usize {
            return Some(TreeReply::DirFull);
        }
        if self.free(Kind::Fd) == 0 {
            return Some(TreeReply::NoSpace { kind: Kind::Fd });
        }
        self.refuses_room(entries, *rooms)
    }

    fn refuses_room(&self, entries: &Listing, rooms: u32) -> Option<TreeReply>
        requires { IsTree self.now.geom self.now.tree }
        ensures { result ≡ steps.refuses_room self.now.geom self.now.tree entries.now rooms }
    {
        if rooms as usize <= entries.len() && self.free(Kind::Sb) == 0 {
            return Some(TreeReply::NoSpace { kind: Kind::Sb });
        }
        None
    }

    fn refuses_lookup(&self, dir: Key, word: &Word) -> Option<TreeReply>
        requires { IsName word.now }
        ensures { result ≡ steps.in_dir (node_of_key self.now.tree dir)
            (λ entries rooms. steps.refuses_missing entries word.now None) }
    {
        let Some(node) = self.node(dir) else {
            return Some(TreeReply::NoObject);
        };
        let NodeInMemory::Dir { entries, .. } = node else {
            return Some(TreeReply::NotDir);
        };
        if entries.get(&Name::of_word(word)).is_none() {
            return Some(TreeReply::NotFound);
        }
        None
    }

    fn refuses_dir(&self, dir: Key) -> Option<TreeReply>
        ensures { result ≡ steps.in_dir (node_of_key self.now.tree dir) (λ entries rooms. None) }
    {
        match self.node(dir) {
            None => Some(TreeReply::NoObject),
            Some(NodeInMemory::File { .. }) => Some(TreeReply::NotDir),
            Some(NodeInMemory::Dir { .. }) => None,
        }
    }

    fn refuses_stat(&self, key: Key) -> Option<TreeReply>
        ensures { result ≡ steps.refuse (is_none (node_of_key self.now.tree key)) TreeReply.NoObject None }
    {
        match self.node(key) {
            None => Some(TreeReply::NoObject),
            Some(_) => None,
        }
    }

    fn refuses_file(&self, file: Key) -> Option<TreeReply>
        ensures { result ≡ steps.in_file (node_of_key self.now.tree file) (λ blocks. None) }
    {
        match self.node(file) {
            None => Some(TreeReply::NoObject),
            Some(NodeInMemory::Dir { .. }) => Some(TreeReply::NotFile),
            Some(NodeInMemory::File { .. }) => None,
        }
    }

    fn refuses_at(&self, file: Key, index: u32) -> Option<TreeReply>
        ensures { result ≡ steps.in_file (node_of_key self.now.tree file)
            (λ blocks. steps.refuse (nat_le (length blocks) index) TreeReply.NoBlock None) }
    {
        let Some(node) = self.node(file) else {
            return Some(TreeReply::NoObject);
        };
        let NodeInMemory::File { blocks } = node else {
            return Some(TreeReply::NotFile);
        };
        if blocks.len() <= index as usize {
            return Some(TreeReply::NoBlock);
        }
        None
    }

    fn refuses_resize(&self, file: Key, size: u32) -> Option<TreeReply>
        requires { IsTree self.now.geom self.now.tree }
        ensures { result ≡ steps.in_file (node_of_key self.now.tree file)
            (steps.refuses_resize self.now.geom self.now.tree size) }
    {
        let Some(node) = self.node(file) else {
            return Some(TreeReply::NoObject);
        };
        let NodeInMemory::File { blocks } = node else {
            return Some(TreeReply::NotFile);
        };
        let old = blocks.len() as u64;
        let size = u64::from(size);
        if size > u64::from(MOST_BLOCKS) {
            return Some(TreeReply::TooBig);
        }
        if size.abs_diff(old) > 1024 {
            return Some(TreeReply::TooMuch);
        }
        if self.free(Kind::Fb) < size.saturating_sub(old) {
            return Some(TreeReply::NoSpace { kind: Kind::Fb });
        }
        if self.free(Kind::Pb) < pointer_blocks(size).saturating_sub(pointer_blocks(old)) {
            return Some(TreeReply::NoSpace { kind: Kind::Pb });
        }
        None
    }

    fn refuses_remove(&self, dir: Key, word: &Word) -> Option<TreeReply>
        requires { IsName word.now }
        ensures { result ≡ steps.in_dir (node_of_key self.now.tree dir)
            (steps.refuses_remove self.now.tree word.now) }
    {
        let Some(node) = self.node(dir) else {
            return Some(TreeReply::NoObject);
        };
        let NodeInMemory::Dir { entries, .. } = node else {
            return Some(TreeReply::NotDir);
        };
        let Some(object) = entries.get(&Name::of_word(word)) else {
            return Some(TreeReply::NotFound);
        };
        match self.node_at(object) {
            Some(NodeInMemory::Dir { .. }) => Some(TreeReply::NotFile),
            _ => None,
        }
    }

    fn refuses_rmdir(&self, dir: Key, word: &Word) -> Option<TreeReply>
        requires { IsName word.now }
        ensures { result ≡ steps.in_dir (node_of_key self.now.tree dir)
            (steps.refuses_rmdir self.now.tree word.now) }
    {
        let Some(node) = self.node(dir) else {
            return Some(TreeReply::NoObject);
        };
        let NodeInMemory::Dir { entries, .. } = node else {
            return Some(TreeReply::NotDir);
        };
        let Some(object) = entries.get(&Name::of_word(word)) else {
            return Some(TreeReply::NotFound);
        };
        match self.node_at(object) {
            Some(NodeInMemory::File { .. }) => Some(TreeReply::NotDir),
            Some(NodeInMemory::Dir { entries, .. }) if entries.len() > 0 => Some(
                TreeReply::NotEmpty,
            ),
            _ => None,
        }
    }

    fn refuses_rename(&self, dir: Key, word: &Word, to: Key, fresh: &Word) -> Option<TreeReply>
        requires name { IsName word.now }
        requires fresh { IsName fresh.now }
        requires tree { IsTree self.now.geom self.now.tree }
        ensures { result ≡ steps.in_dir (node_of_key self.now.tree dir) (λ entries rooms.
            steps.in_dir (node_of_key self.now.tree to) (λ entries' rooms'.
            steps.refuses_rename self.now.geom self.now.tree (dir.object == to.object) word.now fresh.now entries entries' rooms')) }
    {
        let Some(node) = self.node(dir) else {
            return Some(TreeReply::NoObject);
        };
        let NodeInMemory::Dir { entries, .. } = node else {
            return Some(TreeReply::NotDir);
        };
        let Some(other) = self.node(to) else {
            return Some(TreeReply::NoObject);
        };
        let NodeInMemory::Dir {
            entries: others,
            rooms,
        } = other
        else {
            return Some(TreeReply::NotDir);
        };
        self.refuses_move(
            dir.object == to.object,
            word,
            fresh,
            entries,
            others,
            *rooms,
        )
    }

    fn refuses_move(
        &self,
        same: bool,
        word: &Word,
        fresh: &Word,
        entries: &Listing,
        others: &Listing,
        rooms: u32,
    ) -> Option<TreeReply>
        requires name { IsName word.now }
        requires fresh { IsName fresh.now }
        requires tree { IsTree self.now.geom self.now.tree }
        ensures { result ≡ steps.refuses_rename self.now.geom self.now.tree same word.now fresh.now entries.now others.now rooms }
    {
        let Some(object) = entries.get(&Name::of_word(word)) else {
            return Some(TreeReply::NotFound);
        };
        if self.is_dir(object) && !same {
            return Some(TreeReply::CrossDir);
        }
        if others.get(&Name::of_word(fresh)).is_some() {
            return Some(TreeReply::Exists);
        }
        if same {
            return None;
        }
        if others.len() >= MOST_ENTRIES as usize {
            return Some(TreeReply::DirFull);
        }
        self.refuses_room(others, rooms)
    }

    fn is_dir(&self, object: ObjNo) -> bool
        ensures { result ≡ steps.is_dir (node_at self.now.tree object) }
    {
        matches!(self.node_at(object), Some(NodeInMemory::Dir { .. }))
    }
}

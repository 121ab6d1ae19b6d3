//! The objects of a tree in memory.
ghost use Rattle.std.specs.Prelude.{◌≡◌, ◌≤◌, ◌<◌, ◌+◌, ◌++◌, length, take, true, OnOk, OnErr, Some, None, option_map, slice_get, option_copied};
ghost use Rattle.std.specs.FinMap as maps;
ghost use Rattle.ds_tree.specs.InMemory.{node_of};
ghost use Rattle.ds_tree.specs.Nodes.{Dir, File, kind_of, blocks_of};
ghost use Rattle.ds_tree.specs.Steps.{is_dir, is_file, is_full, entries_above, rooms_with_one_more};
ghost use Rattle.ds_tree.specs.Trees.{entries_of, rooms_of};

use crate::listing::Listing;
use ds_base::{Name, NoMemory, NodeKind, ObjNo};
use std::alloc::Global;
use std::marker::Model;

/// A node: a directory with its entries and its rooms, or a file with its blocks in order.
#[derive(Debug, Drop)]
pub(crate) enum NodeInMemory {
    Dir { entries: Listing, rooms: u32 },
    File { blocks: Vec<u32> },
}

/// What an object number stands for: the birth of its last life, and its node while it is in use.
#[derive(Debug, Drop)]
pub(crate) struct ObjectInMemory {
    birth: u64,
    node: Option<NodeInMemory>,
}

impl Model for ObjectInMemory {
    ghost use Rattle.std.specs.Prelude.{option_map};
    ghost use Rattle.ds_tree.specs.Nodes.{Object};
    ghost use Rattle.ds_tree.specs.Codes.{object_code};

    ghost Value = { Object };

    ghost coded = { object_code };

    ghost use Rattle.ds_tree.specs.InMemory.{node_of};

    ghost view = { λ o. record { birth = o.birth; node = option_map node_of o.node } };
}

impl ObjectInMemory {
    pub(crate) fn free(birth: u64) -> ObjectInMemory
        ensures { result ≡ record { birth = birth; node = None } }
    {
        ObjectInMemory { birth, node: None }
    }

    pub(crate) fn dir(alloc: Global, birth: u64, rooms: u32) -> ObjectInMemory
        ensures { result ≡ record { birth = birth; node = Some (Dir maps.empty rooms) } }
    {
        let node = NodeInMemory::Dir {
            entries: Listing::new(alloc),
            rooms,
        };
        ObjectInMemory {
            birth,
            node: Some(node),
        }
    }

    pub(crate) fn file(birth: u64, blocks: Vec<u32>) -> ObjectInMemory
        ensures { result ≡ record { birth = birth; node = Some (File blocks.items) } }
    {
        ObjectInMemory {
            birth,
            node: Some(NodeInMemory::File { blocks }),
        }
    }

    pub(crate) fn birth(&self) -> u64
        ensures { result ≡ self.now.birth }
    {
        self.birth
    }

    pub(crate) fn node(&self) -> Option<&NodeInMemory>
        ensures { option_map (λ n. node_of n.now) result ≡ self.now.node }
    {
        match &self.node {
            None => None,
            Some(node) => Some(node),
        }
    }

    pub(crate) fn kind(&self) -> Option<NodeKind>
        ensures { result ≡ option_map kind_of self.now.node }
    {
        match &self.node {
            None => None,
            Some(NodeInMemory::Dir { .. }) => Some(NodeKind::Dir),
            Some(NodeInMemory::File { .. }) => Some(NodeKind::File),
        }
    }

    /// The rooms of a directory; none of anything else.
    pub(crate) fn rooms(&self) -> u32
        ensures { result ≡ rooms_of self.now.node }
    {
        match &self.node {
            Some(NodeInMemory::Dir { rooms, .. }) => *rooms,
            _ => 0,
        }
    }

    /// The blocks of a file; none of anything else.
    pub(crate) fn blocks(&self) -> &[u32]
        ensures { result.now ≡ blocks_of self.now.node }
    {
        match &self.node {
            Some(NodeInMemory::File { blocks }) => blocks.as_slice(),
            _ => &[],
        }
    }

    /// The entry of a directory with the least name above `after`; none of anything else.
    #[tactic(auto, using(crate::proofs::EntryLists::none_above))]
    pub(crate) fn next_entry(&self, after: Option<&Name>) -> Option<(&Name, ObjNo)>
        ensures { option_map (λ e. (e.0.now, e.1)) result
            ≡ slice_get (entries_above (entries_of self.now.node) (option_copied after.entry)) 0 }
    {
        match &self.node {
            Some(NodeInMemory::Dir { entries, .. }) => entries.next(after),
            _ => None,
        }
    }

    /// Puts an entry into a directory.
    pub(crate) fn put_entry(&mut self, name: Name, object: ObjNo) -> Result<(), NoMemory>
        requires { is_dir self.old.node ≡ true }
        ensures ok { OnOk result (self.new ≡ record {
          birth = self.old.birth;
          node = Some (Dir (maps.insert (entries_of self.old.node) name object) (rooms_of self.old.node));
        }) }
        ensures err { OnErr result (self.new ≡ self.old) }
    {
        match &mut self.node {
            Some(NodeInMemory::Dir { entries, .. }) => entries.insert(name, object),
            _ => unreachable!(),
        }
    }

    /// The object of an entry of a directory; none of anything else.
    #[tactic(auto, using(crate::proofs::EntryLists::get_empty))]
    pub(crate) fn entry(&self, name: &Name) -> Option<ObjNo>
        ensures { result ≡ maps.get (entries_of self.now.node) name.now }
    {
        match &self.node {
            Some(NodeInMemory::Dir { entries, .. }) => entries.get(name),
            _ => None,
        }
    }

    /// Puts a new entry into a directory, with four more rooms where every room was used.
    pub(crate) fn add_entry(&mut self, name: Name, object: ObjNo) -> Result<(), NoMemory>
        requires dir { is_dir self.old.node ≡ true }
        requires rooms { rooms_of self.old.node ≤ 384 }
        ensures ok { OnOk result (self.new ≡ record {
          birth = self.old.birth;
          node = Some (Dir (maps.insert (entries_of self.old.node) name object)
              (rooms_with_one_more (entries_of self.old.node) (rooms_of self.old.node)));
        }) }
        ensures err { OnErr result (self.new ≡ self.old) }
    {
        let full = self.is_full();
        self.put_entry(name, object)?;
        if full {
            self.add_rooms();
        }
        Ok(())
    }

    /// Whether every room of a directory is used.
    fn is_full(&self) -> bool
        requires { is_dir self.now.node ≡ true }
        ensures { result ≡ is_full (entries_of self.now.node) (rooms_of self.now.node) }
    {
        match &self.node {
            Some(NodeInMemory::Dir { entries, rooms }) => *rooms as usize <= entries.len(),
            _ => unreachable!(),
        }
    }

    /// Gives a directory four more rooms.
    fn add_rooms(&mut self)
        requires dir { is_dir self.old.node ≡ true }
        requires rooms { rooms_of self.old.node ≤ 384 }
        ensures { self.new ≡ record {
          birth = self.old.birth;
          node = Some (Dir (entries_of self.old.node) (rooms_of self.old.node + 4));
        } }
    {
        match &mut self.node {
            Some(NodeInMemory::Dir { rooms, .. }) => *rooms += 4,
            _ => unreachable!(),
        }
    }

    /// Gives a file a size: keeps its first blocks, and adds these at its end.
    pub(crate) fn set_size(&mut self, size: u32, added: &[u32]) -> Result<(), NoMemory>
        requires file { is_file self.old.node ≡ true }
        requires added { 0 < length added.now → length (blocks_of self.old.node) ≤ size }
        ensures ok { OnOk result (self.new ≡ record {
          birth = self.old.birth;
          node = Some (File (take size (blocks_of self.old.node) ++ added.now));
        }) }
        ensures err { OnErr result (self.new ≡ self.old) }
    {
        match &mut self.node {
            Some(NodeInMemory::File { blocks }) => set_size(blocks, size as usize, added),
            _ => unreachable!(),
        }
    }

    /// Takes an entry out of a directory. Its room stays.
    pub(crate) fn remove_entry(&mut self, name: &Name)
        requires { is_dir self.old.node ≡ true }
        ensures { self.new ≡ record {
          birth = self.old.birth;
          node = Some (Dir (maps.remove (entries_of self.old.node) name.now) (rooms_of self.old.node));
        } }
    {
        match &mut self.node {
            Some(NodeInMemory::Dir { entries, .. }) => entries.remove(name),
            _ => unreachable!(),
        }
    }
}

fn set_size(blocks: &mut Vec<u32>, size: usize, added: &[u32]) -> Result<(), NoMemory>
    requires { 0 < length added.now → length blocks.old.items ≤ size }
    ensures ok { OnOk result (blocks.new.items ≡ take size blocks.old.items ++ added.now) }
    ensures err { OnErr result (blocks.new.items ≡ blocks.old.items) }
{
    if added.is_empty() {
        blocks.truncate(size);
        return Ok(());
    }
    Ok(blocks.extend_from_slice(added)?)
}

//! The calls that read a tree.
ghost use Rattle.std.specs.Prelude.{◌≡◌, ◌*◌, true, IfSome, IfOk, length, take, drop, map, option_copied};
ghost use Rattle.std.specs.FinMap as maps;
ghost use Rattle.ds_base.specs.Names.{IsName};
ghost use Rattle.ds_tree.specs.Nodes.{Node, node_at, birth_at, blocks_of, kind_of};
ghost use Rattle.ds_tree.specs.Steps.{is_dir, Finds, size_of, entries_above};
ghost use Rattle.ds_tree.specs.Trees.{entries_of};
ghost use Rattle.ds_tree.specs.WellFormed.{IsTree};

use crate::objects::NodeInMemory;
use crate::tables::Table;
use arrayvec::ArrayVec;
use ds_base::{Key, Name, NoMemory, NodeKind, ObjNo, PAGE, Word};

impl Table {
    /// The object of an entry, and what it is.
    pub(crate) fn lookup(&self, dir: Key, name: &Name) -> (Key, NodeKind)
        requires dir { is_dir (node_at self.now.tree dir.object) ≡ true }
        requires found { maps.contains_key (entries_of (node_at self.now.tree dir.object)) name.now ≡ true }
        requires tree { IsTree self.now.geom self.now.tree }
        ensures { (node : Node) × Finds self.now.tree dir name.now result.0 node × (result.1 ≡ kind_of node) }
    {
        let Some(object) = self.entry(dir.object, name) else {
            unreachable!()
        };
        let Some(kind) = self.kind(object) else {
            unreachable!()
        };
        (self.key_of(object), kind)
    }

    /// The blocks of a file, or the rooms of a directory.
    pub(crate) fn size(&self, object: ObjNo) -> u32
        requires { IsTree self.now.geom self.now.tree }
        ensures { IfSome (node_at self.now.tree object) (λ node. result ≡ size_of node) }
    {
        match self.kind(object) {
            Some(NodeKind::Dir) => self.rooms(object),
            _ => self.block_count(object),
        }
    }

    /// The number of blocks of a file; 0 of anything else.
    pub(crate) fn block_count(&self, file: ObjNo) -> u32
        requires { IsTree self.now.geom self.now.tree }
        ensures { result ≡ length (blocks_of (node_at self.now.tree file)) }
    {
        self.blocks(file).len() as u32
    }

    /// The blocks of a file's page.
    pub(crate) fn page_of(&self, file: ObjNo, page: u32) -> ArrayVec<u32, 128>
        ensures { result.items ≡ take 128 (drop (128 * page) (blocks_of (node_at self.now.tree file))) }
    {
        let blocks = self.blocks(file);
        let from = blocks.len().min(PAGE as usize * page as usize);
        let end = blocks.len().min(from + PAGE as usize);
        let mut list = ArrayVec::new();
        let _ = list.try_extend_from_slice(&blocks[from..end]);
        list
    }

    /// The number of entries of a directory.
    pub(crate) fn entry_count(&self, dir: ObjNo) -> u32
        requires dir { is_dir (node_at self.now.tree dir) ≡ true }
        requires tree { IsTree self.now.geom self.now.tree }
        ensures { result ≡ maps.len (entries_of (node_at self.now.tree dir)) }
    {
        let Some(NodeInMemory::Dir { entries, .. }) = self.node_at(dir) else {
            unreachable!()
        };
        entries.len() as u32
    }

    /// The first names of a directory above one, with their keys.
    pub(crate) fn list(
        &self,
        dir: ObjNo,
        after: Option<&Name>,
    ) -> Result<ArrayVec<(Name, Key), 32>, NoMemory>
        requires { is_dir (node_at self.now.tree dir) ≡ true }
        ensures { IfOk result (λ page. page.items
            ≡ map (λ e. (e.0, record { object = e.1; birth = birth_at self.now.tree e.1 }))
            (take 32 (entries_above (entries_of (node_at self.now.tree dir)) (option_copied after.entry)))) }
    {
        let Some(NodeInMemory::Dir { entries, .. }) = self.node_at(dir) else {
            unreachable!()
        };
        let mut page = ArrayVec::new();
        let mut rest = entries.above(after);
        while let Some((name, object)) = rest.next() {
            let name = name.copy();
            page.push((name, self.key_of(*object)));
            if page.is_full() {
                return Ok(page);
            }
        }
        Ok(page)
    }
}

/// The name after which a page begins.
pub(crate) fn after_of(after: &Option<Word>) -> Option<Name>
    requires { IfSome after.now IsName }
    ensures { result ≡ after.now }
{
    match after {
        Some(word) => Some(Name::of_word(word)),
        None => None,
    }
}

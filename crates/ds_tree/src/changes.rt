//! The calls that change a tree.
ghost use Rattle.std.specs.Prelude.{◌≡◌, ◌≢◌, ◌<◌, ◌≤◌, ◌-◌, ◌||◌, ℕ, true, false, nat_eq, IfOk, OnOk, OnErr, None, IsSome, All, length, take, slice_index_or};
ghost use Rattle.std.specs.FinMap as maps;
ghost use Rattle.std.specs.List.{list_any};
ghost use Rattle.ds_base.specs.declared.geometry.Kind.TheVariants as kinds;
ghost use Rattle.ds_base.specs.Geometry.{items_of};
ghost use Rattle.ds_tree.specs.Counts.{free_of};
ghost use Rattle.ds_tree.specs.Lowest.{IsLowestKey, free_blocks, resized};
ghost use Rattle.ds_tree.specs.Nodes.{File, node_at, blocks_of, all_blocks, with_node};
ghost use Rattle.ds_tree.specs.Steps.{is_dir, is_file, Makes, Removes, Renames};
ghost use Rattle.ds_tree.specs.Trees.{empty_node, entries_of, is_worn};
ghost use Rattle.ds_tree.specs.WellFormed.{IsTree};

use crate::tables::Table;
use ds_base::{Key, Kind, Name, NoMemory, NodeKind, ObjNo};

impl Table {
    /// Makes an empty directory or file under a new name.
    pub(crate) fn make(&mut self, dir: Key, name: Name, kind: NodeKind) -> Result<Key, NoMemory>
        requires dir { is_dir (node_at self.old.tree dir.object) ≡ true }
        requires free { free_of self.old.geom self.old.tree kinds.Fd ≢ 0 }
        requires tree { IsTree self.old.geom self.old.tree }
        requires fit { is_worn self.old.tree ≡ false }
        ensures geom { self.new.geom ≡ self.old.geom }
        ensures makes { IfOk result (λ key.
            Makes self.old.geom self.old.tree dir name (empty_node kind) key self.new.tree) }
        ensures lowest { IfOk result (λ key. IsLowestKey self.old.tree key) }
        ensures err { OnErr result (self.new.tree ≡ self.old.tree) }
    {
        let object = self.lowest_free();
        let birth = self.birth(object) + 1;
        let key = Key { object, birth };
        self.add_entry(dir.object, name, object)?;
        self.put_empty(key, kind);
        Ok(key)
    }

    /// Takes an entry out of a directory, and its object with it.
    pub(crate) fn remove(&mut self, dir: Key, name: &Name) -> Key
        requires dir { is_dir (node_at self.old.tree dir.object) ≡ true }
        requires found { maps.contains_key (entries_of (node_at self.old.tree dir.object)) name.now ≡ true }
        requires tree { IsTree self.old.geom self.old.tree }
        ensures geom { self.new.geom ≡ self.old.geom }
        ensures removes { Removes self.old.tree dir name.now result self.new.tree }
    {
        let Some(object) = self.entry(dir.object, name) else {
            unreachable!()
        };
        let key = self.key_of(object);
        self.remove_entry(dir.object, name);
        self.put_free(key);
        key
    }

    /// Puts an entry under another name, in the same directory or in another.
    pub(crate) fn rename(
        &mut self,
        dir: Key,
        name: &Name,
        to: Key,
        fresh: Name,
    ) -> Result<Key, NoMemory>
        requires dir { is_dir (node_at self.old.tree dir.object) ≡ true }
        requires found { maps.contains_key (entries_of (node_at self.old.tree dir.object)) name.now ≡ true }
        requires to { is_dir (node_at self.old.tree to.object) ≡ true }
        requires fresh { maps.contains_key (entries_of (node_at self.old.tree to.object)) fresh ≡ false }
        requires tree { IsTree self.old.geom self.old.tree }
        ensures geom { self.new.geom ≡ self.old.geom }
        ensures renames { IfOk result (λ key. Renames self.old.tree dir name.now to fresh key self.new.tree) }
        ensures err { OnErr result (self.new.tree ≡ self.old.tree) }
    {
        let Some(object) = self.entry(dir.object, name) else {
            unreachable!()
        };
        let key = self.key_of(object);
        if dir.object == to.object {
            self.put_entry(dir.object, fresh, object)?;
        } else {
            self.add_entry(to.object, fresh, object)?;
        }
        self.remove_entry(dir.object, name);
        Ok(key)
    }

    /// Gives up the last blocks of a file, or adds the lowest free ones.
    pub(crate) fn resize(&mut self, file: Key, size: u32) -> Result<(), NoMemory>
        requires file { is_file (node_at self.old.tree file.object) ≡ true }
        requires room { size - length (blocks_of (node_at self.old.tree file.object)) ≤ free_of self.old.geom self.old.tree kinds.Fb }
        requires tree { IsTree self.old.geom self.old.tree }
        ensures geom { self.new.geom ≡ self.old.geom }
        ensures resized { OnOk result (self.new.tree ≡ with_node self.old.tree file.object
            (File (resized self.old.geom self.old.tree (blocks_of (node_at self.old.tree file.object)) size))) }
        ensures err { OnErr result (self.new.tree ≡ self.old.tree) }
    {
        let old = self.block_count(file.object);
        let added = self.lowest_blocks(size.saturating_sub(old) as usize)?;
        self.set_size(file.object, size, added.as_slice())
    }

    /// The lowest free blocks, at most so many.
    fn lowest_blocks(&self, count: usize) -> Result<Vec<u32>, NoMemory>
        requires { IsTree self.now.geom self.now.tree }
        ensures { IfOk result (λ blocks. blocks.items ≡ take count (free_blocks self.now.geom self.now.tree)) }
    {
        let used = self.used_blocks()?;
        let mut free = Vec::new(self.alloc());
        for block in 0..self.items(Kind::Fb) {
            if free.len() < count && !used[block as usize] {
                free.push(block)?;
            }
        }
        Ok(free)
    }

    /// For each block of the volume whether a file has it.
    fn used_blocks(&self) -> Result<Vec<bool>, NoMemory>
        requires { IsTree self.now.geom self.now.tree }
        ensures len { IfOk result (λ used. length used.items ≡ items_of self.now.geom kinds.Fb) }
        ensures used { IfOk result (λ used. (b : ℕ) → b < items_of self.now.geom kinds.Fb
            → slice_index_or used.items b false ≡ list_any (nat_eq b) (all_blocks self.now.tree)) }
    {
        let mut used = Vec::from_elem(self.alloc(), false, self.items(Kind::Fb) as usize).map_err(
            |_| NoMemory,
        )?;
        for object in self.objects() {
            mark(&mut used, object.blocks());
        }
        Ok(used)
    }

    fn lowest_free(&self) -> ObjNo
        requires { free_of self.now.geom self.now.tree kinds.Fd ≢ 0 }
        ensures in_range { result < items_of self.now.geom kinds.Fd }
        ensures free { node_at self.now.tree result ≡ None }
        ensures used_below { (n : ℕ) → n < result → IsSome (node_at self.now.tree n) }
    {
        for object in 0..self.object_count() {
            if self.node_at(object).is_none() {
                return object;
            }
        }
        unreachable!()
    }
}

/// Marks blocks as used.
fn mark(used: &mut Vec<bool>, blocks: &[u32])
    requires { All (λ b. b < length used.old.items) blocks.now }
    ensures len { length used.new.items ≡ length used.old.items }
    ensures marks { (b : ℕ) → b < length used.old.items
        → slice_index_or used.new.items b false
        ≡ (slice_index_or used.old.items b false || list_any (nat_eq b) blocks.now) }
{
    for block in blocks {
        used[*block as usize] = true;
    }
}

//! Calls on a tree.
ghost use Rattle.std.specs.Prelude.{◌≡◌, false, IfOk, OnErr, None};
ghost use Rattle.ds_tree.specs.CallNames.{HasNames};
ghost use Rattle.ds_tree.specs.Lowest.{TakesLowest};
ghost use Rattle.ds_tree.specs.Steps.{refusal, Succeeds, Does};
ghost use Rattle.ds_tree.specs.Trees.{is_worn};
ghost use Rattle.ds_tree.specs.WellFormed.{IsTree};

use crate::calls::{Call, CallOf, TreeReply};
use crate::reads::after_of;
use crate::tables::Table;
use ds_base::{Name, NoMemory, NodeKind};

impl Table {
    /// Carries out a call: refuses it, or changes the tree as the call asks, with the lowest free numbers.
    pub(crate) fn call(&mut self, call: &Call) -> Result<TreeReply, NoMemory>
        requires names { HasNames call.now }
        requires tree { IsTree self.old.geom self.old.tree }
        requires fit { is_worn self.old.tree ≡ false }
        ensures geom { self.new.geom ≡ self.old.geom }
        ensures step { IfOk result (λ reply. Does self.old.geom self.old.tree call.now reply self.new.tree) }
        ensures lowest { refusal self.old.geom self.old.tree call.now ≡ None
            → IfOk result (λ reply. TakesLowest self.old.geom self.old.tree call.now reply self.new.tree) }
        ensures keeps { IsTree self.new.geom self.new.tree }
        ensures err { OnErr result (self.new.tree ≡ self.old.tree) }
    {
        match self.refusal(call) {
            Some(reply) => Ok(reply),
            None => self.carry_out(call),
        }
    }

    fn carry_out(&mut self, call: &Call) -> Result<TreeReply, NoMemory>
        requires names { HasNames call.now }
        requires tree { IsTree self.old.geom self.old.tree }
        requires fit { is_worn self.old.tree ≡ false }
        requires granted { refusal self.old.geom self.old.tree call.now ≡ None }
        ensures geom { self.new.geom ≡ self.old.geom }
        ensures succeeds { IfOk result (λ reply. Succeeds self.old.geom self.old.tree call.now reply self.new.tree) }
        ensures lowest { IfOk result (λ reply. TakesLowest self.old.geom self.old.tree call.now reply self.new.tree) }
        ensures err { OnErr result (self.new.tree ≡ self.old.tree) }
    {
        match call {
            CallOf::Mkdir { dir, name } => {
                let key = self.make(*dir, Name::of_word(name), NodeKind::Dir)?;
                Ok(TreeReply::Made { key })
            }
            CallOf::Create { dir, name } => {
                let key = self.make(*dir, Name::of_word(name), NodeKind::File)?;
                Ok(TreeReply::Made { key })
            }
            CallOf::Lookup { dir, name } => {
                let (key, kind) = self.lookup(*dir, &Name::of_word(name));
                Ok(TreeReply::Found { key, kind })
            }
            CallOf::List { dir, after } => {
                let total = self.entry_count(dir.object);
                let names = self.list(dir.object, after_of(after).as_ref())?;
                Ok(TreeReply::Page { total, names })
            }
            CallOf::Stat { key } => {
                let Some(kind) = self.kind(key.object) else {
                    unreachable!()
                };
                let size = self.size(key.object);
                Ok(TreeReply::Info { kind, size })
            }
            CallOf::Map { file, page } => {
                let list = self.page_of(file.object, *page);
                Ok(TreeReply::Blocks { list })
            }
            CallOf::Resize { file, blocks: size } => {
                self.resize(*file, *size)?;
                Ok(TreeReply::Sized { blocks: *size })
            }
            CallOf::Remove { dir, name } => {
                let key = self.remove(*dir, &Name::of_word(name));
                Ok(TreeReply::Gone { key })
            }
            CallOf::Rmdir { dir, name } => {
                let key = self.remove(*dir, &Name::of_word(name));
                Ok(TreeReply::Gone { key })
            }
            CallOf::Rename {
                dir,
                name,
                to,
                fresh,
            } => {
                let key = self.rename(*dir, &Name::of_word(name), *to, Name::of_word(fresh))?;
                Ok(TreeReply::Moved { key })
            }
            CallOf::OpenFile { file } => {
                let blocks = self.block_count(file.object);
                Ok(TreeReply::Opened { blocks })
            }
            CallOf::At { file, index } => {
                let block = self.blocks(file.object)[*index as usize];
                Ok(TreeReply::AtBlock { block })
            }
        }
    }
}

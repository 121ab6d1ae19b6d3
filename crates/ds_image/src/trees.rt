//! The tree for which an image stands.
ghost use Rattle.std.specs.Prelude.{◌≡◌, IfOk, IfSome, MatchOption};
ghost use Rattle.ds_tree.specs.Nodes.{FileTree};
ghost use Rattle.ds_image.specs.ReadTrees.{StandsForNone};
ghost use Rattle.ds_image.specs.Sound.{StandsFor};

use crate::building::tree_of;
use crate::rooted::is_rooted;
use crate::soundness::is_sound;
use ds_base::NoMemory;
use ds_image_parts::{Image, PartsInMemory, Store};
use ds_tree::Tree;
use std::alloc::Global;

/// The tree for which an image stands, which is the only one; `None` where it stands for no tree. In linear time.
pub fn read_tree<S: Store>(alloc: Global, image: &Image<S>) -> Result<Option<Tree>, NoMemory>
    ensures tree { IfOk result (λ found. MatchOption found (StandsForNone image.now.geom image.now.sectors)
        (λ t. StandsFor image.now.geom image.now.sectors t.tree)) }
    ensures only { IfOk result (λ found. IfSome found (λ it. (t : FileTree) → StandsFor image.now.geom image.now.sectors t → t ≡ it.tree)) }
    ensures geom { IfOk result (λ found. IfSome found (λ t. t.geom ≡ image.now.geom)) }
{
    tree_in(alloc, image)
}

fn tree_in<S: Store>(alloc: Global, image: &Image<S>) -> Result<Option<Tree>, NoMemory>
    ensures tree { IfOk result (λ found. MatchOption found (StandsForNone image.now.geom image.now.sectors)
        (λ t. StandsFor image.now.geom image.now.sectors t.tree)) }
    ensures geom { IfOk result (λ found. IfSome found (λ t. t.geom ≡ image.now.geom)) }
{
    let geom = image.geom();
    let parts = PartsInMemory::read(alloc, image)?;
    if !is_sound(alloc, &parts)? {
        return Ok(None);
    }
    if !is_rooted(alloc, &parts)? {
        return Ok(None);
    }
    let tree = tree_of(alloc, geom, &parts)?;
    Ok(Some(tree))
}

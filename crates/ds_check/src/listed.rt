//! The items that the objects of an image list.
ghost use Rattle.std.specs.Prelude.{◌≡◌, IfOk};
ghost use Rattle.ds_image_parts.specs.Parts.{part_at};
ghost use Rattle.ds_check.specs.Uses.{items_by};

use ds_base::{Kind, NoMemory, ObjNo, Sector};
use ds_fd::Body;
use ds_image::{PartsInMemory, blocks_of, ptrs_of, subs_of};
use std::alloc::Global;

/// The body of an object; none of an object past the last.
pub(crate) fn body_at<'a>(parts: &'a PartsInMemory<&[Sector]>, object: ObjNo) -> &'a Option<Body>
    ensures { result.now ≡ part_at parts.now.bodies object }
{
    match parts.bodies().get(object as usize) {
        Some(body) => body,
        None => &None,
    }
}

/// The items of a kind that an object lists.
pub(crate) fn items_by(
    alloc: Global,
    parts: &PartsInMemory<&[Sector]>,
    kind: Kind,
    body: &Option<Body>,
) -> Result<Vec<u32>, NoMemory>
    ensures { IfOk result (λ v. v.items ≡ items_by parts.now kind body.now) }
{
    match kind {
        Kind::Fd => Ok(Vec::new(alloc)),
        Kind::Sb => copied(alloc, subs_of(body)),
        Kind::Pb => copied(alloc, ptrs_of(body)),
        Kind::Fb => blocks_of(alloc, parts, body),
    }
}

fn copied(alloc: Global, items: &[u32]) -> Result<Vec<u32>, NoMemory>
    ensures { IfOk result (λ v. v.items ≡ items.now) }
{
    items.to_vec(alloc).map_err(|_| NoMemory)
}

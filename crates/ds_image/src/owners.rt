//! Items that are listed once, and marked where they are listed.
ghost use Rattle.std.specs.Prelude.{◌≡◌, ◌<◌, ◌^◌, ◌↔◌, IsTrue, IfOk, length};
ghost use Rattle.ds_image_parts.specs.Listings.{lists_by};
ghost use Rattle.ds_image_tables.specs.Owns.{Owns};
ghost use Rattle.ds_image_parts.specs.Parts.{bits_in, used_bits};

use ds_base::NoMemory;
use ds_bitmap::Bits;
use ds_image_parts::{Listed, PartsInMemory, Store, list_of};
use ds_image_tables::Marks;
use std::alloc::Global;

/// Whether no item is listed twice, and a bit is set exactly where an item is listed.
pub(crate) fn owns<S: Store>(
    alloc: Global,
    parts: &PartsInMemory<S>,
    what: Listed,
    bits: &[bool],
) -> Result<bool, NoMemory>
    requires { length bits.now < 2 ^ 32 }
    ensures { IfOk result (λ yes. IsTrue yes ↔ Owns (lists_by parts.now what) bits.now) }
{
    let bodies = parts.bodies();
    let mut marks = Marks::new(alloc, bits.len() as u32)?;
    for body in bodies {
        let items = list_of(alloc, parts, what, body)?;
        if !marks.mark_list(&items) {
            return Ok(false);
        }
    }
    Ok(marks.are(bits))
}

/// The bits of bitmaps, one bitmap after another.
pub fn bits_in(alloc: Global, maps: &[Option<Bits>]) -> Result<Vec<bool>, NoMemory>
    ensures { IfOk result (λ v. v.items ≡ bits_in maps.now) }
{
    let mut bits = Vec::new(alloc);
    for map in maps {
        bits.extend_from_slice(used_bits(map))?;
    }
    Ok(bits)
}

fn used_bits(map: &Option<Bits>) -> &[bool]
    ensures { result.now ≡ used_bits map.now }
{
    match map {
        Some(bits) => bits.used(),
        None => &[],
    }
}

//! Truth values as bits, eight to a byte, the first in the lowest bit.
ghost use Rattle.std.specs.Prelude.{
  ◌≡◌,
  ℕ,
  ◌+◌,
  ◌*◌,
  ◌/◌,
  ◌%◌,
  ◌^◌,
  ◌<◌,
  ◌≤◌,
  ◌==◌,
  ◌++◌,
  false,
  length,
  slice_index,
  slice_index_or,
};
ghost use Rattle.ds_bitmap.specs.Bits.{bit_of, byte_of, packed};
ghost use Rattle.ds_bitmap.specs.BitsParts.{bit_at};

use ds_bytes::SectorWriter;

/// The 480 bytes of so many truth values, zero past them.
pub fn put_packed(writer: &mut SectorWriter, used: &[bool])
    requires { length writer.old + 480 ≤ 512 }
    ensures items { writer.new ≡ writer.old ++ packed 480 used.now }
    ensures len { length writer.new ≡ length writer.old + 480 }
{
    for k in 0..480 {
        writer.u8(packed_byte(used, k));
    }
}

/// Byte `k`: eight truth values.
fn packed_byte(used: &[bool], k: usize) -> u8
    requires { k < 480 }
    ensures { result ≡ byte_of used.now k }
{
    let first = 8 * k;
    bit(used, first)
        + 2 * bit(used, first + 1)
        + 4 * bit(used, first + 2)
        + 8 * bit(used, first + 3)
        + 16 * bit(used, first + 4)
        + 32 * bit(used, first + 5)
        + 64 * bit(used, first + 6)
        + 128 * bit(used, first + 7)
}

fn bit(used: &[bool], item: usize) -> u8
    ensures exact { result ≡ bit_of used.now item }
    ensures most { result ≤ 1 }
{
    if item < used.len() && used[item] {
        1
    } else {
        0
    }
}

/// The truth values that are packed in the bytes.
pub fn unpacked(bytes: &[u8; 480]) -> [bool; 3840]
    ensures each { (i : ℕ) → i < 3840 → slice_index_or result i false ≡ bit_at bytes.now i }
    ensures len { length result ≡ 3840 }
{
    let mut used = [false; 3840];
    for i in 0..3840 {
        used[i] = is_set(bytes[i / 8], i % 8);
    }
    used
}

fn is_set(byte: u8, place: usize) -> bool
    requires { place < 8 }
    ensures { result ≡ (byte / 2 ^ place % 2 == 1) }
{
    byte >> place & 1 == 1
}

//! Readers of fields at their offsets.
ghost use Rattle.std.specs.Prelude.{◌≡◌, ◌+◌, ◌*◌, ◌^◌, ◌≤◌, ◌↔◌, ◌++◌, ◌-◌, drop, length, IsTrue};
ghost use Rattle.ds_bytes.specs.Fields.{little, littles, zeros, front, AllBelow};

use uuid::Uuid;

/// The N bytes from `at` on.
pub fn bytes_at<const N: usize>(bytes: &[u8], at: usize) -> [u8; N]
    requires { at + N ≤ length bytes.now }
    ensures items { front (at + N) bytes.now ≡ front at bytes.now ++ result }
    ensures len { length result ≡ N }
    ensures below { AllBelow 256 result }
{
    let mut part = [0; N];
    part.copy_from_slice(&bytes[at..at + N]);
    part
}

pub fn u8_at(bytes: &[u8], at: usize) -> u8
    requires { at + 1 ≤ length bytes.now }
    ensures { front (at + 1) bytes.now ≡ front at bytes.now ++ little 1 result }
{
    bytes[at]
}

pub fn u16_at(bytes: &[u8], at: usize) -> u16
    requires { at + 2 ≤ length bytes.now }
    ensures { front (at + 2) bytes.now ≡ front at bytes.now ++ little 2 result }
{
    u16::from_le_bytes(bytes_at(bytes, at))
}

pub fn u32_at(bytes: &[u8], at: usize) -> u32
    requires { at + 4 ≤ length bytes.now }
    ensures { front (at + 4) bytes.now ≡ front at bytes.now ++ little 4 result }
{
    u32::from_le_bytes(bytes_at(bytes, at))
}

pub fn u64_at(bytes: &[u8], at: usize) -> u64
    requires { at + 8 ≤ length bytes.now }
    ensures { front (at + 8) bytes.now ≡ front at bytes.now ++ little 8 result }
{
    u64::from_le_bytes(bytes_at(bytes, at))
}

/// The numbers of four bytes each from `at` on, as many as `out` has room for.
pub fn u32s_at(bytes: &[u8], at: usize, out: &mut [u32])
    requires { at + 4 * length out.old ≤ length bytes.now }
    ensures items { front (at + 4 * length out.old) bytes.now ≡ front at bytes.now ++ littles 4 out.new }
    ensures below { AllBelow (2 ^ 32) out.new }
{
    for i in 0..out.len() {
        out[i] = u32_at(bytes, at + 4 * i);
    }
}

pub fn id_at(bytes: &[u8], at: usize) -> Uuid
    requires { at + 16 ≤ length bytes.now }
    ensures id { front (at + 16) bytes.now ≡ front at bytes.now ++ result }
    ensures len { length result ≡ 16 }
{
    Uuid::from_bytes(bytes_at(bytes, at))
}

/// The bytes of an id.
pub fn id_bytes(id: &Uuid) -> [u8; 16]
    ensures same { result ≡ id.now }
    ensures len { length result ≡ 16 }
{
    id.into_bytes()
}

/// Whether the numbers are zero from an index on.
pub fn is_zero_from(xs: &[u32], from: usize) -> bool
    requires { from ≤ length xs.now }
    ensures { IsTrue result ↔ (drop from xs.now ≡ zeros (length xs.now - from)) }
{
    xs[from..].iter().all(|x| *x == 0)
}

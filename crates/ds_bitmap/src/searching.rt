//! Which items are not used.
ghost use Rattle.std.specs.Prelude.{◌≡◌, ◌≤◌, not, length, count_by, MatchOption};
ghost use Rattle.ds_bitmap.specs.Bits.{AllUsed, IsFirstFree};

/// The first item that is not used.
pub fn first_free(used: &[bool]) -> Option<u16>
    requires { length used.now ≤ 3840 }
    ensures { MatchOption result (AllUsed used.now) (λ item. IsFirstFree used.now item) }
{
    for item in 0..used.len() {
        if !used[item] {
            return Some(item as u16);
        }
    }
    None
}

/// How many items are not used.
pub fn count_free(used: &[bool]) -> u16
    requires { length used.now ≤ 3840 }
    ensures { result ≡ count_by not used.now }
{
    let mut count = 0;
    for item in 0..used.len() {
        if !used[item] {
            count += 1;
        }
    }
    count
}

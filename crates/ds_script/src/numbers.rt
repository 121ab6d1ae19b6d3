//! Words that are numbers.
#![tactic(auto, using(crate::proofs::Digits::digit_steps))]

ghost use Rattle.std.specs.Prelude.{◌≡◌, ◌≤◌, ◌<◌, ◌^◌, MatchOption, true, false};
ghost use Rattle.std.specs.List.{list_all};
ghost use Rattle.ds_tree.specs.Lines.{is_digit, is_number, is_number_in, number_of, value_from};

/// The number that a word is, if it is one from `low` to `high`.
pub fn number_in(low: u32, high: u32, word: &[u8]) -> Option<u32>
    ensures { MatchOption result (is_number_in low high word.now ≡ false)
        (λ n. (is_number_in low high word.now ≡ true) × (n ≡ number_of word.now)) }
{
    if !is_number(word) {
        return None;
    }
    let n = value(word)?;
    (low <= n && n <= high).then_some(n)
}

/// Whether a word is decimal digits without a leading zero, or `0`.
pub fn is_number(word: &[u8]) -> bool
    ensures { result ≡ is_number word.now }
{
    match word {
        [] => false,
        [b'0'] => true,
        [b'0', ..] => false,
        _ => are_digits(word),
    }
}

fn are_digits(word: &[u8]) -> bool
    ensures { result ≡ list_all is_digit word.now }
{
    word.iter().all(|b| is_digit(*b))
}

fn is_digit(b: u8) -> bool
    ensures { result ≡ is_digit b }
{
    b.is_ascii_digit()
}

/// The number that digits write, if it has at most four bytes.
fn value(word: &[u8]) -> Option<u32>
    ensures { MatchOption result (2 ^ 32 ≤ value_from 0 word.now) (λ n. n ≡ value_from 0 word.now) }
{
    let mut n: u64 = 0;
    for b in word {
        n = 10 * n + u64::from(b.saturating_sub(b'0'));
        if n > 4_294_967_295 {
            return None;
        }
    }
    Some(n as u32)
}

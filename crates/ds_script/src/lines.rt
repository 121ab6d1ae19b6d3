//! The lines and words of a text, taken one after another from its front.
#![tactic(auto, using(crate::proofs::Fronts::fronts))]

ghost use Rattle.std.specs.Prelude.{◌≡◌, ◌∷◌, [], ◌<◌, ◌≤◌, MatchOption, IfSome, length, drop, false};
ghost use Rattle.std.specs.List.{prefix_len, position_or_len};
ghost use Rattle.ds_tree.specs.Lines.{lines_of, words_of, is_blank, is_visible};
ghost use Rattle.ds_script.specs.Fronts.{is_line_feed, begins_blank};

/// The first line of a text, without the line feed that ends it, and the text behind it; none of an empty text.
pub fn next_line(text: &[u8]) -> Option<(&[u8], &[u8])>
    ensures line { MatchOption result (lines_of text.now ≡ []) (λ found. lines_of text.now ≡ found.0.now ∷ lines_of found.1.now) }
    ensures shorter { IfSome result (λ found. length found.1.now < length text.now) }
{
    if text.is_empty() {
        return None;
    }
    let end = length_of_line(text);
    Some((&text[..end], past_line_feed(&text[end..])))
}

/// The first word of a line, and the line behind it; none where there are blanks alone. A byte that is neither a blank nor
/// visible is a word of its own.
pub fn next_word(line: &[u8]) -> Option<(&[u8], &[u8])>
    ensures word { MatchOption result (words_of line.now ≡ []) (λ found. words_of line.now ≡ found.0.now ∷ words_of found.1.now) }
    ensures shorter { IfSome result (λ found. length found.1.now < length line.now) }
{
    let line = past_blanks(line);
    if line.is_empty() {
        return None;
    }
    Some(line.split_at(length_of_run(line).max(1)))
}

/// How many bytes stand before the first line feed.
fn length_of_line(text: &[u8]) -> usize
    ensures value { result ≡ position_or_len is_line_feed text.now }
    ensures within { result ≤ length text.now }
{
    for (i, b) in text.iter().enumerate() {
        if *b == b'\n' {
            return i;
        }
    }
    text.len()
}

/// What stands behind a line feed that comes first; nothing where there is none.
fn past_line_feed(text: &[u8]) -> &[u8]
    ensures { result.now ≡ drop 1 text.now }
{
    match text {
        [_, rest @ ..] => rest,
        [] => text,
    }
}

/// What a line is from its first byte on that isn't a blank.
fn past_blanks(line: &[u8]) -> &[u8]
    ensures same { words_of result.now ≡ words_of line.now }
    ensures begins { begins_blank result.now ≡ false }
    ensures within { length result.now ≤ length line.now }
{
    let mut rest = line;
    while let [b, more @ ..] = rest {
        if !is_blank(*b) {
            return rest;
        }
        rest = more;
    }
    rest
}

fn is_blank(b: u8) -> bool
    ensures { result ≡ is_blank b }
{
    b == b' ' || b == b'\t' || b == b'\r'
}

/// How many visible bytes come first.
fn length_of_run(line: &[u8]) -> usize
    ensures value { result ≡ prefix_len is_visible line.now }
    ensures within { result ≤ length line.now }
{
    for (i, b) in line.iter().enumerate() {
        if !is_visible(*b) {
            return i;
        }
    }
    line.len()
}

pub fn is_visible(b: u8) -> bool
    ensures { result ≡ is_visible b }
{
    b.is_ascii_graphic()
}

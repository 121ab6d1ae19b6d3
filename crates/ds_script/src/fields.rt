//! The fields of a line: each reader takes what it reads from the front of a line, and leaves what stands behind it, or tells
//! the first fault.
#![tactic(auto)]

ghost use Rattle.std.specs.Prelude.{◌≡◌, ◌≤◌, ◌<◌, IfOk, IfSome, MatchResult, length, true, false, Some, None};
ghost use Rattle.std.specs.List.{list_all};
ghost use Rattle.ds_base.specs.Geometry.{most_of};
ghost use Rattle.ds_tree.specs.Grammar.{is_label, is_reserved, most_hosts, names_of};
ghost use Rattle.ds_tree.specs.Variables.{is_lower_or_digit};
ghost use Rattle.uuid.specs.Text.{parsed};
ghost use Rattle.ds_tree.specs.Lines.{is_run, is_word, words_of};
ghost use Rattle.ds_script.specs.Faults.{is_among, is_variable};
ghost use Rattle.ds_script.specs.Reading.{after_at, as_at, awaited_at, end_at, fresh_host_at, host_at, host_named, key_at, keyword_at, landing_at, number_at, point_at, point_named, size_at, variable_at, word_at};
ghost use Rattle.ds_script.specs.Results.{Gives};

use crate::faults::LineFault;
use crate::lines::{is_visible, next_word};
use crate::numbers::{is_number, number_in};
use ds_base::{GeomField, HostNo, Kind, Word};
use ds_tree::{HostPlan, Point, Spoken, Var};
use uuid::Uuid;

/// The first word of a line, which has 1 to 255 visible bytes, and the line behind it. Without a word it is `Count`, and with
/// one that can't stand in a line `Word`.
#[tactic(auto, unfolding(crate::specs::Reading::word_at))]
pub fn take_bytes(line: &[u8]) -> Result<(&[u8], &[u8]), LineFault>
    ensures read { Gives (λ x. (x.0.now, words_of x.1.now)) result (word_at (words_of line.now)) }
    ensures word { IfOk result (λ x. is_word x.0.now ≡ true) }
{
    let (word, rest) = next_word(line).ok_or(LineFault::Count)?;
    if !is_word(word) {
        return Err(LineFault::Word);
    }
    Ok((word, rest))
}

/// Whether a word may stand in a line: 1 to 255 visible bytes.
fn is_word(word: &[u8]) -> bool
    ensures { result ≡ is_word word.now }
{
    is_run(word) && !word.is_empty() && word.len() <= 255
}

/// Whether all bytes are visible.
pub fn is_run(word: &[u8]) -> bool
    ensures { result ≡ is_run word.now }
{
    word.iter().all(|b| is_visible(*b))
}

/// The same, with the word to be kept.
pub fn take_word(line: &[u8]) -> Result<(Word, &[u8]), LineFault>
    ensures { Gives (λ x. (x.0, words_of x.1.now)) result (word_at (words_of line.now)) }
{
    let (word, rest) = take_bytes(line)?;
    let word = Word::new(word).ok_or(LineFault::Word)?;
    Ok((word, rest))
}

/// What was read, where no words are left. Where one is, it is `Count`, or `Word` if it can't stand in a line.
#[tactic(auto, unfolding(crate::specs::Reading::end_at))]
pub fn ended<T: Drop>(read: T, line: &[u8]) -> Result<T, LineFault>
    ensures read { Gives (λ x. x) result (end_at read (words_of line.now)) }
    ensures same { IfOk result (λ x. x ≡ read) }
{
    match next_word(line) {
        None => Ok(read),
        Some((word, _)) if is_word(word) => Err(LineFault::Count),
        Some(_) => Err(LineFault::Word),
    }
}

/// The line behind this keyword, which is its first word. Another word is `Word`.
#[tactic(auto, unfolding(crate::specs::Reading::keyword_at))]
pub fn expect_keyword<'a>(keyword: &[u8], line: &'a [u8]) -> Result<&'a [u8], LineFault>
    ensures { Gives (λ x. words_of x.now) result (keyword_at keyword.now (words_of line.now)) }
{
    let (word, rest) = take_bytes(line)?;
    if word != keyword {
        return Err(LineFault::Word);
    }
    Ok(rest)
}

/// The first word as a number from `low` to `high`, and the line behind it. Another word is `Number`.
#[tactic(auto, unfolding(crate::specs::Reading::number_at))]
pub fn take_number(low: u32, high: u32, line: &[u8]) -> Result<(u32, &[u8]), LineFault>
    ensures read { Gives (λ x. (x.0, words_of x.1.now)) result (number_at low high (words_of line.now)) }
    ensures least { IfOk result (λ x. low ≤ x.0) }
    ensures most { IfOk result (λ x. x.0 ≤ high) }
{
    let (word, rest) = take_bytes(line)?;
    let n = number_in(low, high, word).ok_or(LineFault::Number)?;
    Ok((n, rest))
}

/// The first word as a key, `root` or a variable, and the line behind it. Another word is `Variable`.
#[tactic(auto, unfolding(crate::specs::Reading::key_at))]
pub fn take_key(line: &[u8]) -> Result<(Spoken, &[u8]), LineFault>
    ensures { Gives (λ x. (x.0, words_of x.1.now)) result (key_at (words_of line.now)) }
{
    let (word, rest) = take_bytes(line)?;
    if word == b"root".as_slice() {
        return Ok((Spoken::Root, rest));
    }
    let name = variable_of(word)?;
    Ok((Spoken::Var(name), rest))
}

/// The first word as a variable, and the line behind it. Another word, `root` among them, is `Variable`.
#[tactic(auto, unfolding(crate::specs::Reading::variable_at))]
pub fn take_variable(line: &[u8]) -> Result<(Var, &[u8]), LineFault>
    ensures { Gives (λ x. (x.0, words_of x.1.now)) result (variable_at (words_of line.now)) }
{
    let (word, rest) = take_bytes(line)?;
    let name = variable_of(word)?;
    Ok((name, rest))
}

#[tactic(auto, using(crate::proofs::Labels::is_variable_tells))]
fn variable_of(word: &[u8]) -> Result<Var, LineFault>
    ensures { MatchResult result (λ name. (is_variable word.now ≡ true) × (name ≡ word.now))
        (λ fault. (is_variable word.now ≡ false) × (fault ≡ LineFault.Variable)) }
{
    Var::new(word).ok_or(LineFault::Variable)
}

/// A known host.
#[tactic(auto, unfolding(crate::specs::Reading::host_at))]
pub fn take_host<'a>(hosts: &[HostPlan], line: &'a [u8]) -> Result<(HostNo, &'a [u8]), LineFault>
    requires { length hosts.now ≤ most_hosts }
    ensures { Gives (λ x. (x.0, words_of x.1.now)) result (host_at (names_of hosts.now) (words_of line.now)) }
{
    let (word, rest) = take_bytes(line)?;
    let host = host_named(hosts, word).ok_or(LineFault::Host)?;
    Ok((host, rest))
}

/// The host with this name.
pub fn host_named(hosts: &[HostPlan], word: &[u8]) -> Option<HostNo>
    requires { length hosts.now ≤ most_hosts }
    ensures value { result ≡ host_named (names_of hosts.now) word.now }
    ensures within { IfSome result (λ host. host < length hosts.now) }
{
    for (host, plan) in hosts.iter().enumerate() {
        if word == plan.name.bytes() {
            return Some(host as HostNo);
        }
    }
    None
}

/// A host's name that isn't taken.
#[tactic(auto, unfolding(crate::specs::Reading::fresh_host_at))]
pub fn take_fresh_host<'a>(
    hosts: &[HostPlan],
    line: &'a [u8],
) -> Result<(Word, &'a [u8]), LineFault>
    ensures { Gives (λ x. (x.0, words_of x.1.now)) result (fresh_host_at (names_of hosts.now) (words_of line.now)) }
{
    let (word, rest) = take_word(line)?;
    if !is_label(word.bytes()) || is_reserved(word.bytes()) || is_taken(hosts, word.bytes()) {
        return Err(LineFault::Host);
    }
    Ok((word, rest))
}

/// Whether a word is 1 to 16 lower-case letters and digits that begin with a letter.
fn is_label(word: &[u8]) -> bool
    ensures { result ≡ is_label word.now }
{
    match word {
        [] => false,
        [b, ..] => *b >= b'a' && are_lower_or_digit(word) && word.len() <= 16,
    }
}

fn are_lower_or_digit(word: &[u8]) -> bool
    ensures { result ≡ list_all is_lower_or_digit word.now }
{
    word.iter().all(|b| is_lower_or_digit(*b))
}

fn is_lower_or_digit(b: u8) -> bool
    ensures { result ≡ is_lower_or_digit b }
{
    b.is_ascii_lowercase() || b.is_ascii_digit()
}

/// Whether a word begins lines of its own.
fn is_reserved(word: &[u8]) -> bool
    ensures { result ≡ is_reserved word.now }
{
    word == b"volume".as_slice() || word == b"host".as_slice() || word == b"step".as_slice()
}

/// Whether a host has this name.
fn is_taken(hosts: &[HostPlan], word: &[u8]) -> bool
    ensures { result ≡ is_among word.now (names_of hosts.now) }
{
    for plan in hosts {
        if word == plan.name.bytes() {
            return true;
        }
    }
    false
}

/// A kind of command.
#[tactic(auto, unfolding(crate::specs::Reading::point_at))]
pub fn take_point(line: &[u8]) -> Result<(Point, &[u8]), LineFault>
    ensures { Gives (λ x. (x.0, words_of x.1.now)) result (point_at (words_of line.now)) }
{
    let (word, rest) = take_bytes(line)?;
    let point = point_named(word).ok_or(LineFault::Point)?;
    Ok((point, rest))
}

#[tactic(auto, unfolding(crate::specs::Reading::point_named))]
fn point_named(word: &[u8]) -> Option<Point>
    ensures { result ≡ point_named word.now }
{
    if word == b"enter".as_slice() {
        return Some(Point::Enter);
    }
    if word == b"leave".as_slice() {
        return Some(Point::Leave);
    }
    if word == b"beat".as_slice() {
        return Some(Point::Beat);
    }
    if word == b"commit".as_slice() {
        return Some(Point::Commit);
    }
    if word == b"retire".as_slice() {
        return Some(Point::Retire);
    }
    if word == b"read".as_slice() {
        return Some(Point::Read);
    }
    if word == b"lock".as_slice() {
        return Some(Point::Lock);
    }
    if word == b"free".as_slice() {
        return Some(Point::Free);
    }
    if word == b"index".as_slice() {
        return Some(Point::Index);
    }
    if word == b"place".as_slice() {
        return Some(Point::Place);
    }
    if word == b"break".as_slice() {
        return Some(Point::Break);
    }
    if word == b"clear".as_slice() {
        return Some(Point::Clear);
    }
    None
}

/// Whether a fault comes with its command's effect.
#[tactic(auto, unfolding(crate::specs::Reading::landing_at))]
pub fn take_landing(line: &[u8]) -> Result<(bool, &[u8]), LineFault>
    ensures { Gives (λ x. (x.0, words_of x.1.now)) result (landing_at (words_of line.now)) }
{
    let (word, rest) = take_bytes(line)?;
    if word == b"landed".as_slice() {
        return Ok((true, rest));
    }
    if word == b"lost".as_slice() {
        return Ok((false, rest));
    }
    Err(LineFault::Word)
}

/// The variable that takes a key, if more words follow.
#[tactic(auto, unfolding(crate::specs::Reading::as_at))]
pub fn take_bind(line: &[u8]) -> Result<(Option<Var>, &[u8]), LineFault>
    ensures { Gives (λ x. (x.0, words_of x.1.now)) result (as_at (words_of line.now)) }
{
    if next_word(line).is_none() {
        return Ok((None, line));
    }
    let rest = expect_keyword(b"as", line)?;
    let (name, rest) = take_variable(rest)?;
    Ok((Some(name), rest))
}

/// The word behind which a list begins, if more words follow.
#[tactic(auto, unfolding(crate::specs::Reading::after_at))]
pub fn take_after(line: &[u8]) -> Result<(Option<Word>, &[u8]), LineFault>
    ensures { Gives (λ x. (x.0, words_of x.1.now)) result (after_at (words_of line.now)) }
{
    if next_word(line).is_none() {
        return Ok((None, line));
    }
    let rest = expect_keyword(b"after", line)?;
    let (name, rest) = take_word(rest)?;
    Ok((Some(name), rest))
}

/// A size of the geometry.
#[tactic(auto, unfolding(crate::specs::Reading::size_at))]
pub fn take_size(field: GeomField, line: &[u8]) -> Result<(u16, &[u8]), LineFault>
    ensures read { Gives (λ x. (x.0, words_of x.1.now)) result (size_at field (words_of line.now)) }
    ensures least { IfOk result (λ x. 1 ≤ x.0) }
    ensures most { IfOk result (λ x. x.0 ≤ most_of field) }
{
    let (word, rest) = take_bytes(line)?;
    match number_in(1, most_of(field), word) {
        Some(n) => Ok((n as u16, rest)),
        None if is_number(word) => Err(LineFault::Geom),
        None => Err(LineFault::Number),
    }
}

/// The largest size of a field.
fn most_of(field: GeomField) -> u32
    ensures value { result ≡ most_of field }
    ensures small { result ≤ 3840 }
{
    match field {
        GeomField::Slots => 16,
        GeomField::Block => 2048,
        GeomField::Clusters(_) => 8,
        GeomField::Items(Kind::Fd) => 256,
        GeomField::Items(_) => 3840,
    }
}

/// The id that a word is, in one of the forms that an id has.
pub fn id_of(word: &[u8]) -> Result<Uuid, LineFault>
    ensures { MatchResult result (λ id. parsed word.now ≡ Some id) (λ fault. (parsed word.now ≡ None) × (fault ≡ LineFault.Uuid)) }
{
    match Uuid::try_parse_ascii(word) {
        Ok(id) => Ok(id),
        Err(_) => Err(LineFault::Uuid),
    }
}

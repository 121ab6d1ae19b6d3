//! Whether a directive about the next call of its host has one.
#![tactic(auto)]

ghost use Rattle.std.specs.Prelude.{◌≡◌, ◌∷◌, [], MatchOption};
ghost use Rattle.ds_tree.specs.Grammar.{is_arming};
ghost use Rattle.ds_tree.specs.Lines.{lines_of, words_of};
ghost use Rattle.ds_script.specs.Entries.{item_of};
ghost use Rattle.ds_script.specs.Faults.{begins_with, call_rows, is_armed, is_first_of, word_at};
ghost use Rattle.ds_script.specs.Reading.{is_unarmed};
ghost use Rattle.ds_script.specs.Runs.{runs_of};

use crate::fields::is_run;
use crate::items::{Entry, is_comment};
use crate::lines::{next_line, next_word};
use ds_tree::{CallKind, Directive};

/// Whether a line's entry is a directive that the lines behind it leave without a call.
pub fn is_unarmed(entry: &Entry, line: &[u8], behind: &[u8]) -> bool
    ensures { result ≡ is_unarmed (item_of entry.now) (words_of line.now) (lines_of behind.now) }
{
    match (entry, next_word(line)) {
        (Entry::Does { directive, .. }, Some((host, _))) => is_arming(directive)
            && !finds_call(host, behind),
        _ => false,
    }
}

/// Whether a directive is about the next call of its host.
fn is_arming(directive: &Directive) -> bool
    ensures { result ≡ is_arming directive.now }
{
    matches!(
        directive,
        Directive::Hold { .. } | Directive::Crash { .. } | Directive::Fail { .. }
    )
}

/// Whether the next line that begins with a host's name has the word of a call as its second, whatever else stands in it.
fn finds_call(host: &[u8], text: &[u8]) -> bool
    ensures { result ≡ is_armed host.now (lines_of text.now) }
{
    let mut rest = text;
    while let Some((line, behind)) = next_line(rest) {
        if !is_comment(line) && begins_with(host, line) {
            return has_call(line);
        }
        rest = behind;
    }
    false
}

fn begins_with(word: &[u8], line: &[u8]) -> bool
    ensures { result ≡ begins_with word.now (runs_of line.now) }
{
    match next_run(line) {
        Some((first, _)) => first == word,
        None => false,
    }
}

/// Whether the second word of a line is that of a call.
fn has_call(line: &[u8]) -> bool
    ensures { result ≡ is_first_of call_rows (word_at (runs_of line.now) 1) }
{
    match next_run(line) {
        Some((_, rest)) => match next_run(rest) {
            Some((second, _)) => is_call(second),
            None => false,
        },
        None => false,
    }
}

/// The first run of visible bytes, and the line behind it.
fn next_run(line: &[u8]) -> Option<(&[u8], &[u8])>
    ensures { MatchOption result (runs_of line.now ≡ []) (λ found. runs_of line.now ≡ found.0.now ∷ runs_of found.1.now) }
{
    let mut rest = line;
    while let Some((word, behind)) = next_word(rest) {
        if is_run(word) {
            return Some((word, behind));
        }
        rest = behind;
    }
    None
}

/// Whether a directive with this first word is a call.
#[tactic(auto, using(crate::proofs::CallNames::named_is_call))]
fn is_call(word: &[u8]) -> bool
    ensures { result ≡ is_first_of call_rows word.now }
{
    CallKind::named(word).is_some()
}

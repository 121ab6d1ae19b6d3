//! The top call: words, input and output.
ghost use Rattle.std.specs.Prelude.{◌≡◌, ◌↔◌, [], None, Some, IfSome, MatchResult, map};
ghost use Rattle.std.specs.String.{string_bytes};
ghost use Rattle.ds_base.specs.Outside.{HasRisen};
ghost use Rattle.ds_top.specs.Commands.{AskFor};
ghost use Rattle.ds_top.specs.Causes.{Causes, CausesOutput, OrFree};
ghost use Rattle.ds_top.specs.Outcomes.{status_of};
ghost use Rattle.ds_top.specs.Promise.{IsRunOf, OfInput, IsFormatOn, IsCheckOn, IsListOn, HasOutput, HasReadAll, IsRefusal};
ghost use Rattle.ds_top.specs.Runs.{IsMade, IsRefused, Ends, bytes_in};
ghost use Rattle.ds_top.specs.declared.commands.Command.{Command};
ghost use Rattle.ds_top.specs.declared.outcome.Why.{Why};

use crate::checking::check_image;
use crate::commands::Command;
use crate::formatting::format_text;
use crate::image_input::read_image;
use crate::input::{MOST_BYTES, read_all};
use crate::listing::list_image;
use crate::outcome::{Outcome, Why, refused};
use crate::output::{Output, write_output};
use crate::replaying::replay_text;
use ds_base::{Sink, Source};
use std::alloc::Global;

/// Runs the program on its words (those after its name), its input and its output. `replay` reads a scenario and writes the
/// report of its run, `format` reads the line of a volume and writes the sectors of the new volume, `check` reads an image and
/// writes what is at odds in it, and `tree` writes the listing of its file tree instead where nothing is.
pub fn plain<S: Source, K: Sink>(
    alloc: Global,
    words: &[String],
    source: &mut S,
    sink: &mut K,
) -> Outcome
    ensures run { AskFor (map (λ w. string_bytes w) words.now) Command.Replay → HasOutput result.status
        → IsRunOf (S.left source.old) (S.left source.new) (K.taken sink.old) (K.taken sink.new) result.why result.log }
    ensures formatted { AskFor (map (λ w. string_bytes w) words.now) Command.Format → HasOutput result.status
        → OfInput (S.left source.old) (S.left source.new) (λ input. IsFormatOn input (K.taken sink.old) (K.taken sink.new) result.why) }
    ensures checked { AskFor (map (λ w. string_bytes w) words.now) Command.Check → HasOutput result.status
        → OfInput (S.left source.old) (S.left source.new) (λ input. IsCheckOn input (K.taken sink.old) (K.taken sink.new) result.why) }
    ensures listed { AskFor (map (λ w. string_bytes w) words.now) Command.Tree → HasOutput result.status
        → OfInput (S.left source.old) (S.left source.new) (λ input. IsListOn input (K.taken sink.old) (K.taken sink.new) result.why) }
    ensures log { (AskFor (map (λ w. string_bytes w) words.now) Command.Replay → ⊥) → result.log ≡ None }
    ensures status { result.status ≡ status_of result.why }

    // When each outcome comes. The words and the bytes decide it, but for want of memory and for faults.
    ensures words { (result.why ≡ Why.BadWords)
        ↔ ((command : Command) → AskFor (map (λ w. string_bytes w) words.now) command → ⊥) }
    ensures cause { IfSome (S.left source.old) (λ bytes. (command : Command)
        → AskFor (map (λ w. string_bytes w) words.now) command → OrFree result.why (Causes command bytes result.why)) }
    ensures only { IfSome (S.left source.old) (λ bytes. (command : Command) (why : Why)
        → AskFor (map (λ w. string_bytes w) words.now) command → Causes command bytes why
        → OrFree result.why (result.why ≡ why)) }
    ensures written { result.why ≡ Why.WriteFault → IfSome (S.left source.old) (λ bytes. (command : Command)
        → AskFor (map (λ w. string_bytes w) words.now) command → CausesOutput command bytes) }
    ensures read_fault { result.why ≡ Why.ReadFault → HasRisen (S.faults source.old) (S.faults source.new) }
    ensures write_fault { result.why ≡ Why.WriteFault → HasRisen (K.faults sink.old) (K.faults sink.new) }

    // The input was read to its end, and a refusal wrote nothing.
    ensures whole { HasReadAll result.why → IfSome (S.left source.old) (λ bytes. S.left source.new ≡ Some []) }
    ensures refused { IsRefusal result.why → (K.taken sink.new ≡ K.taken sink.old) × (result.log ≡ None) }
{
    match Command::of(words) {
        Some(command) => execute(alloc, command, source, sink),
        None => refused(Why::BadWords),
    }
}

/// Carries out a command: reads its input, makes its output and writes it.
fn execute<S: Source, K: Sink>(
    alloc: Global,
    command: Command,
    source: &mut S,
    sink: &mut K,
) -> Outcome
    ensures status { result.status ≡ status_of result.why }
    ensures ends { Ends command (S.left source.old) (S.left source.new) (S.faults source.old) (S.faults source.new)
        (K.taken sink.old) (K.taken sink.new) (K.faults sink.old) (K.faults sink.new) result.why result.log }
{
    match make_output(alloc, command, source) {
        Ok(output) => write_output(output, sink),
        Err(why) => refused(why),
    }
}

/// Reads the input of a command, and makes its output.
fn make_output<S: Source>(alloc: Global, command: Command, source: &mut S) -> Result<Output, Why>
    ensures { MatchResult result
        (λ it. IsMade command (S.left source.old) (S.left source.new) it.why it.log (bytes_in it.body))
        (λ why. IsRefused command (S.left source.old) (S.left source.new) (S.faults source.old) (S.faults source.new) why) }
{
    match command {
        Command::Replay => {
            let bytes = read_all(alloc, source, MOST_BYTES)?;
            replay_text(alloc, bytes.as_slice())
        }
        Command::Format => {
            let bytes = read_all(alloc, source, MOST_BYTES)?;
            format_text(alloc, bytes.as_slice())
        }
        Command::Check => {
            let image = read_image(alloc, source)?;
            check_image(alloc, &image)
        }
        Command::Tree => {
            let image = read_image(alloc, source)?;
            list_image(alloc, &image)
        }
    }
}

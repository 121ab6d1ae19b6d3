//! The words of the command line.
ghost use Rattle.std.specs.Prelude.{◌≡◌, map};
ghost use Rattle.std.specs.String.{string_bytes};
ghost use Rattle.ds_base.specs.Decoding.{IsDecoded};
ghost use Rattle.ds_top.specs.Commands.{AskFor, word_of};

/// What the program is asked to do.
#[derive(Clone, Copy, Debug, PartialEq, Eq)]
pub enum Command {
    /// To replay a scenario and to write the report.
    Replay,
    /// To format the volume that a line names, and to write its sectors.
    Format,
    /// To check an image, and to write what is at odds in it.
    Check,
    /// To list the file tree of an image, or else to write what is at odds in it.
    Tree,
}

impl Command {
    /// The command that these words, those after the program's name, ask for.
    pub fn of(words: &[String]) -> Option<Command>
        ensures { IsDecoded result (λ command. AskFor (map (λ w. string_bytes w) words.now) command) }
    {
        match words.split_first() {
            Some((word, rest)) => {
                if !rest.is_empty() {
                    return None;
                }
                Command::named(word.as_bytes())
            }
            None => None,
        }
    }

    /// The command that this one word asks for.
    fn named(word: &[u8]) -> Option<Command>
        ensures { IsDecoded result (λ command. word.now ≡ word_of command) }
    {
        match word {
            b"replay" => Some(Command::Replay),
            b"format" => Some(Command::Format),
            b"check" => Some(Command::Check),
            b"tree" => Some(Command::Tree),
            _ => None,
        }
    }
}

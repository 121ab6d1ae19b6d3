//! Why a text isn't read.

ghost use Rattle.std.specs.Prelude.{◌≡◌};

use ds_base::{HostNo, NoMemory};
use std::fmt;
use thiserror::Error;

/// What is wrong with a line of a scenario: its first cause from left to right.
#[derive(Clone, Copy, Debug, PartialEq, Eq)]
pub enum LineFault {
    /// It isn't a volume line where one is due, or it is one where none is due.
    Volume,
    /// An unknown directive or keyword, a byte that no word has, or a word of more than 255 bytes.
    Word,
    /// Too few or too many words.
    Count,
    /// A word that isn't a number in its range.
    Number,
    /// A word that isn't an id.
    Uuid,
    /// A number of the geometry out of its range.
    Geom,
    /// An unknown host, a host's name that is taken or badly spelt, or a host's line after a directive or a `step` line.
    Host,
    /// A badly spelt variable, or one that would bind `root`.
    Variable,
    /// An unknown kind of command.
    Point,
    /// A hold, a crash or a fault whose host has no call next.
    Arm,
}

/// What was too large.
#[derive(Clone, Copy, Debug, PartialEq, Eq)]
pub enum What {
    Bytes,
    Hosts,
    Directives,
    Steps,
    Volume,
}

/// Why a text isn't read as a scenario. Lines, and the directives of a host, are counted from 1.
#[derive(Clone, Copy, Debug, PartialEq, Eq, Error)]
pub enum ScriptFault {
    #[error("bad line {line}: {why}")]
    BadLine { line: u32, why: LineFault },
    #[error("too large: {what}")]
    TooLarge { what: What },
    /// The hosts wait for one another: the first that doesn't come to its end, with its next directive.
    #[error("stuck: host {host} at {directive}")]
    Stuck { host: HostNo, directive: u32 },
    #[error("out of memory")]
    NoMemory,
}

impl fmt::Display for LineFault {
    ghost use Rattle.std.specs.Prelude.{Some};
    ghost use Rattle.ds_script.specs.FaultTexts.{fault_text};

    ghost output = { λ fault. Some (fault_text fault) };

    fn fmt<W: fmt::Write>(&self, f: &mut fmt::Formatter<W>) -> fmt::Result {
        match self {
            LineFault::Volume => write!(f, "volume"),
            LineFault::Word => write!(f, "word"),
            LineFault::Count => write!(f, "count"),
            LineFault::Number => write!(f, "number"),
            LineFault::Uuid => write!(f, "uuid"),
            LineFault::Geom => write!(f, "geom"),
            LineFault::Host => write!(f, "host"),
            LineFault::Variable => write!(f, "variable"),
            LineFault::Point => write!(f, "point"),
            LineFault::Arm => write!(f, "arm"),
        }
    }
}

impl fmt::Display for What {
    ghost use Rattle.std.specs.Prelude.{Some};
    ghost use Rattle.ds_script.specs.FaultTexts.{what_text};

    ghost output = { λ what. Some (what_text what) };

    fn fmt<W: fmt::Write>(&self, f: &mut fmt::Formatter<W>) -> fmt::Result {
        match self {
            What::Bytes => write!(f, "bytes"),
            What::Hosts => write!(f, "hosts"),
            What::Directives => write!(f, "directives"),
            What::Steps => write!(f, "steps"),
            What::Volume => write!(f, "volume"),
        }
    }
}

impl From<NoMemory> for ScriptFault {
    ghost use Rattle.ds_script.specs.declared.faults.ScriptFault.TheVariants.{NoMemory};

    ghost from_gives = { λ _ fault. fault ≡ NoMemory };

    fn from(_: NoMemory) -> ScriptFault {
        ScriptFault::NoMemory
    }
}

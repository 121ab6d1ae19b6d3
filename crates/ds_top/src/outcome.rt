//! How a run of the program ends.
ghost use Rattle.std.specs.Prelude.{◌≡◌, None};
ghost use Rattle.ds_top.specs.Outcomes.{status_of};

use crate::input::InputFault;
use ds_base::{HostNo, NoMemory, SectorNo};
use ds_check::CheckFault;
use ds_log::Log;
use ds_script::{LineFault, ScriptFault, What};
use std::fmt;

/// How a run of the program ended: its exit status, why, and for a replay with output its log.
#[derive(Drop)]
pub struct Outcome {
    pub status: u8,
    pub why: Why,
    pub log: Option<Log>,
}

/// Why a run ended as it did. Lines, and the directives of a host, are counted from 1, and hosts from 0. The text of an
/// outcome is what standard error is to say: nothing where the run is done.
#[derive(Clone, Copy, Debug, PartialEq, Eq)]
pub enum Why {
    Done,
    BadLine { line: u32, why: LineFault },
    TooLarge { what: What },
    /// The hosts of the scenario wait for one another: the first that doesn't come to its end, with its next directive.
    Stuck { host: HostNo, directive: u32 },
    /// The scenario can't be run now: at host 0 and directive 0 for its geometry, at host 1 and directive 0 for its second
    /// host, and else at the first directive of its one host that can't.
    NotBuilt { host: HostNo, directive: u32 },
    /// The bytes aren't the sectors of a volume: the first sector is no volume information, or this sector isn't there
    /// whole, or it is the first behind the volume.
    BadImage { sector: SectorNo },
    BadWords,
    ReadFault,
    WriteFault,
    Memory,
    /// So much is at odds in the image, and was written.
    Findings { count: u32 },
}

impl Why {
    ghost use Rattle.ds_top.specs.Outcomes.{status_of};

    /// The exit status.
    pub fn status(&self) -> u8
        ensures { result ≡ status_of self.now }
    {
        match self {
            Why::Done => 0,
            Why::BadLine { .. } | Why::TooLarge { .. } => 1,
            Why::Stuck { .. } | Why::NotBuilt { .. } => 1,
            Why::BadImage { .. } => 1,
            Why::BadWords => 2,
            Why::ReadFault => 3,
            Why::WriteFault => 4,
            Why::Memory => 5,
            Why::Findings { .. } => 6,
        }
    }
}

impl fmt::Display for Why {
    ghost use Rattle.std.specs.Prelude.{Some};
    ghost use Rattle.ds_top.specs.Outcomes.{why_text};

    ghost output = { λ why. Some (why_text why) };

    fn fmt<W: fmt::Write>(&self, f: &mut fmt::Formatter<W>) -> fmt::Result {
        match self {
            Why::Done => Ok(()),
            Why::BadLine { line, why } => write!(f, "bad line {line}: {why}"),
            Why::TooLarge { what } => write!(f, "too large: {what}"),
            Why::Stuck { host, directive } => write!(f, "stuck: host {host} at {directive}"),
            Why::NotBuilt { host, directive } => {
                write!(f, "not built: host {host} at {directive}")
            }
            Why::BadImage { sector } => write!(f, "bad image: sector {sector}"),
            Why::BadWords => write!(f, "bad words"),
            Why::ReadFault => write!(f, "read fault"),
            Why::WriteFault => write!(f, "write fault"),
            Why::Memory => write!(f, "out of memory"),
            Why::Findings { count } => write!(f, "findings: {count}"),
        }
    }
}

impl From<InputFault> for Why {
    ghost use Rattle.ds_top.specs.Outcomes.{why_of_input};

    ghost from_gives = { λ fault why. why ≡ why_of_input fault };

    fn from(fault: InputFault) -> Why {
        match fault {
            InputFault::Fault => Why::ReadFault,
            InputFault::TooLarge => Why::TooLarge { what: What::Bytes },
            InputFault::NoMemory => Why::Memory,
        }
    }
}

impl From<ScriptFault> for Why {
    ghost use Rattle.ds_top.specs.Outcomes.{why_of_script};

    ghost from_gives = { λ fault why. why ≡ why_of_script fault };

    fn from(fault: ScriptFault) -> Why {
        match fault {
            ScriptFault::BadLine { line, why } => Why::BadLine { line, why },
            ScriptFault::TooLarge { what } => Why::TooLarge { what },
            ScriptFault::Stuck { host, directive } => Why::Stuck { host, directive },
            ScriptFault::NoMemory => Why::Memory,
        }
    }
}

impl From<CheckFault> for Why {
    ghost use Rattle.ds_top.specs.Outcomes.{why_of_check};

    ghost from_gives = { λ fault why. why ≡ why_of_check fault };

    fn from(fault: CheckFault) -> Why {
        match fault {
            CheckFault::BadImage { sector } => Why::BadImage { sector },
            CheckFault::NoMemory => Why::Memory,
        }
    }
}

impl From<NoMemory> for Why {
    ghost use Rattle.ds_top.specs.declared.outcome.Why.TheVariants.{Memory};

    ghost from_gives = { λ _ why. why ≡ Memory };

    fn from(_: NoMemory) -> Why {
        Why::Memory
    }
}

/// An outcome that writes nothing.
pub(crate) fn refused(why: Why) -> Outcome
    ensures { result ≡ record { status = status_of why; why = why; log = None } }
{
    Outcome {
        status: why.status(),
        why,
        log: None,
    }
}

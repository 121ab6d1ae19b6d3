//! Writing all output.
ghost use Rattle.std.specs.Prelude.{◌≡◌, ◌≤◌, OnOk, OnErr};
ghost use Rattle.ds_base.specs.Outside.{Extends, HasRisen};
ghost use Rattle.ds_top.specs.Edges.{ExtendsByPart};
ghost use Rattle.ds_top.specs.Outcomes.{status_of};
ghost use Rattle.ds_top.specs.Images.{bytes_of};
ghost use Rattle.ds_top.specs.Runs.{Writes, bytes_in};

use crate::outcome::{Outcome, Why};
use ds_base::{Gave, Sector, Sink};
use ds_log::Log;
use thiserror::Error;

/// The sink failed.
#[derive(Clone, Copy, Debug, PartialEq, Eq, Error)]
#[error("write fault")]
pub struct OutputFault;

/// What a run is to write, the log of its replay if it made one, and how the run ends once all is written.
#[derive(Drop)]
pub(crate) struct Output {
    pub(crate) why: Why,
    pub(crate) log: Option<Log>,
    pub(crate) body: Body,
}

impl Output {
    ghost use Rattle.std.specs.Prelude.{◌≡◌, None};

    /// The output of a run that ends so once this text is written, with the log of its replay if it made one.
    pub(crate) fn text(why: Why, log: Option<Log>, text: Vec<u8>) -> Output
        ensures { result ≡ record { why = why; log = log; body = Body.Text text } }
    {
        Output {
            why,
            log,
            body: Body::Text(text),
        }
    }

    /// The output of a run that is done once these sectors are written.
    pub(crate) fn sectors(sectors: Vec<Sector>) -> Output
        ensures { result ≡ record { why = Why.Done; log = None; body = Body.Sectors sectors } }
    {
        Output {
            why: Why::Done,
            log: None,
            body: Body::Sectors(sectors),
        }
    }
}

/// The bytes of an output.
#[derive(Drop)]
pub(crate) enum Body {
    Text(Vec<u8>),
    Sectors(Vec<Sector>),
}

/// Writes the output of a run.
pub(crate) fn write_output<K: Sink>(output: Output, sink: &mut K) -> Outcome
    ensures status { result.status ≡ status_of result.why }
    ensures log { result.log ≡ output.log }
    ensures writes { Writes output.why (bytes_in output.body) (K.taken sink.old) (K.taken sink.new)
        (K.faults sink.old) (K.faults sink.new) result.why }
{
    let Output { why, log, body } = output;
    let why = match write_body(sink, &body) {
        Ok(()) => why,
        Err(_) => Why::WriteFault,
    };
    Outcome {
        status: why.status(),
        why,
        log,
    }
}

/// Writes all bytes of an output.
fn write_body<K: Sink>(sink: &mut K, body: &Body) -> Result<(), OutputFault>
    ensures ok { OnOk result (Extends (K.taken sink.old) (K.taken sink.new) (bytes_in body.now)) }
    ensures failed { OnErr result (HasRisen (K.faults sink.old) (K.faults sink.new)) }
    ensures part { OnErr result (ExtendsByPart (K.taken sink.old) (K.taken sink.new) (bytes_in body.now)) }
{
    match body {
        Body::Text(text) => write_all(sink, text),
        Body::Sectors(sectors) => write_sectors(sink, sectors),
    }
}

/// Writes sectors, one after another.
fn write_sectors<K: Sink>(sink: &mut K, sectors: &[Sector]) -> Result<(), OutputFault>
    ensures ok { OnOk result (Extends (K.taken sink.old) (K.taken sink.new) (bytes_of sectors.now)) }
    ensures failed { OnErr result (HasRisen (K.faults sink.old) (K.faults sink.new)) }
    ensures part { OnErr result (ExtendsByPart (K.taken sink.old) (K.taken sink.new) (bytes_of sectors.now)) }
{
    let mut left = sectors;
    'sectors: while let Some((first, rest)) = left.split_first() {
        match write_all(sink, &first.bytes) {
            Ok(()) => left = rest,
            Err(fault) => return Err(fault),
        }
    }
    Ok(())
}

/// Writes all bytes.
pub fn write_all<K: Sink>(sink: &mut K, bytes: &[u8]) -> Result<(), OutputFault>
    ensures ok { OnOk result (Extends (K.taken sink.old) (K.taken sink.new) bytes.now) }
    ensures failed { OnErr result (HasRisen (K.faults sink.old) (K.faults sink.new)) }
    ensures part { OnErr result (ExtendsByPart (K.taken sink.old) (K.taken sink.new) bytes.now) }
    ensures faults { K.faults sink.old ≤ K.faults sink.new }
{
    let mut at = 0;
    while at < bytes.len() {
        match sink.put(&bytes[at..]) {
            Gave::Took(n) => at += n,
            Gave::Failed => return Err(OutputFault),
        }
    }
    Ok(())
}

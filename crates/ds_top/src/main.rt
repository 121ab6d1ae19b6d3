//! The program: it replays scenarios, formats volumes, and checks images.
#![tactic(auto)]

mod checking;
mod commands;
mod formatting;
mod image_input;
mod input;
mod listing;
mod outcome;
mod output;
mod replaying;
mod running;

use ds_base::{StdSink, StdSource};
use outcome::{Why, refused};
use running::plain;
use std::process::ExitCode;
use std::{env, io};

/// Runs the program on the real words, input and output, says on standard error why a run isn't done, and ends with its
/// status. Words that aren't UTF-8 are bad words. Where standard error fails, the status is the same.
fn main(rt: HostRuntime) -> ExitCode {
    let outcome = match words(&rt) {
        Ok(words) => {
            let mut source = StdSource::new(rt.stdin());
            let mut sink = StdSink::new(rt.stdout());
            plain(rt.alloc(), words.as_slice(), &mut source, &mut sink)
        }
        Err(why) => refused(why),
    };
    if outcome.why != Why::Done {
        let _ = eprintln!(rt; "{}", outcome.why);
    }
    ExitCode::from(outcome.status)
}

/// The words after the program's name.
fn words(rt: &HostRuntime) -> Result<Vec<String>, Why> {
    let all = match env::args(rt) {
        Ok(all) => all,
        Err(fault) if fault.kind() == io::ErrorKind::OutOfMemory => return Err(Why::Memory),
        Err(_) => return Err(Why::BadWords),
    };
    let mut words = Vec::new(rt.alloc());
    for word in all.skip(1) {
        words.push(word).map_err(|_| Why::Memory)?;
    }
    Ok(words)
}

#[cfg(test)]
mod image_tests;
#[cfg(test)]
mod tests;

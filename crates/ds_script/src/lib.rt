//! The language of scenarios: how their texts are read and printed, and whether their directives can all pass.
#![tactic(auto)]

mod arming;
mod directives;
mod drafts;
mod faults;
mod fields;
mod items;
mod laws;
mod limits;
mod lines;
mod numbers;
mod passing;
mod printing;
mod reading;
mod spelling;

pub use faults::{LineFault, ScriptFault, What};
pub use fields::{
    ended, expect_keyword, take_bytes, take_key, take_number, take_variable, take_word,
};
pub use items::{is_comment, take_volume_line};
pub use laws::{one_scenario, one_volume};
pub use lines::{next_line, next_word};
pub use numbers::{is_number, number_in};
pub use passing::{Pass, plain_pass};
pub use printing::print;
pub use reading::{read, read_volume};

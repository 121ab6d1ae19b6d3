//! The limits of scenarios.

/// The bytes of a text.
pub const MOST_BYTES: usize = 1_048_576;

/// The sectors of a volume.
pub const MOST_SECTORS: u32 = 131_072;

pub const MOST_HOSTS: usize = 16;

/// The directives of all hosts.
pub const MOST_DIRECTIVES: u32 = 4096;

/// The turns that all `step` lines ask for.
pub const MOST_STEPS: u32 = 1_000_000;

/// The turns that one `step` line asks for.
pub const MOST_TURNS: u32 = 65_536;

/// The ticks of one directive.
pub const MOST_TICKS: u32 = 1_000_000;

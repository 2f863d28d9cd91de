//! Which random units `responses` tries. A test reads no variable and no word, so `tools/random_units.sh`, which tries
//! others, runs a copy of this crate with numbers of its own in place of this file.

/// Where the generator of the units begins.
pub const SEED: u64 = 54;

/// How many times 460 units are tried.
pub const TIMES: u32 = 1;

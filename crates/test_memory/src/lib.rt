//! Shelves and sinks for tests: over memory, with reads and writes that fail where a test says so, and
//! ones that never fail.
#![tactic(auto)]

mod copies;
pub mod memory;
pub mod sure;

pub use memory::{File, MemoryShelf, MemorySink};
pub use sure::{SureShelf, SureSink};

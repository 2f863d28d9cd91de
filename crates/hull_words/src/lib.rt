//! The words that the program was called with, read as a command, or their first fault.
#![tactic(auto)]

mod command;
pub mod defaults;
mod given;
mod kinds;
mod limits;
mod word_fault;
mod word_pass;
mod word_text;

pub use command::{
    AuditWords, CertifyWords, CheckWords, Command, ConvexWords, PriceWords, SettleWords, TryWords,
};
pub use word_fault::{WordError, WordFault};
pub use word_pass::read_words;

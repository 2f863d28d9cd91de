//! The tokens of JSON texts of RFC 8259, one after the other, each with its offset; decimal
//! numbers, and the whole numbers nearest to them.
#![tactic(auto)]

mod bytes;
mod decimal;
pub mod decimal_laws;
mod number;
mod number_run;
mod quoted;
mod reader;
mod said;
pub mod small;
mod strings;
mod token;

pub use bytes::bytes_from;
pub use decimal::{Decimal, NumFault, is_whole, whole};
pub use number_run::decimal_at;
pub use quoted::Quoted;
pub use reader::Reader;
pub use strings::{decode_quoted_string, quoted_or_empty};
pub use token::{Lexeme, Token, Word};

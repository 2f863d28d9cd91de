//! One board of a unit commitment case for many threads: callers take turns, and each keeps what it
//! has seen of the one history.
//!
//! The board lies in the one slot of an `atomic_table`, beside three words: the length of the
//! history, the next ticket and the ticket that is served. A call draws a ticket, looks until it is
//! served, makes the board's own call where the board lies, and passes the turn. Beside the board's
//! history, neither a seat nor the table keeps an earlier answer.
#![tactic(auto)]

mod calls;
mod plays;
mod seat;
mod shared;
mod table;

pub use seat::Seat;
pub use shared::SharedBoard;

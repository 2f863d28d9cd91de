//! What a history shows of a call.
ghost use Rattle.std.specs.Prelude.{◌≡◌, ◌≤◌};
ghost use Rattle.plain_lists.specs.declared.limits.TheConstants.{MOST_CALLERS, MOST_PROPOSALS};
ghost use Rattle.plain_lists.specs.declared.limits.TheConstants.{MOST_UNITS};
ghost use Rattle.board_core.specs.Refusals.{reply_of};

use board_store::entries::{Call, Entry, Reply};
use uc_model::cases::Task;

fn reply_to_post(closes: bool) -> Reply
    ensures { result ≡ reply_of closes }
{
    if closes { Reply::Closing } else { Reply::Taken }
}

/// The entry of a call, with numbers within the limits of a run.
pub fn history_entry_of_call(
    caller: u32,
    call: Call,
    proposal: u32,
    unit: u32,
    reply: Reply,
) -> Entry
    requires caller { caller ≤ MOST_CALLERS }
    requires proposal { proposal ≤ MOST_PROPOSALS }
    requires unit { unit ≤ MOST_UNITS }
    ensures { result ≡ record {
      caller = caller;
      call = call;
      proposal = proposal;
      unit = unit;
      reply = reply;
    } }
{
    Entry {
        caller: caller as u16,
        proposal: proposal as u16,
        unit: unit as u16,
        call,
        reply,
    }
}

/// The entry of a post that is taken.
pub fn history_entry_of_taken_post(caller: u32, task: &Task, closes: bool) -> Entry
    requires caller { caller ≤ MOST_CALLERS }
    requires proposal { task.now.proposal ≤ MOST_PROPOSALS }
    requires unit { task.now.unit ≤ MOST_UNITS }
    ensures { result ≡ record {
      caller = caller;
      call = Call.Post;
      proposal =
          task.now.proposal;
      unit = task.now.unit;
      reply = reply_of closes;
    } }
{
    history_entry_of_call(
        caller,
        Call::Post,
        task.proposal,
        task.unit,
        reply_to_post(closes),
    )
}

//! What the steps of a spell leave for backtracking over it, and the log that it is kept in.
ghost use Rattle.std.specs.Prelude.{◌≡◌, ◌≢◌, ℕ, suc, ◌^◌, ◌<◌, ◌≤◌, length};
ghost use Rattle.spell_run.specs.Logs.{left_by, IsTrace};

use plain_lists::lists::ReservedList;
use slope_list::Lowest;

/// What a step leaves for backtracking, in kilowatts.
#[derive(Clone, Copy)]
pub struct Note {
    /// The least power of the least value before the step, less the worth of its reserve.
    pub turn: i64,
    /// The first power before the step.
    pub first: i64,
    /// The last power before the step.
    pub last: i64,
}

/// A period that a spell goes over.
#[derive(Clone, Copy)]
pub struct Passage {
    /// The first period of the spell; 0 stands for one that goes on from before period 1.
    pub first: u32,
    /// The index of the period.
    pub index: usize,
}

/// What a spell leaves of a period for backtracking.
#[derive(Clone, Copy)]
pub struct Passed {
    /// Of the step that goes on.
    pub note: Note,
    /// The least cost of the spells that end with the period, its power, and the turn of their last
    /// step; None where there is none.
    pub end: Option<Lowest>,
}

/// What a spell left of a period, and which entry of the log it wrote before this one.
#[derive(Clone, Copy)]
pub struct Logged {
    /// What the spell left of the period.
    pub passed: Passed,
    /// The place of the spell's entry for the period before; open in its first one.
    pub before: u32,
}

/// What spells left of their periods, in the order of time. Spells that go forward side by side
/// write by turns, so memory is touched only as far as there is something to leave.
pub type Log = ReservedList<Logged>;

/// The entries of one spell in a log, one for each period that it was taken over.
#[derive(Clone, Copy)]
pub struct Trace {
    /// The place of the last one, where there is one.
    pub last: u32,
    /// How many there are.
    pub count: u32,
}

impl Trace {
    /// No entry.
    pub fn none() -> Trace
        ensures { result.count ≡ 0 }
    {
        Trace { last: 0, count: 0 }
    }
}

/// Leaves one entry more of a spell, for which the log has memory, and answers all of the spell.
pub fn push_spell_log_entry(log: &mut Log, trace: Trace, passed: Passed) -> Trace
    requires spare { 1 ≤ log.old.spare }
    requires small { length log.old.items < 2 ^ 32 }
    requires few { suc trace.count < 2 ^ 32 }
    requires trace { IsTrace log.old.items trace }
    ensures trace { IsTrace log.new.items result }
    ensures count { result.count ≡ suc trace.count }
    ensures here { left_by log.new.items result trace.count ≡ passed }
    ensures earlier { (k : ℕ) → k ≢ trace.count
        → left_by log.new.items result k ≡ left_by log.old.items trace k }
    ensures others { (other : Trace) → IsTrace log.old.items other → IsTrace log.new.items other
        × ((k : ℕ) → left_by log.new.items other k ≡ left_by log.old.items other k) }
    ensures items { length log.new.items ≡ suc (length log.old.items) }
    ensures spare { suc log.new.spare ≡ log.old.spare }
{
    let last = log.len() as u32;
    log.push(Logged {
        passed,
        before: trace.last,
    });
    Trace {
        last,
        count: trace.count + 1,
    }
}

/// The first entries of a spell in a log, so many of them.
pub(crate) fn first_log_entries_of_spell(log: &[Logged], trace: Trace, count: u32) -> Trace
    requires trace { IsTrace log.now trace }
    requires fewer { count ≤ trace.count }
    ensures trace { IsTrace log.now result }
    ensures count { result.count ≡ count }
    ensures same { (k : ℕ) → k < count → left_by log.now result k ≡ left_by log.now trace k }
{
    let mut last = trace.last;
    for _ in 0..trace.count - count {
        last = log[last as usize].before;
    }
    Trace { last, count }
}

//! The next schedule in the order for ties.
ghost use Rattle.std.specs.Prelude.{◌≡◌, ◌+◌, ◌≤◌, suc, length, map, IsTrue, IsFalse};
ghost use Rattle.std.specs.List.{All};
ghost use Rattle.test_tiny.specs.Counts.{after_of, list_count, flag, schedules_after, IsWithin};
ghost use Rattle.uc_model.specs.PlainUnits.{schedule_of};

use plain_lists::lists::Flags;
use uc_model::units::{Powers, Response};

// Leaves the next list of numbers up to `most`, where the last number counts most; after the last
// list, the first one.
fn next_numbers(list: &mut Powers, most: u32) -> bool
    requires { All (λ x. x ≤ most) list.old.items }
    ensures within { All (λ x. x ≤ most) list.new.items }
    ensures length { length list.new.items ≡ length list.old.items }
    ensures next { IsTrue result → suc (after_of most list.new.items)
        ≡ after_of most list.old.items }
    ensures last { IsFalse result → after_of most list.old.items ≡ 0 }
    ensures again { IsFalse result → suc (after_of most list.new.items)
        ≡ list_count most (length list.old.items) }
{
    for index in 0..list.len() {
        let number = *list.get(index);
        if number < most {
            list.set(index, number + 1);
            return true;
        }
        list.set(index, 0);
    }
    false
}

// The same with flags, where off comes before on.
fn next_flags(list: &mut Flags) -> bool
    ensures length { length list.new.items ≡ length list.old.items }
    ensures next { IsTrue result → suc (after_of 1 (map flag list.new.items))
        ≡ after_of 1 (map flag list.old.items) }
    ensures last { IsFalse result → after_of 1 (map flag list.old.items) ≡ 0 }
{
    for index in 0..list.len() {
        if !*list.get(index) {
            list.set(index, true);
            return true;
        }
        list.set(index, false);
    }
    false
}

/// Leaves the schedule that comes next in the order for ties, among those with no power and no
/// reserve above `most` kilowatts; false where it was the last.
pub fn next_schedule(response: &mut Response, most: u32) -> bool
    requires { IsWithin most (schedule_of response.old) }
    ensures within { IsWithin most (schedule_of response.new) }
    ensures length { length (schedule_of response.new).on ≡ length (schedule_of response.old).on }
    ensures next { IsTrue result → suc (schedules_after most (schedule_of response.new))
        ≡ schedules_after most (schedule_of response.old) }
    ensures last { IsFalse result → schedules_after most (schedule_of response.old) ≡ 0 }
{
    if next_numbers(&mut response.reserve, most) {
        return true;
    }
    if next_numbers(&mut response.power, most) {
        return true;
    }
    next_flags(&mut response.on)
}

//! Laws over the definitions: each is the contract of a function that does nothing.
ghost use Rattle.uc_plan.specs.Laws.{SomePlan, ScheduleFileHasOneValueOrOneFault};

use uc_text::file_laws::file_is_one_json_value_or_one_fault;

/// Each list of bytes is a schedule of a case or has a first fault.
pub fn schedule_file_has_value_or_fault()
    ensures { SomePlan }
{
    file_is_one_json_value_or_one_fault();
}

/// A list of bytes is at most one schedule of a case or has at most one first fault.
pub fn schedule_file_has_one_value_or_one_fault()
    ensures { ScheduleFileHasOneValueOrOneFault }
{
    file_is_one_json_value_or_one_fault();
}

//! Laws over the definitions: each is the contract of a function that does nothing.
ghost use Rattle.uc_mixture.specs.Laws.{SomeMixture, MixtureFileHasOneValueOrOneFault};

use uc_text::file_laws::file_is_one_json_value_or_one_fault;

/// Each list of bytes is a mixture for a case or has a first fault.
pub fn mixture_file_has_value_or_fault()
    ensures { SomeMixture }
{
    file_is_one_json_value_or_one_fault();
}

/// A list of bytes is at most one mixture for a case or has at most one first fault.
pub fn mixture_file_has_one_value_or_one_fault()
    ensures { MixtureFileHasOneValueOrOneFault }
{
    file_is_one_json_value_or_one_fault();
}

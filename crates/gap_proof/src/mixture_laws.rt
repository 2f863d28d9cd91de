//! A law of mixtures: it is the contract of a function that does nothing.
ghost use Rattle.gap_proof.specs.MixtureLaws.{MixturesBreakNoRule};

/// No schedule of a mixture breaks a rule.
pub fn mixtures_break_no_rule()
    ensures { MixturesBreakNoRule }
{}

//! What a refusal of a schedule names: the rule that is broken, and of what kind of unit.
ghost use Rattle.std.specs.Prelude.{◌≡◌};
ghost use Rattle.uc_model.specs.Refusals.{rule_number};

/// What a fault is of: the case as a whole, or a unit of one kind.
#[derive(Clone, Copy, PartialEq, Eq)]
pub enum Kind {
    Case,
    Thermal,
    Renewable,
    Bid,
}

/// The rule that a schedule breaks.
#[derive(Clone, Copy, PartialEq, Eq)]
pub enum RuleCode {
    /// A must-run unit is off.
    MustRun,
    /// A unit leaves the state that it was in before period 1 too early.
    Initial,
    /// A unit stops before its minimum time up is over.
    MinUp,
    /// A unit starts before its minimum time down is over.
    MinDown,
    /// A power or reserve is outside what an on or off unit may give.
    Range,
    /// The output of a start period is above the start limit.
    StartCap,
    /// The output before a stop is above the stop limit.
    StopCap,
    /// The output rises by more than the ramp.
    RampUp,
    /// The power falls by more than the ramp.
    RampDown,
    /// A renewable unit's power is outside its range.
    RenewableRange,
    /// The powers don't sum to demand.
    Balance,
    /// The reserves sum to less than the requirement.
    Reserve,
    /// A unit is on or off against its commitment window.
    Window,
    /// A bid buys more than its blocks.
    BidRange,
}

impl RuleCode {
    /// The number under which the rule is printed, from 44 to 57.
    pub fn number(self) -> u32
        ensures { result ≡ rule_number self }
    {
        match self {
            RuleCode::MustRun => 44,
            RuleCode::Initial => 45,
            RuleCode::MinUp => 46,
            RuleCode::MinDown => 47,
            RuleCode::Range => 48,
            RuleCode::StartCap => 49,
            RuleCode::StopCap => 50,
            RuleCode::RampUp => 51,
            RuleCode::RampDown => 52,
            RuleCode::RenewableRange => 53,
            RuleCode::Balance => 54,
            RuleCode::Reserve => 55,
            RuleCode::Window => 56,
            RuleCode::BidRange => 57,
        }
    }
}

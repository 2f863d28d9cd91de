//! Which test of a case file failed, and where.
ghost use Rattle.std.specs.Prelude.{◌≡◌};
ghost use Rattle.uc_field.specs.Sites.{fault, key_of, code_number};

use std::fmt;
pub use uc_model::kinds::Kind;

/// What is wrong with a value.
#[derive(Clone, Copy, Debug, PartialEq, Eq)]
pub enum CaseCode {
    /// A key isn't there.
    Missing,
    /// A value is of another kind.
    WrongKind,
    /// A number of periods or a flag isn't a whole number.
    NotWhole,
    /// A number that can't be below 0 is.
    Negative,
    /// A number, a count or a sum is above its limit in magnitude.
    TooLarge,
    /// A list over the horizon hasn't an item for each period.
    WrongLength,
    /// A point's power is below the one before it.
    CurveOrder,
    /// The points don't reach from the least to the greatest power.
    CurveEnds,
    /// A lag is below the one before it.
    LagOrder,
    /// A flag is neither 0 nor 1.
    NotFlag,
    /// A least power is above its greatest.
    RangeOrder,
    /// There is neither a thermal nor a renewable unit.
    NoUnits,
    /// A commitment window isn't a list of null, 0 and 1 for the periods.
    WindowShape,
    /// There is no period.
    NoPeriods,
    /// A block's price is above the one before it.
    BlockOrder,
}

impl CaseCode {
    /// The number under which the fault is printed.
    pub fn number(self) -> u32
        ensures { result ≡ code_number self }
    {
        match self {
            CaseCode::Missing => 20,
            CaseCode::WrongKind => 21,
            CaseCode::NotWhole => 22,
            CaseCode::Negative => 23,
            CaseCode::TooLarge => 24,
            CaseCode::WrongLength => 25,
            CaseCode::CurveOrder => 26,
            CaseCode::CurveEnds => 27,
            CaseCode::LagOrder => 28,
            CaseCode::NotFlag => 29,
            CaseCode::RangeOrder => 30,
            CaseCode::NoUnits => 31,
            CaseCode::WindowShape => 33,
            CaseCode::NoPeriods => 34,
            CaseCode::BlockOrder => 37,
        }
    }
}

/// A key of a case file that a fault can name, or the file's outermost value.
#[derive(Clone, Copy, Debug, PartialEq, Eq)]
pub enum Field {
    Whole,
    TimePeriods,
    Demand,
    Reserves,
    ThermalGenerators,
    RenewableGenerators,
    DemandBids,
    MustRun,
    PowerOutputMinimum,
    PowerOutputMaximum,
    RampUpLimit,
    RampDownLimit,
    RampStartupLimit,
    RampShutdownLimit,
    TimeUpMinimum,
    TimeDownMinimum,
    PowerOutputT0,
    UnitOnT0,
    TimeUpT0,
    TimeDownT0,
    Startup,
    PiecewiseProduction,
    Commitment,
    Blocks,
}

impl Field {
    /// The key as the file has it; `whole` for the outermost value.
    pub fn key(self) -> &'static str
        ensures { result.now ≡ key_of self }
    {
        match self {
            Field::Whole => "whole",
            Field::TimePeriods => "time_periods",
            Field::Demand => "demand",
            Field::Reserves => "reserves",
            Field::ThermalGenerators => "thermal_generators",
            Field::RenewableGenerators => "renewable_generators",
            Field::DemandBids => "demand_bids",
            Field::MustRun => "must_run",
            Field::PowerOutputMinimum => "power_output_minimum",
            Field::PowerOutputMaximum => "power_output_maximum",
            Field::RampUpLimit => "ramp_up_limit",
            Field::RampDownLimit => "ramp_down_limit",
            Field::RampStartupLimit => "ramp_startup_limit",
            Field::RampShutdownLimit => "ramp_shutdown_limit",
            Field::TimeUpMinimum => "time_up_minimum",
            Field::TimeDownMinimum => "time_down_minimum",
            Field::PowerOutputT0 => "power_output_t0",
            Field::UnitOnT0 => "unit_on_t0",
            Field::TimeUpT0 => "time_up_t0",
            Field::TimeDownT0 => "time_down_t0",
            Field::Startup => "startup",
            Field::PiecewiseProduction => "piecewise_production",
            Field::Commitment => "commitment",
            Field::Blocks => "blocks",
        }
    }
}

/// Where a test looks: a field of the case as a whole, with unit 0, or of the unit at that position
/// within its kind. `item` is the position within a list, from 1, and the period in `blocks`; it is
/// 0 outside of lists.
#[derive(Clone, Copy)]
pub struct Site {
    /// The field.
    pub field: Field,
    /// The kind of the unit, or `Case`.
    pub kind: Kind,
    /// The position of the unit, or 0.
    pub unit: u32,
    /// The position of the item, or 0.
    pub item: u32,
}

/// A test that failed, and where: the parts of a `Site`.
#[derive(Clone, Copy, PartialEq, Eq)]
pub struct FieldFault {
    /// The test that failed.
    pub code: CaseCode,
    /// The field.
    pub field: Field,
    /// The kind of the unit, or `Case`.
    pub kind: Kind,
    /// The position of the unit, or 0.
    pub unit: u32,
    /// The position of the item, or 0.
    pub item: u32,
}

impl fmt::Debug for FieldFault {
    fn fmt<W: fmt::Write>(&self, f: &mut fmt::Formatter<W>) -> fmt::Result {
        let kind = match self.kind {
            Kind::Case => "case",
            Kind::Thermal => "thermal unit",
            Kind::Renewable => "renewable unit",
            Kind::Bid => "bid",
        };
        write!(
            f,
            "{:?} at {:?} of {} {}, item {}",
            self.code, self.field, kind, self.unit, self.item
        )
    }
}

impl Site {
    ghost use Rattle.uc_field.specs.Sites.{field_at, item_at};

    /// The site of another field.
    pub fn field(self, field: Field) -> Site
        ensures { result ≡ field_at self field }
    {
        Site { field, ..self }
    }

    /// The site of an item.
    pub fn item(self, item: u32) -> Site
        ensures { result ≡ item_at self item }
    {
        Site { item, ..self }
    }

    /// The fault of a test here.
    pub fn fault(self, code: CaseCode) -> FieldFault
        ensures { result ≡ fault self code }
    {
        FieldFault {
            code,
            field: self.field,
            kind: self.kind,
            unit: self.unit,
            item: self.item,
        }
    }
}

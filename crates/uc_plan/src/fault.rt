//! Why a file is no schedule of a case, and where.
ghost use Rattle.std.specs.Prelude.{◌≡◌};
ghost use Rattle.uc_plan.specs.Shapes.{fault, shape_number};
ghost use Rattle.uc_text.specs.declared.stop.Stop.TheVariants as stops;

use std::fmt;
use thiserror::Error;
use uc_model::kinds::Kind;
use uc_text::TextFault;
use uc_text::stop::Stop;

/// What is wrong with a schedule.
#[derive(Clone, Copy, Debug, PartialEq, Eq)]
pub enum ShapeCode {
    /// A member's name isn't that of a unit or bid of its kind in the case.
    UnknownUnit,
    /// A unit or bid of the case has no member.
    MissingUnit,
    /// A value isn't the object or the list that stands there in a schedule.
    PlanShape,
    /// An item of a list isn't a whole number from 0 to `POWER_LIMIT`, or a flag is neither 0
    /// nor 1.
    PlanNumber,
}

impl ShapeCode {
    /// The number under which the fault is printed.
    pub fn number(self) -> u32
        ensures { result ≡ shape_number self }
    {
        match self {
            ShapeCode::UnknownUnit => 40,
            ShapeCode::MissingUnit => 41,
            ShapeCode::PlanShape => 42,
            ShapeCode::PlanNumber => 43,
        }
    }
}

/// Where a test looks: a unit or bid at its position within its kind, from 1, or the file as a
/// whole, with unit 0.
#[derive(Clone, Copy)]
pub struct ShapeSite {
    /// The kind of the unit, or `Case`.
    pub kind: Kind,
    /// The position, or 0.
    pub unit: u32,
}

/// A test that failed, and where. `unit` is the position from 1 of the member in the file for
/// `UnknownUnit`, and otherwise that of the unit or bid in the case within its kind; it is 0 for
/// the file as a whole. `item` is the period, or 0.
#[derive(Clone, Copy, PartialEq, Eq)]
pub struct ShapeFault {
    /// The test that failed.
    pub code: ShapeCode,
    /// The kind of the unit, or `Case`.
    pub kind: Kind,
    /// The position of the unit, or 0.
    pub unit: u32,
    /// The period, or 0.
    pub item: u32,
}

/// What a unit or bid of a kind is called, or the case.
fn noun_of_kind(kind: Kind) -> &'static str {
    match kind {
        Kind::Case => "case",
        Kind::Thermal => "thermal unit",
        Kind::Renewable => "renewable unit",
        Kind::Bid => "bid",
    }
}

impl fmt::Debug for ShapeFault {
    fn fmt<W: fmt::Write>(&self, f: &mut fmt::Formatter<W>) -> fmt::Result {
        let kind = noun_of_kind(self.kind);
        write!(
            f,
            "{:?} at {} {}, item {}",
            self.code, kind, self.unit, self.item
        )
    }
}

/// Why a file isn't read as a schedule.
#[derive(Clone, Copy, Debug, PartialEq, Eq, Drop, Error)]
pub enum PlanFault {
    /// It isn't a JSON text of this profile.
    #[error("not a JSON text: {0:?}")]
    Text(TextFault),
    /// Its value fails a test.
    #[error("not a schedule of the case: {0:?}")]
    Shape(ShapeFault),
    /// Memory ran out.
    #[error("out of memory")]
    Memory,
}

/// Why the reading of a schedule stops.
pub type ShapeStop = Stop<ShapeFault>;

impl ShapeSite {
    /// The stop at a test that failed here, at an item or 0.
    pub fn stop(self, item: u32, code: ShapeCode) -> ShapeStop
        ensures { result ≡ stops.Fault (fault self item code) }
    {
        Stop::Fault(ShapeFault {
            code,
            kind: self.kind,
            unit: self.unit,
            item,
        })
    }
}

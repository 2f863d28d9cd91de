//! Why a file is no mixture for a case, and where.
ghost use Rattle.std.specs.Prelude.{◌≡◌};
ghost use Rattle.uc_text.specs.declared.stop.Stop.TheVariants as stops;
ghost use Rattle.uc_mixture.specs.Faults.{code_number, fault, site_of_file, site_of_unit};
ghost use Rattle.uc_mixture.specs.Faults.{entry_at, shape_site_of, stop_within};

use std::fmt;
use thiserror::Error;
use uc_model::kinds::Kind;
use uc_plan::fault::{ShapeCode, ShapeSite, ShapeStop};
use uc_text::TextFault;
use uc_text::stop::Stop;

/// What is wrong with a mixture.
#[derive(Clone, Copy, Debug, PartialEq, Eq)]
pub enum ShareCode {
    /// What may be wrong with a schedule's file too: a unit that isn't in the case or has no
    /// entries, a value of another shape, or an item of a list of an entry.
    Shape(ShapeCode),
    /// A weight isn't a whole number within its limits, or a unit's weights don't sum to the
    /// outermost one.
    Weight,
}

impl ShareCode {
    /// The number under which the fault is printed.
    pub fn number(self) -> u32
        ensures { result ≡ code_number self }
    {
        match self {
            ShareCode::Shape(code) => code.number(),
            ShareCode::Weight => 62,
        }
    }
}

/// Where a test looks: an entry of a thermal unit, both counted from 1. The unit as a whole has
/// entry 0, and the file as a whole is of kind `Case` with unit 0 and entry 0.
#[derive(Clone, Copy)]
pub struct ShareSite {
    /// `Thermal`, or `Case`.
    pub kind: Kind,
    /// The position of the unit, or 0.
    pub unit: u32,
    /// The position of the entry, or 0.
    pub entry: u32,
}

/// A test that failed, and where. `kind` is `Case` for the file as a whole, and otherwise
/// `Thermal`. `unit` is the position from 1 of the member in the file for `UnknownUnit`, and
/// otherwise that of the thermal unit in the case; it is 0 for the file as a whole. `entry` is the
/// position from 1 among the unit's entries, or 0. `item` is the period, or 0.
#[derive(Clone, Copy, PartialEq, Eq)]
pub struct ShareFault {
    /// The test that failed.
    pub code: ShareCode,
    /// `Thermal`, or `Case`.
    pub kind: Kind,
    /// The position of the unit, or 0.
    pub unit: u32,
    /// The position of the entry, or 0.
    pub entry: u32,
    /// The period, or 0.
    pub item: u32,
}

impl fmt::Debug for ShareFault {
    fn fmt<W: fmt::Write>(&self, f: &mut fmt::Formatter<W>) -> fmt::Result {
        write!(
            f,
            "{:?} at thermal unit {}, entry {}, item {}",
            self.code, self.unit, self.entry, self.item
        )
    }
}

/// Why a file isn't read as a mixture.
#[derive(Clone, Copy, Debug, PartialEq, Eq, Drop, Error)]
pub enum MixtureFault {
    /// It isn't a JSON text of this profile.
    #[error("not a JSON text: {0:?}")]
    Text(TextFault),
    /// Its value fails a test.
    #[error("not a mixture for the case: {0:?}")]
    Share(ShareFault),
    /// Memory ran out.
    #[error("out of memory")]
    Memory,
}

/// Why the reading of a mixture stops.
pub type ShareStop = Stop<ShareFault>;

impl ShareSite {
    /// The file as a whole.
    pub fn fault_site_of_file() -> ShareSite
        ensures { result ≡ site_of_file }
    {
        ShareSite {
            kind: Kind::Case,
            unit: 0,
            entry: 0,
        }
    }

    /// A thermal unit as a whole.
    pub fn fault_site_of_thermal_unit(unit: u32) -> ShareSite
        ensures { result ≡ site_of_unit unit }
    {
        ShareSite {
            kind: Kind::Thermal,
            unit,
            entry: 0,
        }
    }

    /// The site of an entry of the same unit.
    pub fn entry(self, entry: u32) -> ShareSite
        ensures { result ≡ entry_at self entry }
    {
        ShareSite { entry, ..self }
    }

    /// The site of its unit in a schedule.
    pub fn schedule_fault_site_of_unit(self) -> ShapeSite
        ensures { result ≡ shape_site_of self }
    {
        ShapeSite {
            kind: self.kind,
            unit: self.unit,
        }
    }

    /// The stop at a test that failed here.
    pub fn stop(self, code: ShareCode) -> ShareStop
        ensures { result ≡ stops.Fault (fault self code) }
    {
        Stop::Fault(ShareFault {
            code,
            kind: self.kind,
            unit: self.unit,
            entry: self.entry,
            item: 0,
        })
    }

    /// The stop here of a reader of schedules.
    pub fn within(self, stop: ShapeStop) -> ShareStop
        ensures { result ≡ stop_within self.entry stop }
    {
        match stop {
            Stop::Memory => Stop::Memory,
            Stop::Fault(fault) => Stop::Fault(ShareFault {
                code: ShareCode::Shape(fault.code),
                kind: fault.kind,
                unit: fault.unit,
                entry: self.entry,
                item: fault.item,
            }),
        }
    }
}

//! What a unit is asked.
ghost use Rattle.std.specs.Prelude.{◌≡◌, ◌<◌, length};
ghost use Rattle.std.proofs.Props.{props};
ghost use Rattle.cost_curve.specs.CostCurve.{IsCostCurve};
ghost use Rattle.uc_model.specs.PlainUnits.{thermal_of, prices_of};

use plain_lists::lists::Numbers;
use uc_model::units::{Curve, Prices, Unit};

/// What a unit is asked: what it costs at prices over its horizon, as far as that is within limits.
#[derive(Drop)]
pub struct Question<'a> {
    pub unit: &'a Unit,
    /// The curve of the unit's cost points.
    pub curve: &'a Curve,
    pub prices: &'a Prices,
    /// What all up to a period may cost, in money, from period 0 on.
    pub limits: &'a Numbers,
    ghost horizon: { length (thermal_of unit.now).window ≡ length (prices_of prices.now).energy },
    ghost is_curve: { IsCostCurve (thermal_of unit.now).points curve.now } by { Prim.hlevel props },
    ghost each: { length (prices_of prices.now).energy < length limits.now.items },
}

/// A period of a question's horizon.
#[derive(Clone, Copy)]
pub struct Period<'a> {
    pub question: &'a Question<'a>,
    pub index: u32,
    ghost inside: { index < length (prices_of question.now.prices.now).energy },
}

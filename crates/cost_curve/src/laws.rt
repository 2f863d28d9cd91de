//! Laws over the definitions: each is the contract of a function that does nothing but call those
//! of the model.
ghost use Rattle.uc_model.specs.Laws.{EnvelopeEarnsAsPoints};
ghost use Rattle.cost_curve.specs.CostCurve.{EnvelopeIsWithinCostLimit};

use uc_model::laws::{envelope_is_greatest, power_costs_are_within};

/// At each whole price the best earnings of one period over the envelope are those over the points:
/// whole prices can't tell the cost from the points, or from their lower convex envelope.
pub fn envelope_earns_as_points()
    ensures { EnvelopeEarnsAsPoints }
{
    envelope_is_greatest();
}

/// The envelope is within the limit of a point's cost.
pub fn envelope_is_within_cost_limit()
    ensures { EnvelopeIsWithinCostLimit }
{
    power_costs_are_within();
}

//! The text of `hull certify`.
ghost use Rattle.std.specs.Prelude.{◌≡◌, unsigned_abs};
ghost use Rattle.hull_io.specs.Edge.{Writes};
ghost use Rattle.gap_proof.specs.MixtureLaws.{least_paid};
ghost use Rattle.uc_model.specs.Limits.{IsSum, IsWorth};
ghost use Rattle.uc_model.specs.PlainCases.{market_of};
ghost use Rattle.price_settle.specs.Settled.{settled_of};
ghost use Rattle.report_form.specs.CertificateText.{certificate_in, certificate_text};
ghost use Rattle.right_report.specs.Told.{IsTold};
ghost use Rattle.hull_report.specs.CertifiedText.{certificate_of};

use hull_io::{Sink, WriteFailed};
use price_settle::Settled;
use report_form::certificate::{CertificateLines, write_certificate_lines};
use uc_model::cases::Case;

/// A bound on the dual value of all prices within a radius of given ones.
#[derive(Clone, Copy)]
pub struct MixtureBound {
    /// How far each price may be from the given one, in money for a kilowatt and period.
    pub radius: i64,
    /// The bound, in money.
    pub bound: i128,
}

// What payments and surplus sum to at least, at a cost and a bound on the dual value.
pub(crate) fn least_uplift(cost: i128, bound: i128) -> i128
    requires cost { IsSum cost }
    requires bound { IsTold bound }
    ensures { result ≡ least_paid cost bound }
{
    (cost - bound).max(0)
}

// What is told of a plan of this cost, of what it is settled at, and of a bound round the prices.
#[tactic(auto, unfolding(crate::specs::CertifiedText::certificate_of))]
fn certificate_lines(
    case: &Case,
    cost: i128,
    settled: &Settled,
    within: MixtureBound,
) -> CertificateLines
    requires cost { IsSum cost }
    requires value { IsWorth (settled_of settled.now).row.value }
    requires bound { IsTold within.bound }
    ensures { certificate_in result ≡ certificate_of (market_of case.now) cost
        (settled_of settled.now) (unsigned_abs within.radius) within.bound }
{
    let value = settled.row.value;
    CertificateLines {
        periods: case.periods,
        units: case.unit_count(),
        cost,
        value,
        surplus: settled.settlement.surplus,
        payments: settled.settlement.total,
        gap: cost - value,
        radius: within.radius.unsigned_abs(),
        bound: within.bound,
        distance: within.bound - value,
        least: least_uplift(cost, within.bound),
    }
}

/// Writes the lines of `hull certify` for a settlement of a plan that costs so much money, and a
/// bound on the dual value of all prices round those of the settlement. The bound is at most 10^35
/// in magnitude. Takes no memory. Refused only where the sink's count of faults rose, and then the
/// sink gained a front of the text.
pub fn write_certificate<S: Sink>(
    case: &Case,
    cost: i128,
    settled: &Settled,
    within: MixtureBound,
    out: &mut S,
) -> Result<(), WriteFailed>
    requires cost { IsSum cost }
    requires value { IsWorth (settled_of settled.now).row.value }
    requires bound { IsTold within.bound }
    ensures { Writes S.held S.faults S.last out.old out.new result
        (certificate_text (certificate_of (market_of case.now) cost (settled_of settled.now)
        (unsigned_abs within.radius) within.bound)) }
{
    let lines = certificate_lines(case, cost, settled, within);
    write_certificate_lines(&lines, out)
}

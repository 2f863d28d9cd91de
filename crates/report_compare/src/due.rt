//! What is due to a unit or bid in a right report.
ghost use Rattle.std.specs.Prelude.{◌≡◌, ◌<◌, Some, slice_get};
ghost use Rattle.uc_model.specs.Data.{unit_count};
ghost use Rattle.uc_model.specs.PlainCases.{market_of};
ghost use Rattle.report_compare.specs.RightLines.{titles};

use uc_model::cases::Case;
use uc_model::kinds::Kind;

/// A unit's or bid's kind and name.
#[derive(Clone, Copy)]
pub struct Title<'a> {
    /// Whether it is thermal, renewable or a bid.
    pub kind: Kind,
    /// Its name in the case.
    pub name: &'a str,
}

/// The title of the unit or bid of a number.
pub fn title_of_unit(case: &Case, number: usize) -> Title<'_>
    requires { number < unit_count (market_of case.now) }
    ensures { slice_get (titles (market_of case.now)) number
        ≡ Some (record { kind = result.kind; name = result.name.now }) }
{
    let named = case.unit_at(number);
    Title {
        kind: named.unit.kind(),
        name: named.name,
    }
}

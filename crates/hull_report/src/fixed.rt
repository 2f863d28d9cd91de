//! The text of `hull fixed`.
ghost use Rattle.std.specs.Prelude.{◌≡◌, ℕ, ◌<◌, List, length};
ghost use Rattle.hull_io.specs.Edge.{Writes};
ghost use Rattle.uc_model.specs.Data.{unit_count};
ghost use Rattle.uc_model.specs.PlainCases.{market_of, unit_of};
ghost use Rattle.right_report.specs.RightSide.{told_of};
ghost use Rattle.hull_report.specs.FixedText.{sides_text, paid_text, paid_line};
ghost use Rattle.hull_report.specs.FixedText.{paid_start, all_paid_text, sums_text, fixed_text};

use hull_io::{Sink, WriteFailed};
use report_form::laws::texts_written_in_turn_add_up;
use report_form::{Part, write_form_filled_with_parts};
use right_report::Side;
use uc_model::cases::{Case, UnitRef};

// Writes what each run chose, and the prices.
fn write_fixed_prices_of_both_runs<'a, S: Sink>(
    hull: &'a Side,
    fixed: &'a Side,
    out: &mut S,
) -> Result<(), WriteFailed>
    ensures { Writes S.held S.faults S.last out.old out.new result
        (sides_text (told_of hull.now) (told_of fixed.now)) }
{
    let hull_energy = hull.prices.energy.as_slice();
    let hull_reserve = hull.prices.reserve.as_slice();
    let fixed_energy = fixed.prices.energy.as_slice();
    let fixed_reserve = fixed.prices.reserve.as_slice();
    write_form_filled_with_parts(
        out,
        b"hull-fixed 1\nhull proposals % chosen % value %\nfixed proposals % chosen % value %\n\
          hull energy%\nhull reserve%\nfixed energy%\nfixed reserve%\n",
        &[
            Part::Count(hull.proposals as u64),
            Part::Count(hull.chosen as u64),
            Part::Amount(hull.value),
            Part::Count(fixed.proposals as u64),
            Part::Count(fixed.chosen as u64),
            Part::Amount(fixed.value),
            Part::Numbers(hull_energy),
            Part::Numbers(hull_reserve),
            Part::Numbers(fixed_energy),
            Part::Numbers(fixed_reserve),
        ],
    )
}

// What a unit or a bid is paid at the prices of each run, in money.
#[derive(Clone, Copy)]
struct Paid {
    hull: i64,
    fixed: i64,
}

// What the unit of a number is paid.
fn payments_for_fixed_report(hull: &Side, fixed: &Side, number: usize) -> Paid
    requires hull { number < length hull.now.settlement.payments.items }
    requires fixed { number < length fixed.now.settlement.payments.items }
    ensures { (name : List ℕ) → record {
      name = name;
      hull = result.hull;
      fixed = result.fixed;
    } ≡ paid_line (told_of hull.now) (told_of fixed.now) number name }
{
    Paid {
        hull: *hull.settlement.payments.get(number),
        fixed: *fixed.settlement.payments.get(number),
    }
}

// What the line of a unit begins with.
fn fixed_line_prefix_of_unit(unit: UnitRef<'_>) -> &'static [u8]
    ensures { result.now ≡ paid_start (unit_of unit.entry) }
{
    match unit {
        UnitRef::Thermal(_) => b"unit thermal ",
        UnitRef::Renewable(_) => b"unit renewable ",
        UnitRef::Bid(_) => b"unit bid ",
    }
}

// Writes the line of a unit or a bid. `kind` is what it begins with.
fn write_fixed_payment<'a, S: Sink>(
    kind: &'a [u8],
    name: &'a str,
    paid: Paid,
    out: &mut S,
) -> Result<(), WriteFailed>
    ensures { Writes S.held S.faults S.last out.old out.new result (paid_text kind.now (record {
      name = name.now;
      hull = paid.hull;
      fixed = paid.fixed;
    })) }
{
    let bytes = name.as_bytes();
    write_form_filled_with_parts(
        out,
        b"%% hull % fixed %\n",
        &[
            Part::Text(kind),
            Part::Name(bytes),
            Part::Amount(paid.hull as i128),
            Part::Amount(paid.fixed as i128),
        ],
    )
}

// Writes the lines of all units and bids, in the order of their numbers.
fn write_fixed_payments<S: Sink>(
    case: &Case,
    hull: &Side,
    fixed: &Side,
    out: &mut S,
) -> Result<(), WriteFailed>
    requires hull { length hull.now.settlement.payments.items ≡ unit_count (market_of case.now) }
    requires fixed { length fixed.now.settlement.payments.items ≡ unit_count (market_of case.now) }
    ensures { Writes S.held S.faults S.last out.old out.new result
        (all_paid_text (market_of case.now) (told_of hull.now) (told_of fixed.now)) }
{
    texts_written_in_turn_add_up::<S>();
    for number in 0..case.unit_count() as usize {
        let paid = payments_for_fixed_report(hull, fixed, number);
        let named = case.unit_at(number);
        write_fixed_payment(fixed_line_prefix_of_unit(named.unit), named.name, paid, out)?;
    }
    Ok(())
}

// Writes the sums of each run, and what the schedule costs.
fn write_fixed_sums<S: Sink>(
    hull: &Side,
    fixed: &Side,
    cost: i128,
    out: &mut S,
) -> Result<(), WriteFailed>
    ensures { Writes S.held S.faults S.last out.old out.new result
        (sums_text (told_of hull.now) (told_of fixed.now) cost) }
{
    let hull = &hull.settlement;
    let fixed = &fixed.settlement;
    write_form_filled_with_parts(
        out,
        b"payments hull % fixed %\nsurplus hull % fixed %\ncost %\nend\n",
        &[
            Part::Amount(hull.total),
            Part::Amount(fixed.total),
            Part::Amount(hull.surplus),
            Part::Amount(fixed.surplus),
            Part::Amount(cost),
        ],
    )
}

/// Writes the lines of `hull fixed`: what the run of a case chose and what the run with the
/// schedule's commitments held chose, the payment of each unit and bid of the case at the prices of
/// each, the sums, and the `cost` of the schedule in money. The settlement of each side has one
/// number for each unit and bid. Takes no memory. Refused only where the sink's count of faults
/// rose, and then the sink gained a front of the text.
pub fn write_fixed<S: Sink>(
    case: &Case,
    cost: i128,
    hull: &Side,
    fixed: &Side,
    out: &mut S,
) -> Result<(), WriteFailed>
    requires hull { length hull.now.settlement.payments.items ≡ unit_count (market_of case.now) }
    requires fixed { length fixed.now.settlement.payments.items ≡ unit_count (market_of case.now) }
    ensures { Writes S.held S.faults S.last out.old out.new result
        (fixed_text (market_of case.now) cost (told_of hull.now) (told_of fixed.now)) }
{
    texts_written_in_turn_add_up::<S>();
    write_fixed_prices_of_both_runs(hull, fixed, out)?;
    write_fixed_payments(case, hull, fixed, out)?;
    write_fixed_sums(hull, fixed, cost, out)
}

//! The step itself.
ghost use Rattle.std.specs.Prelude.{◌≡◌, ◌+◌, ◌≤◌, neg_ℤ, ◌+ℤ◌, ◌*ℤ◌, ◌≤ℤ◌, ◌<ℤ◌, length};
ghost use Rattle.std.specs.Option.{IfSome};
ghost use Rattle.plain_lists.specs.Ranges.{IsFrom};
ghost use Rattle.uc_model.specs.Limits.{IsOutput, IsCost};
ghost use Rattle.uc_model.specs.declared.limits.TheConstants.{SPELL_LIMIT};
ghost use Rattle.slope_list.specs.Curve.{reserve_term, IsLimitedCurve};
ghost use Rattle.slope_list.specs.Steps.{IsFairStep, IsCostOf, IsStepped, IsSmall};
ghost use Rattle.slope_list.specs.Pieces.{table_of, AreSlopes};
ghost use Rattle.slope_list.specs.Cursors.{IsPlaced};
ghost use Rattle.slope_list.specs.Window.{nearest};
ghost use Rattle.slope_list.specs.Blocks.{IsInBlock, HasCosts};
ghost use Rattle.slope_list.specs.After.{stepped, table_after, ArePiecesAfter, AreWithinAfter};
ghost use Rattle.slope_list.specs.Turn.{IsTurn};

use crate::blocks::cost_and_block_at_power;
use crate::cursor::{Cursor, value_and_piece_at_power};
use crate::draw::Pen;
use crate::kink::power_of_least_value_less_reserve;
use crate::piece::{Piece, Start, last_power};
use crate::progress::write_pieces_after_step;
use crate::shape_laws::{convexity_depends_on_values_alone, steps_keep_convexity};
use crate::step_terms::Step;
use crate::window::Window;
use uc_model::units::Curve;

/// A function that a step has made: where it begins, and how many pieces it has.
#[derive(Clone, Copy)]
pub struct Made {
    pub start: Start,
    pub used: usize,
}

/// What a step answers.
#[derive(Clone, Copy)]
pub struct Stepped {
    /// None means that no power is left.
    pub made: Option<Made>,
    /// The least power of the least value before the step, less the worth of the best reserve.
    pub turn: i64,
}

/// Where a step begins: the first power after it, and the power before it that is
/// nearest to the least value.
#[derive(Clone, Copy)]
pub(crate) struct Opening {
    pub cursor: Cursor,
    pub pen: Pen,
    pub level: i64,
}

/// The value after a step at a power, where the value before it at the nearest power is known, and
/// the cost of the power.
fn value_after_step(step: Step, value: i64, near: i64, at: i64, cost: i64) -> i64
    requires fair { IsFairStep step }
    requires value { IsFrom (neg_ℤ SPELL_LIMIT) SPELL_LIMIT value }
    requires near { IsOutput near }
    requires at { IsOutput at }
    requires cost { IsCost cost }
    ensures { result ≡ ((value +ℤ reserve_term step.reserve_price step.cap step.ramp_up near)
        +ℤ step.slope *ℤ at) +ℤ cost }
{
    let most = step.cap.min(step.ramp_up + near);
    let kinked = value - step.reserve_price * most;
    let paid = kinked + step.slope * at;
    paid + cost
}

/// Finds the first power after a step, and the value there.
pub(crate) fn first_power_after_step(window: &Window<'_>, curve: &Curve, low: i64) -> Opening
    requires limited { IsLimitedCurve curve.now }
    requires from { window.now.start.first ≤ℤ (low +ℤ window.now.step.ramp_down) }
    requires to { low ≤ℤ window.now.high }
    requires at { IsOutput low }
    requires costs { HasCosts curve.now low window.now.high }
    ensures near { result.cursor.at ≡ nearest window.now.step.ramp_up window.now.step.ramp_down
        window.now.turn low }
    ensures placed { IsPlaced window.now.start.first window.now.pieces.now result.cursor }
    ensures pen { (result.pen.at ≡ low) × (result.pen.used ≡ 0)
        × (result.pen.span.index ≤ length curve.now.blocks.items) }
    ensures block { low <ℤ window.now.high
        → IsInBlock curve.now low result.pen.span }
    ensures level { result.level ≡ stepped window.now.start window.now.pieces.now window.now.step
        window.now.turn curve.now low }
{
    let step = window.step;
    let near = (low - step.ramp_up).max((low + step.ramp_down).min(window.turn));
    let reached = value_and_piece_at_power(window.pieces, window.start, near);
    let found = cost_and_block_at_power(curve, low);
    Opening {
        cursor: Cursor {
            at: near,
            next: reached.next,
        },
        pen: Pen {
            at: low,
            used: 0,
            span: found.span,
        },
        level: value_after_step(step, reached.value, near, low, found.value),
    }
}

/// Writes the pieces of the function after a step. There is room for as many pieces as before, one
/// for each block of the curve, and 3.
pub fn write_stepped_pieces(
    pieces: &[Piece],
    start: Start,
    step: Step,
    curve: &Curve,
    out: &mut [Piece],
) -> Stepped
    requires slopes { AreSlopes start.first pieces.now }
    requires step { IsFairStep step }
    requires curve { IsCostOf step curve.now }
    requires small { IsSmall (table_of start pieces.now) }
    requires room { length pieces.now + length curve.now.blocks.items + 3 ≤ length out.old }
    ensures stepped { IsStepped step curve.now (table_of start pieces.now)
        (table_after out.new result.made) }
    ensures slopes { IfSome result.made (ArePiecesAfter out.new) }
    ensures within { IfSome result.made (AreWithinAfter out.new) }
    ensures turn { IsTurn step (table_of start pieces.now) result.turn }
    ensures count { IfSome result.made (λ d. d.used ≤ length pieces.now
        + length curve.now.blocks.items + 3) }
{
    let low = step.least.max(start.first - step.ramp_down);
    let high = step
        .most
        .min(last_power(pieces, start.first) + step.ramp_up);
    let turn = power_of_least_value_less_reserve(pieces, start, step);
    if low > high {
        return Stepped { made: None, turn };
    }
    steps_keep_convexity();
    convexity_depends_on_values_alone();
    let window = Window {
        pieces,
        start,
        step,
        turn,
        high,
    };
    let opening = first_power_after_step(&window, curve, low);
    let used = write_pieces_after_step(&window, curve, opening.cursor, opening.pen, out);
    Stepped {
        made: Some(Made {
            start: Start {
                first: low,
                level: opening.level,
            },
            used,
        }),
        turn,
    }
}

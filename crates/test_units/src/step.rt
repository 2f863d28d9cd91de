//! One period of a spell, as a step on a shape.
ghost use Rattle.std.specs.Prelude.{◌≡◌, suc, ◌==◌, ◌+◌, ◌^◌, ◌<◌, ◌≤◌, pos, true};
ghost use Rattle.std.specs.Prelude.{if◌then◌else◌, length, [], OnOk, OnErr, IfOk, IsOk};
ghost use Rattle.slope_list.specs.Effect.{IsPoint};
ghost use Rattle.spell_run.specs.Steps.{IsFairStep, IsCostOf, IsKinked, IsStepped, IsSmall};
ghost use Rattle.test_shapes.specs.Cell.{Frame, Balance};
ghost use Rattle.test_units.specs.Entries.{spell_first};

use slope_list::step_terms::Step;
use std::alloc::AllocError;
use test_shapes::Shape;
use test_shapes::laws::frames_join;
use uc_model::units::{Curve, Unit};

/// Whether a spell starts in the period at an index.
pub(crate) fn starts_at(first: u32, started: bool, index: usize) -> bool
    requires { suc index < 2 ^ 32 }
    ensures { result ≡ (spell_first started first == suc index) }
{
    started && first as usize == index + 1
}

/// Takes the worth of the best reserve off. Where reserve isn't paid for there is nothing to do.
/// Its charge is 1.
pub(crate) fn add_kink<S: Shape>(
    home: &mut S::Home,
    shape: &mut S,
    step: Step,
) -> Result<(), AllocError>
    requires here { S.is_in home.old shape.old }
    requires step { IsFairStep step }
    requires small { IsSmall (S.function home.old shape.old) }
    ensures ok { OnOk result (IsKinked step (S.function home.old shape.old)
        (S.function home.new shape.new)) }
    ensures here { S.is_in home.new shape.new }
    ensures frame { Frame S.Home.cell_list S.is_in S.numbers (S.numbers home.old shape.old)
        (S.numbers home.new shape.new) home.old home.new }
    ensures sure { S.Home.counts ≡ true → 1 ≤ S.Home.sure home.old → IsOk result }
    ensures balance { Balance S.Home.counts 1 (S.Home.sure home.old) (S.cells shape.old)
        (S.Home.sure home.new) (S.cells shape.new) }
{
    if step.reserve_price == 0 {
        return Ok(());
    }
    shape.add_reserve(home, step.reserve_price, step.cap, step.ramp_up)
}

/// Takes a step. After an error the shape is open. Its charge is the number of the curve's blocks
/// and 5.
pub(crate) fn take_step<S: Shape>(
    home: &mut S::Home,
    shape: &mut S,
    step: Step,
    curve: &Curve,
) -> Result<(), AllocError>
    requires here { S.is_in home.old shape.old }
    requires step { IsFairStep step }
    requires curve { IsCostOf step curve.now }
    requires small { IsSmall (S.function home.old shape.old) }
    ensures ok { OnOk result (IsStepped step curve.now (S.function home.old shape.old)
        (S.function home.new shape.new)) }
    ensures here { S.is_in home.new shape.new }
    ensures frame { Frame S.Home.cell_list S.is_in S.numbers (S.numbers home.old shape.old)
        (S.numbers home.new shape.new) home.old home.new }
    ensures sure { S.Home.counts ≡ true → length curve.now.blocks.items + 5 ≤ S.Home.sure home.old
        → IsOk result }
    ensures balance { Balance S.Home.counts (length curve.now.blocks.items + 5)
        (S.Home.sure home.old) (S.cells shape.old) (S.Home.sure home.new) (S.cells shape.new) }
{
    frames_join::<S>();
    add_kink(home, shape, step)?;
    shape.window(home, step.ramp_up, step.ramp_down, step.least, step.most)?;
    shape.add_line(home, step.slope);
    shape.add_curve(home, curve, 0)
}

/// Another shape, a step on. Its charge is the shape's cells, the number of the curve's blocks, and
/// 5.
pub(crate) fn stepped<S: Shape>(
    home: &mut S::Home,
    before: &S,
    step: Step,
    curve: &Curve,
) -> Result<S, AllocError>
    requires here { S.is_in home.old before.now }
    requires step { IsFairStep step }
    requires curve { IsCostOf step curve.now }
    requires small { IsSmall (S.function home.old before.now) }
    ensures ok { IfOk result (λ after. IsStepped step curve.now (S.function home.old before.now)
        (S.function home.new after)) }
    ensures here { IfOk result (λ after. S.is_in home.new after) }
    ensures frame { IfOk result (λ after. Frame S.Home.cell_list S.is_in S.numbers []
        (S.numbers home.new after) home.old home.new) }
    ensures sure { S.Home.counts ≡ true
        → S.cells before.now + (length curve.now.blocks.items + 5) ≤ S.Home.sure home.old
        → IsOk result }
    ensures balance { IfOk result (λ after. S.Home.counts ≡ true →
        (S.cells after ≤ S.cells before.now + (length curve.now.blocks.items + 5))
        × (S.Home.sure home.new + S.cells after ≡ S.Home.sure home.old)) }
    ensures err_frame { OnErr result
        (Frame S.Home.cell_list S.is_in S.numbers [] [] home.old home.new) }
    ensures err_sure { OnErr result (S.Home.counts ≡ true
        → S.Home.sure home.new ≡ S.Home.sure home.old) }
{
    frames_join::<S>();
    let mut after = before.copy(home)?;
    match take_step(home, &mut after, step, curve) {
        Ok(()) => Ok(after),
        Err(error) => {
            after.give_back(home);
            Err(error)
        }
    }
}

/// The function before a spell: the power that its first ramp is measured from, at no cost.
pub(crate) fn beginning<S: Shape>(
    home: &mut S::Home,
    unit: &Unit,
    started: bool,
) -> Result<S, AllocError>
    ensures ok { IfOk result
        (λ shape. IsPoint (if started then unit.now.min_power else unit.now.power0) (pos 0)
        (S.function home.new shape)) }
    ensures here { IfOk result (λ shape. S.is_in home.new shape) }
    ensures frame { IfOk result (λ shape. Frame S.Home.cell_list S.is_in S.numbers []
        (S.numbers home.new shape) home.old home.new) }
    ensures sure { S.Home.counts ≡ true → 1 ≤ S.Home.sure home.old → IsOk result }
    ensures balance { IfOk result (λ shape. S.Home.counts ≡ true → (S.cells shape ≡ 1)
        × (S.Home.sure home.new + 1 ≡ S.Home.sure home.old)) }
    ensures err { OnErr result (home.new ≡ home.old) }
{
    let power = if started { unit.min_power } else { unit.power0 };
    S::point(home, power, 0)
}

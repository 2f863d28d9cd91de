//! Steps on shapes of small numbers: each is made where what it requires is seen to hold.
ghost use Rattle.std.specs.Prelude.{◌≡◌, ◌<◌, pos};
ghost use Rattle.std.specs.Prelude.{IsTrue, IfOk, length};
ghost use Rattle.plain_lists.specs.Ranges.{IsFrom};
ghost use Rattle.slope_list.specs.Curve.{end_of};
ghost use Rattle.slope_list.specs.Table.{HasNone};
ghost use Rattle.test_whole.specs.Small.{IsSmall, IsModestAt, IsNear, AreFair};

use slope_list::shape_laws::curve_has_value_at_each_power;
use std::alloc::{AllocError, Global};
use std::process::Abort;
use std::test::Fail;
use test_shapes::Shape;
use uc_model::units::{Block, Blocks, Curve};

/// Whether no place from `lo` to `hi` is in the interval.
fn has_none<S: Shape>(s: &S, home: &S::Home, lo: i64, hi: i64) -> bool
    requires { S.is_in home.now s.now }
    ensures { IsTrue result → HasNone lo hi (S.function home.now s.now) }
{
    match s.least_in(home, lo, hi) {
        Some(_) => false,
        None => true,
    }
}

/// Whether the value at a place is within 10^12 of 0, if there is one.
fn is_modest_at<S: Shape>(s: &S, home: &S::Home, x: i64) -> bool
    requires { S.is_in home.now s.now }
    ensures { IsTrue result → IsModestAt (S.function home.now s.now) x }
{
    match s.value_at(home, x) {
        Some(value) => {
            if value > 1_000_000_000_000 {
                return false;
            }
            value >= -1_000_000_000_000
        }
        None => true,
    }
}

/// Whether no place is further from 0 than 1,000, and no value than 10^12.
fn is_small<S: Shape>(s: &S, home: &S::Home) -> bool
    requires { S.is_in home.now s.now }
    ensures { IsTrue result → IsSmall (S.function home.now s.now) }
{
    let before = has_none(s, home, -4_000_000_000, -1_001);
    let after = has_none(s, home, 1_001, 4_000_000_000);
    if !before {
        return false;
    }
    if !after {
        return false;
    }
    for k in 0..2_001u32 {
        let modest = is_modest_at(s, home, i64::from(k) - 1_000);
        if !modest {
            return false;
        }
    }
    true
}

/// Adds a line, where all is small.
fn add_line<S: Shape>(s: &mut S, home: &mut S::Home, slope: i64) -> bool
    requires here { S.is_in home.old s.old }
    requires slope { IsNear slope }
    ensures here { S.is_in home.new s.new }
{
    if !is_small(s, home) {
        return false;
    }
    s.add_line(home, slope);
    true
}

/// Takes off the worth of the reserve, where all is small.
fn add_reserve<S: Shape>(
    s: &mut S,
    home: &mut S::Home,
    mu: i64,
    cap: i64,
    up: i64,
) -> Result<bool, AllocError>
    requires here { S.is_in home.old s.old }
    requires mu { IsFrom (pos 0) (pos 1000) mu }
    requires cap { IsNear cap }
    requires up { IsNear up }
    ensures here { S.is_in home.new s.new }
{
    if !is_small(s, home) {
        return Ok(false);
    }
    s.add_reserve(home, mu, cap, up)?;
    Ok(true)
}

/// A curve of some blocks.
pub fn curve_of(alloc: Global, at: i64, value: i64, blocks: &[Block]) -> Result<Curve, AllocError>
    requires { length blocks.now < 100 }
    ensures at { IfOk result (λ c. c.at ≡ at) }
    ensures value { IfOk result (λ c. c.value ≡ value) }
    ensures blocks { IfOk result (λ c. c.blocks.items ≡ blocks.now) }
{
    let mut list = Blocks::make(alloc, blocks.len() as u32)?;
    for block in blocks {
        list.push(*block);
    }
    Ok(Curve {
        at,
        value,
        blocks: list,
    })
}

/// Whether the blocks are short, and their prices small and rising.
fn are_fair(blocks: &[Block]) -> bool
    ensures { IsTrue result → AreFair blocks.now (length blocks.now) }
{
    let mut last = -1_000_000;
    for block in blocks {
        if block.width < 0 {
            return false;
        }
        if block.width > 1_000 {
            return false;
        }
        if block.price < last {
            return false;
        }
        if block.price > 1_000_000 {
            return false;
        }
        last = block.price;
    }
    true
}

/// Where the blocks of a curve end.
fn end(curve: &Curve) -> i64
    requires few { length curve.now.blocks.items < 100 }
    requires fair { AreFair curve.now.blocks.items (length curve.now.blocks.items) }
    requires at { IsNear curve.now.at }
    ensures { result ≡ end_of curve.now.at curve.now.blocks.items }
{
    let blocks = curve.blocks.as_slice();
    let mut place = curve.at;
    for block in blocks {
        place += block.width;
    }
    place
}

/// Adds a curve, where all is small and the curve goes from the first place to the last.
fn add_curve<S: Shape>(
    s: &mut S,
    home: &mut S::Home,
    curve: &Curve,
    shift: i64,
) -> Result<bool, AllocError>
    requires here { S.is_in home.old s.old }
    requires few { length curve.now.blocks.items < 100 }
    requires at { IsNear curve.now.at }
    requires value { IsNear curve.now.value }
    requires shift { IsNear shift }
    ensures here { S.is_in home.new s.new }
{
    if !are_fair(curve.blocks.as_slice()) {
        return Ok(false);
    }
    if !is_small(s, home) {
        return Ok(false);
    }
    let first = curve.at - shift;
    let last = end(curve) - shift;
    let before = has_none(s, home, -4_000_000_000, first - 1);
    let after = has_none(s, home, last + 1, 4_000_000_000);
    if !before {
        return Ok(false);
    }
    if !after {
        return Ok(false);
    }
    curve_has_value_at_each_power();
    s.add_curve(home, curve, shift)?;
    Ok(true)
}

/// A step on a shape, by its numbers in kilowatts and money.
#[derive(Clone, Copy)]
pub enum Step<'a> {
    Line {
        slope: i64,
    },
    Reserve {
        price: i64,
        cap: i64,
        up: i64,
    },
    Curve {
        curve: &'a Curve,
        shift: i64,
    },
    Window {
        up: i64,
        down: i64,
        lo: i64,
        hi: i64,
    },
}

/// Whether a number is within 1,000 of 0.
fn is_near(x: i64) -> bool
    ensures { IsTrue result → IsNear x }
{
    x >= -1_000 && x <= 1_000
}

/// Makes a window of near places.
fn make_window<S: Shape>(
    s: &mut S,
    home: &mut S::Home,
    up: i64,
    down: i64,
    lo: i64,
    hi: i64,
) -> Result<bool, AllocError>
    requires here { S.is_in home.old s.old }
    ensures here { S.is_in home.new s.new }
{
    let sides = is_near(up) && is_near(down) && up >= 0 && down >= 0;
    if !sides || !is_near(lo) || !is_near(hi) {
        return Ok(false);
    }
    s.window(home, up, down, lo, hi)?;
    Ok(true)
}

/// Makes a step, where all is small.
pub fn make<S: Shape>(s: &mut S, home: &mut S::Home, step: Step) -> Result<bool, AllocError>
    requires here { S.is_in home.old s.old }
    ensures here { S.is_in home.new s.new }
{
    match step {
        Step::Line { slope } => Ok(is_near(slope) && add_line(s, home, slope)),
        Step::Reserve { price, cap, up } => {
            if price < 0 || !is_near(price) || !is_near(cap) || !is_near(up) {
                return Ok(false);
            }
            add_reserve(s, home, price, cap, up)
        }
        Step::Curve { curve, shift } => {
            if !is_near(curve.at) || !is_near(curve.value) || !is_near(shift) {
                return Ok(false);
            }
            if curve.blocks.len() >= 100 {
                return Ok(false);
            }
            add_curve(s, home, curve, shift)
        }
        Step::Window { up, down, lo, hi } => make_window(s, home, up, down, lo, hi),
    }
}

/// The shape a step on. A shape that the step can't be made on is given back.
pub fn stepped<S: Shape>(mut s: S, home: &mut S::Home, step: Step) -> Result<S, Fail>
    requires { S.is_in home.old s }
    ensures { IfOk result (λ after. S.is_in home.new after) }
{
    match make(&mut s, home, step) {
        Ok(true) => Ok(s),
        Ok(false) => {
            s.give_back(home);
            Err(Fail::new("numbers that aren't small"))
        }
        Err(error) => {
            s.give_back(home);
            Err(Fail::from(error))
        }
    }
}

/// The shape after these steps.
pub fn walked<S: Shape>(s: S, home: &mut S::Home, steps: &[Step]) -> Result<S, Fail>
    requires { S.is_in home.old s }
    ensures { IfOk result (λ after. S.is_in home.new after) }
{
    let mut after = s;
    for step in steps {
        after = stepped(after, home, *step)?;
    }
    Ok(after)
}

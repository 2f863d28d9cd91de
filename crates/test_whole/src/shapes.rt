//! The worked rows on each representation of convex functions, random steps beside the one that
//! keeps every value, the cells of 48 steps, and two shapes in one pool.
ghost use Rattle.std.specs.Prelude.{◌<◌, length, IfOk};
ghost use Rattle.test_whole.specs.Small.{IsNear};

use crate::same::same;
use crate::steps::{Step, curve_of, make, stepped, walked};
use level_table::Levels;
use point_list::breaks::Breaks;
use point_pool::pool::Pool;
use point_pool::pooled::Pooled;
use rand_core::utils::NextWord;
use rand_pcg::Pcg32;
use std::process::Abort;
use std::test::Fail;
use test_shapes::laws::others_stay;
use test_shapes::{Heap, Shape};
use uc_model::units::{Block, Curve};

/// A window with no ramp down.
const fn window<'a>(up: i64, lo: i64, hi: i64) -> Step<'a> {
    Step::Window {
        up,
        down: 0,
        lo,
        hi,
    }
}

const fn reserve<'a>(price: i64, cap: i64, up: i64) -> Step<'a> {
    Step::Reserve { price, cap, up }
}

/// The values at the places from `from` on are these, and there are none before or after.
fn has_values<S: Shape>(rt: &impl Abort, s: &S, home: &S::Home, from: i64, values: &[i64])
    requires here { S.is_in home.now s.now }
    requires from { IsNear from }
    requires few { length values.now < 100 }
{
    same(rt, s.value_at(home, from - 1), None);
    for (k, value) in values.iter().enumerate() {
        same(rt, s.value_at(home, from + k as i64), Some(*value));
    }
    same(rt, s.value_at(home, from + values.len() as i64), None);
}

/// The worked rows of windows and reserves.
fn rows<S: Shape>(rt: &impl Abort, home: &mut S::Home) -> Result<(), Fail> {
    let bent = [
        window(4, 0, 4),
        Step::Line { slope: 3 },
        reserve(2, 1, 0),
        reserve(3, 2, 0),
        reserve(1, 3, 0),
    ];
    let s = walked(S::point(home, 0, 4)?, home, &bent)?;
    has_values(rt, &s, home, 0, &[4, 1, 0, 2, 5]);
    same(rt, s.least(home), Some((0, 2)));
    same(rt, s.least_in(home, 3, 9), Some((2, 3)));
    let wide = stepped(s, home, window(2, 0, 9))?;
    has_values(rt, &wide, home, 0, &[4, 1, 0, 0, 0, 2, 5]);
    let empty = stepped(wide, home, window(0, 7, 9))?;
    same(rt, empty.least(home), None);
    empty.give_back(home);
    let zeros = [window(4, 0, 4), reserve(10, 3, 1)];
    let kinked = walked(S::point(home, 0, 0)?, home, &zeros)?;
    has_values(rt, &kinked, home, 0, &[-10, -20, -30, -30, -30]);
    kinked.give_back(home);
    Ok(())
}

#[test]
fn rows_on_each_shape(rt: HostRuntime) -> Result<(), Fail> {
    let mut heap = Heap { alloc: rt.alloc() };
    rows::<Levels>(&rt, &mut heap)?;
    rows::<Breaks>(&rt, &mut heap)?;
    let mut pool = Pool::make(rt.alloc(), 20)?;
    rows::<Pooled>(&rt, &mut pool)?;
    same(&rt, pool.spare(), 20);
    Ok(())
}

/// Six blocks from 0 to 600, the most that four cost points have.
const BLOCKS: [Block; 6] = [
    Block {
        width: 40,
        price: 3,
    },
    Block {
        width: 60,
        price: 4,
    },
    Block {
        width: 150,
        price: 6,
    },
    Block {
        width: 50,
        price: 7,
    },
    Block {
        width: 99,
        price: 20,
    },
    Block {
        width: 201,
        price: 21,
    },
];

/// After 48 steps of a curve, a kink and a window each.
fn after_48_steps<S: Shape>(home: &mut S::Home, curve: &Curve) -> Result<S, Fail>
    ensures { IfOk result (λ s. S.is_in home.new s) }
{
    let mut s = S::point(home, 300, 0)?;
    for period in 0..48u32 {
        let steps = [
            Step::Curve { curve, shift: 0 },
            reserve(5 + i64::from(period), 590 - 11 * i64::from(period), 7),
            Step::Window {
                up: 7,
                down: 5,
                lo: 0,
                hi: 600,
            },
        ];
        s = walked(s, home, &steps)?;
    }
    Ok(s)
}

#[test]
fn few_cells_after_48_steps(rt: HostRuntime) -> Result<(), Fail> {
    let curve = curve_of(rt.alloc(), 0, 10, &BLOCKS)?;
    let mut heap = Heap { alloc: rt.alloc() };
    let breaks = after_48_steps::<Breaks>(&mut heap, &curve)?;
    assert!(rt; breaks.count() <= 529);
    let mut pool = Pool::make(rt.alloc(), 529)?;
    let pooled = after_48_steps::<Pooled>(&mut pool, &curve)?;
    pooled.give_back(&mut pool);
    same(&rt, pool.spare(), 529);
    Ok(())
}

/// A random number of 8 bits.
fn byte(random: &mut Pcg32) -> u8 {
    (random.next_word() % 256) as u8
}

/// A random number from -128 to 127.
fn signed(random: &mut Pcg32) -> i64 {
    i64::from(byte(random)) - 128
}

/// A random step.
fn random_step<'a>(random: &mut Pcg32, curve: &'a Curve) -> Step<'a> {
    match random.next_word() % 5 {
        0 => Step::Line {
            slope: signed(random),
        },
        1 => reserve(
            i64::from(byte(random)),
            signed(random),
            i64::from(byte(random)),
        ),
        2 => Step::Curve {
            curve,
            shift: signed(random),
        },
        _ => Step::Window {
            up: i64::from(byte(random) % 8),
            down: i64::from(byte(random) % 8),
            lo: -i64::from(byte(random)),
            hi: i64::from(byte(random)),
        },
    }
}

/// Two shapes have the same values and the same least values.
fn agree<A: Shape, B: Shape<Home = A::Home>>(rt: &impl Abort, a: &A, b: &B, home: &A::Home)
    requires first { A.is_in home.now a.now }
    requires second { B.is_in home.now b.now }
{
    same(rt, a.least(home), b.least(home));
    for k in 0..600u32 {
        let x = i64::from(k) - 300;
        same(rt, a.value_at(home, x), b.value_at(home, x));
        same(rt, a.least_in(home, x, x + 7), b.least_in(home, x, x + 7));
    }
}

/// Random steps on breakpoints and on the shape that keeps every value.
fn compare(
    rt: &impl Abort,
    home: &mut Heap,
    random: &mut Pcg32,
    curve: &Curve,
) -> Result<(), Fail> {
    let mut breaks = Breaks::point(home, 0, 9)?;
    let mut levels = Levels::point(home, 0, 9)?;
    for _ in 0..12u32 {
        let step = random_step(random, curve);
        let made = make(&mut breaks, home, step)?;
        same(rt, made, make(&mut levels, home, step)?);
        agree(rt, &breaks, &levels, home);
    }
    Ok(())
}

#[test]
fn breaks_agree_with_levels(rt: HostRuntime) -> Result<(), Fail> {
    let mut home = Heap { alloc: rt.alloc() };
    let mut random = Pcg32::new(42, 54);
    let curve = curve_of(rt.alloc(), -400, 0, &BLOCKS)?;
    for _ in 0..8u32 {
        compare(&rt, &mut home, &mut random, &curve)?;
    }
    Ok(())
}

/// A shape and its copy don't change each other.
fn two_shapes<S: Shape>(rt: &impl Abort, home: &mut S::Home) {
    others_stay::<S>();
    let mut first = S::point(home, 3, 4).expect(rt, "a cell");
    let mut second = first.copy(home).expect(rt, "a cell");
    second.window(home, 2, 1, 0, 9).expect(rt, "four cells");
    has_values(rt, &first, home, 3, &[4]);
    first.window(home, 0, 1, 0, 9).expect(rt, "four cells");
    has_values(rt, &second, home, 2, &[4, 4, 4, 4]);
    first.give_back(home);
    has_values(rt, &second, home, 2, &[4, 4, 4, 4]);
    second.give_back(home);
}

#[test]
fn two_shapes_in_a_pool(rt: HostRuntime) -> Result<(), Fail> {
    let mut pool = Pool::make(rt.alloc(), 20)?;
    two_shapes::<Pooled>(&rt, &mut pool);
    same(&rt, pool.spare(), 20);
    Ok(())
}

/// Whether a point is refused.
fn is_refused<S: Shape>(home: &mut S::Home) -> bool {
    match S::point(home, 0, 0) {
        Ok(s) => {
            s.give_back(home);
            false
        }
        Err(_) => true,
    }
}

#[test]
fn spare_cells(rt: HostRuntime) -> Result<(), Fail> {
    let mut none = Pool::make(rt.alloc(), 0)?;
    assert!(rt; is_refused::<Pooled>(&mut none));
    same(&rt, none.spare(), 0);
    let mut eight = Pool::make(rt.alloc(), 8)?;
    same(&rt, eight.spare(), 8);
    let point = Pooled::point(&mut eight, 0, 0).expect(&rt, "a cell");
    same(&rt, eight.spare(), 7);
    point.give_back(&mut eight);
    same(&rt, eight.spare(), 8);
    let mut five = Pool::make(rt.alloc(), 5)?;
    let mut s = Pooled::point(&mut five, 5, 7).expect(&rt, "a cell");
    s.window(&mut five, 4, 4, 2, 8).expect(&rt, "four cells");
    has_values(&rt, &s, &five, 2, &[7, 7, 7, 7, 7, 7, 7]);
    s.give_back(&mut five);
    same(&rt, five.spare(), 5);
    Ok(())
}

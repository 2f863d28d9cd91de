//! Master problems that are solved by hand, and numbers at their limits.
use crate::same::same;
use bundle_master::master::{Aim, Sizes, make_master};
use bundle_master::numbers::{floor_within, in_megawatts};
use std::alloc::{AllocError, Global};
use std::test::Fail;

fn thousandths(x: f64) -> i64 {
    floor_within(1000.0 * x + 0.5, -1_000_000_000, 1_000_000_000)
}

const AIM: Aim = Aim {
    ridge: 0.001,
    accuracy: 0.000_001,
    wide: 100.0,
    strict: true,
    balance: 1e-6,
    steps: 60,
};

// One unit that gives nothing, or 4 MW and 1 MW of reserve for 100; 3 MW are due and no reserve. The dual value at
// energy price p and reserve price r is 3 p + min(0, 100 - 4 p - r): greatest at 25 and 0. The ridge of 0.001 round 20
// holds 0.005 MW, so a share of 0.74875 gives the rest.
#[test]
fn prices_one_unit(rt: HostRuntime) -> Result<(), Fail> {
    let sizes = Sizes {
        periods: 1,
        thermal: 1,
        places: 2,
        singles: 0,
    };
    let mut master = make_master(rt.alloc(), sizes)?;
    master.set_requirement_of_row(0, 3.0);
    master.set_column(0, 0, 0.0, &[0], &[0]);
    master.set_column(0, 1, 100.0, &[4_000], &[1_000]);
    master.set_centre(0, 20.0);
    master.set_price(0, 20.0);
    master.set_price(1, 1.0);
    assert!(rt; master.solve(AIM));
    same(&rt, thousandths(master.row_price(0)), 25_000);
    same(&rt, thousandths(master.row_price(1)), 0);
    same(&rt, thousandths(100.0 * master.column_share(0, 1)), 74_875);
    same(&rt, thousandths(100.0 * master.column_share(0, 0)), 25_125);
    Ok(())
}

// What a search makes of a master problem: prices in thousandths, and weights that are to sum to 10^12.
fn told(energy: f64, reserve: f64, off: f64, on: f64) -> [i64; 4] {
    [
        floor_within(1000.0 * energy + 0.5, -10_000_000, 10_000_000),
        floor_within(1000.0 * reserve + 0.5, 0, 10_000_000),
        floor_within(1e12 * off + 0.5, 0, 1_000_000_000_000),
        floor_within(1e12 * on + 0.5, 0, 1_000_000_000_000),
    ]
}

// The same unit and amount due, where the unit's power costs so much. Whether it is solved, and what is told.
fn solved_at(alloc: Global, cost: f64) -> Result<(bool, [i64; 4]), AllocError> {
    let sizes = Sizes {
        periods: 1,
        thermal: 1,
        places: 2,
        singles: 0,
    };
    let mut master = make_master(alloc, sizes)?;
    master.set_requirement_of_row(0, 3.0);
    master.set_column(0, 0, 0.0, &[0], &[0]);
    master.set_column(0, 1, cost, &[4_000], &[1_000]);
    master.set_centre(0, 20.0);
    master.set_price(0, 20.0);
    master.set_price(1, 1.0);
    let is_solved = master.solve(AIM);
    let (energy, reserve) = (master.row_price(0), master.row_price(1));
    let told = told(
        energy,
        reserve,
        master.column_share(0, 0),
        master.column_share(0, 1),
    );
    Ok((is_solved, told))
}

// What is no number makes all of them none. Prices then are at their lower limits, and no column has a weight.
#[test]
fn a_cost_that_is_no_number_is_never_solved(rt: HostRuntime) -> Result<(), Fail> {
    for cost in [0.0 / 0.0, 1.0 / 0.0, -1.0 / 0.0] {
        same(
            &rt,
            solved_at(rt.alloc(), cost)?,
            (false, [-10_000_000, 0, 0, 0]),
        );
    }
    Ok(())
}

// A unit that is too dear for any price stays off, and the ridge holds all 3 MW: (3020 - 20) * 0.001.
#[test]
fn a_cost_near_the_greatest_number_keeps_a_unit_off(rt: HostRuntime) -> Result<(), Fail> {
    for cost in [1e18, 1e100, 1e300] {
        let (_, [energy, _, off, on]) = solved_at(rt.alloc(), cost)?;
        same(&rt, [energy, off, on], [3_020_000, 1_000_000_000_000, 0]);
    }
    Ok(())
}

// A unit without a column takes no part, and has no shares.
#[test]
fn a_unit_without_a_column_has_no_share(rt: HostRuntime) -> Result<(), Fail> {
    let sizes = Sizes {
        periods: 1,
        thermal: 1,
        places: 2,
        singles: 0,
    };
    let mut master = make_master(rt.alloc(), sizes)?;
    master.set_requirement_of_row(0, 0.01);
    master.set_centre(0, 20.0);
    master.set_price(0, 20.0);
    master.set_price(1, 1.0);
    let _ = master.solve(AIM);
    same(
        &rt,
        told(
            0.0,
            0.0,
            master.column_share(0, 0),
            master.column_share(0, 1),
        ),
        [0, 0, 0, 0],
    );
    Ok(())
}

// No unit, and a variable from 0 to 5 MW for 35: 7 for each. 2 MW are due, and the ridge is round 7: the price is 7.
#[test]
fn prices_one_variable(rt: HostRuntime) -> Result<(), Fail> {
    let sizes = Sizes {
        periods: 1,
        thermal: 0,
        places: 1,
        singles: 1,
    };
    let mut master = make_master(rt.alloc(), sizes)?;
    master.set_requirement_of_row(0, 2.0);
    master.add_row_variable(0, 5.0, 35.0);
    master.set_centre(0, 7.0);
    master.set_price(0, 1.0);
    master.set_price(1, 1.0);
    assert!(rt; master.solve(AIM));
    same(&rt, thousandths(master.row_price(0)), 7_000);
    same(
        &rt,
        thousandths(master.summary_of_last_solution().now),
        14_000,
    );
    Ok(())
}

#[test]
fn whole_numbers_are_rounded_down_within_limits(rt: HostRuntime) {
    same(&rt, floor_within(2.9, -5, 5), 2);
    same(&rt, floor_within(-2.1, -5, 5), -3);
    same(&rt, floor_within(1e300, -5, 5), 5);
    same(&rt, floor_within(-1e300, -5, 5), -5);
    same(&rt, floor_within(0.0 / 0.0, -5, 5), -5);
    same(&rt, in_megawatts(-1_500), -1.5);
}

//! The lists of a unit.
ghost use Rattle.std.specs.Prelude.{◌≡◌, ◌≤◌, IfOk, length, false, nat_lt, int_lt};
ghost use Rattle.std.specs.List.{All};
ghost use Rattle.uc_model.specs.Limits.{IsLag, IsPoint, IsPower};
ghost use Rattle.uc_model.specs.declared.units.Lag.{Lag as PlainLag};
ghost use Rattle.uc_model.specs.declared.units.Point.{Point as PlainPoint};
ghost use Rattle.uc_model.specs.declared.limits.TheConstants.{MOST_LAGS, MOST_PERIODS};
ghost use Rattle.uc_text.specs.View.{member_views};
ghost use Rattle.uc_text.specs.Given.{Gives};
ghost use Rattle.uc_field.specs.Kept.{AreLags, ArePoints, IsPointList};
ghost use Rattle.uc_text.specs.Words.{last_is};
ghost use Rattle.uc_field.specs.Forms.{key, keys, at_item};
ghost use Rattle.uc_field.specs.Lists.{lag, startup, point, piecewise, powers, one_power};
ghost use Rattle.uc_field.specs.Lists.{lag_in, point_in, ends_miss};

use crate::fault::{CaseCode, Field, Site};
use crate::forms::{
    FieldStop, amount_under, cost_under, list_with_item_per_period, members_of, period_count_under,
    read_power,
};
use crate::items::{Item, read_items, read_items_up_to};
use crate::keys::Keys;
use crate::limits::{COST, LAGS, POINTS, POWER, TIME};
use plain_lists::lists::Numbers;
use std::alloc::Global;
use uc_model::units::{Lag, Lags, Point, Points};
use uc_text::{Branch, Member};

/// Whether a lag is below the last of these.
fn is_lag_below_last(before: &[Lag], lag: u32) -> bool
    ensures { result ≡ last_is (λ (b : PlainLag). nat_lt lag b.lag) before.now }
{
    match before.last() {
        Some(last) => lag < last.lag,
        None => false,
    }
}

/// The lag of these members, behind other lags; `LagOrder` where it is below the one before it.
#[tactic(auto, unfolding(crate::specs::Lists::lag_in))]
fn startup_lag_from_members(
    at: Site,
    before: &[Lag],
    members: &[Member<'_>],
) -> Result<Lag, FieldStop>
    ensures fits { IfOk result (λ l. IsLag l) }
    ensures order { IfOk result (λ l. last_is (λ (b : PlainLag). nat_lt l.lag b.lag) before.now
        ≡ false) }
    ensures value { Gives (λ l. l) result (lag_in at before.now (member_views members.now)) }
{
    let lag = period_count_under(at, members, "lag", TIME)?;
    let cost = amount_under(at, members, "cost", 6, COST)?;
    if is_lag_below_last(before, lag) {
        return Err(at.stop(CaseCode::LagOrder));
    }
    Ok(Lag { lag, cost })
}

impl Item for Lag {
    ghost reading = { at_item lag };

    ghost Keeps = { AreLags };

    #[tactic(auto, unfolding(crate::specs::Lists::lag), using(crate::proofs::Ordered::lags_push))]
    fn read(alloc: Global, at: Site, before: &[Lag], branch: Branch<'_>) -> Result<Lag, FieldStop> {
        let site = at.item(before.len() as u32 + 1);
        let members = members_of(alloc, site, branch)?;
        startup_lag_from_members(site, before, &members)
    }
}

/// The lags of a thermal unit and their costs, at most `LAGS`. `LagOrder` where a lag is below the
/// one before it.
#[tactic(auto, unfolding(crate::specs::Lists::startup), using(crate::proofs::Ordered::no_lags))]
pub fn read_startup_lags(alloc: Global, u: &Keys) -> Result<Lags, FieldStop>
    ensures count { IfOk result (λ ls. length ls.items ≤ MOST_LAGS) }
    ensures fits { IfOk result (λ ls. AreLags ls.items) }
    ensures value { Gives (λ ls. ls.items) result
        (key (keys u.now.at (member_views u.now.members.items)) Field.Startup startup) }
{
    let branch = u.value(Field::Startup)?;
    read_items_up_to::<Lag>(alloc, u.at.field(Field::Startup), branch, LAGS)
}

/// Whether kilowatts are below those of the last of these points.
fn is_power_below_last_point(before: &[Point], mw: i64) -> bool
    ensures { result ≡ last_is (λ (b : PlainPoint). int_lt mw b.at) before.now }
{
    match before.last() {
        Some(last) => mw < last.at,
        None => false,
    }
}

/// The point of these members, behind other points; `CurveOrder` where it is below the one before
/// it.
#[tactic(auto, unfolding(crate::specs::Lists::point_in))]
fn cost_point_from_members(
    at: Site,
    before: &[Point],
    members: &[Member<'_>],
) -> Result<Point, FieldStop>
    ensures fits { IfOk result (λ p. IsPoint p) }
    ensures order { IfOk result (λ p. last_is (λ (b : PlainPoint). int_lt p.at b.at) before.now
        ≡ false) }
    ensures value { Gives (λ p. p) result (point_in at before.now (member_views members.now)) }
{
    let mw = amount_under(at, members, "mw", 3, POWER)?;
    let cost = cost_under(at, members, "cost")?;
    if is_power_below_last_point(before, mw) {
        return Err(at.stop(CaseCode::CurveOrder));
    }
    Ok(Point { at: mw, cost })
}

impl Item for Point {
    ghost reading = { at_item point };

    ghost Keeps = { ArePoints };

    #[tactic(auto, unfolding(crate::specs::Lists::point), using(crate::proofs::Ordered::points_push))]
    fn read(
        alloc: Global,
        at: Site,
        before: &[Point],
        branch: Branch<'_>,
    ) -> Result<Point, FieldStop> {
        let site = at.item(before.len() as u32 + 1);
        let members = members_of(alloc, site, branch)?;
        cost_point_from_members(site, before, &members)
    }
}

/// Whether the points begin above the least power or end below the greatest.
fn curve_misses_ends(low: i64, high: i64, points: &[Point]) -> bool
    ensures { result ≡ ends_miss low high points.now }
{
    let first_misses = match points.first() {
        Some(first) => low < first.at,
        None => true,
    };
    let last_misses = match points.last() {
        Some(last) => last.at < high,
        None => true,
    };
    first_misses || last_misses
}

/// The points of a thermal unit's cost, at most `POINTS`, where `low` and `high` are its least and
/// its greatest kilowatts. `CurveOrder` where a point is below the one before it, and `CurveEnds`
/// where the points don't reach from one to the other.
#[tactic(auto, unfolding(crate::specs::Lists::piecewise), using(crate::proofs::Ordered::no_points))]
pub fn read_cost_curve_points(
    alloc: Global,
    u: &Keys,
    low: i64,
    high: i64,
) -> Result<Points, FieldStop>
    ensures fits { IfOk result (λ ps. IsPointList ps.items low high) }
    ensures value { Gives (λ ps. ps.items) result
        (key (keys u.now.at (member_views u.now.members.items)) Field.PiecewiseProduction
        (piecewise low high)) }
{
    let at = u.at.field(Field::PiecewiseProduction);
    let branch = u.value(Field::PiecewiseProduction)?;
    let points = read_items_up_to::<Point>(alloc, at, branch, POINTS)?;
    if curve_misses_ends(low, high, points.as_slice()) {
        return Err(at.stop(CaseCode::CurveEnds));
    }
    Ok(points)
}

impl Item for i64 {
    ghost reading = { at_item one_power };

    ghost Keeps = { All IsPower };

    fn read(
        _alloc: Global,
        at: Site,
        before: &[i64],
        branch: Branch<'_>,
    ) -> Result<i64, FieldStop> {
        read_power(at.item(before.len() as u32 + 1), branch, POWER)
    }
}

/// A list of kilowatts, one for each period; `WrongLength` where it has more or fewer.
#[tactic(auto, unfolding(crate::specs::Lists::powers))]
pub fn read_powers(
    alloc: Global,
    u: &Keys,
    field: Field,
    periods: u32,
) -> Result<Numbers, FieldStop>
    requires { periods ≤ MOST_PERIODS }
    ensures fits { IfOk result (λ ns. (length ns.items ≡ periods)
        × All (λ n. IsPower n) ns.items) }
    ensures value { Gives (λ ns. ns.items) result
        (key (keys u.now.at (member_views u.now.members.items)) field (powers periods)) }
{
    let at = u.at.field(field);
    let list = list_with_item_per_period(at, u.value(field)?, periods)?;
    read_items::<i64>(alloc, at, list)
}

//! Runs of pieces that go into the function after a step alike.
ghost use Rattle.std.specs.Prelude.{◌≡◌, neg_ℤ, ◌+ℤ◌, ◌≤ℤ◌, ◌<ℤ◌};
ghost use Rattle.slope_list.specs.Steps.{IsFairStep};
ghost use Rattle.slope_list.specs.Kink.{IsGentle, IsLowered};
ghost use Rattle.slope_list.specs.Cursors.{IsPlaced};
ghost use Rattle.slope_list.specs.Runs.{IsRun};

use crate::cursor::Cursor;
use crate::kink::piece_less_reserve;
use crate::piece::Piece;
use crate::step_terms::Step;
use crate::window::Window;

/// Pieces that go into the function after a step alike, up to a power before it.
#[derive(Clone, Copy)]
pub struct Run {
    /// In kilowatts.
    pub until: i64,
    /// How far they move, in kilowatts.
    pub shift: i64,
    /// What is added to their slopes, in millionths of the currency for a kilowatt.
    pub slope: i64,
}

/// What is left of a run from a power on, after the worth of the reserve is taken off.
fn run_less_reserve(run: Run, cursor: Cursor, step: Step) -> Run
    requires fair { IsFairStep step }
    requires gentle { IsGentle run.slope }
    ensures lowered { IsLowered step cursor.at (record { end = run.until; slope = run.slope })
        (record { end = result.until; slope = result.slope }) }
    ensures shift { result.shift ≡ run.shift }
{
    let whole = Piece {
        end: run.until,
        slope: run.slope,
    };
    let left = piece_less_reserve(whole, cursor, step);
    Run {
        until: left.end,
        shift: run.shift,
        slope: left.slope,
    }
}

/// The falling or rising run from a power on: up to the turn, the bend or the last power that is
/// asked for.
pub fn next_run_of_pieces(window: &Window<'_>, cursor: Cursor) -> Run
    requires placed { IsPlaced window.now.start.first window.now.pieces.now cursor }
    requires falls { cursor.at <ℤ window.now.turn
        → cursor.at <ℤ (window.now.high +ℤ window.now.step.ramp_down) }
    requires rises { window.now.turn ≤ℤ cursor.at
        → (cursor.at +ℤ window.now.step.ramp_up) <ℤ window.now.high }
    ensures run { IsRun window.now cursor.at result }
    ensures down { cursor.at <ℤ window.now.turn
        → result.shift ≡ neg_ℤ window.now.step.ramp_down }
    ensures up { window.now.turn ≤ℤ cursor.at → result.shift ≡ window.now.step.ramp_up }
{
    let step = window.step;
    if cursor.at < window.turn {
        let last = window.high + step.ramp_down;
        let falling = Run {
            until: last.min(window.turn),
            shift: -step.ramp_down,
            slope: step.slope,
        };
        return run_less_reserve(falling, cursor, step);
    }
    let rising = Run {
        until: window.high - step.ramp_up,
        shift: step.ramp_up,
        slope: step.slope,
    };
    run_less_reserve(rising, cursor, step)
}

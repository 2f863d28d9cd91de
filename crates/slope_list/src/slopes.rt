//! The function, and room for the next one, which several functions may share.
ghost use Rattle.std.specs.Prelude.{◌≡◌, ◌≤◌, length, vec_capacity, IfOk, IfSome, MatchOption};
ghost use Rattle.slope_list.specs.Effect.{IsLeast};
ghost use Rattle.slope_list.specs.Table.{IsEmpty};
ghost use Rattle.slope_list.specs.After.{table_after, ArePiecesAfter, AreWithinAfter};
ghost use Rattle.slope_list.specs.Kept.{AreKept};

use crate::below;
use crate::piece::{self, Piece, Start};
use crate::piece_laws::pieces_begin_and_end;
use crate::read::{self, Spot};
use crate::step::{Made, Stepped, write_stepped_pieces};
use crate::step_terms::Step;
use std::alloc::{AllocError, Global};
use std::mem;
use uc_model::units::Curve;

/// A convex function on a whole interval, which may be empty, as pieces of one slope. Its room is
/// reserved once: no call but `make` takes memory or fails. A step writes to no more of it than its
/// pieces may need, so room that no step needs stays untouched.
pub struct Slopes {
    made: Option<Made>,
    turn: i64,
    /// For how many pieces the list has memory.
    room: usize,
    pieces: Vec<Piece>,
    ghost valid: { AreKept made pieces.items },
    ghost pieces_room: { room ≤ vec_capacity pieces },
}

/// Room for the pieces that a step makes. Functions of as much room take turns with one.
pub struct Spare {
    /// For how many pieces the list has memory.
    room: usize,
    pieces: Vec<Piece>,
    ghost pieces_room: { room ≤ vec_capacity pieces },
}

// By hand, so that dropping it is one call.
impl Drop for Slopes {
    fn drop(self) {
        let Slopes {
            made: _,
            turn: _,
            room: _,
            pieces: _,
        } = self;
    }
}

impl Drop for Spare {
    fn drop(self) {
        let Spare { room: _, pieces: _ } = self;
    }
}

impl Spare {
    ghost use Rattle.slope_list.specs.Slopes.{space_of};

    /// Room for so many pieces.
    pub fn make(alloc: Global, room: usize) -> Result<Spare, AllocError>
        ensures { IfOk result (λ s. space_of s ≡ room) }
    {
        let list = Vec::with_capacity(alloc, room)?;
        Ok(Spare { room, pieces: list })
    }
}

/// Lengthens a list within its memory to so many pieces, where it is shorter. What it then holds is
/// open.
fn lengthen_pieces(pieces: &mut Vec<Piece>, count: usize)
    requires { count ≤ vec_capacity pieces.old }
    ensures length { count ≤ length pieces.new.items }
    ensures capacity { vec_capacity pieces.new ≡ vec_capacity pieces.old }
{
    for _ in pieces.len()..count {
        pieces.push_reserved(Piece { end: 0, slope: 0 });
    }
}

/// The least value of what a step made, its least power, and the turn of the step.
#[derive(Clone, Copy)]
pub struct Lowest {
    pub value: i64,
    pub at: i64,
    pub turn: i64,
}

/// The least value of what a step has drawn.
fn least_value_after_step(pieces: &[Piece], stepped: Stepped) -> Option<Lowest>
    requires slopes { IfSome stepped.made (ArePiecesAfter pieces.now) }
    requires within { IfSome stepped.made (AreWithinAfter pieces.now) }
    requires room { IfSome stepped.made (λ d. d.used ≤ length pieces.now) }
    ensures least { MatchOption result (IsEmpty (table_after pieces.now stepped.made))
        (λ r. IsLeast (table_after pieces.now stepped.made) r.value r.at) }
    ensures turn { IfSome result (λ r. r.turn ≡ stepped.turn) }
{
    match stepped.made {
        Some(made) => {
            let spot = read::spot_of_least_value(&pieces[..made.used], made.start);
            Some(Lowest {
                value: spot.value,
                at: spot.at,
                turn: stepped.turn,
            })
        }
        None => None,
    }
}

impl Slopes {
    ghost use Rattle.std.specs.Prelude.{◌≡◌, ℤ, ◌+◌, ◌≤◌, ◌↔◌, IsTrue};
    ghost use Rattle.std.specs.Prelude.{length, IfOk, Some, MatchOption};
    ghost use Rattle.std.specs.Bool.{OnTrue};
    ghost use Rattle.slope_list.specs.Effect.{IsPoint, IsLeast, IsLeastIn};
    ghost use Rattle.slope_list.specs.Steps.{IsFairStep, IsCostOf, IsStepped, IsSmall};
    ghost use Rattle.slope_list.specs.Table.{Table, value_of, IsPlace, IsAmount, IsEmpty, HasNone};
    ghost use Rattle.slope_list.specs.Below.{IsShift, IsNowhereAbove, IsAbove};
    ghost use Rattle.slope_list.specs.Turn.{IsTurn, IsFirst, IsLast};
    ghost use Rattle.slope_list.specs.Slopes.{shown, room_of, count_of, turn_of, space_of};
    ghost use Rattle.slope_list.specs.Slopes.{MayGrow, IsGrown};

    /// A function on an empty interval, and room for so many pieces.
    pub fn make(alloc: Global, room: usize) -> Result<Slopes, AllocError>
        ensures empty { IfOk result (λ s. IsEmpty (shown s)) }
        ensures count { IfOk result (λ s. count_of s ≡ 0) }
        ensures room { IfOk result (λ s. room_of s ≡ room) }
    {
        let pieces = Vec::with_capacity(alloc, room)?;
        Ok(Slopes {
            made: None,
            turn: 0,
            room,
            pieces,
        })
    }

    /// Begins anew at one power.
    pub fn reset_to_single_power(&mut self, at: i64, value: i64)
        requires power { IsPlace at }
        requires amount { IsAmount value }
        ensures point { IsPoint at value (shown self.new) }
        ensures count { count_of self.new ≡ 0 }
        ensures room { room_of self.new ≡ room_of self.old }
        ensures turn { turn_of self.new ≡ turn_of self.old }
    {
        let start = Start {
            first: at,
            level: value,
        };
        self.made = Some(Made { start, used: 0 });
    }

    /// Takes a step. The list of its pieces and the spare one change places.
    pub fn step(&mut self, step: Step, curve: &Curve, spare: &mut Spare)
        requires step { IsFairStep step }
        requires curve { IsCostOf step curve.now }
        requires small { IsSmall (shown self.old) }
        requires room { MayGrow (length curve.now.blocks.items + 3) self.old spare.old }
        ensures stepped { IsStepped step curve.now (shown self.old) (shown self.new) }
        ensures turn { (y w : ℤ) → value_of (shown self.old) y ≡ Some w
            → IsTurn step (shown self.old) (turn_of self.new) }
        ensures grown { IsGrown (length curve.now.blocks.items + 3) self.old self.new spare.old
            spare.new }
    {
        let made = match self.made {
            Some(made) => made,
            None => return,
        };
        lengthen_pieces(&mut spare.pieces, made.used + curve.blocks.len() + 3);
        let pieces = &self.pieces[..made.used];
        let stepped = write_stepped_pieces(pieces, made.start, step, curve, &mut spare.pieces);
        self.made = stepped.made;
        self.turn = stepped.turn;
        mem::swap(&mut self.pieces, &mut spare.pieces);
    }

    /// The least value of what a step makes, which isn't taken, or None where it makes nothing.
    /// What it makes is drawn in the spare room.
    pub fn least_value_if_stepped(
        &self,
        step: Step,
        curve: &Curve,
        spare: &mut Spare,
    ) -> Option<Lowest>
        requires step { IsFairStep step }
        requires curve { IsCostOf step curve.now }
        requires small { IsSmall (shown self.now) }
        requires room { count_of self.now + length curve.now.blocks.items + 3 ≤ space_of spare.old }
        ensures least { (after : Table) × IsStepped step curve.now (shown self.now) after
            × MatchOption result (IsEmpty after) (λ r. IsLeast after r.value r.at
            × IsTurn step (shown self.now) r.turn) }
        ensures spare { space_of spare.new ≡ space_of spare.old }
    {
        let Some(made) = self.made else {
            return None;
        };
        lengthen_pieces(&mut spare.pieces, made.used + curve.blocks.len() + 3);
        let pieces = &self.pieces[..made.used];
        let stepped = write_stepped_pieces(pieces, made.start, step, curve, &mut spare.pieces);
        least_value_after_step(&spare.pieces, stepped)
    }

    /// The least value and its least power, or None on an empty interval.
    pub fn least(&self) -> Option<Spot>
        ensures { MatchOption result (IsEmpty (shown self.now))
            (λ r. IsLeast (shown self.now) r.value r.at) }
    {
        match self.made {
            Some(made) => Some(read::spot_of_least_value(&self.pieces[..made.used], made.start)),
            None => None,
        }
    }

    /// Whether it has a power, and with the shift is above a limit at each.
    pub fn is_function_above_limit(&self, shift: i64, limit: i64) -> bool
        requires { IsShift shift }
        ensures { OnTrue result (IsAbove (shown self.now) shift limit) }
    {
        match self.made {
            Some(made) => read::is_function_above_limit(
                &self.pieces[..made.used],
                made.start,
                shift,
                limit,
            ),
            None => false,
        }
    }

    /// The least value at the powers from `lo` to `hi` and its least power, or None where none of
    /// them is in the interval.
    pub fn least_in(&self, lo: i64, hi: i64) -> Option<Spot>
        ensures { MatchOption result (HasNone lo hi (shown self.now))
            (λ r. IsLeastIn lo hi (shown self.now) r.value r.at) }
    {
        match self.made {
            Some(made) => read::least_in(&self.pieces[..made.used], made.start, lo, hi),
            None => None,
        }
    }

    /// The first power and the value there, or None on an empty interval.
    pub fn first(&self) -> Option<Spot>
        ensures { MatchOption result (IsEmpty (shown self.now))
            (λ r. IsFirst (shown self.now) r.at r.value) }
    {
        pieces_begin_and_end();
        match self.made {
            Some(made) => Some(Spot {
                at: made.start.first,
                value: made.start.level,
            }),
            None => None,
        }
    }

    /// The last power, or None on an empty interval.
    pub fn last(&self) -> Option<i64>
        ensures { MatchOption result (IsEmpty (shown self.now)) (IsLast (shown self.now)) }
    {
        pieces_begin_and_end();
        match self.made {
            Some(made) => Some(piece::last_power(&self.pieces[..made.used], made.start.first)),
            None => None,
        }
    }

    /// Whether the interval is empty.
    pub fn is_empty(&self) -> bool
        ensures { IsTrue result ↔ IsEmpty (shown self.now) }
    {
        pieces_begin_and_end();
        match self.made {
            Some(_) => false,
            None => true,
        }
    }

    /// Whether it is wherever another function is, and with the shift is nowhere above it there.
    /// False tells nothing where one of them is empty.
    pub fn is_function_nowhere_above(&self, other: &Slopes, shift: i64) -> bool
        requires { IsShift shift }
        ensures { OnTrue result (IsNowhereAbove (shown self.now) (shown other.now) shift) }
    {
        match self.made {
            Some(made) => match other.made {
                Some(others) => below::is_function_nowhere_above(
                    &self.pieces[..made.used],
                    made.start,
                    &other.pieces[..others.used],
                    others.start,
                    shift,
                ),
                None => false,
            },
            None => false,
        }
    }

    /// The least power of the least value before the last step, less the worth of its reserve.
    pub fn turn(&self) -> i64
        ensures { result ≡ turn_of self.now }
    {
        self.turn
    }
}

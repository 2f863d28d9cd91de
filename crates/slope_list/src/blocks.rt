//! The curve of production costs, block by block.
ghost use Rattle.std.specs.Prelude.{◌≡◌, ◌≤◌, ◌≤ℤ◌, ◌<ℤ◌, length, Some};
ghost use Rattle.slope_list.specs.Curve.{curve_value, end_of, IsLimitedCurve};
ghost use Rattle.slope_list.specs.Blocks.{IsInBlock};

use crate::piece::{Piece, value_at_power_in_piece};
use uc_model::units::Curve;

/// A block of the curve.
#[derive(Clone, Copy)]
pub struct Span {
    /// Its index on the curve.
    pub index: usize,
    /// Where it ends, in kilowatts.
    pub end: i64,
    /// Millionths of the currency for a kilowatt.
    pub price: i64,
}

/// What is found at a power of the curve.
#[derive(Clone, Copy)]
pub struct Found {
    /// The cost there, in millionths of the currency.
    pub value: i64,
    /// The block that goes on there.
    pub span: Span,
}

/// Finds a power of the curve, in kilowatts.
pub fn cost_and_block_at_power(curve: &Curve, at: i64) -> Found
    requires limited { IsLimitedCurve curve.now }
    requires from { curve.now.at ≤ℤ at }
    requires to { at ≤ℤ end_of curve.now.at curve.now.blocks.items }
    ensures value { curve_value curve.now at ≡ Some result.value }
    ensures blocks { result.span.index ≤ length curve.now.blocks.items }
    ensures block { at <ℤ end_of curve.now.at curve.now.blocks.items
        → IsInBlock curve.now at result.span }
{
    let mut from = curve.at;
    let mut value = curve.value;
    for (index, block) in curve.blocks.as_slice().iter().enumerate() {
        let piece = Piece {
            end: from + block.width,
            slope: block.price,
        };
        if at < piece.end {
            return Found {
                value: value_at_power_in_piece(value, piece, from, at),
                span: Span {
                    index,
                    end: piece.end,
                    price: block.price,
                },
            };
        }
        value = value_at_power_in_piece(value, piece, from, piece.end);
        from = piece.end;
    }
    Found {
        value,
        span: Span {
            index: 0,
            end: from,
            price: 0,
        },
    }
}

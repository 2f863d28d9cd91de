//! The envelope goes from point to point, and needs at most two whole prices between two of them.
ghost use Rattle.std.specs.Prelude.{pos, neg_ℤ};
ghost use Rattle.plain_lists.specs.Ranges.{IsFrom};
ghost use Rattle.uc_model.specs.Limits.{IsPower};

use uc_model::units::Point;

/// The price in whole money per kilowatt at which one point begins to be no dearer than another of
/// less power, and by how much money it is cheaper there.
#[derive(Clone, Copy)]
pub struct Slope {
    /// The price, in money for a kilowatt.
    pub price: i64,
    /// How much cheaper, in money: so many kilowatts cost one less each.
    pub width: i64,
    ghost price_limit: { IsFrom (neg_ℤ (pos 20000000000001)) (pos 20000000000001) price },
    ghost width_limit: { IsPower width },
}

/// The way on from a point: the place of the next point of the envelope, and the slope to it. Of
/// the kilowatts between the two, the first `width` cost `price - 1` each, and the others `price`.
#[derive(Clone, Copy)]
pub struct Edge {
    /// The place of the next point, from 0.
    pub index: usize,
    /// The slope to it.
    pub slope: Slope,
}

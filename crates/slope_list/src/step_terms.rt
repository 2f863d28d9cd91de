//! What one period asks of a function of the power.

/// What a period of a spell asks, in kilowatts and in money for a kilowatt.
#[derive(Clone, Copy)]
pub struct Step {
    /// The least power.
    pub least: i64,
    /// The greatest power.
    pub most: i64,
    /// The greatest power with reserve.
    pub cap: i64,
    /// How far power with reserve may be above the power of the period before.
    pub ramp_up: i64,
    /// How far the power may be below that of the period before.
    pub ramp_down: i64,
    /// What a kilowatt of reserve is paid.
    pub reserve_price: i64,
    /// What a kilowatt of power costs beside its production: the reserve that it displaces, less
    /// what it is paid.
    pub slope: i64,
}

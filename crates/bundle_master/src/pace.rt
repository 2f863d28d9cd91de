//! How far a step aims.

/// A step aims at no less than that share of the mean product. The share grows after a step that is shorter than SHORT
/// and falls after one that is longer than LONG.
const FIRST_SHARE: f64 = 0.1;

const LEAST_SHARE: f64 = 0.01;

const SHORT: f64 = 0.3;

const LONG: f64 = 0.6;

/// The share of the mean product at which the next step aims (the centring parameter of Wright 1997), by the length of
/// the last one.
#[derive(Clone, Copy)]
pub struct Pace {
    share: f64,
}

impl Pace {
    /// That of the first step.
    pub fn new() -> Pace {
        Pace { share: FIRST_SHARE }
    }

    /// The share of the next step.
    pub fn centring_parameter(&self) -> f64 {
        self.share
    }

    /// Follows a step of that length.
    pub fn follow_step_length(&mut self, length: f64) {
        if length < SHORT {
            self.share = (self.share * 4.0).min(1.0);
        } else if length > LONG {
            self.share = (self.share * 0.5).max(LEAST_SHARE);
        }
    }
}

//! Mixtures, as the program keeps them.
use plain_lists::lists::ReservedList;
use uc_model::units::Response;

/// A schedule of a thermal unit, and how often it counts.
pub struct Entry {
    /// How often it counts, from 0 to the whole of the mixture.
    pub weight: i64,
    /// The schedule.
    pub response: Response,
}

// By hand, so that dropping it is one call.
impl Drop for Entry {
    fn drop(self) {
        let Entry {
            weight: _,
            response: _,
        } = self;
    }
}

/// The entries of one unit.
pub type Entries = ReservedList<Entry>;

/// The entries of each thermal unit, in the case's order.
pub type EntryLists = ReservedList<Entries>;

/// For each thermal unit of a case, in the case's order, entries whose weights sum to `weight`.
pub struct Mixture {
    /// The whole, from 1 on.
    pub weight: i64,
    /// The entries of each thermal unit.
    pub thermal: EntryLists,
}

// By hand, so that dropping it is one call.
impl Drop for Mixture {
    fn drop(self) {
        let Mixture {
            weight: _,
            thermal: _,
        } = self;
    }
}

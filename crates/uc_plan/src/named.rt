//! Units and bids under their names.
ghost use Rattle.std.specs.Prelude.{◌≡◌, ℕ, List};

use uc_model::units::{NamedBid, NamedFlat, NamedUnit};

/// A unit or bid of a case.
pub trait Named {
    // The bytes of its name.
    ghost name_of: { Self → List ℕ };

    fn name(&self) -> &str
        ensures { result.now ≡ name_of self.now };
}

impl Named for NamedUnit {
    ghost name_of = { λ n. n.name.items };

    fn name(&self) -> &str {
        self.name.as_str()
    }
}

impl Named for NamedFlat {
    ghost name_of = { λ n. n.name.items };

    fn name(&self) -> &str {
        self.name.as_str()
    }
}

impl Named for NamedBid {
    ghost name_of = { λ n. n.name.items };

    fn name(&self) -> &str {
        self.name.as_str()
    }
}

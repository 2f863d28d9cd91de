//! Why a reader of a file's value stops.
ghost use Rattle.std.specs.Prelude.{◌≡◌};
ghost use Rattle.uc_text.specs.declared.stop.Stop.TheVariants.{Memory};

use std::alloc::{AllocError, AllocFailed};

/// A test failed, or memory ran out.
#[derive(Clone, Copy, Drop)]
pub enum Stop<F> {
    Fault(F),
    Memory,
}

impl<F: Drop> From<AllocError> for Stop<F> {
    ghost from_gives = { λ _ e. e ≡ Memory };

    fn from(_: AllocError) -> Stop<F> {
        Stop::Memory
    }
}

impl<T: Drop, F: Drop> From<AllocFailed<T>> for Stop<F> {
    ghost from_gives = { λ _ e. e ≡ Memory };

    fn from(_: AllocFailed<T>) -> Stop<F> {
        Stop::Memory
    }
}

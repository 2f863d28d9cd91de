//! Why the reader stops.
ghost use Rattle.std.specs.Prelude.{◌≡◌};
ghost use Rattle.report_read.specs.declared.stop.Stop.TheVariants.{Memory};

use std::alloc::AllocError;

/// The line in fault begins where so many bytes are left, or memory ran out.
#[derive(Clone, Copy, Drop)]
pub enum Stop {
    Fault { left: usize },
    Memory,
}

impl From<AllocError> for Stop {
    ghost from_gives = { λ _ e. e ≡ Memory };

    fn from(_: AllocError) -> Stop {
        Stop::Memory
    }
}

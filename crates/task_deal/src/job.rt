//! What runs the numbers.
ghost use Rattle.std.specs.Prelude.{◌≡◌, ℕ, ◌+◌, ◌<◌, List, [], ◌∷◌, ◌++◌};

/// What runs the numbers that it is dealt. A contract sees what it works on, the numbers that it
/// has run, in order, and how many more it has room for.
pub trait Job {
    ghost Work: { Type 0 };

    // What it works on.
    ghost work: { Self → Work };

    // The numbers that it has run, in order.
    ghost runs: { Self → List ℕ };

    // How many more it has room for.
    ghost spare: { Self → ℕ };

    /// Runs one number, where there is room for it.
    fn run(&mut self, task: u32)
        requires { 0 < spare self.old }
        ensures work { work self.new ≡ work self.old }
        ensures runs { runs self.new ≡ runs self.old ++ task ∷ [] }
        ensures spare { spare self.new + 1 ≡ spare self.old };
}

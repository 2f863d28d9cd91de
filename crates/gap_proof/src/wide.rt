//! Products and quotients in 128 bits.
ghost use Rattle.std.specs.Prelude.{◌≡◌, ℕ, pos, ◌*ℤ◌, ◌≤ℤ◌, unsigned_abs};
ghost use Rattle.plain_lists.specs.Sums.{floor_div};
ghost use Rattle.gap_proof.specs.PlaneSums.{IsUpTo};

/// So many times a number.
pub fn wide_product(weight: i64, number: i64) -> i128
    ensures { result ≡ weight *ℤ number }
{
    i128::from(weight) * i128::from(number)
}

/// The whole number below the quotient, or the quotient.
pub fn floor_quotient(sum: i128, weight: i64) -> i128
    requires { pos 1 ≤ℤ weight }
    ensures value { result ≡ floor_div sum (unsigned_abs weight) }
    ensures limit { (n : ℕ) → IsUpTo n sum → IsUpTo n result }
{
    sum.div_euclid(i128::from(weight))
}

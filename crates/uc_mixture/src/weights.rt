//! Weights: whole numbers, however they are written.
ghost use Rattle.std.specs.Prelude.{◌≡◌, ◌≤ℤ◌, ◌^◌, IfSome, pos, map};
ghost use Rattle.std.specs.Ordering.{int_eq};
ghost use Rattle.gap_proof.specs.Mixtures.{entry_of};
ghost use Rattle.plain_lists.specs.Ranges.{IsFrom};
ghost use Rattle.uc_text.specs.View.{view};
ghost use Rattle.uc_mixture.specs.Kept.{AreLow};
ghost use Rattle.uc_mixture.specs.Tables.{weight_of as weight_of_spec, weight_in, weight_sum};

use gap_proof::Entry;
use text_tokens::{Decimal, is_whole, whole};
use uc_text::Branch;

#[tactic(auto, using(crate::proofs::WeightLaws::within))]
fn weight_from_decimal(d: Decimal, least: i64, most: i64) -> Option<i64>
    requires least { pos 0 ≤ℤ least }
    requires most { IsFrom (pos 0) (pos (10 ^ 18)) most }
    ensures fits { IfSome result (λ w. IsFrom least most w) }
    ensures value { result ≡ weight_of_spec least most d }
{
    if !is_whole(d) {
        return None;
    }
    let Ok(weight) = whole(d, 0, most.unsigned_abs()) else {
        return None;
    };
    if weight < least {
        return None;
    }
    Some(weight)
}

/// The whole number that a value is, if it is one from `least` to `most`.
pub fn weight_of_json_value(branch: Branch<'_>, least: i64, most: i64) -> Option<i64>
    requires least { pos 0 ≤ℤ least }
    requires most { IsFrom (pos 0) (pos (10 ^ 18)) most }
    ensures fits { IfSome result (λ w. IsFrom least most w) }
    ensures value { result ≡ weight_in least most (view branch.entry) }
{
    match branch.number() {
        Some(d) => weight_from_decimal(d, least, most),
        None => None,
    }
}

fn sum_of_weights(entries: &[Entry]) -> i128
    requires { AreLow (map entry_of entries.now) }
    ensures { result ≡ weight_sum (map entry_of entries.now) }
{
    let mut sum: i128 = 0;
    for entry in entries {
        sum += i128::from(entry.weight);
    }
    sum
}

/// Whether the weights of the entries, each from 0 to the greatest of a mixture, sum to the whole.
pub fn do_weights_sum_to(entries: &[Entry], whole: i64) -> bool
    requires { AreLow (map entry_of entries.now) }
    ensures { result ≡ int_eq (weight_sum (map entry_of entries.now)) whole }
{
    sum_of_weights(entries) == i128::from(whole)
}

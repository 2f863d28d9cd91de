//! A certificate of given prices: the bound that a mixture gives round them.
ghost use Rattle.std.specs.Prelude.{◌≡◌, IfOk};
ghost use Rattle.uc_model.specs.PlainCases.{market_of};
ghost use Rattle.uc_model.specs.PlainUnits.{prices_of};
ghost use Rattle.gap_proof.specs.PlaneSums.{IsRadius};
ghost use Rattle.gap_proof.specs.Mixtures.{mixture_of, IsMixture, HasMixtureShape};
ghost use Rattle.hull_input.specs.Answers.{IsFitPriced};
ghost use Rattle.hull_command.specs.Answers.{HasCertified, IsCertifiedAt};

use crate::answer::CertifiedInput;
use crate::settle::settle_schedule_at_prices;
use gap_proof::{Mixture, bound_of_mixture};
use hull_input::PricedInput;
use hull_report::MixtureBound;
use std::alloc::{AllocError, Global};

/// What the schedule of an input is settled at, at its prices, and the bound by a mixture on the
/// dual value of all prices within a radius of them.
pub fn certify_by_mixture(
    alloc: Global,
    priced: PricedInput,
    mixture: &Mixture,
    radius: i64,
) -> Result<CertifiedInput, AllocError>
    requires priced { IsFitPriced priced }
    requires shape { HasMixtureShape (market_of priced.input.case) (mixture_of mixture.now) }
    requires feasible { IsMixture (market_of priced.input.case) (mixture_of mixture.now) }
    requires radius { IsRadius radius }
    ensures input { IfOk result (λ x. x.settled.input ≡ priced.input) }
    ensures certified { IfOk result (λ x. IsCertifiedAt (prices_of priced.prices)
        (mixture_of mixture.now) radius x) }
    ensures told { IfOk result (λ x. HasCertified x) }
{
    let bound = bound_of_mixture(&priced.input.case, mixture, &priced.prices, radius);
    let settled = settle_schedule_at_prices(alloc, priced)?;
    let within = MixtureBound { radius, bound };
    Ok(CertifiedInput { settled, within })
}

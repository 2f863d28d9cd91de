//! A power of one period, and how it is kept.
ghost use Rattle.std.specs.Prelude.{◌≡◌, ◌<◌, pos, neg_ℤ, ◌+ℤ◌, ◌*ℤ◌, length};
ghost use Rattle.plain_lists.specs.Ranges.{IsFrom};
ghost use Rattle.uc_model.specs.Limits.{IsPower, price_limit};
ghost use Rattle.uc_model.specs.PlainUnits.{schedule_of};
ghost use Rattle.uc_model.specs.declared.limits.TheConstants.{GAIN_LIMIT};
ghost use Rattle.flat_answer.specs.Choices.{IsEarnedInOne, with_power};

use uc_model::units::Answered;

/// A power in kilowatts, and what it earns in its period.
#[derive(Clone, Copy)]
pub struct PowerChoice {
    /// The power.
    pub power: u32,
    /// What it earns, in money.
    pub earned: i64,
}

/// What so many kilowatts earn at so much for each: within 2 * 10^16 in magnitude.
pub fn earnings_at_gain(gain: i64, power: i64) -> i64
    requires gain { IsFrom (neg_ℤ GAIN_LIMIT) GAIN_LIMIT gain }
    requires power { IsPower power }
    ensures value { result ≡ gain *ℤ power }
    ensures bound { IsEarnedInOne result }
{
    gain * power
}

/// A power at a price for each kilowatt.
pub fn power_choice_at_price(price: i64, power: i64) -> PowerChoice
    requires price { IsFrom (neg_ℤ price_limit) price_limit price }
    requires power { IsPower power }
    ensures power { pos result.power ≡ power }
    ensures earned { result.earned ≡ price *ℤ power }
    ensures bound { IsEarnedInOne result.earned }
{
    PowerChoice {
        power: power as u32,
        earned: earnings_at_gain(price, power),
    }
}

/// Keeps the choice of a period: on with that power, no reserve, and what it earns added to what is
/// earned so far.
pub fn write_choice(into: &mut Answered, index: usize, choice: PowerChoice)
    requires index { index < length (schedule_of into.old.response).on }
    requires so_far { IsFrom (neg_ℤ (pos 4000000000000000000)) (pos 4000000000000000000)
        into.old.earned }
    requires choice { IsEarnedInOne choice.earned }
    ensures schedule { schedule_of into.new.response
        ≡ with_power (schedule_of into.old.response) index choice.power }
    ensures earned { into.new.earned ≡ into.old.earned +ℤ choice.earned }
{
    into.response.on.set(index, true);
    into.response.power.set(index, choice.power);
    into.response.reserve.set(index, 0);
    into.earned += choice.earned;
}

//! Generated renewable units, which give their greatest power.
ghost use Rattle.std.specs.Prelude.{◌≡◌, ◌≤◌, IfOk, OnOk, pos, map, length};
ghost use Rattle.uc_model.specs.PlainUnits.{renewable_of as renewable_unit_of, schedule_of};
ghost use Rattle.uc_model.specs.declared.limits.TheConstants.{MOST_PERIODS};
ghost use Rattle.case_make.specs.Drawn.{most_powers, renewable_of, full};
ghost use Rattle.case_make.specs.Sizes.{ArePowers};
ghost use Rattle.case_make.specs.Words.{moved_on};

use crate::draws::draw_number;
use crate::make::PERIODS;
use plain_lists::lists::{Flags, Numbers};
use rand_pcg::Pcg32;
use std::alloc::{AllocError, Global};
use uc_model::units::{Powers, Renewable, Response};

/// Draws the greatest power of a renewable unit in each period, in kilowatts, by the generator's
/// next 49 words.
pub fn draw_powers(alloc: Global, random: &mut Pcg32) -> Result<Powers, AllocError>
    ensures powers { IfOk result (λ powers. powers.items ≡ most_powers random.old 0) }
    ensures sizes { IfOk result (λ powers. ArePowers powers.items) }
    ensures moved { OnOk result (random.new ≡ moved_on 49 random.old) }
{
    let mut powers = Powers::make(alloc, PERIODS)?;
    let capacity = 1000 * draw_number(random, 5, 100);
    for _ in 0..PERIODS {
        powers.push(capacity * draw_number(random, 0, 100) / 100);
    }
    Ok(powers)
}

fn numbers_of_powers(alloc: Global, powers: &Powers) -> Result<Numbers, AllocError>
    requires { length powers.now.items ≤ MOST_PERIODS }
    ensures { IfOk result (λ numbers. numbers.items ≡ map pos powers.now.items) }
{
    let mut numbers = Numbers::make(alloc, powers.len() as u32)?;
    for power in powers.as_slice() {
        numbers.push(i64::from(*power));
    }
    Ok(numbers)
}

/// The renewable unit of its greatest powers.
pub fn renewable_of_powers(alloc: Global, powers: &Powers) -> Result<Renewable, AllocError>
    requires { ArePowers powers.now.items }
    ensures { IfOk result (λ r. renewable_unit_of r ≡ renewable_of powers.now.items) }
{
    let least = Numbers::filled(alloc, PERIODS, 0)?;
    let most = numbers_of_powers(alloc, powers)?;
    Ok(Renewable { least, most })
}

/// Its schedule.
#[tactic(auto, unfolding(crate::specs::Drawn::full))]
pub fn full_output_schedule(alloc: Global, power: Powers) -> Result<Response, AllocError>
    requires { ArePowers power.items }
    ensures { IfOk result (λ r. schedule_of r ≡ full power.items) }
{
    let on = Flags::filled(alloc, PERIODS, true)?;
    let reserve = Powers::filled(alloc, PERIODS, 0)?;
    Ok(Response { on, power, reserve })
}

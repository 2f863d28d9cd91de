//! Draws from a generator of words, and what a thermal unit's draws say of its powers.
ghost use Rattle.std.specs.Prelude.{◌≡◌, ◌<◌, ◌≤◌};
ghost use Rattle.case_make.specs.Drawn.{unit_draws, max_of, min_of, ramp_of, is_on, level_of};
ghost use Rattle.case_make.specs.Drawn.{step_of, high_of, reserve_of, at_of};
ghost use Rattle.case_make.specs.Sizes.{IsDrawn, AreDrawn};
ghost use Rattle.case_make.specs.Words.{word_at, moved_on, draw};

use rand_core::utils::NextWord;
use rand_pcg::Pcg32;

/// What is drawn for a thermal unit, in the order of the draws.
#[derive(Clone, Copy)]
pub struct UnitDraws {
    /// The greatest power in megawatts, 20 to 400.
    pub megawatts: u32,
    /// The least power in hundredths of the greatest, 20 to 50.
    pub least_percent: u32,
    /// How often the ramp goes into the greatest power, 2 to 6.
    pub ramp_divisor: u32,
    /// Periods, 1 to 8.
    pub min_up: u32,
    /// Periods, 1 to 8.
    pub min_down: u32,
    /// 0 to 2: the unit is off before the horizon where it is 0.
    pub state: u32,
    /// Thousands of money for a kilowatt and period at the least power, 15 to 60.
    pub energy_cost: u32,
    /// Hundreds of the currency for a start after the shortest time down, 1 to 50.
    pub start_hundreds: u32,
    /// Where the power before the horizon lies between the least and the greatest, in hundredths.
    pub level_percent: u32,
}

/// A number from `low` to `high`, by the generator's next word.
#[tactic(auto, unfolding(crate::specs::Words::draw))]
pub fn draw_number(random: &mut Pcg32, low: u32, high: u32) -> u32
    requires range { low ≤ high }
    requires limit { high < 1000 }
    ensures value { result ≡ draw low high (word_at random.old 0) }
    ensures range { IsDrawn low high result }
    ensures moved { random.new ≡ moved_on 1 random.old }
{
    low + random.next_word() % (high - low + 1)
}

/// Draws a thermal unit by the generator's next nine words.
pub fn draw_unit(random: &mut Pcg32) -> UnitDraws
    ensures draws { result ≡ unit_draws random.old 0 }
    ensures ranges { AreDrawn result }
    ensures moved { random.new ≡ moved_on 9 random.old }
{
    UnitDraws {
        megawatts: draw_number(random, 20, 400),
        least_percent: draw_number(random, 20, 50),
        ramp_divisor: draw_number(random, 2, 6),
        min_up: draw_number(random, 1, 8),
        min_down: draw_number(random, 1, 8),
        state: draw_number(random, 0, 2),
        energy_cost: draw_number(random, 15, 60),
        start_hundreds: draw_number(random, 1, 50),
        level_percent: draw_number(random, 0, 100),
    }
}

impl UnitDraws {
    /// Whether the unit is on before the horizon, and so throughout.
    #[tactic(auto, unfolding(crate::specs::Drawn::is_on))]
    pub fn is_on(&self) -> bool
        ensures { result ≡ is_on self.now }
    {
        self.state > 0
    }

    /// The greatest power in kilowatts.
    #[tactic(auto, unfolding(crate::specs::Drawn::max_of))]
    pub fn max_power(&self) -> u32
        requires { AreDrawn self.now }
        ensures { result ≡ max_of self.now }
    {
        1000 * self.megawatts
    }

    /// The least power in kilowatts.
    #[tactic(auto, unfolding(crate::specs::Drawn::min_of))]
    pub fn min_power(&self) -> u32
        requires { AreDrawn self.now }
        ensures { result ≡ min_of self.now }
    {
        self.max_power() * self.least_percent / 100
    }

    /// Both ramps in kilowatts.
    #[tactic(auto, unfolding(crate::specs::Drawn::ramp_of))]
    pub fn ramp(&self) -> u32
        requires { AreDrawn self.now }
        ensures { result ≡ ramp_of self.now }
    {
        self.max_power() / self.ramp_divisor
    }

    /// The power before the horizon of a unit that is on, in kilowatts.
    #[tactic(auto, unfolding(crate::specs::Drawn::level_of))]
    pub fn level(&self) -> u32
        requires { AreDrawn self.now }
        ensures { result ≡ level_of self.now }
    {
        let min = self.min_power();
        min + (self.max_power() - min) * self.level_percent / 100
    }

    /// How far a unit that is on rises above its level, in kilowatts.
    #[tactic(auto, unfolding(crate::specs::Drawn::step_of))]
    pub fn step(&self) -> u32
        requires { AreDrawn self.now }
        ensures { result ≡ step_of self.now }
    {
        let above = self.max_power() - self.level();
        above.min(self.ramp()) / 2
    }

    /// The power to which it rises, in kilowatts.
    #[tactic(auto, unfolding(crate::specs::Drawn::high_of))]
    pub fn high(&self) -> u32
        requires { AreDrawn self.now }
        ensures { result ≡ high_of self.now }
    {
        self.level() + self.step()
    }

    /// The reserve in kilowatts that greatest power and ramp leave beside the rise.
    #[tactic(auto, unfolding(crate::specs::Drawn::reserve_of))]
    pub fn reserve(&self) -> u32
        requires { AreDrawn self.now }
        ensures { result ≡ reserve_of self.now }
    {
        let above = self.max_power() - self.high();
        above.min(self.ramp() - self.step())
    }

    /// The power in kilowatts of a point of the cost curve, whose index counts from 0 to 3.
    #[tactic(auto, unfolding(crate::specs::Drawn::at_of))]
    pub fn point_power(&self, index: u32) -> u32
        requires draws { AreDrawn self.now }
        requires index { index ≤ 3 }
        ensures { result ≡ at_of self.now index }
    {
        let min = self.min_power();
        min + (self.max_power() - min) * index / 3
    }
}

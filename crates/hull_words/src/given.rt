//! The values that the words gave so far.
ghost use Rattle.std.specs.Prelude.{◌≡◌};
ghost use Rattle.hull_words.specs.WordTexts.{number_in};
ghost use Rattle.hull_words.specs.WordPass.{found_so_far, nothing, is_set, put, set_to, seen};

use crate::kinds::OptionKind;
use crate::limits::{MOST_ROUNDS, MOST_WITHIN};
use crate::word_fault::WordCode;
use crate::word_text::number_in_range;
use plain_lists::limits::{MOST_AHEAD, MOST_PROPOSALS, MOST_RADIUS, MOST_WORKERS};

/// The values that the words gave so far, each where it was given.
#[derive(Clone, Copy)]
pub struct Given<'a> {
    /// The case file.
    pub case_name: Option<&'a str>,
    /// The schedule file.
    pub schedule_name: Option<&'a str>,
    /// The report file.
    pub report_name: Option<&'a str>,
    /// The prices file.
    pub prices_name: Option<&'a str>,
    /// The mixture file.
    pub mixture_name: Option<&'a str>,
    /// The most proposals of the run.
    pub proposals: Option<u32>,
    /// How many threads answer.
    pub workers: Option<u32>,
    /// How many proposals may be open ahead of the last answered one.
    pub ahead: Option<u32>,
    /// How far from the chosen prices a bound reaches, in money for a kilowatt and period.
    pub radius: Option<u32>,
    /// At which distance a search ends, in money.
    pub within: Option<u64>,
    /// The most rounds of a search.
    pub rounds: Option<u32>,
    /// Which case is generated.
    pub number: Option<u64>,
}

/// The number in the range, which is within 32 bits.
fn u32_number_in_range(text: &str, least: u32, most: u32) -> Option<u32>
    ensures { result ≡ number_in least most text.now }
{
    match number_in_range(text, u64::from(least), u64::from(most)) {
        Some(value) => Some(value as u32),
        None => None,
    }
}

impl<'a> Given<'a> {
    /// No value yet.
    pub fn nothing() -> Given<'a>
        ensures { found_so_far result ≡ nothing }
    {
        Given {
            case_name: None,
            schedule_name: None,
            report_name: None,
            prices_name: None,
            mixture_name: None,
            proposals: None,
            workers: None,
            ahead: None,
            radius: None,
            within: None,
            rounds: None,
            number: None,
        }
    }

    /// With what the text says for the option: none where it is no number within the range.
    fn with_option_text(self, option: OptionKind, text: &'a str) -> Given<'a>
        ensures { found_so_far result ≡ put option text.now (found_so_far self.entry) }
    {
        let mut given = self;
        match option {
            OptionKind::Case => given.case_name = Some(text),
            OptionKind::Schedule => given.schedule_name = Some(text),
            OptionKind::Report => given.report_name = Some(text),
            OptionKind::Prices => given.prices_name = Some(text),
            OptionKind::Mixture => given.mixture_name = Some(text),
            OptionKind::Proposals => given.proposals = u32_number_in_range(text, 1, MOST_PROPOSALS),
            OptionKind::Workers => given.workers = u32_number_in_range(text, 1, MOST_WORKERS),
            OptionKind::Ahead => given.ahead = u32_number_in_range(text, 1, MOST_AHEAD),
            OptionKind::Radius => given.radius = u32_number_in_range(text, 0, MOST_RADIUS),
            OptionKind::Within => given.within = number_in_range(text, 0, MOST_WITHIN),
            OptionKind::Rounds => given.rounds = u32_number_in_range(text, 1, MOST_ROUNDS),
        }
        given
    }

    /// Whether the option was given.
    pub fn is_set(&self, option: OptionKind) -> bool
        ensures { result ≡ is_set option (found_so_far self.now) }
    {
        match option {
            OptionKind::Case => self.case_name.is_some(),
            OptionKind::Schedule => self.schedule_name.is_some(),
            OptionKind::Report => self.report_name.is_some(),
            OptionKind::Prices => self.prices_name.is_some(),
            OptionKind::Mixture => self.mixture_name.is_some(),
            OptionKind::Proposals => self.proposals.is_some(),
            OptionKind::Workers => self.workers.is_some(),
            OptionKind::Ahead => self.ahead.is_some(),
            OptionKind::Radius => self.radius.is_some(),
            OptionKind::Within => self.within.is_some(),
            OptionKind::Rounds => self.rounds.is_some(),
        }
    }

    /// With this value for the option, where it is one.
    pub fn set(self, option: OptionKind, text: &'a str) -> Result<Given<'a>, WordCode>
        ensures { seen found_so_far result ≡ set_to option text.now (found_so_far self.entry) }
    {
        let given = self.with_option_text(option, text);
        if given.is_set(option) {
            Ok(given)
        } else {
            Err(WordCode::BadNumber)
        }
    }
}

//! The reader: one pass over the words.
ghost use Rattle.std.specs.Prelude.{◌≡◌, ◌+◌, ◌*◌, ◌<◌, ◌≤◌, false, length, drop, Err, IfOk, IfErr};
ghost use Rattle.std.specs.Prelude.{OnOk, pos, unwrap_or};
ghost use Rattle.std.specs.Option.{option_copied};
ghost use Rattle.hull_words.specs.Asked.{asked, asked_from, check_asked, price_asked, names_from};
ghost use Rattle.hull_words.specs.Asked.{price_from, settle_asked, settle_from};
ghost use Rattle.hull_words.specs.declared.defaults.TheConstants.{DEFAULT_RADIUS};
ghost use Rattle.hull_words.specs.WordTexts.{takes_next};
ghost use Rattle.hull_words.specs.WordPass.{found_so_far, nothing, flag, option_step, plain_step};
ghost use Rattle.hull_words.specs.WordPass.{set_count, word_step, read_from, seen};
ghost use Rattle.hull_words.specs.Words.{Gives, fault, first_of, option_in, or_missing, texts};
ghost use Rattle.hull_words.specs.Words.{words_of};
ghost use Rattle.hull_words.specs.declared.word_fault.WordCode.TheVariants.{MissingOption};
ghost use Rattle.hull_words.specs.declared.word_fault.WordError.TheVariants.{Fault};

use crate::command::{
    AuditWords, BoundWords, CertifyWords, CheckWords, Command, ConvexWords, PriceWords,
    SettleWords, TryWords,
};
use crate::defaults::{
    DEFAULT_AHEAD, DEFAULT_PROPOSALS, DEFAULT_RADIUS, DEFAULT_WITHIN, DEFAULT_WORKERS,
};
use crate::given::Given;
use crate::kinds::CommandKind;
use crate::word_fault::{WordCode, WordError, WordFault};
use crate::word_text::{is_value, number_in_range, option_parts};
use plain_lists::lists::Name;
use std::alloc::Global;

/// Takes an option with its value.
fn read_option<'a>(
    command: CommandKind,
    given: Given<'a>,
    name: &str,
    value: Option<&'a str>,
) -> Result<Given<'a>, WordCode>
    ensures { seen found_so_far result ≡ option_step (option_in command name.now)
        (option_copied value.entry) (found_so_far given.entry) }
{
    let Some(option) = command.option(name) else {
        return Err(WordCode::UnknownOption);
    };
    if given.is_set(option) {
        return Err(WordCode::RepeatedOption);
    }
    match value {
        Some(text) if is_value(text) => given.set(option, text),
        _ => Err(WordCode::NoValue),
    }
}

/// Takes a word that is neither an option nor a value.
fn read_case_number_of_try<'a>(
    command: CommandKind,
    given: Given<'a>,
    word: &str,
) -> Result<Given<'a>, WordCode>
    ensures { seen found_so_far result ≡ plain_step command word.now (found_so_far given.entry) }
{
    match command {
        CommandKind::Try => {
            if given.number.is_some() {
                return Err(WordCode::StrayWord);
            }
            let value = number_in_range(word, 0, u64::MAX).ok_or(WordCode::BadNumber)?;
            Ok(Given {
                number: Some(value),
                ..given
            })
        }
        _ => Err(WordCode::StrayWord),
    }
}

/// Takes a word that is no value.
#[tactic(auto, unfolding(crate::specs::WordPass::word_step, crate::specs::Words::value_at))]
fn read_option_or_number_word<'a>(
    command: CommandKind,
    given: Given<'a>,
    word: &'a str,
    next: Option<&'a str>,
) -> Result<Given<'a>, WordCode>
    ensures { seen found_so_far result
        ≡ word_step command word.now (option_copied next.entry) (found_so_far given.entry) }
{
    match option_parts(word) {
        Some((name, own_value)) => read_option(command, given, name, own_value.or(next)),
        None => read_case_number_of_try(command, given, word),
    }
}

/// Whether the word is an option whose value is the next word.
fn takes_next_word(word: &str) -> bool
    ensures { result ≡ takes_next word.now }
{
    matches!(option_parts(word), Some((_, None)))
}

/// The word at an index, if there is one.
fn word_at(words: &[String], index: usize) -> Option<&str>
    ensures { option_copied result ≡ first_of (drop index (texts words.now)) }
{
    if index < words.len() {
        Some(words[index].as_str())
    } else {
        None
    }
}

/// Goes past one word, and says whether the next one is its value.
fn read_word_at_index<'a>(
    command: CommandKind,
    words: &'a [String],
    index: usize,
    is_value: bool,
    given: Given<'a>,
) -> Result<(Given<'a>, bool), WordFault>
    requires within { index < length words.now }
    // Each word that is no value sets one of twelve values.
    requires few { index + flag is_value ≤ 2 * set_count (found_so_far given) }
    ensures ok { IfOk result (λ x. read_from command (index + 2) is_value
        (drop index (texts words.now)) (found_so_far given.entry)
        ≡ read_from command (index + 3) x.1 (drop (index + 1) (texts words.now))
        (found_so_far x.0)) }
    ensures err { IfErr result (λ e. read_from command (index + 2) is_value
        (drop index (texts words.now)) (found_so_far given.entry) ≡ Err e) }
    ensures few { IfOk result (λ x. index + 1 + flag x.1 ≤ 2 * set_count (found_so_far x.0)) }
{
    if is_value {
        return Ok((given, false));
    }
    let word = words[index].as_str();
    match read_option_or_number_word(command, given, word, word_at(words, index + 1)) {
        Ok(read) => Ok((read, takes_next_word(word))),
        Err(code) => Err(WordFault {
            code,
            position: index as u32 + 2,
        }),
    }
}

/// The values that the words after the command give.
fn read_words_after_command<'a>(
    command: CommandKind,
    words: &'a [String],
) -> Result<Given<'a>, WordFault>
    ensures read { seen found_so_far result ≡ read_from command 2 false (texts words.now) nothing }
    ensures few { OnOk result (length words.now ≤ 24) }
{
    let mut given = Given::nothing();
    let mut is_value = false;
    for index in 0..words.len() {
        (given, is_value) = read_word_at_index(command, words, index, is_value, given)?;
    }
    Ok(given)
}

/// That a value is missing, which is told at the number of words.
fn missing_value(count: u32) -> WordError
    ensures { result ≡ Fault (fault MissingOption count) }
{
    WordError::Fault(WordFault {
        code: WordCode::MissingOption,
        position: count,
    })
}

// Here and below, what is missing is told before a name takes memory.
fn case_and_schedule_words(
    alloc: Global,
    given: &Given,
    count: u32,
) -> Result<CheckWords, WordError>
    ensures { Gives check_asked result (or_missing (names_from (found_so_far given.now)) count) }
{
    let Some(case_name) = given.case_name else {
        return Err(missing_value(count));
    };
    let Some(schedule_name) = given.schedule_name else {
        return Err(missing_value(count));
    };
    Ok(CheckWords {
        case_name: Name::copied(alloc, case_name)?,
        schedule_name: Name::copied(alloc, schedule_name)?,
    })
}

fn price_run_words(alloc: Global, given: &Given, count: u32) -> Result<PriceWords, WordError>
    ensures { Gives price_asked result (or_missing (price_from (found_so_far given.now)) count) }
{
    let CheckWords {
        case_name,
        schedule_name,
    } = case_and_schedule_words(alloc, given, count)?;
    Ok(PriceWords {
        case_name,
        schedule_name,
        proposals: given.proposals.unwrap_or(DEFAULT_PROPOSALS),
        workers: given.workers.unwrap_or(DEFAULT_WORKERS),
        ahead: given.ahead.unwrap_or(DEFAULT_AHEAD),
    })
}

/// The radius, by default where absent.
fn radius_of(given: &Given) -> i64
    ensures { result ≡ pos (unwrap_or given.now.radius DEFAULT_RADIUS) }
{
    i64::from(given.radius.unwrap_or(DEFAULT_RADIUS))
}

fn try_command(given: &Given, count: u32) -> Result<Command, WordError>
    ensures { Gives asked result
        (or_missing (asked_from CommandKind.Try (found_so_far given.now)) count) }
{
    let Some(number) = given.number else {
        return Err(missing_value(count));
    };
    Ok(Command::Try(TryWords {
        number,
        proposals: given.proposals.unwrap_or(DEFAULT_PROPOSALS),
        workers: given.workers.unwrap_or(DEFAULT_WORKERS),
        ahead: given.ahead.unwrap_or(DEFAULT_AHEAD),
    }))
}

fn bound_command(alloc: Global, given: &Given, count: u32) -> Result<Command, WordError>
    ensures { Gives asked result
        (or_missing (asked_from CommandKind.Bound (found_so_far given.now)) count) }
{
    Ok(Command::Bound(BoundWords {
        run: price_run_words(alloc, given, count)?,
        radius: radius_of(given),
    }))
}

fn audit_command(alloc: Global, given: &Given, count: u32) -> Result<Command, WordError>
    ensures { Gives asked result
        (or_missing (asked_from CommandKind.Audit (found_so_far given.now)) count) }
{
    let Some(report_name) = given.report_name else {
        return Err(missing_value(count));
    };
    let CheckWords {
        case_name,
        schedule_name,
    } = case_and_schedule_words(alloc, given, count)?;
    Ok(Command::Audit(AuditWords {
        case_name,
        schedule_name,
        report_name: Name::copied(alloc, report_name)?,
        workers: given.workers.unwrap_or(DEFAULT_WORKERS),
    }))
}

fn settle_words(alloc: Global, given: &Given, count: u32) -> Result<SettleWords, WordError>
    ensures { Gives settle_asked result (or_missing (settle_from (found_so_far given.now)) count) }
{
    let Some(prices_name) = given.prices_name else {
        return Err(missing_value(count));
    };
    let CheckWords {
        case_name,
        schedule_name,
    } = case_and_schedule_words(alloc, given, count)?;
    Ok(SettleWords {
        case_name,
        schedule_name,
        prices_name: Name::copied(alloc, prices_name)?,
    })
}

fn certify_command(alloc: Global, given: &Given, count: u32) -> Result<Command, WordError>
    ensures { Gives asked result
        (or_missing (asked_from CommandKind.Certify (found_so_far given.now)) count) }
{
    let Some(mixture_name) = given.mixture_name else {
        return Err(missing_value(count));
    };
    Ok(Command::Certify(CertifyWords {
        names: settle_words(alloc, given, count)?,
        mixture_name: Name::copied(alloc, mixture_name)?,
        radius: radius_of(given),
    }))
}

fn convex_command(alloc: Global, given: &Given, count: u32) -> Result<Command, WordError>
    ensures { Gives asked result
        (or_missing (asked_from CommandKind.Convex (found_so_far given.now)) count) }
{
    let CheckWords {
        case_name,
        schedule_name,
    } = case_and_schedule_words(alloc, given, count)?;
    Ok(Command::Convex(ConvexWords {
        case_name,
        schedule_name,
        within: given.within.unwrap_or(DEFAULT_WITHIN),
        rounds: given.rounds,
    }))
}

/// The command with its values, by default where absent.
fn command_of_values(
    alloc: Global,
    command: CommandKind,
    given: &Given,
    count: u32,
) -> Result<Command, WordError>
    ensures { Gives asked result (or_missing (asked_from command (found_so_far given.now)) count) }
{
    match command {
        CommandKind::Price => Ok(Command::Price(price_run_words(alloc, given, count)?)),
        CommandKind::Check => Ok(Command::Check(case_and_schedule_words(alloc, given, count)?)),
        CommandKind::Try => try_command(given, count),
        CommandKind::Bound => bound_command(alloc, given, count),
        CommandKind::Fixed => Ok(Command::Fixed(price_run_words(alloc, given, count)?)),
        CommandKind::Audit => audit_command(alloc, given, count),
        CommandKind::Settle => Ok(Command::Settle(settle_words(alloc, given, count)?)),
        CommandKind::Certify => certify_command(alloc, given, count),
        CommandKind::Convex => convex_command(alloc, given, count),
    }
}

/// The command that the words after the program's name give, or their first fault: the words are
/// `price`, `check`, `try`, `bound`, `fixed`, `audit`, `settle`, `certify` or `convex`, and then its
/// options and, for `try`, its number. It takes memory for the names alone; a name of 4 GiB or more
/// is answered as want of memory.
pub fn read_words(alloc: Global, words: &[String]) -> Result<Command, WordError>
    ensures { Gives asked result (words_of (texts words.now)) }
{
    let Some((first, later)) = words.split_first() else {
        return Err(WordError::Fault(WordFault {
            code: WordCode::NoCommand,
            position: 0,
        }));
    };
    let Some(command) = CommandKind::named(first.as_str()) else {
        return Err(WordError::Fault(WordFault {
            code: WordCode::UnknownCommand,
            position: 1,
        }));
    };
    let given = read_words_after_command(command, later)?;
    command_of_values(alloc, command, &given, words.len() as u32)
}

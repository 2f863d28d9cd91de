//! What one word says by itself.
ghost use Rattle.std.specs.Prelude.{◌≡◌, ◌≤◌, IfSome, is_some};
ghost use Rattle.std.specs.Char.{is_ascii_digit};
ghost use Rattle.std.specs.List.{list_all};
ghost use Rattle.std.specs.Option.{option_copied};
ghost use Rattle.hull_words.specs.WordTexts.{is_option, option_name, own_value, can_be_value};
ghost use Rattle.hull_words.specs.WordTexts.{number_in};

/// The name of an option, and what follows its `=`. None where the word is no option.
pub fn option_parts(word: &str) -> Option<(&str, Option<&str>)>
    ensures option { is_some result ≡ is_option word.now }
    ensures name { IfSome result (λ parts. parts.0.now ≡ option_name word.now) }
    ensures value { IfSome result (λ parts. option_copied parts.1 ≡ own_value word.now) }
{
    let text = word.strip_prefix("--")?;
    match text.split_once('=') {
        Some((name, value)) => Some((name, Some(value))),
        None => Some((text, None)),
    }
}

/// Whether the text may be the value of an option.
pub fn is_value(text: &str) -> bool
    ensures { result ≡ can_be_value text.now }
{
    match text.as_bytes() {
        [] => false,
        [first, ..] => *first != b'-',
    }
}

/// Whether each byte is a decimal digit.
fn is_digits(text: &str) -> bool
    ensures { result ≡ list_all is_ascii_digit text.now }
{
    text.bytes().all(|byte| byte.is_ascii_digit())
}

/// The number that 1 to 20 decimal digits write, where it is in the range.
pub fn number_in_range(text: &str, least: u64, most: u64) -> Option<u64>
    ensures exact { result ≡ number_in least most text.now }
    ensures range { IfSome result (λ n. (least ≤ n) × (n ≤ most)) }
{
    if text.len() > 20 || !is_digits(text) {
        return None;
    }
    let value = text.parse::<u64>().ok()?;
    if value < least || most < value {
        return None;
    }
    Some(value)
}

//! Strings that were found and not yet read.
ghost use Rattle.std.specs.Prelude.{◌≡◌, ◌<◌, ◌≤◌, ◌^◌, length, is_some, true};
ghost use Rattle.text_tokens.specs.Strings.{string_of, len_or};

/// The bytes behind the opening quote of a string that is closed.
#[derive(Clone, Copy)]
pub struct Quoted<'a> {
    /// The rest of the text from there on; the closing quote stands in it.
    pub bytes: &'a [u8],
    ghost closed: { is_some (string_of bytes.now) ≡ true },
    ghost few: { length bytes.now < 2 ^ 32 },
    ghost within: { len_or (string_of bytes.now) ≤ length bytes.now },
}

impl Quoted<'_> {
    ghost use Rattle.std.specs.Prelude.{[]};
    ghost use Rattle.text_tokens.specs.Strings.{said};

    /// The string with nothing in it.
    pub fn empty() -> Quoted<'static>
        ensures { said result.bytes.now ≡ [] }
    {
        Quoted { bytes: b"\"" }
    }
}

//! Parts of a list of bytes.
ghost use Rattle.std.specs.Prelude.{◌≡◌, ◌≤◌, ◌<◌, length, drop, slice_index};
ghost use Rattle.std.specs.List.{prefix_len};
ghost use Rattle.std.specs.Char.{is_ascii_digit as digit};
ghost use Rattle.text_tokens.specs.Numbers.{is_number_byte as number_byte};
ghost use Rattle.text_tokens.specs.Numbers.{begins_with as begins};
ghost use Rattle.text_tokens.specs.Tokens.{is_letter as letter};
ghost use Rattle.text_tokens.specs.Plain.{is_plain as plain};

/// The bytes from an offset on.
pub fn bytes_from(bytes: &[u8], at: usize) -> &[u8]
    requires { at ≤ length bytes.now }
    ensures { result.now ≡ drop at bytes.now }
{
    &bytes[at..]
}

/// The byte at an offset, and 0 past the end.
pub fn byte_or_zero(bytes: &[u8], at: usize) -> u8
    ensures { result ≡ slice_index bytes.now at }
{
    if at < bytes.len() { bytes[at] } else { 0 }
}

/// Whether the first byte is this one. False where there is none.
pub fn begins_with(byte: u8, bytes: &[u8]) -> bool
    ensures { result ≡ begins byte bytes.now }
{
    !bytes.is_empty() && bytes[0] == byte
}

/// Whether a byte may stand in a number: a digit, a sign, a point, or the letter of an exponent.
pub fn is_number_byte(b: u8) -> bool
    ensures { result ≡ number_byte b }
{
    b.is_ascii_digit() || b == b'-' || b == b'+' || b == b'.' || b == b'e' || b == b'E'
}

/// Whether a byte is one of `a` to `z`.
pub fn is_letter(b: u8) -> bool
    ensures { result ≡ letter b }
{
    b'a' <= b && b <= b'z'
}

/// How many digits stand in front.
pub fn digits_len(bytes: &[u8]) -> usize
    ensures { result ≡ prefix_len digit bytes.now }
{
    for (i, b) in bytes.iter().enumerate() {
        if !b.is_ascii_digit() {
            return i;
        }
    }
    bytes.len()
}

/// How many bytes in front may stand in a number.
pub fn number_len(bytes: &[u8]) -> usize
    ensures { result ≡ prefix_len number_byte bytes.now }
{
    for (i, b) in bytes.iter().enumerate() {
        if !is_number_byte(*b) {
            return i;
        }
    }
    bytes.len()
}

/// How many letters stand in front.
pub fn letters_len(bytes: &[u8]) -> usize
    ensures { result ≡ prefix_len letter bytes.now }
{
    for (i, b) in bytes.iter().enumerate() {
        if !is_letter(*b) {
            return i;
        }
    }
    bytes.len()
}

/// A byte of a string that stands for itself.
pub fn is_unescaped_byte(b: u8) -> bool
    ensures { result ≡ plain b }
{
    32 <= b && b != b'"' && b != b'\\'
}

/// How many bytes of a string in front stand for themselves.
pub fn plain_len(bytes: &[u8]) -> usize
    ensures { result ≡ prefix_len plain bytes.now }
{
    for (i, b) in bytes.iter().enumerate() {
        if !is_unescaped_byte(*b) {
            return i;
        }
    }
    bytes.len()
}

//! What the names of an object say.
ghost use Rattle.std.specs.Prelude.{◌≡◌, IfOk, IfSome, bytes_eq};
ghost use Rattle.text_tokens.specs.Strings.{said};
ghost use Rattle.uc_text.specs.Known.{is_there, names_said, hash_of as hash_spec};
ghost use Rattle.std.specs.Ordering.{nat_cmp};
ghost use Rattle.std.specs.declared.cmp.Ordering.TheVariants.{Less};
ghost use Rattle.std.specs.Cmp.Lexicographic.{slice_cmp};

use std::alloc::{AllocError, Global};
use std::cmp::Ordering;
use std::hash::{DefaultHasher, Hasher};
use text_tokens::{Quoted, decode_quoted_string};

/// A name of an object, and the offset of its first byte.
#[derive(Clone, Copy)]
pub struct Name<'a> {
    /// The name as it is written.
    pub quoted: Quoted<'a>,
    /// How many bytes of the text stand before it.
    pub offset: u32,
}

#[tactic(auto, unfolding(crate::specs::Known::hash_of))]
fn hash_of_bytes(bytes: &[u8]) -> u64
    ensures { result ≡ hash_spec bytes.now }
{
    let mut hasher = DefaultHasher::new();
    hasher.write(bytes);
    hasher.finish()
}

/// The hash of what a name says.
pub fn name_hash(alloc: Global, name: Quoted<'_>) -> Result<u64, AllocError>
    ensures { IfOk result (λ hash. hash ≡ hash_spec (said name.entry.bytes.now)) }
{
    if let Some(text) = name.bytes_if_unescaped() {
        return Ok(hash_of_bytes(text));
    }
    let text = decode_quoted_string(alloc, name)?;
    Ok(hash_of_bytes(text.as_bytes()))
}

/// Whether one of the names says this text.
fn is_equal_to_any_name(names: &[Name<'_>], text: &[u8]) -> bool
    ensures { result ≡ is_there text.now (names_said names.now) }
{
    for name in names {
        if name.quoted.decodes_to_bytes(text) {
            return true;
        }
    }
    false
}

/// Whether one of the names says the same as this one.
pub fn is_name_among(
    alloc: Global,
    names: &[Name<'_>],
    name: Quoted<'_>,
) -> Result<bool, AllocError>
    ensures { IfOk result
        (λ among. among ≡ is_there (said name.entry.bytes.now) (names_said names.now)) }
{
    if let Some(text) = name.bytes_if_unescaped() {
        return Ok(is_equal_to_any_name(names, text));
    }
    let text = decode_quoted_string(alloc, name)?;
    Ok(is_equal_to_any_name(names, text.as_bytes()))
}

/// Whether two names say the same.
pub fn are_names_equal(
    alloc: Global,
    name: Quoted<'_>,
    other: Quoted<'_>,
) -> Result<bool, AllocError>
    ensures { IfOk result
        (λ same. same ≡ bytes_eq (said name.entry.bytes.now) (said other.entry.bytes.now)) }
{
    if let Some(text) = other.bytes_if_unescaped() {
        return Ok(name.decodes_to_bytes(text));
    }
    let text = decode_quoted_string(alloc, other)?;
    Ok(name.decodes_to_bytes(text.as_bytes()))
}

/// What a name says, where no byte of it is an escape and it's above the last one.
pub fn unescaped_name_if_greater<'a>(last: &[u8], name: Quoted<'a>) -> Option<&'a [u8]>
    ensures says { IfSome result (λ text. text.now ≡ said name.entry.bytes.now) }
    ensures above { IfSome result (λ text. slice_cmp nat_cmp last.now text.now ≡ Less) }
{
    let text = name.bytes_if_unescaped()?;
    match last.cmp(text) {
        Ordering::Less => Some(text),
        _ => None,
    }
}

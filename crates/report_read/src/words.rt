//! Words and single bytes.
ghost use Rattle.report_read.specs.Words.{Finds, behind as behind_spec};

use text_tokens::bytes_from;

/// The bytes behind a word, where it stands in front.
#[tactic(auto, using(crate::proofs::Steps::behind_loop))]
pub fn rest_after_word<'a>(word: &[u8], bytes: &'a [u8]) -> Option<&'a [u8]>
    ensures { Finds (λ rest. rest.now) result (behind_spec word.now bytes.now) }
{
    for (offset, byte) in word.iter().enumerate() {
        if bytes.len() <= offset || bytes[offset] != *byte {
            return None;
        }
    }
    Some(bytes_from(bytes, word.len()))
}

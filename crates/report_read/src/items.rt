//! Lists over the periods: each item behind a space.
ghost use Rattle.std.specs.Prelude.{◌≡◌, ◌≤◌, []};
ghost use Rattle.report_read.specs.Words.{Finds, spaced, items_at as items_spec};

use crate::values::ValueForm;
use crate::words::rest_after_word;
use plain_lists::lists::ReservedList;

#[tactic(auto, unfolding(crate::specs::Words::spaced))]
fn parse_spaced_item<F: ValueForm>(item: F, bytes: &[u8]) -> Option<(F::Value, &[u8])>
    ensures { Finds (λ x. (x.0, x.1.now)) result (spaced (F.found item) bytes.now) }
{
    let rest = rest_after_word(b" ", bytes)?;
    item.at(rest)
}

/// Fills an empty list that has room with so many items, and gives the bytes behind them.
pub fn parse_spaced_items<'a, F: ValueForm>(
    list: &mut ReservedList<F::Value>,
    item: F,
    count: u32,
    bytes: &'a [u8],
) -> Option<&'a [u8]>
    requires empty { list.old.items ≡ [] }
    requires room { count ≤ list.old.spare }
    ensures { Finds (λ rest. (list.new.items, rest.now)) result
        (items_spec (spaced (F.found item)) count bytes.now) }
{
    let mut rest = bytes;
    for _ in 0..count {
        let (next, after) = parse_spaced_item(item, rest)?;
        list.push(next);
        rest = after;
    }
    Some(rest)
}

//! Weights of a unit's entries. They only move from one entry to another, so what they sum to never
//! changes.
ghost use Rattle.std.specs.Prelude.{◌≡◌, ◌<◌, ◌≤◌, pos, ◌+ℤ◌, ◌-ℤ◌, ◌≤ℤ◌, length};
ghost use Rattle.plain_lists.specs.Ranges.{IsFrom};
ghost use Rattle.gap_proof.specs.Mixtures.{entries_of, AreShares, most_whole};
ghost use Rattle.bundle_columns.specs.Weights.{weight_at as weight_of, reweighed, StaysKept};

use gap_proof::Entries;
use plain_lists::lists::Numbers;

/// What the weights of each unit sum to.
pub const WHOLE: i64 = 1_000_000_000_000;

/// The weight of the entry at an index.
pub fn weight_at(entries: &Entries, index: usize) -> i64
    requires { index < length entries.now.items }
    ensures { result ≡ weight_of (entries_of entries.now) index }
{
    entries.get(index).weight
}

// Writes the weight of the entry at an index.
fn set_weight(entries: &mut Entries, index: usize, weight: i64)
    requires { index < length entries.old.items }
    ensures { entries_of entries.new ≡ reweighed (entries_of entries.old) index weight }
{
    entries.get_mut(index).weight = weight;
}

// A weight without a part of it.
fn difference_of_weights(weight: i64, amount: i64) -> i64
    requires weight { weight ≤ℤ most_whole }
    requires amount { IsFrom (pos 0) weight amount }
    ensures { result ≡ weight -ℤ amount }
{
    weight - amount
}

// A weight with another.
fn sum_of_two_weights(weight: i64, amount: i64) -> i64
    requires weight { IsFrom (pos 0) most_whole weight }
    requires amount { IsFrom (pos 0) most_whole amount }
    ensures { result ≡ weight +ℤ amount }
{
    weight + amount
}

// Moves so much of the weight of one entry to another.
fn move_weight(entries: &mut Entries, from: usize, to: usize, amount: i64)
    requires from { from < length entries.old.items }
    requires to { to < length entries.old.items }
    requires shares { AreShares most_whole (entries_of entries.old) }
    requires amount { IsFrom (pos 0) (weight_of (entries_of entries.old) from) amount }
    ensures stays { StaysKept (entries_of entries.old) (entries_of entries.new) }
    ensures shares { AreShares most_whole (entries_of entries.new) }
    ensures count { length entries.new.items ≡ length entries.old.items }
{
    let given = difference_of_weights(weight_at(entries, from), amount);
    set_weight(entries, from, given);
    let taken = sum_of_two_weights(weight_at(entries, to), amount);
    set_weight(entries, to, taken);
}

// Moves all weight to one entry.
fn move_all_weight_to_entry(entries: &mut Entries, base: usize)
    requires base { base < length entries.old.items }
    requires shares { AreShares most_whole (entries_of entries.old) }
    ensures stays { StaysKept (entries_of entries.old) (entries_of entries.new) }
    ensures shares { AreShares most_whole (entries_of entries.new) }
    ensures count { length entries.new.items ≡ length entries.old.items }
{
    for index in 0..entries.len() {
        let amount = weight_at(entries, index);
        move_weight(entries, index, base, amount);
    }
}

// Moves as much as is wanted of one entry's weight to another, or all that it has.
fn move_wanted_weight(entries: &mut Entries, base: usize, index: usize, wanted: i64)
    requires base { base < length entries.old.items }
    requires index { index < length entries.old.items }
    requires shares { AreShares most_whole (entries_of entries.old) }
    ensures stays { StaysKept (entries_of entries.old) (entries_of entries.new) }
    ensures shares { AreShares most_whole (entries_of entries.new) }
    ensures count { length entries.new.items ≡ length entries.old.items }
{
    let left = weight_at(entries, base);
    move_weight(entries, base, index, wanted.clamp(0, left));
}

// The place of the greatest number, the first of several.
fn index_of_greatest_number(numbers: &Numbers) -> usize
    requires { 1 ≤ length numbers.now.items }
    ensures { result < length numbers.now.items }
{
    let mut best = 0;
    for index in 1..numbers.len() {
        if *numbers.get(index) > *numbers.get(best) {
            best = index;
        }
    }
    best
}

/// Gives each entry the weight that is wanted for it, as far as there is some left. The entry for
/// which most is wanted takes what the others leave.
pub fn redistribute_entry_weights(entries: &mut Entries, wanted: &Numbers)
    requires some { 1 ≤ length entries.old.items }
    requires wanted { length wanted.now.items ≡ length entries.old.items }
    requires shares { AreShares most_whole (entries_of entries.old) }
    ensures stays { StaysKept (entries_of entries.old) (entries_of entries.new) }
    ensures shares { AreShares most_whole (entries_of entries.new) }
    ensures count { length entries.new.items ≡ length entries.old.items }
{
    let base = index_of_greatest_number(wanted);
    move_all_weight_to_entry(entries, base);
    for index in 0..wanted.len() {
        if index != base {
            move_wanted_weight(entries, base, index, *wanted.get(index));
        }
    }
}

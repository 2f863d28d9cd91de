//! Which of an object's names is the first that stands before it too: names in order are passed,
//! few are compared with one another, and many by the order of their hashes, which takes no step
//! into memory that isn't near.
ghost use Rattle.std.specs.Prelude.{◌≡◌, ◌≢◌, ◌/◌, ◌%◌, ◌<◌, ◌≤◌, ℕ, [], true, false, length};
ghost use Rattle.std.specs.Prelude.{take, Contains, IfOk, slice_index_or};
ghost use Rattle.std.specs.List.Sorted.{IsNonDecreasing};
ghost use Rattle.uc_text.specs.Known.{names_said, AreDifferent, IsFirst, AreKeys};

use crate::names::{Name, are_names_equal, is_name_among, name_hash, unescaped_name_if_greater};
use std::alloc::{AllocError, Global};

/// So many names are compared one after the other.
const FEW: usize = 8;

/// A key is the front of a name's hash, and behind it the name's index, which is below this.
const SPAN: u64 = 16_777_216;

/// Whether each name is above the one before it.
fn names_ascend(names: &[Name<'_>]) -> bool
    ensures { result ≡ true → AreDifferent (names_said names.now) }
{
    let mut last: &[u8] = b"";
    for name in names {
        let Some(text) = unescaped_name_if_greater(last, name.quoted) else {
            return false;
        };
        last = text;
    }
    true
}

/// The first double name, where each is compared with all before it.
fn first_duplicate_by_comparison(alloc: Global, names: &[Name<'_>]) -> Result<usize, AllocError>
    ensures { IfOk result (λ n. IsFirst (names_said names.now) n) }
{
    for (index, name) in names.iter().enumerate() {
        if is_name_among(alloc, &names[..index], name.quoted)? {
            return Ok(index);
        }
    }
    Ok(names.len())
}

/// The keys of the names, in their order.
fn hash_keys_of(alloc: Global, names: &[Name<'_>]) -> Result<Vec<u64>, AllocError>
    requires { length names.now ≤ 16777216 }
    ensures { IfOk result (λ keys. AreKeys (names_said names.now) keys.items) }
{
    let mut keys = Vec::with_capacity(alloc, names.len())?;
    for (index, name) in names.iter().enumerate() {
        let hash = name_hash(alloc, name.quoted)?;
        keys.push(hash / SPAN * SPAN + index as u64)?;
    }
    Ok(keys)
}

fn index_in_key(key: u64) -> usize
    ensures { result ≡ key % 16777216 }
{
    (key % SPAN) as usize
}

/// Whether the name of a key says the same as one before it whose key is among these, of the last
/// ones that have the key's front.
fn is_duplicate_name(
    alloc: Global,
    names: &[Name<'_>],
    keys: &[u64],
    key: u64,
) -> Result<bool, AllocError>
    requires { key % 16777216 < length names.now }
    ensures some { IfOk result (λ double. double ≡ true
        → Contains (take (key % 16777216) (names_said names.now))
        (slice_index_or (names_said names.now) (key % 16777216) [])) }
    ensures none { IfOk result (λ double. double ≡ false
        → (p : ℕ) → p < length keys.now
        → ((q : ℕ) → p ≤ q → q < length keys.now
        → slice_index_or keys.now q 0 / 16777216 ≡ key / 16777216)
        → slice_index_or keys.now p 0 % 16777216 < key % 16777216
        → slice_index_or (names_said names.now) (slice_index_or keys.now p 0 % 16777216) []
        ≢ slice_index_or (names_said names.now) (key % 16777216) []) }
{
    let index = index_in_key(key);
    let mut back = keys.len();
    'back: while back > 0 && keys[back - 1] / SPAN == key / SPAN {
        back -= 1;
        let other = index_in_key(keys[back]);
        if other < index && are_names_equal(alloc, names[other].quoted, names[index].quoted)? {
            return Ok(true);
        }
    }
    Ok(false)
}

/// The first double name, by the keys of all names in ascending order.
fn first_duplicate_by_hash_keys(
    alloc: Global,
    names: &[Name<'_>],
    keys: &[u64],
) -> Result<usize, AllocError>
    requires few { length names.now ≤ 16777216 }
    requires keys { AreKeys (names_said names.now) keys.now }
    requires sorted { IsNonDecreasing keys.now }
    ensures { IfOk result (λ n. IsFirst (names_said names.now) n) }
{
    let mut found = names.len();
    for (place, key) in keys.iter().enumerate() {
        let index = index_in_key(*key);
        if index < found && is_duplicate_name(alloc, names, &keys[..place], *key)? {
            found = index;
        }
    }
    Ok(found)
}

/// The first double name, by the order of the names' hashes.
fn first_duplicate_by_hashing(alloc: Global, names: &[Name<'_>]) -> Result<usize, AllocError>
    requires { length names.now ≤ 16777216 }
    ensures { IfOk result (λ n. IsFirst (names_said names.now) n) }
{
    let mut keys = hash_keys_of(alloc, names)?;
    keys.sort_unstable();
    first_duplicate_by_hash_keys(alloc, names, &keys)
}

/// The index of the first name that says the same as one before it, and how many names there are
/// where none does.
pub fn first_duplicate_name(alloc: Global, names: &[Name<'_>]) -> Result<usize, AllocError>
    ensures { IfOk result (λ n. IsFirst (names_said names.now) n) }
{
    if names_ascend(names) {
        return Ok(names.len());
    }
    // No text has more names than keys can tell.
    if names.len() <= FEW || names.len() as u64 > SPAN {
        return first_duplicate_by_comparison(alloc, names);
    }
    first_duplicate_by_hashing(alloc, names)
}

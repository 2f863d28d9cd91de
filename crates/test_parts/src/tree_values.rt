//! What the values of a tree must be.
use crate::same::same;
use std::process::Abort;
use text_tokens::Decimal;
use uc_text::{Branch, ListBranch, ObjectBranch};

/// The object that a value is. Ends the test where it is none.
pub fn object_in<'a>(rt: &impl Abort, value: Branch<'a>) -> ObjectBranch<'a> {
    let Some(object) = value.object() else {
        panic!(rt; "no object");
    };
    object
}

/// The list that a value is. Ends the test where it is none.
pub fn list_in<'a>(rt: &impl Abort, value: Branch<'a>) -> ListBranch<'a> {
    let Some(list) = value.list() else {
        panic!(rt; "no list");
    };
    list
}

/// Ends the test where the items are not as many as these, and each this number or no number.
pub fn numbers_are(rt: &impl Abort, items: &[Branch], due: &[Option<Decimal>]) {
    same(rt, items.len(), due.len());
    for place in 0..due.len() {
        assert!(rt; place < items.len());
        same(rt, items[place].number(), due[place]);
    }
}

//! A text with some parts changed, so that a row of a test says only what differs.
use std::alloc::Global;
use std::string::String;
use std::test::Fail;

// A part of a text, and what is to stand in its place.
pub(crate) type Change = (&'static str, &'static str);

// The text with that change, where the part stands first.
pub(crate) fn changed_once(alloc: Global, from: &str, change: &Change) -> Result<String, Fail> {
    let (old, new) = *change;
    let mut text = String::new(alloc);
    let Some((front, back)) = from.split_once(old) else {
        return Err(Fail::new("the text has no such part"));
    };
    text.push_str(front)?;
    text.push_str(new)?;
    text.push_str(back)?;
    Ok(text)
}

// The text with these changes, one after another.
pub(crate) fn changed(alloc: Global, from: &str, changes: &[Change]) -> Result<String, Fail> {
    let mut text = String::new(alloc);
    text.push_str(from)?;
    for change in changes {
        text = changed_once(alloc, text.as_str(), change)?;
    }
    Ok(text)
}

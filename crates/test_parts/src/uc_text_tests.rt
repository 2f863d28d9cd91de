use crate::same::{same, same_of};
use crate::tree_values::{list_in, numbers_are, object_in};
use std::alloc::{AllocError, Global};
use std::process::Abort;
use std::test::Fail;
use text_tokens::Decimal;
use uc_text::{Branch, ListBranch, ObjectBranch, TextError, Tree, read_tree};

/// The code and the offset of the fault of a text, or zeros where it has none.
fn answer_of(alloc: Global, bytes: &[u8]) -> (u32, u32) {
    if bytes.len() > 1000 {
        return (32, 0);
    }
    match read_tree(alloc, bytes) {
        Ok(_) => (0, 0),
        Err(TextError::Fault(fault)) => (fault.code.number(), fault.offset),
        Err(TextError::Memory) => (1, 0),
    }
}

/// Texts, each with the code and the offset of its fault.
const FAULTS: &[(&[u8], u32, u32)] = &[
    (b"[1,]", 10, 3),
    (b"01", 10, 0),
    (b"{\"a\":1}x", 10, 7),
    (b"\"\\ud800\"", 10, 0),
    (b"\xEF\xBB\xBF{}", 10, 0),
    (b"[[[[[[[[[[[[[[[[[[[[[[[[[[[[[[[[[", 12, 32),
    (
        b"[[[[[[[[[[[[[[[[[[[[[[[[[[[[[[[[]]]]]]]]]]]]]]]]]]]]]]]]]]]]]]]]",
        0,
        0,
    ),
    (b"{\"a\":1,\"\\u0061\":2}", 13, 7),
    (b"1e401", 11, 0),
    (b"1e400", 0, 0),
    (b" -1.5e-0000400 ", 0, 0),
    (b"[1, 1234567890123456789012345678901]", 11, 4),
    (b"-0.000123456789012345678901234567890", 0, 0),
    (b"0e401", 11, 0),
    (b"-01", 10, 0),
    (b"trueF", 10, 4),
    (b"tru", 10, 0),
    (b"-", 10, 0),
    (b"1e", 10, 0),
    (b"[tru", 10, 1),
    (b"[\"a", 10, 1),
    (b"[[", 10, 2),
    (b"", 10, 0),
    (b"[true, false, null, \"\\ud83d\\ude00\\n\"]", 0, 0),
    (b"\"\xC3\"", 10, 0),
    (b"\"a\tb\"", 10, 0),
    (b"{\"a\":1,}", 10, 7),
    (b"{\"a\":{\"a\":1},\"b\":[{\"a\":2}]}", 0, 0),
];

#[test]
fn faults(rt: HostRuntime) -> Result<(), Fail> {
    for (bytes, code, offset) in FAULTS {
        same_of(&rt, bytes, answer_of(rt.alloc(), bytes), (*code, *offset));
    }
    Ok(())
}

/// Where the strings of the file below begin and end.
const STRINGS: &[(u32, u32)] = &[
    (1, 15),
    (18, 26),
    (33, 43),
    (48, 68),
    (72, 94),
    (96, 99),
    (101, 123),
    (128, 150),
];

// Where the fault of that file is when it is cut there: at the start of a string that is cut.
fn offset_of_cut(len: u32) -> u32 {
    for (open, behind) in STRINGS {
        if *open < len && len < *behind {
            return *open;
        }
    }
    len
}

#[test]
fn a_file_cut_at_each_length(rt: HostRuntime) -> Result<(), Fail> {
    let file: &[u8] =
        b"{\"time_periods\":1,\"demand\":[100],\"reserves\":[0],\"thermal_generators\":{},\
          \"renewable_generators\":{\"W\":{\"power_output_minimum\":[0],\
          \"power_output_maximum\":[100]}}}";
    for len in 0..file.len() {
        let due = (10, offset_of_cut(len as u32));
        same_of(&rt, &len, answer_of(rt.alloc(), &file[..len]), due);
    }
    same(&rt, answer_of(rt.alloc(), file), (0, 0));
    Ok(())
}

// The value of the only member of an object, which has that name.
fn only_value<'a>(
    rt: &impl Abort,
    alloc: Global,
    object: ObjectBranch<'a>,
    name: &str,
) -> Result<Branch<'a>, AllocError> {
    let members = object.members(alloc)?;
    assert!(rt; members.len() == 1 && members[0].name.decodes_to_text(name));
    Ok(members[0].value)
}

fn has_numbers(
    rt: &impl Abort,
    alloc: Global,
    list: ListBranch,
    due: &[Option<Decimal>],
) -> Result<(), AllocError> {
    let items = list.items(alloc)?;
    numbers_are(rt, &items, due);
    Ok(())
}

const SMALL: Decimal = Decimal {
    negative: true,
    digits: 1250,
    exponent: 1,
};

const LARGE: Decimal = Decimal {
    negative: false,
    digits: 12345678901,
    exponent: 0,
};

fn has_values(rt: &impl Abort, alloc: Global, tree: &Tree) -> Result<(), AllocError> {
    let object = object_in(rt, tree.root());
    let value = only_value(rt, alloc, object, "k\u{e9}")?;
    let list = list_in(rt, value);
    has_numbers(rt, alloc, list, &[Some(SMALL), None, Some(LARGE)])
}

#[test]
fn values(rt: HostRuntime) -> Result<(), Fail> {
    let bytes: &[u8] = b"{\"k\\u00e9\":[-12.50e3,true,12345678901]}";
    let tree = read_tree(rt.alloc(), bytes)?;
    has_values(&rt, rt.alloc(), &tree)?;
    Ok(())
}

fn push_name(alloc: Global, text: &mut String, number: u32) -> Result<(), AllocError> {
    let member = format!(in alloc; "\"name{number}\":{number},")?;
    text.push_str(&member)
}

fn push_last(alloc: Global, text: &mut String, name: &str) -> Result<(), AllocError> {
    let member = format!(in alloc; "\"{name}\":0}}")?;
    text.push_str(&member)
}

/// An object of so many distinct names, and then this one.
fn names_and(alloc: Global, count: u32, last: &str) -> Result<String, AllocError> {
    let mut text = String::from_str(alloc, "{")?;
    for number in 0..count {
        push_name(alloc, &mut text, number)?;
    }
    push_last(alloc, &mut text, last)?;
    Ok(text)
}

// The code of the fault of such an object.
fn fault_of_name(alloc: Global, count: u32, last: &str) -> Result<u32, AllocError> {
    let text = names_and(alloc, count, last)?;
    Ok(answer_of(alloc, text.as_bytes()).0)
}

/// Names, each with the code of the fault where it stands behind others.
const LAST_NAMES: &[(&str, u32)] = &[
    ("name0", 13),
    ("n\\u0061me0", 13),
    ("other", 0),
    ("oth\\u0065r", 0),
];

#[test]
fn a_name_among_many(rt: HostRuntime) -> Result<(), Fail> {
    for count in [1, 7, 8, 9, 10, 40] {
        for (last, due) in LAST_NAMES {
            let found = fault_of_name(rt.alloc(), count, last)?;
            same_of(&rt, &(count, *last), found, *due);
        }
    }
    Ok(())
}

use crate::same::same;
use crate::tree_values::{list_in, numbers_are, object_in};
use std::alloc::{AllocError, Global};
use std::process::Abort;
use std::test::Fail;
use text_tokens::small::SmallNumber;
use text_tokens::{Decimal, Quoted, decode_quoted_string};
use uc_text::{ListBranch, Member, Node, ObjectBranch, Parts, Tree};

const SEVEN: SmallNumber = SmallNumber {
    digits: 7,
    exponent: 0,
    negative: false,
};

const LARGE: Decimal = Decimal {
    negative: false,
    digits: 12345678901,
    exponent: 0,
};

fn name_is(rt: &impl Abort, alloc: Global, name: Quoted, due: &str) -> Result<(), AllocError> {
    let name = decode_quoted_string(alloc, name)?;
    same(rt, name.as_str(), due);
    Ok(())
}

fn two_members<'a>(
    rt: &impl Abort,
    alloc: Global,
    object: ObjectBranch<'a>,
) -> Result<(Member<'a>, Member<'a>), AllocError> {
    let members = object.members(alloc)?;
    assert!(rt; members.len() == 2 && object.len() == 2);
    Ok((members[0], members[1]))
}

// A list of two numbers and a null.
fn list_is(rt: &impl Abort, alloc: Global, list: ListBranch) -> Result<(), AllocError> {
    let items = list.items(alloc)?;
    numbers_are(rt, &items, &[Some(SEVEN.decimal()), Some(LARGE), None]);
    assert!(rt; items.len() == 3 && list.len() == 3 && items[2].is_null());
    Ok(())
}

fn tree_is(rt: &impl Abort, alloc: Global, tree: &Tree) -> Result<(), AllocError> {
    let object = object_in(rt, tree.root());
    let (first, second) = two_members(rt, alloc, object)?;
    name_is(rt, alloc, first.name, "a")?;
    list_is(rt, alloc, list_in(rt, first.value))?;
    same(rt, object_in(rt, second.value).len(), 0);
    Ok(())
}

#[test]
fn an_object_of_a_list_and_an_object(rt: HostRuntime) -> Result<(), Fail> {
    let bytes: &[u8] = b"{\"\\u0061\":[7,12345678901,null],\"b\":{}}";
    let nodes = vec![in rt.alloc();
        Node::Object(Parts { count: 2, nodes: 7 }),
        Node::Text(1),
        Node::List(Parts { count: 3, nodes: 3 }),
        Node::Number(SEVEN),
        Node::LargeNumber(13),
        Node::Null,
        Node::Text(31),
        Node::Object(Parts { count: 0, nodes: 0 }),
    ]?;
    tree_is(&rt, rt.alloc(), &Tree { bytes, nodes })?;
    Ok(())
}

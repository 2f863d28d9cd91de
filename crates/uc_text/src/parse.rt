//! From tokens to a tree.
ghost use Rattle.std.specs.Prelude.{◌≡◌, ◌<◌, ◌≤◌, ◌+◌, ◌^◌, ◌∷◌, ◌++◌, [], ℕ, List, length, IfOk};
ghost use Rattle.std.specs.Prelude.{OnOk};
ghost use Rattle.uc_text.specs.Known.{names_said, AreDifferent};
ghost use Rattle.uc_text.specs.Later.{DoublesStop};
ghost use Rattle.uc_text.specs.Grammar.{open_list, open_object};
ghost use Rattle.uc_text.specs.Parts.{names as names_of};
ghost use Rattle.uc_text.specs.Pairs.{Pair};
ghost use Rattle.uc_text.specs.Adds.{Adds, IsOne, in_turn};
ghost use Rattle.text_tokens.specs.Tokens.{Lexed};
ghost use Rattle.uc_text.specs.Offsets.{NextIs, seen, Reads, ReadsItems, ReadsMembers, StuckAt};
ghost use Rattle.uc_text.specs.Offsets.{AtItem, IfFault};
ghost use Rattle.text_tokens.specs.Ahead.{rest, ahead};
ghost use Rattle.text_tokens.specs.Stands.{StandsAt};
ghost use Rattle.uc_text.specs.Texts.{IsText, IsFirstFault};
ghost use Rattle.uc_text.specs.Answers.{GivesTree, GivesFault};
ghost use Rattle.uc_text.specs.Values.{Value, scalar, long_number};
ghost use Rattle.uc_text.specs.Faults.{IsShort};
ghost use Rattle.text_tokens.specs.Seen.{scalar_of};
ghost use Rattle.uc_text.specs.declared.fault.TextFault.{TextFault};
ghost use Rattle.uc_text.specs.View.{tree_view};
ghost use Rattle.plain_lists.specs.declared.limits.TheConstants.{MOST_BYTES};

use crate::doubles::first_duplicate_name;
use crate::fault::{TextCode, TextError, TextFault};
use crate::names::Name;
use crate::node::{Node, Parts};
use crate::tree::Tree;
use std::alloc::{AllocError, Global};
use text_tokens::{Lexeme, Reader, Token, Word};

/// How many lists and objects may stand within one another.
const LEVELS: u32 = 32;

fn text_error(code: TextCode, offset: u32) -> TextError
    ensures { result ≡ TextError.Fault (record { code = code; offset = offset }) }
{
    TextError::Fault(TextFault { code, offset })
}

/// The node of a value of one token, unless it's a number that is too long.
fn word_node(word: Word<'_>, offset: u32) -> Result<Node, TextError>
    ensures ok { IfOk result (λ node. (bytes : List ℕ)
        → StandsAt bytes offset (Token.Word word.entry)
        → IsOne bytes node (scalar (scalar_of word.entry))) }
    ensures short { OnOk result (IsShort (scalar_of word.entry)) }
    ensures fault { IfFault result (λ f. (scalar_of word.entry ≡ long_number)
        × (f ≡ record { code = TextCode.NumberTooLong; offset = offset })) }
{
    match word {
        Word::Null => Ok(Node::Null),
        Word::Flag(flag) => Ok(Node::Flag(flag)),
        Word::Number(small) => Ok(Node::Number(small)),
        Word::LargeNumber(_) => Ok(Node::LargeNumber(offset)),
        Word::LongNumber => Err(text_error(TextCode::NumberTooLong, offset)),
    }
}

/// The parts of the node at an index, where all nodes behind it are inside its value.
fn parts_of_list_or_object(count: u32, at: usize, nodes: usize) -> Parts
    requires behind { at < nodes }
    requires few { nodes ≤ at + 2 ^ 30 }
    ensures count { result.count ≡ count }
    ensures nodes { result.nodes + (at + 1) ≡ nodes }
{
    Parts {
        count,
        nodes: (nodes - at - 1) as u32,
    }
}

/// The value that begins with a token, where so many levels are left.
#[cycle(read)]
fn read_value<'a>(
    alloc: Global,
    reader: &mut Reader<'a>,
    first: Lexeme<'a>,
    left: u32,
    nodes: &mut Vec<Node>,
) -> Result<(), TextError>
    requires { StandsAt reader.old.bytes.now first.offset first.token }
    ensures ok { OnOk result ((ts : List Lexed)
        → NextIs ts (seen first.entry) (rest reader.old)
        → (v : Value) × Reads left ts v (rest reader.new)
        × Adds reader.old.bytes.now nodes.old.items nodes.new.items (v ∷ [])) }
    ensures fault { IfFault result (λ f. (ts : List Lexed)
        → NextIs ts (seen first.entry) (rest reader.old)
        → StuckAt left [] ts f) }
    ensures ahead { OnOk result (ahead reader.new ≤ ahead reader.old) }
    ensures fewer { OnOk result (length nodes.new.items + ahead reader.new
        ≤ length nodes.old.items + ahead reader.old + 1) }
    ensures same { OnOk result (reader.new.bytes.now ≡ reader.old.bytes.now) }
{
    match first.token {
        Token::Word(word) => {
            let node = word_node(word, first.offset)?;
            Ok(nodes.push(node)?)
        }
        Token::Text(_) => Ok(nodes.push(Node::Text(first.offset))?),
        Token::OpenList => {
            if left == 0 {
                return Err(text_error(TextCode::TooDeep, first.offset));
            }
            let at = nodes.len();
            // (it keeps the place of the list's node)
            nodes.push(Node::Null)?;
            let count = read_items(alloc, reader, left, nodes)?;
            nodes[at] = Node::List(parts_of_list_or_object(count, at, nodes.len()));
            Ok(())
        }
        Token::OpenObject => {
            if left == 0 {
                return Err(text_error(TextCode::TooDeep, first.offset));
            }
            let at = nodes.len();
            // (it keeps the place of the object's node)
            nodes.push(Node::Null)?;
            let count = read_members(alloc, reader, left, nodes)?;
            nodes[at] = Node::Object(parts_of_list_or_object(count, at, nodes.len()));
            Ok(())
        }
        _ => Err(text_error(TextCode::NotJson, first.offset)),
    }
}

/// Numbers of few digits with a comma behind each, as long as they come: how many.
fn read_short_numbers(reader: &mut Reader<'_>, nodes: &mut Vec<Node>) -> Result<u32, AllocError>
    ensures passed { IfOk result (λ count. (us : List Value) × (count ≡ length us)
        × Adds reader.old.bytes.now nodes.old.items nodes.new.items us
        × ((m : ℕ) (all : List Lexed) (vs : List Value) → AtItem m all vs (rest reader.old)
        → AtItem m all (vs ++ us) (rest reader.new))) }
    ensures few { IfOk result (λ count. count + ahead reader.new ≤ ahead reader.old) }
    ensures fewer { OnOk result (length nodes.new.items + ahead reader.new
        ≤ length nodes.old.items + ahead reader.old) }
    ensures same { reader.new.bytes.now ≡ reader.old.bytes.now }
{
    let mut count = 0;
    'numbers: loop {
        let Some(small) = reader.number_and_comma() else {
            return Ok(count);
        };
        nodes.push(Node::Number(small))?;
        count += 1;
    }
}

/// The items behind an opening bracket, and the closing bracket: how many items.
#[cycle(read)]
fn read_items<'a>(
    alloc: Global,
    reader: &mut Reader<'a>,
    left: u32,
    nodes: &mut Vec<Node>,
) -> Result<u32, TextError>
    requires { 0 < left }
    ensures ok { IfOk result (λ count. (vs : List Value) × (count ≡ length vs)
        × ReadsItems left (rest reader.old) vs (rest reader.new)
        × Adds reader.old.bytes.now nodes.old.items nodes.new.items vs) }
    ensures fault { IfFault result (λ f. StuckAt left (open_list ∷ []) (rest reader.old) f) }
    ensures ahead { OnOk result (ahead reader.new ≤ ahead reader.old) }
    ensures fewer { OnOk result (length nodes.new.items + ahead reader.new
        ≤ length nodes.old.items + ahead reader.old) }
    ensures same { OnOk result (reader.new.bytes.now ≡ reader.old.bytes.now) }
{
    let mut count = 0;
    let mut first = reader.next();
    if let Token::CloseList = first.token {
        return Ok(count);
    }
    'items: loop {
        read_value(alloc, reader, first, left - 1, nodes)?;
        count += 1;
        let behind = reader.next();
        match behind.token {
            Token::Comma => {
                count += read_short_numbers(reader, nodes)?;
                first = reader.next();
            }
            Token::CloseList => return Ok(count),
            _ => return Err(text_error(TextCode::NotJson, behind.offset)),
        }
    }
}

/// The members behind an opening brace, and the closing brace: how many members.
///
/// Which name is the first double one is asked once the object ends or has a fault: a double name
/// stands before any fault that was met, and so goes first.
#[cycle(read)]
fn read_members<'a>(
    alloc: Global,
    reader: &mut Reader<'a>,
    left: u32,
    nodes: &mut Vec<Node>,
) -> Result<u32, TextError>
    requires { 0 < left }
    ensures ok { IfOk result (λ count. (ps : List Pair) × (count ≡ length ps)
        × ReadsMembers left (rest reader.old) ps (rest reader.new)
        × Adds reader.old.bytes.now nodes.old.items nodes.new.items (in_turn ps)) }
    ensures fault { IfFault result (λ f. StuckAt left (open_object ∷ []) (rest reader.old) f) }
    ensures ahead { OnOk result (ahead reader.new ≤ ahead reader.old) }
    ensures fewer { OnOk result (length nodes.new.items + ahead reader.new
        ≤ length nodes.old.items + ahead reader.old) }
    ensures same { OnOk result (reader.new.bytes.now ≡ reader.old.bytes.now) }
{
    let mut names = Vec::new(alloc);
    let read = read_members_and_note_names(alloc, reader, left, nodes, &mut names);
    let double = first_duplicate_name(alloc, &names)?;
    if double < names.len() {
        return Err(text_error(TextCode::DoubleKey, names[double].offset));
    }
    read
}

/// The same whether or not names are different, with a note of each name.
#[cycle(read)]
fn read_members_and_note_names<'a>(
    alloc: Global,
    reader: &mut Reader<'a>,
    left: u32,
    nodes: &mut Vec<Node>,
    names: &mut Vec<Name<'a>>,
) -> Result<u32, TextError>
    requires left { 0 < left }
    requires none { names.old.items ≡ [] }
    ensures ok { IfOk result (λ count. (ps : List Pair) × (count ≡ length ps)
        × (names_said names.new.items ≡ names_of ps)
        × (AreDifferent (names_of ps) → ReadsMembers left (rest reader.old) ps (rest reader.new))
        × Adds reader.old.bytes.now nodes.old.items nodes.new.items (in_turn ps)) }
    ensures fault { IfFault result (λ f. AreDifferent (names_said names.new.items)
        → StuckAt left (open_object ∷ []) (rest reader.old) f) }
    ensures doubles { DoublesStop left (rest reader.old) names.new.items }
    ensures ahead { OnOk result (ahead reader.new ≤ ahead reader.old) }
    ensures fewer { OnOk result (length nodes.new.items + ahead reader.new
        ≤ length nodes.old.items + ahead reader.old) }
    ensures same { OnOk result (reader.new.bytes.now ≡ reader.old.bytes.now) }
{
    let mut count = 0;
    let mut first = reader.next();
    if let Token::CloseObject = first.token {
        return Ok(count);
    }
    'members: loop {
        let Token::Text(quoted) = first.token else {
            return Err(text_error(TextCode::NotJson, first.offset));
        };
        let offset = first.offset;
        names.push(Name { quoted, offset })?;
        nodes.push(Node::Text(offset))?;
        let between = reader.next();
        let Token::Colon = between.token else {
            return Err(text_error(TextCode::NotJson, between.offset));
        };
        let start = reader.next();
        read_value(alloc, reader, start, left - 1, nodes)?;
        count += 1;
        let behind = reader.next();
        match behind.token {
            Token::Comma => first = reader.next(),
            Token::CloseObject => return Ok(count),
            _ => return Err(text_error(TextCode::NotJson, behind.offset)),
        }
    }
}

/// The tree of a JSON text of RFC 8259, or its first fault.
///
/// Tokens are taken in order. The first one that the grammar doesn't allow, or that is a number
/// too long, a bracket too deep or a key for the second time, is the fault; at one token they are
/// tried in that order. Where the text ends too early the fault stands at its length, or where the
/// token that it cuts off begins. Recursion goes no deeper than 32 levels. `laws` says that bytes
/// are a text or have a first fault, and never both.
pub fn read_tree(alloc: Global, bytes: &[u8]) -> Result<Tree<'_>, TextError>
    requires { length bytes.now ≤ MOST_BYTES }
    // A tree is the text's.
    ensures found { IfOk result (λ v. IsText 32 bytes.now (tree_view v)) }
    // A fault is the first of the text.
    ensures fault { IfFault result (λ f. IsFirstFault 32 bytes.now f) }
    // The text of a value is read.
    ensures only { (v : Value) → IsText 32 bytes.now v → GivesTree result v }
    // What has a first fault is refused with it.
    ensures refused { (f : TextFault) → IsFirstFault 32 bytes.now f → GivesFault result f }
{
    parse_whole_json_text(alloc, bytes)
}

fn parse_whole_json_text(alloc: Global, bytes: &[u8]) -> Result<Tree<'_>, TextError>
    requires { length bytes.now ≤ MOST_BYTES }
    ensures found { IfOk result (λ v. IsText 32 bytes.now (tree_view v)) }
    ensures fault { IfFault result (λ f. IsFirstFault 32 bytes.now f) }
{
    let mut reader = Reader { bytes, at: 0 };
    let mut nodes = Vec::new(alloc);
    let first = reader.next();
    read_value(alloc, &mut reader, first, LEVELS, &mut nodes)?;
    let behind = reader.next();
    match behind.token {
        Token::End => Ok(Tree { bytes, nodes }),
        _ => Err(text_error(TextCode::NotJson, behind.offset)),
    }
}

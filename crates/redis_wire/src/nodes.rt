//! Replies in place: the values of a reply as a flat list of positions.
ghost use Rattle.std.specs.Prelude.{◌≡◌, ◌≤◌, ◌+◌, IfSome, Some, length, take, drop, map};
ghost use Rattle.redis_wire.specs.Grammar.{IsReply};
ghost use Rattle.redis_wire.specs.Kind.{kind_of};
ghost use Rattle.redis_wire.specs.Nodes.{AreEnds, AreNodes, Begins, Finds, IsLineNode, IsNodeAt, IsNodeOf, IsNull, Say, plain, taken};
ghost use Rattle.redis_wire.specs.Reply.{Answer};
ghost use Rattle.redis_wire.specs.declared.kind.Kind.TheVariants as kinds;

use crate::fault::WireError;
use crate::kind::{BlobKind, GroupKind, Kind, kind_of};
use crate::limits::Limits;
use crate::line::blob_at;
use crate::place::{Span, head_at, line_behind};
use crate::scanning::new_scan;
use crate::stream::reply_len;
use crate::value::member_count;
use std::alloc::Global;

/// A value of a reply, with its position in the reply's bytes.
#[repr(C)]
#[derive(Clone, Copy, Debug, PartialEq, Eq)]
pub struct Node {
    /// The first byte of its type; `_` for a null of any form.
    pub kind: u8,
    /// The bytes of its line or its length-prefixed bytes. A group and a null have none.
    pub text: Span,
    /// The number of values that are its members: a key and its value are two, and the value that has
    /// attributes is one more. The kind of a message is the first of its members.
    pub members: u64,
    /// The index of the node after its last member.
    pub end: usize,
}

/// Reads the node of a line, and returns it with the offset after the line.
fn read_line_node(limits: Limits, bytes: &[u8], at: usize, first: u8) -> Option<(Node, usize)>
    requires { at ≤ length bytes.now }
    ensures { IfSome result (λ x. IsLineNode limits bytes.now at first x.0 x.1) }
{
    let (line, after) = line_behind(limits, bytes, at, first)?;
    let node = Node {
        kind: first,
        text: Span {
            start: at + 1,
            len: line.len(),
        },
        members: 0,
        end: 0,
    };
    Some((node, after))
}

/// Returns the node of a null.
fn make_null_node() -> Node
    ensures { IsNull result }
{
    Node {
        kind: b'_',
        text: Span { start: 0, len: 0 },
        members: 0,
        end: 0,
    }
}

/// Reads the node of length-prefixed bytes, and returns it with the offset after them.
fn read_blob_node(
    limits: Limits,
    bytes: &[u8],
    at: usize,
    first: u8,
    kind: BlobKind,
) -> Option<(Node, usize)>
    requires { at ≤ length bytes.now }
    ensures is { IfSome result (λ x. IsNodeOf limits bytes.now at first x.0 x.1 (Some (kinds.Blob kind))) }
    ensures end { IfSome result (λ x. x.1 ≤ length bytes.now) }
{
    let (len, start) = head_at(limits, bytes, at, first)?;
    let Some(len) = len else {
        return Some((make_null_node(), start));
    };
    let (_, rest) = bytes.split_at(start);
    match blob_at(len as usize, rest) {
        Ok((_, left)) => {
            let node = Node {
                kind: first,
                text: Span {
                    start,
                    len: len as usize,
                },
                members: 0,
                end: 0,
            };
            Some((node, bytes.len() - left.len()))
        }
        Err(_) => None,
    }
}

/// Returns the node of a group of this type with `members` members.
fn make_group_node(first: u8, members: u64) -> Node
    ensures kind { result.kind ≡ first }
    ensures none { result.text.len ≡ 0 }
    ensures members { result.members ≡ members }
{
    Node {
        kind: first,
        text: Span { start: 0, len: 0 },
        members,
        end: 0,
    }
}

/// Reads the node of a group, and returns it with the offset after its header.
fn read_group_node(
    limits: Limits,
    bytes: &[u8],
    at: usize,
    first: u8,
    kind: GroupKind,
) -> Option<(Node, usize)>
    requires { at ≤ length bytes.now }
    ensures is { IfSome result (λ x. IsNodeOf limits bytes.now at first x.0 x.1 (Some (kinds.Group kind))) }
    ensures end { IfSome result (λ x. x.1 ≤ length bytes.now) }
{
    let (count, after) = head_at(limits, bytes, at, first)?;
    match count {
        None => Some((make_null_node(), after)),
        Some(count) => Some((make_group_node(first, member_count(kind, count)), after)),
    }
}

/// Reads the node at offset `at`, and returns it with the offset after it and before its members.
fn read_node(limits: Limits, bytes: &[u8], at: usize) -> Option<(Node, usize)>
    requires { at ≤ length bytes.now }
    ensures { IfSome result (λ x. IsNodeAt limits bytes.now at x.0 x.1) }
{
    let first = *bytes.get(at)?;
    match kind_of(first)? {
        Kind::Line(_) => read_line_node(limits, bytes, at, first),
        Kind::Blob(kind) => read_blob_node(limits, bytes, at, first, kind),
        Kind::Group(kind) => read_group_node(limits, bytes, at, first, kind),
    }
}

/// Reads the first node of a reply, and returns it with the offset after it and before its members.
fn read_first_node(limits: Limits, bytes: &[u8]) -> Option<(Node, usize)>
    ensures begins { IfSome result (λ x. Begins limits bytes.now x.0 x.1) }
    ensures end { IfSome result (λ x. x.1 ≤ length bytes.now) }
{
    if *bytes.first()? != b'>' {
        return read_node(limits, bytes, 0);
    }
    match head_at(limits, bytes, 0, b'>')? {
        (None, _) => None,
        (Some(count), after) => Some((make_group_node(b'>', count as u64), after)),
    }
}

/// Fills the table with the first node of the reply and all later ones, and returns their number.
fn fill(
    limits: Limits,
    bytes: &[u8],
    nodes: &mut [Node],
    first: Node,
    after: usize,
) -> Option<usize>
    requires begins { Begins limits bytes.now first after }
    requires end { after ≤ length bytes.now }
    ensures few { IfSome result (λ count. count ≤ length nodes.new) }
    ensures are { IfSome result (λ count. AreNodes limits bytes.now (take count nodes.new) (length bytes.now) 0) }
{
    if nodes.is_empty() {
        return None;
    }
    nodes[0] = first;
    let mut count = 1usize;
    let mut at = after;
    let mut left = first.members;
    while left > 0 {
        if count >= nodes.len() {
            return None;
        }
        let (node, behind) = read_node(limits, bytes, at)?;
        left = node.members.checked_add(left - 1)?;
        nodes[count] = node;
        count += 1;
        at = behind;
    }
    if at == bytes.len() { Some(count) } else { None }
}

/// Returns the index of the node after `members` values, the first of which has the index `from`.
fn find_end(nodes: &[Node], from: usize, members: u64) -> usize
    requires within { from ≤ length nodes.now }
    requires ends { AreEnds from (drop from nodes.now) }
    ensures { result ≡ from + taken members (drop from nodes.now) }
{
    let mut end = from;
    for _member in 0..members {
        if end >= nodes.len() {
            return end;
        }
        end = nodes[end].end;
    }
    end
}

/// Sets the end of the members of each node.
fn set_ends(nodes: &mut [Node])
    ensures same { map plain nodes.new ≡ map plain nodes.old }
    ensures ends { AreEnds 0 nodes.new }
{
    let mut at = nodes.len();
    while at > 0 {
        let end = find_end(nodes, at, nodes[at - 1].members);
        at -= 1;
        nodes[at].end = end;
    }
}

/// Fills the table with the values of the reply `text`, each before its members, and returns their
/// number. Returns `None` if the table is too small, or if the text is not a reply.
///
/// It allocates no memory. No value has fewer than three bytes, so a table of a third of the text's
/// length is large enough.
pub fn nodes_in(limits: Limits, text: &[u8], nodes: &mut [Node]) -> Option<usize>
    ensures few { IfSome result (λ count. count ≤ length nodes.new) }
    ensures are { IfSome result (λ count. AreNodes limits text.now (take count nodes.new) (length text.now) 0) }
    ensures ends { IfSome result (λ count. AreEnds 0 (take count nodes.new)) }
    ensures say { IfSome result (λ count. (a : Answer) → IsReply limits text.now a
        → Say limits text.now (take count nodes.new) a) }
{
    let (first, after) = read_first_node(limits, text)?;
    let count = fill(limits, text, nodes, first, after)?;
    set_ends(&mut nodes[..count]);
    Some(count)
}

/// The result of `find_nodes`, if it is no error.
#[derive(Clone, Copy, Debug, PartialEq, Eq)]
pub enum Found {
    /// A reply of `len` bytes and `count` nodes.
    Whole { len: usize, count: usize },
    /// A reply of `len` bytes, for whose nodes the table is too small.
    NoRoom { len: usize },
    /// More bytes are needed: these may be the prefix of a reply.
    Incomplete,
}

/// Finds the reply at the start of `bytes`, and fills the table with its values as `nodes_in` does. Other
/// bytes may follow it.
///
/// A `Fault` is the one that `decode` returns for the same bytes. Only the scan that finds the end of the
/// reply allocates memory.
pub fn find_nodes(
    alloc: Global,
    limits: Limits,
    bytes: &[u8],
    nodes: &mut [Node],
) -> Result<Found, WireError>
    ensures { Finds limits bytes.now nodes.new result }
{
    match reply_len(alloc, limits, bytes, &mut new_scan(alloc))? {
        None => Ok(Found::Incomplete),
        Some(len) => {
            let (text, _) = bytes.split_at(len);
            match nodes_in(limits, text, nodes) {
                Some(count) => Ok(Found::Whole { len, count }),
                None => Ok(Found::NoRoom { len }),
            }
        }
    }
}

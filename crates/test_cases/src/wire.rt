//! Bytes of a server, read in every way there is.
//!
//! | Kind | Input and outcome |
//! |---|---|
//! | `wire` | bytes: the reply at their start, after its length, `incomplete`, or the fault that refuses them |
//! | `limited` | the same with small limits |
//! | `decoded` | the same as `wire`, in fewer ways: for tools, which try many |
//! | `pieces` | replies, one after the other: their count, and the count of bytes after them |
//! | `nodes` | a reply: its nodes in place |
//! | `reply-text`, `reply-texts`, `reply-number` | a reply: the record that it is read as, or the caller's error |
//! | `pack` | words: the bytes of a command with these arguments |
//!
//! Bytes are decoded whole, and are fed to a stream byte by byte (`decoded` does only this) and cut in two
//! at each offset. The replies are taken out as values and in place, and each prefix of the bytes is listed
//! as nodes. If one of these ways does not find what decoding finds, the outcome reports it.
ghost use Rattle.test_cases.specs.Kinds.{is_wire};
ghost use Rattle.std.specs.Prelude.{◌≡◌, IfOk, IsSome, IsTrue};

use crate::{INCOMPLETE, decode_escapes, format_fault};
use bstr::BStr;
use redis_resp::{FromRedisValue, ToRedisArgs};
use redis_wire::place::Span;
use redis_wire::{
    Decoded, Found, Limits, Node, PackError, PackedCommand, RedisError, Reply, ReplyStream,
    ServerError, WireError, append_command, decode, find_nodes, from_reply, nodes_in, pack_args,
    pack_command,
};
use std::alloc::{AllocError, Global};
use std::fmt::Debug;

/// Limits that small replies reach.
const SMALL: Limits = Limits {
    depth: 4,
    length: 1000,
    line: 30,
    values: 6,
    bytes: 64,
};

/// Runs a case of this module. Returns its outcome, or `None` if its kind is another.
pub fn run_case(alloc: Global, kind: &str, input: &str) -> Result<Option<String>, AllocError>
    ensures { IfOk result (λ o. IsSome o → IsTrue (is_wire kind.now)) }
{
    if !is_kind(kind) {
        return Ok(None);
    }
    match decode_escapes(alloc, input)? {
        Some(bytes) => Ok(Some(run_kind(alloc, kind, &bytes)?)),
        None => Ok(Some(String::from_str(alloc, "not the text of bytes")?)),
    }
}

/// Returns whether a kind is one of this module.
fn is_kind(kind: &str) -> bool
    ensures { result ≡ is_wire kind.now }
{
    matches!(
        kind,
        "wire"
            | "limited"
            | "decoded"
            | "pieces"
            | "nodes"
            | "reply-text"
            | "reply-texts"
            | "reply-number"
            | "pack"
    )
}

/// Returns the outcome of bytes, for a kind of this module.
fn run_kind(alloc: Global, kind: &str, bytes: &[u8]) -> Result<String, AllocError> {
    match kind {
        "wire" => compare_ways(alloc, Limits::default(), bytes),
        "limited" => compare_ways(alloc, SMALL, bytes),
        "decoded" => read_byte_by_byte(alloc, Limits::default(), bytes),
        "pieces" => compare_sizes(alloc, bytes),
        "nodes" => list_nodes(alloc, bytes),
        "reply-text" => read_as::<String>(alloc, bytes),
        "reply-texts" => read_as::<Vec<String>>(alloc, bytes),
        "reply-number" => read_as::<usize>(alloc, bytes),
        _ => pack_words(alloc, bytes),
    }
}

// The ways to read a reply at the start of bytes.

/// How bytes are cut: the length of the first piece, and of each one after it.
#[derive(Clone, Copy)]
struct Cut {
    first: usize,
    next: usize,
}

/// Returns the outcome of decoding bytes, and after it that of a stream which is fed them byte by byte, if it
/// differs.
fn read_byte_by_byte(alloc: Global, limits: Limits, bytes: &[u8]) -> Result<String, AllocError> {
    let told = decode_reply(alloc, limits, bytes)?;
    let mut outcome = told.clone()?;
    let cut = Cut { first: 1, next: 1 };
    add_streams(alloc, limits, bytes, cut, &told, &mut outcome)?;
    Ok(outcome)
}

/// Returns the outcome of `read_byte_by_byte`. Adds that of each way for the bytes cut in two and for each prefix
/// of them, if it differs.
fn compare_ways(alloc: Global, limits: Limits, bytes: &[u8]) -> Result<String, AllocError> {
    let told = decode_reply(alloc, limits, bytes)?;
    let mut outcome = read_byte_by_byte(alloc, limits, bytes)?;
    for first in 0..=bytes.len() {
        let cut = Cut {
            first,
            next: usize::MAX,
        };
        add_streams(alloc, limits, bytes, cut, &told, &mut outcome)?;
        add_front(alloc, limits, bytes.split_at(first).0, &mut outcome)?;
        if outcome.len() > told.len() {
            break;
        }
    }
    Ok(outcome)
}

/// Appends the outcomes of streams and of nodes for a prefix of the bytes, if they differ from that of decoding it.
fn add_front(
    alloc: Global,
    limits: Limits,
    front: &[u8],
    outcome: &mut String,
) -> Result<(), AllocError> {
    let told = decode_reply(alloc, limits, front)?;
    let whole = Cut {
        first: usize::MAX,
        next: 0,
    };
    add_streams(alloc, limits, front, whole, &told, outcome)?;
    let other = read_nodes(alloc, limits, front)?;
    add_other_way(outcome, &told, &other, "as nodes")
}

/// Appends the outcome of a stream that is fed the bytes in pieces, as a value and in place, if it
/// differs.
fn add_streams(
    alloc: Global,
    limits: Limits,
    bytes: &[u8],
    cut: Cut,
    told: &str,
    outcome: &mut String,
) -> Result<(), AllocError> {
    let other = feed_pieces(alloc, limits, bytes, cut, false)?;
    add_other_way(outcome, told, &other, "in pieces")?;
    let other = feed_pieces(alloc, limits, bytes, cut, true)?;
    add_other_way(outcome, told, &other, "in place")
}

/// Appends the outcome of another way, if it differs. A text that ends in a space is the length of a
/// reply alone.
fn add_other_way(
    outcome: &mut String,
    told: &str,
    other: &str,
    way: &str,
) -> Result<(), AllocError> {
    if told == other || (other.ends_with(' ') && told.starts_with(other)) {
        return Ok(());
    }
    write!(outcome, "; {way}: {other}")
}

/// Returns the outcome of decoding the reply at the start of bytes.
fn decode_reply(alloc: Global, limits: Limits, bytes: &[u8]) -> Result<String, AllocError> {
    match decode(alloc, bytes, limits) {
        Ok(Decoded::Complete { reply, len }) => format_reply(alloc, len, &reply),
        Ok(Decoded::Incomplete) => String::from_str(alloc, INCOMPLETE),
        Err(error) => format_fault(alloc, error),
    }
}

/// Returns the length of a reply and the reply.
fn format_reply(alloc: Global, len: usize, reply: &Reply) -> Result<String, AllocError> {
    format!(in alloc; "{len} {reply:?}")
}

/// Feeds bytes to a stream in pieces. Returns the first outcome that is not `incomplete`, or `incomplete` if there
/// is none.
fn feed_pieces(
    alloc: Global,
    limits: Limits,
    bytes: &[u8],
    cut: Cut,
    in_place: bool,
) -> Result<String, AllocError> {
    let mut stream = ReplyStream::new(alloc, limits);
    let mut rest = bytes;
    let mut size = cut.first;
    for _ in 0..=bytes.len() {
        let (piece, after) = rest.split_at(size.min(rest.len()));
        rest = after;
        size = cut.next;
        if let Err(error) = stream.feed(piece) {
            return format_fault(alloc, error);
        }
        let fed = bytes.len().saturating_sub(rest.len());
        let text = take_first_reply(alloc, &mut stream, bytes, fed, in_place)?;
        if text.as_str() != INCOMPLETE || rest.is_empty() {
            return Ok(text);
        }
    }
    String::from_str(alloc, INCOMPLETE)
}

/// Takes the first reply out of a stream that was fed `fed` of the bytes. Returns the outcome.
fn take_first_reply(
    alloc: Global,
    stream: &mut ReplyStream,
    bytes: &[u8],
    fed: usize,
    in_place: bool,
) -> Result<String, AllocError> {
    if in_place {
        let (front, _) = bytes.split_at(fed.min(bytes.len()));
        take_in_place(alloc, stream, front)
    } else {
        take_value(alloc, stream, fed)
    }
}

/// Takes the first reply as a value out of a stream that holds `held` bytes. Returns the outcome.
fn take_value(alloc: Global, stream: &mut ReplyStream, held: usize) -> Result<String, AllocError> {
    match stream.next(alloc) {
        Ok(Some(reply)) => format_reply(alloc, held.saturating_sub(stream.held()), &reply),
        Ok(None) => String::from_str(alloc, INCOMPLETE),
        Err(error) => format_fault(alloc, error),
    }
}

/// Takes the first reply in place out of a stream that was fed these bytes. Returns its length and a space, if the
/// stream holds just these bytes, and just those after the reply once it is removed.
fn take_in_place(
    alloc: Global,
    stream: &mut ReplyStream,
    fed: &[u8],
) -> Result<String, AllocError> {
    if stream.bytes() != fed {
        return String::from_str(alloc, "other bytes are held");
    }
    match stream.next_in_place(alloc) {
        Ok(Some(len)) => {
            stream.give_out(len);
            let (_, after) = fed.split_at(len.min(fed.len()));
            let held = if stream.bytes() == after {
                ""
            } else {
                "and others"
            };
            format!(in alloc; "{len} {held}")
        }
        Ok(None) => String::from_str(alloc, INCOMPLETE),
        Err(error) => format_fault(alloc, error),
    }
}

// Replies one after the other, in pieces of several sizes.

/// The sizes of pieces that are tried: one byte, a few, and a network packet.
const SIZES: [usize; 3] = [1, 7, 1448];

/// Up to this number of bytes, each size is tried.
const FEW: usize = 100;

/// How replies are taken out of a stream: in place or as values, and whether the two alternate.
#[derive(Clone, Copy)]
struct Way {
    in_place: bool,
    alternates: bool,
}

/// Each way.
const WAYS: [Way; 3] = [
    Way {
        in_place: false,
        alternates: false,
    },
    Way {
        in_place: true,
        alternates: false,
    },
    Way {
        in_place: false,
        alternates: true,
    },
];

/// Returns the count of replies, and of the bytes after them; then each size of pieces in which a stream finds
/// other replies.
fn compare_sizes(alloc: Global, bytes: &[u8]) -> Result<String, AllocError> {
    let mut told = String::new(alloc);
    let mut outcome = count_replies(alloc, bytes, &mut told)?;
    for size in SIZES {
        add_other_pieces(alloc, bytes, size, &told, &mut outcome)?;
    }
    if bytes.len() <= FEW {
        for size in 2..=bytes.len() {
            add_other_pieces(alloc, bytes, size, &told, &mut outcome)?;
        }
    }
    Ok(outcome)
}

/// Appends a size of pieces, if a stream finds other replies in one of the ways.
fn add_other_pieces(
    alloc: Global,
    bytes: &[u8],
    size: usize,
    told: &str,
    outcome: &mut String,
) -> Result<(), AllocError> {
    for way in WAYS {
        let other = list_replies(alloc, bytes, size, way)?;
        if other.as_str() != told {
            write!(outcome, "; others in pieces of {size}")?;
        }
    }
    Ok(())
}

/// Returns the count of replies, and of the bytes after them. Appends a line for each reply.
fn count_replies(alloc: Global, bytes: &[u8], told: &mut String) -> Result<String, AllocError> {
    let mut rest = bytes;
    let mut count = 0usize;
    for _ in 0..bytes.len() {
        let Some((text, len)) = decode_first(alloc, rest)? else {
            break;
        };
        add_line(told, &text)?;
        rest = rest.split_at(len.min(rest.len())).1;
        count = count.saturating_add(1);
    }
    let left = rest.len();
    format!(in alloc; "{count} replies, {left} bytes after them")
}

/// Returns the reply at the start of bytes and its length, or `None` if there is no whole reply.
fn decode_first(alloc: Global, bytes: &[u8]) -> Result<Option<(String, usize)>, AllocError> {
    match decode(alloc, bytes, Limits::default()) {
        Ok(Decoded::Complete { reply, len }) => {
            let text = format_reply(alloc, len, &reply)?;
            Ok(Some((text, len)))
        }
        Err(WireError::Memory) => Err(AllocError),
        Ok(Decoded::Incomplete) | Err(WireError::Fault(_)) => Ok(None),
    }
}

/// Appends a line.
fn add_line(text: &mut String, line: &str) -> Result<(), AllocError> {
    text.push_str(line)?;
    text.push('\n')
}

/// Returns a line for each reply that a stream finds in bytes that are fed in pieces of this size.
fn list_replies(alloc: Global, bytes: &[u8], size: usize, way: Way) -> Result<String, AllocError> {
    let mut stream = ReplyStream::new(alloc, Limits::default());
    let mut told = String::new(alloc);
    let mut in_place = way.in_place;
    let mut rest = bytes;
    for _ in 0..bytes.len() {
        let (piece, after) = rest.split_at(size.min(rest.len()));
        rest = after;
        if let Err(error) = stream.feed(piece) {
            return format_fault(alloc, error);
        }
        in_place = take_replies(alloc, &mut stream, &mut told, in_place, way.alternates)?;
        if rest.is_empty() {
            break;
        }
    }
    Ok(told)
}

/// Takes the replies out of a stream, and appends a line for each one. Returns whether the next one is taken
/// in place.
fn take_replies(
    alloc: Global,
    stream: &mut ReplyStream,
    told: &mut String,
    in_place: bool,
    alternates: bool,
) -> Result<bool, AllocError> {
    let mut in_place = in_place;
    for _ in 0..stream.held() {
        let held = stream.held();
        let text = take_reply(alloc, stream, held, in_place)?;
        if text.as_str() == INCOMPLETE || stream.held() == held {
            break;
        }
        add_line(told, &text)?;
        in_place = in_place != alternates;
    }
    Ok(in_place)
}

/// Takes the first reply out of a stream, as a value or in place. Returns the outcome.
fn take_reply(
    alloc: Global,
    stream: &mut ReplyStream,
    held: usize,
    in_place: bool,
) -> Result<String, AllocError> {
    if in_place {
        decode_in_place(alloc, stream)
    } else {
        take_value(alloc, stream, held)
    }
}

/// Takes the first reply out of a stream in place; its text is that of decoding its bytes.
fn decode_in_place(alloc: Global, stream: &mut ReplyStream) -> Result<String, AllocError> {
    match stream.next_in_place(alloc) {
        Ok(Some(len)) => {
            let text = decode_reply(alloc, stream.limits(), &stream.bytes()[..len])?;
            stream.give_out(len);
            Ok(text)
        }
        Ok(None) => String::from_str(alloc, INCOMPLETE),
        Err(error) => format_fault(alloc, error),
    }
}

// Replies in place as flat lists of nodes.

/// Returns the nodes of a reply, or `none`. A node is its type, its text, its count of members, and where they end.
fn list_nodes(alloc: Global, bytes: &[u8]) -> Result<String, AllocError> {
    let mut nodes = make_node_table(alloc, bytes.len() / 3)?;
    match nodes_in(Limits::default(), bytes, nodes.as_mut_slice()) {
        Some(count) => format_nodes(alloc, bytes, &nodes[..count]),
        None => String::from_str(alloc, "none"),
    }
}

/// Returns the nodes as text, with a space between each two.
fn format_nodes(alloc: Global, bytes: &[u8], nodes: &[Node]) -> Result<String, AllocError> {
    let mut text = String::new(alloc);
    for node in nodes {
        if !text.is_empty() {
            text.push(' ')?;
        }
        add_node(&mut text, bytes, node)?;
    }
    Ok(text)
}

/// Appends a node as text.
fn add_node(text: &mut String, bytes: &[u8], node: &Node) -> Result<(), AllocError> {
    let Span { start, len } = node.text;
    let kind = char::from(node.kind);
    let shown = BStr::new(get_part(bytes, start, len));
    let members = node.members;
    let end = node.end;
    write!(text, "{kind}{shown} {members}>{end}")
}

/// Returns at most `len` bytes from `start` on.
fn get_part(bytes: &[u8], start: usize, len: usize) -> &[u8] {
    let (_, behind) = bytes.split_at(start.min(bytes.len()));
    let (text, _) = behind.split_at(len.min(behind.len()));
    text
}

/// Returns the outcome of `find_nodes`: the length of a reply and a space, or the outcome that decoding would have.
fn read_nodes(alloc: Global, limits: Limits, bytes: &[u8]) -> Result<String, AllocError> {
    let mut nodes = make_node_table(alloc, bytes.len() / 3)?;
    match find_nodes(alloc, limits, bytes, nodes.as_mut_slice()) {
        Ok(Found::Whole { len, count }) => check_node_count(alloc, limits, bytes, len, count),
        Ok(Found::NoRoom { len }) => format!(in alloc; "no room for {len}"),
        Ok(Found::Incomplete) => String::from_str(alloc, INCOMPLETE),
        Err(error) => format_fault(alloc, error),
    }
}

/// Checks that the bytes of a reply alone have this count of nodes, in a table that they fill and in no smaller
/// one. Returns their length and a space, or what differs.
fn check_node_count(
    alloc: Global,
    limits: Limits,
    bytes: &[u8],
    len: usize,
    count: usize,
) -> Result<String, AllocError> {
    let (text, after) = bytes.split_at(len.min(bytes.len()));
    let filled = count_nodes(alloc, limits, text, count)?;
    let longer = count_nodes(alloc, limits, bytes, count)?;
    if filled != Some(count) || longer.is_some() != after.is_empty() {
        return format!(in alloc; "other nodes in {len} bytes");
    }
    if has_room(alloc, limits, bytes, count.saturating_sub(1))? {
        return format!(in alloc; "room for {len} bytes in less");
    }
    format!(in alloc; "{len} ")
}

/// Returns whether a table of this length has room for the nodes of the reply at the start of bytes.
fn has_room(alloc: Global, limits: Limits, bytes: &[u8], room: usize) -> Result<bool, AllocError> {
    let mut nodes = make_node_table(alloc, room)?;
    match find_nodes(alloc, limits, bytes, nodes.as_mut_slice()) {
        Ok(Found::NoRoom { len: _ }) => Ok(false),
        Err(WireError::Memory) => Err(AllocError),
        _ => Ok(true),
    }
}

/// Returns the count of nodes of a text, if a table of this length has room for them.
fn count_nodes(
    alloc: Global,
    limits: Limits,
    text: &[u8],
    room: usize,
) -> Result<Option<usize>, AllocError> {
    let mut nodes = make_node_table(alloc, room)?;
    Ok(nodes_in(limits, text, nodes.as_mut_slice()))
}

/// Returns a table of `room` nodes.
fn make_node_table(alloc: Global, room: usize) -> Result<Vec<Node>, AllocError> {
    let empty = Node {
        kind: 0,
        text: Span { start: 0, len: 0 },
        members: 0,
        end: 0,
    };
    vec![in alloc; empty; room]
}

// The record that a reply is read as, and the error that a caller gets if it is no such record.

/// Returns the record of the reply at the start of bytes, or the error, each as `Debug` prints it. An error is
/// followed by the text that a caller gets.
fn read_as<T: FromRedisValue + Debug>(alloc: Global, bytes: &[u8]) -> Result<String, AllocError> {
    match read_record::<T>(alloc, bytes) {
        Ok(record) => format!(in alloc; "{record:?}"),
        Err(error) => format_error(alloc, &error),
    }
}

/// Returns the record of the reply at the start of bytes, with every error of a caller in one type.
fn read_record<T: FromRedisValue>(alloc: Global, bytes: &[u8]) -> Result<T, RedisError> {
    match decode(alloc, bytes, Limits::default())? {
        Decoded::Complete { reply, len: _ } => Ok(from_reply::<T>(alloc, reply)?),
        Decoded::Incomplete => Err(RedisError::NotAnAnswer),
    }
}

/// Returns an error, and the text that a caller gets; for an error of the server also its code and its message.
/// Passes on the error that memory ran out.
fn format_error(alloc: Global, error: &RedisError) -> Result<String, AllocError> {
    match error {
        RedisError::Memory => Err(AllocError),
        RedisError::Server(error) => format_server_error(alloc, error),
        _ => format!(in alloc; "{error:?}: {error}"),
    }
}

/// Returns an error of the server, its code and its message.
fn format_server_error(alloc: Global, error: &ServerError) -> Result<String, AllocError> {
    let code = BStr::new(error.code());
    let message = BStr::new(error.message());
    format!(in alloc; "{error:?}: {error}, code {code:?}, message {message:?}")
}

// Commands as bytes.

/// What a pipeline holds before a command is added.
const PIPELINE: &[u8] = b"*1\r\n$4\r\nPING\r\n";

/// Returns the bytes of a command whose arguments are words with a space between each two, or the refusal. Adds the
/// bytes of each other way to pack it, if they differ.
fn pack_words(alloc: Global, words: &[u8]) -> Result<String, AllocError> {
    let args = split_words(alloc, words)?;
    let told = format_bytes(alloc, pack_args(alloc, &args))?;
    let mut outcome = told.clone()?;
    let packed = format_bytes(alloc, pack_command(alloc, &args))?;
    add_other_bytes(&mut outcome, &told, &packed)?;
    let written = format_bytes(alloc, write_command(alloc, &args))?;
    add_other_bytes(&mut outcome, &told, &written)?;
    let added = format_bytes(alloc, append_to_pipeline(alloc, &args))?;
    add_other_bytes(&mut outcome, &told, &added)?;
    Ok(outcome)
}

/// Appends the other bytes, if they differ from these.
fn add_other_bytes(outcome: &mut String, told: &str, other: &str) -> Result<(), AllocError> {
    if told == other {
        return Ok(());
    }
    write!(outcome, "; {other}")
}

/// Returns bytes as text, or why there are none. Passes on the error that memory ran out.
fn format_bytes(alloc: Global, packed: Result<Vec<u8>, PackError>) -> Result<String, AllocError> {
    match packed {
        Ok(bytes) => {
            let shown = BStr::new(bytes.as_slice());
            format!(in alloc; "{shown:?}")
        }
        Err(PackError::Memory) => Err(AllocError),
        Err(error) => format!(in alloc; "refused {error:?}: {error}"),
    }
}

/// Returns the bytes of a command writer after it wrote these arguments.
fn write_command(alloc: Global, args: &Vec<Vec<u8>>) -> Result<Vec<u8>, PackError> {
    let mut command = PackedCommand::new(alloc);
    args.write_redis_args(&mut command)?;
    command.to_bytes(alloc)
}

/// Appends a command to a pipeline that holds others. Returns the bytes that were added, or all of them if the
/// others are gone.
fn append_to_pipeline(alloc: Global, args: &Vec<Vec<u8>>) -> Result<Vec<u8>, PackError> {
    let mut pipeline = Vec::from_slice(alloc, PIPELINE)?;
    append_command(alloc, &mut pipeline, args)?;
    let bytes = pipeline.as_slice();
    let added = bytes.strip_prefix(PIPELINE).unwrap_or(bytes);
    Ok(Vec::from_slice(alloc, added)?)
}

/// Splits the words, with a space between each two. No bytes have no words.
fn split_words(alloc: Global, words: &[u8]) -> Result<Vec<Vec<u8>>, AllocError> {
    let mut args = Vec::new(alloc);
    if words.is_empty() {
        return Ok(args);
    }
    for word in words.split(|byte| *byte == b' ') {
        args.push(Vec::from_slice(alloc, word)?)?;
    }
    Ok(args)
}

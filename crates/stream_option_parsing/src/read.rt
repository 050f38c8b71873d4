//! `XREAD` and `XREADGROUP`.
ghost use Rattle.std.specs.Prelude.{◌≡◌, ◌≢◌, Some, None, false, IfOk, IfErr, IfSome};
ghost use Rattle.std.specs.Option.{option_map};
ghost use Rattle.stream_options.specs.Read.{default_read, ReadFits, CountAlike, read_sentence, read_words};
ghost use Rattle.stream_options.specs.ReadBack as reading;
ghost use Rattle.stream_option_parsing.specs.Parts.{group_of, read_of};
ghost use Rattle.stream_option_parsing.specs.Split.{arguments, IsOneSplit, HasNoSplit};

use crate::clauses::{parse_flag_clause, parse_number_clause};
use crate::error::SentenceError;
use crate::values::begins_with;
use redis_args::RawBytes;
use std::alloc::Global;
use stream_options::StreamReadOptions;

/// The names of a group and of its consumer, each one argument.
#[derive(Clone, Copy, Debug, PartialEq, Eq)]
pub struct GroupNames<'a> {
    /// The name of the group.
    pub group: &'a [u8],
    /// The name of the consumer.
    pub consumer: &'a [u8],
}

/// The settings of `XREAD` and `XREADGROUP` one by one: `[GROUP g c] [BLOCK n] [COUNT n]`, then only
/// if a group is set `[NOACK] [CLAIM n]`.
#[derive(Clone, Copy, Debug, PartialEq, Eq)]
pub struct ReadParts<'a> {
    /// The group and the consumer that the entries are read for.
    pub group: Option<GroupNames<'a>>,
    /// The read blocks for this number of milliseconds; 0 is no limit.
    pub block: Option<usize>,
    /// The largest number of entries that are read from a stream.
    pub count: Option<usize>,
    /// Whether the entries that are read need no acknowledgement.
    pub noack: bool,
    /// Entries that are idle for this number of milliseconds are claimed and read first.
    pub claim: Option<usize>,
}

/// Returns the options of `XREAD` and `XREADGROUP` with these settings. Memory is allocated only if a
/// group is set; a refused allocation is the only error.
pub fn read_with(alloc: Global, parts: ReadParts<'_>) -> Result<StreamReadOptions, SentenceError>
    ensures ok { IfOk result (λ options. options ≡ read_of parts.entry) }
    ensures cause { IfErr result (λ e. e ≡ SentenceError.Memory) }
    ensures none { IfErr result (λ e. parts.entry.group ≢ None) }
{
    let options = match parts.group {
        Some(names) => build_group_options(alloc, names.group, names.consumer)?,
        None => StreamReadOptions::default(),
    };
    let options = with_count(with_block(options, parts.block), parts.count);
    Ok(with_claim(with_noack(options, parts.noack), parts.claim))
}

/// Parses the options of `XREAD` and `XREADGROUP` from the first arguments. Returns them with the
/// number of arguments parsed: `[GROUP g c] [BLOCK n] [COUNT n]`, then only if a group is set
/// `[NOACK] [CLAIM n]`. Each name is one argument, of any bytes.
///
/// Returns `NotASentence` if there are none, or if the rest begins with a fixed word.
pub fn read_read(
    alloc: Global,
    args: &[Vec<u8>],
) -> Result<(StreamReadOptions, usize), SentenceError>
    ensures split { let list = arguments args.now in IfOk result (λ x.
        IsOneSplit ReadFits read_sentence read_words CountAlike list x.0 x.1) }
    ensures none { IfErr result (λ e. e ≡ SentenceError.NotASentence
        → HasNoSplit ReadFits read_sentence read_words (arguments args.now)) }
{
    let (parts, count) = read_read_parts(args)?;
    let options = read_with(alloc, parts)?;
    Ok((options, count))
}

/// Parses the settings of `XREAD` and `XREADGROUP` from the first arguments. Returns them with the
/// number of arguments parsed; `read_with` makes the options of them. It allocates no memory.
///
/// Returns `NotASentence` if there are none, or if the rest begins with a fixed word.
pub fn read_read_parts(args: &[Vec<u8>]) -> Result<(ReadParts<'_>, usize), SentenceError>
    ensures split { let list = arguments args.now in IfOk result (λ x.
        IsOneSplit ReadFits read_sentence read_words CountAlike list (read_of x.0) x.1) }
    ensures noack { IfOk result (λ x. x.0.group ≡ None → x.0.noack ≡ false) }
    ensures claim { IfOk result (λ x. x.0.group ≡ None → x.0.claim ≡ None) }
    ensures none { IfErr result (λ e.
        HasNoSplit ReadFits read_sentence read_words (arguments args.now)) }
    ensures cause { IfErr result (λ e. e ≡ SentenceError.NotASentence) }
{
    let Some((parts, rest)) = parse_read(args) else {
        return Err(SentenceError::NotASentence);
    };
    if begins_with(&["GROUP", "BLOCK", "COUNT", "NOACK", "CLAIM"], rest) {
        return Err(SentenceError::NotASentence);
    }
    Ok((parts, args.len() - rest.len()))
}

/// The settings, and the arguments after them.
#[tactic(auto, using(crate::proofs::ReadLemmas::forms))]
fn parse_read(args: &[Vec<u8>]) -> Option<(ReadParts<'_>, &[Vec<u8>])>
    ensures read { option_map (λ x. (read_of x.0, arguments x.1.now)) result
        ≡ reading.read_at (arguments args.now) }
    ensures noack { IfSome result (λ x. x.0.group ≡ None → x.0.noack ≡ false) }
    ensures claim { IfSome result (λ x. x.0.group ≡ None → x.0.claim ≡ None) }
{
    if begins_with(&["GROUP"], args) {
        parse_grouped_read(args)
    } else {
        parse_ungrouped_read(args)
    }
}

/// `GROUP g c [BLOCK n] [COUNT n] [NOACK] [CLAIM n]`, and the arguments after it.
fn parse_grouped_read(args: &[Vec<u8>]) -> Option<(ReadParts<'_>, &[Vec<u8>])>
    ensures read { option_map (λ x. (read_of x.0, arguments x.1.now)) result
        ≡ reading.reading_as reading.grouped_with reading.grouped_at (arguments args.now) }
    ensures grouped { IfSome result (λ x. x.0.group ≢ None) }
{
    let (names, rest) = parse_group(args)?;
    let (block, rest) = parse_number_clause("BLOCK", rest)?;
    let (count, rest) = parse_number_clause("COUNT", rest)?;
    let (noack, rest) = parse_flag_clause("NOACK", rest)?;
    let (claim, rest) = parse_number_clause("CLAIM", rest)?;
    let parts = ReadParts {
        group: Some(names),
        block,
        count,
        noack,
        claim,
    };
    Some((parts, rest))
}

/// `GROUP g c`, and the arguments after it.
fn parse_group(args: &[Vec<u8>]) -> Option<(GroupNames<'_>, &[Vec<u8>])>
    ensures { option_map (λ x. (group_of x.0, arguments x.1.now)) result
        ≡ reading.group_at (arguments args.now) }
{
    match args {
        [word, group, consumer, rest @ ..] if word.as_slice() == b"GROUP".as_slice() => {
            Some((GroupNames { group, consumer }, rest))
        }
        _ => None,
    }
}

/// `[BLOCK n] [COUNT n]`, and the arguments after it.
fn parse_ungrouped_read(args: &[Vec<u8>]) -> Option<(ReadParts<'_>, &[Vec<u8>])>
    ensures read { option_map (λ x. (read_of x.0, arguments x.1.now)) result
        ≡ reading.reading_as reading.ungrouped_with reading.ungrouped_at (arguments args.now) }
    ensures noack { IfSome result (λ x. x.0.noack ≡ false) }
    ensures claim { IfSome result (λ x. x.0.claim ≡ None) }
{
    let (block, rest) = parse_number_clause("BLOCK", args)?;
    let (count, rest) = parse_number_clause("COUNT", rest)?;
    let parts = ReadParts {
        group: None,
        block,
        count,
        noack: false,
        claim: None,
    };
    Some((parts, rest))
}

/// The options with only these names.
fn build_group_options(
    alloc: Global,
    group: &[u8],
    consumer: &[u8],
) -> Result<StreamReadOptions, SentenceError>
    ensures ok { IfOk result (λ options. options
        ≡ record default_read { group = Some (reading.single_group group.now consumer.now) }) }
    ensures cause { IfErr result (λ e. e ≡ SentenceError.Memory) }
{
    let group = RawBytes(Vec::from_slice(alloc, group)?);
    let consumer = RawBytes(Vec::from_slice(alloc, consumer)?);
    Ok(StreamReadOptions::default().group(alloc, group, consumer)?)
}

/// Sets the time to block, if there is one.
fn with_block(options: StreamReadOptions, block: Option<usize>) -> StreamReadOptions
    requires { options.block ≡ None }
    ensures { result ≡ record options { block = block } }
{
    match block {
        Some(n) => options.block(n),
        None => options,
    }
}

/// Sets the number of entries, if there is one.
fn with_count(options: StreamReadOptions, count: Option<usize>) -> StreamReadOptions
    requires { options.count ≡ None }
    ensures { result ≡ record options { count = count } }
{
    match count {
        Some(n) => options.count(n),
        None => options,
    }
}

/// Sets the flag if `wanted`.
fn with_noack(options: StreamReadOptions, wanted: bool) -> StreamReadOptions
    requires { options.noack ≡ false }
    ensures { result ≡ record options { noack = wanted } }
{
    if wanted { options.noack() } else { options }
}

/// Sets the idle time after which entries are claimed, if there is one.
fn with_claim(options: StreamReadOptions, claim: Option<usize>) -> StreamReadOptions
    requires { options.claim ≡ None }
    ensures { result ≡ record options { claim = claim } }
{
    match claim {
        Some(n) => options.claim(n),
        None => options,
    }
}

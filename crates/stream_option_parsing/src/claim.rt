//! `XCLAIM`.
ghost use Rattle.std.specs.Prelude.{◌≡◌, None, false, string_bytes, IfOk, IfErr};
ghost use Rattle.std.specs.Option.{option_map};
ghost use Rattle.stream_options.specs.Claim.{ClaimFits, claim_sentence, claim_words};
ghost use Rattle.stream_options.specs.Laws.{Equal};
ghost use Rattle.stream_options.specs.ReadBack as reading;
ghost use Rattle.stream_option_parsing.specs.Parts.{claim_of};
ghost use Rattle.stream_option_parsing.specs.Split.{arguments, IsOneSplit, HasNoSplit, Gives};

use crate::clauses::{parse_flag_clause, parse_number_clause, parse_text_clause};
use crate::error::SentenceError;
use crate::values::begins_with;
use std::alloc::Global;
use stream_options::StreamClaimOptions;

/// The settings of `XCLAIM` one by one:
/// `[IDLE n] [TIME n] [RETRYCOUNT n] [FORCE] [JUSTID] [LASTID id]`.
#[derive(Debug, Drop)]
pub struct ClaimParts {
    /// The idle time of the entries is set to this number of milliseconds.
    pub idle: Option<usize>,
    /// Their last delivery time is set to this Unix time in milliseconds.
    pub time: Option<usize>,
    /// Their delivery count is set to this number.
    pub retry: Option<usize>,
    /// Whether an entry that is pending for no consumer is claimed too.
    pub force: bool,
    /// Whether the reply has only the ids.
    pub justid: bool,
    /// The id that is set as the last one delivered to the group.
    pub lastid: Option<String>,
}

/// Returns the options of `XCLAIM` with these settings. It allocates no memory.
pub fn claim_with(parts: ClaimParts) -> StreamClaimOptions
    ensures { result ≡ claim_of parts }
{
    let options = with_time(
        with_idle(StreamClaimOptions::default(), parts.idle),
        parts.time,
    );
    let options = with_force(with_retry(options, parts.retry), parts.force);
    with_lastid(with_justid(options, parts.justid), parts.lastid)
}

/// Parses the options of `XCLAIM` from the first arguments:
/// `[IDLE n] [TIME n] [RETRYCOUNT n] [FORCE] [JUSTID] [LASTID id]`. Returns them with the number parsed.
///
/// Returns `NotASentence` if there are none, or if the rest begins with a fixed word.
pub fn read_claim(
    alloc: Global,
    args: &[Vec<u8>],
) -> Result<(StreamClaimOptions, usize), SentenceError>
    ensures split { let list = arguments args.now in IfOk result (λ x.
        IsOneSplit ClaimFits claim_sentence claim_words Equal list x.0 x.1) }
    ensures none { IfErr result (λ e. e ≡ SentenceError.NotASentence
        → HasNoSplit ClaimFits claim_sentence claim_words (arguments args.now)) }
{
    let (parts, count) = read_claim_parts(alloc, args)?;
    Ok((claim_with(parts), count))
}

/// Parses the settings of `XCLAIM` from the first arguments. Returns them with the number of
/// arguments parsed; `claim_with` makes the options of them.
///
/// Returns `NotASentence` if there are none, or if the rest begins with a fixed word.
pub fn read_claim_parts(
    alloc: Global,
    args: &[Vec<u8>],
) -> Result<(ClaimParts, usize), SentenceError>
    ensures split { let list = arguments args.now in IfOk result (λ x.
        IsOneSplit ClaimFits claim_sentence claim_words Equal list (claim_of x.0) x.1) }
    ensures none { IfErr result (λ e. e ≡ SentenceError.NotASentence
        → HasNoSplit ClaimFits claim_sentence claim_words (arguments args.now)) }
{
    let (parts, rest) = parse_claim(alloc, args)?;
    let words = ["IDLE", "TIME", "RETRYCOUNT", "FORCE", "JUSTID", "LASTID"];
    if begins_with(&words, rest) {
        return Err(SentenceError::NotASentence);
    }
    Ok((parts, args.len() - rest.len()))
}

/// The settings, and the arguments after them.
fn parse_claim(alloc: Global, args: &[Vec<u8>]) -> Result<(ClaimParts, &[Vec<u8>]), SentenceError>
    ensures { Gives (λ x. (claim_of x.0, arguments x.1.now)) result
        (reading.claim_at (arguments args.now)) }
{
    let Some((idle, rest)) = parse_number_clause("IDLE", args) else {
        return Err(SentenceError::NotASentence);
    };
    let Some((time, rest)) = parse_number_clause("TIME", rest) else {
        return Err(SentenceError::NotASentence);
    };
    let Some((retry, rest)) = parse_number_clause("RETRYCOUNT", rest) else {
        return Err(SentenceError::NotASentence);
    };
    let Some((force, rest)) = parse_flag_clause("FORCE", rest) else {
        return Err(SentenceError::NotASentence);
    };
    let Some((justid, rest)) = parse_flag_clause("JUSTID", rest) else {
        return Err(SentenceError::NotASentence);
    };
    let (lastid, rest) = parse_text_clause(alloc, "LASTID", rest)?;
    let parts = ClaimParts {
        idle,
        time,
        retry,
        force,
        justid,
        lastid,
    };
    Ok((parts, rest))
}

/// Sets the idle time, if there is one.
fn with_idle(options: StreamClaimOptions, idle: Option<usize>) -> StreamClaimOptions
    requires { options.idle ≡ None }
    ensures { result ≡ record options { idle = idle } }
{
    match idle {
        Some(n) => options.idle(n),
        None => options,
    }
}

/// Sets the time of delivery, if there is one.
fn with_time(options: StreamClaimOptions, time: Option<usize>) -> StreamClaimOptions
    requires { options.time ≡ None }
    ensures { result ≡ record options { time = time } }
{
    match time {
        Some(n) => options.time(n),
        None => options,
    }
}

/// Sets the number of deliveries, if there is one.
fn with_retry(options: StreamClaimOptions, retry: Option<usize>) -> StreamClaimOptions
    requires { options.retry ≡ None }
    ensures { result ≡ record options { retry = retry } }
{
    match retry {
        Some(n) => options.retry(n),
        None => options,
    }
}

/// Sets the flag if `wanted`.
fn with_force(options: StreamClaimOptions, wanted: bool) -> StreamClaimOptions
    requires { options.force ≡ false }
    ensures { result ≡ record options { force = wanted } }
{
    if wanted {
        options.with_force()
    } else {
        options
    }
}

/// Sets the flag if `wanted`.
fn with_justid(options: StreamClaimOptions, wanted: bool) -> StreamClaimOptions
    requires { options.justid ≡ false }
    ensures { result ≡ record options { justid = wanted } }
{
    if wanted {
        options.with_justid()
    } else {
        options
    }
}

/// Sets the last id, if there is one.
fn with_lastid(options: StreamClaimOptions, lastid: Option<String>) -> StreamClaimOptions
    requires { options.lastid ≡ None }
    ensures { result ≡ record options { lastid = option_map string_bytes lastid } }
{
    match lastid {
        Some(id) => options.with_lastid(id),
        None => options,
    }
}

//! `XADD`.
ghost use Rattle.std.specs.Prelude.{◌≡◌, None, false, IfOk, IfErr};
ghost use Rattle.std.specs.Option.{option_map};
ghost use Rattle.stream_options.specs.Add.{AddFits, add_sentence, add_words};
ghost use Rattle.stream_options.specs.Laws.{Equal};
ghost use Rattle.stream_options.specs.ReadBack as reading;
ghost use Rattle.stream_options.specs.View.{strategy_of, policy_of, idempotency_of};
ghost use Rattle.stream_option_parsing.specs.Parts.{add_of};
ghost use Rattle.stream_option_parsing.specs.Split.{arguments, IsOneSplit, HasNoSplit, Gives};

use crate::clauses::parse_flag_clause;
use crate::error::SentenceError;
use crate::policy::parse_policy_clause;
use crate::strategy::parse_strategy;
use crate::values::{begins_with, parse_text};
use std::alloc::Global;
use stream_options::{
    StreamAddOptions, StreamDeletionPolicy, StreamIdempotencyMode, StreamTrimStrategy,
};

/// The settings of `XADD` one by one: `[NOMKSTREAM] [policy] [idempotency] [strategy]`.
#[derive(Debug, Drop)]
pub struct AddParts {
    /// Whether a stream that does not exist is not created.
    pub nomkstream: bool,
    /// What happens to the references that groups hold to trimmed entries.
    pub policy: Option<StreamDeletionPolicy>,
    /// How a duplicate entry is recognized.
    pub idempotency: Option<StreamIdempotencyMode>,
    /// How the stream is trimmed.
    pub strategy: Option<StreamTrimStrategy>,
}

/// Returns the options of `XADD` with these settings. It allocates no memory.
pub fn add_with(parts: AddParts) -> StreamAddOptions
    ensures { result ≡ add_of parts }
{
    let options = with_nomkstream(StreamAddOptions::default(), parts.nomkstream);
    let options = with_idempotency(with_policy(options, parts.policy), parts.idempotency);
    with_strategy(options, parts.strategy)
}

/// Parses the options of `XADD` from the first arguments:
/// `[NOMKSTREAM] [policy] [idempotency] [strategy]`. Returns them with the number of arguments parsed.
///
/// Returns `NotASentence` if there are none, or if the rest begins with a fixed word.
pub fn read_add(alloc: Global, args: &[Vec<u8>]) -> Result<(StreamAddOptions, usize), SentenceError>
    ensures split { let list = arguments args.now in IfOk result (λ x.
        IsOneSplit AddFits add_sentence add_words Equal list x.0 x.1) }
    ensures none { IfErr result (λ e. e ≡ SentenceError.NotASentence
        → HasNoSplit AddFits add_sentence add_words (arguments args.now)) }
{
    let (parts, count) = read_add_parts(alloc, args)?;
    Ok((add_with(parts), count))
}

/// Parses the settings of `XADD` from the first arguments. Returns them with the number of
/// arguments parsed; `add_with` makes the options of them.
///
/// Returns `NotASentence` if there are none, or if the rest begins with a fixed word.
pub fn read_add_parts(alloc: Global, args: &[Vec<u8>]) -> Result<(AddParts, usize), SentenceError>
    ensures split { let list = arguments args.now in IfOk result (λ x.
        IsOneSplit AddFits add_sentence add_words Equal list (add_of x.0) x.1) }
    ensures none { IfErr result (λ e. e ≡ SentenceError.NotASentence
        → HasNoSplit AddFits add_sentence add_words (arguments args.now)) }
{
    let (parts, rest) = parse_add(alloc, args)?;
    let words = [
        "NOMKSTREAM",
        "KEEPREF",
        "DELREF",
        "ACKED",
        "IDMP",
        "IDMPAUTO",
        "MAXLEN",
        "MINID",
        "LIMIT",
        "=",
        "~",
    ];
    if begins_with(&words, rest) {
        return Err(SentenceError::NotASentence);
    }
    Ok((parts, args.len() - rest.len()))
}

/// The settings, and the arguments after them.
fn parse_add(alloc: Global, args: &[Vec<u8>]) -> Result<(AddParts, &[Vec<u8>]), SentenceError>
    ensures { Gives (λ x. (add_of x.0, arguments x.1.now)) result (reading.add_at (arguments args.now)) }
{
    let Some((nomkstream, rest)) = parse_flag_clause("NOMKSTREAM", args) else {
        return Err(SentenceError::NotASentence);
    };
    let (policy, rest) = parse_policy_clause(rest);
    let (idempotency, rest) = parse_idempotency_clause(alloc, rest)?;
    let (strategy, rest) = parse_strategy_clause(alloc, rest)?;
    let parts = AddParts {
        nomkstream,
        policy,
        idempotency,
        strategy,
    };
    Ok((parts, rest))
}

/// `[idempotency]`, and the arguments after it.
fn parse_idempotency_clause(
    alloc: Global,
    args: &[Vec<u8>],
) -> Result<(Option<StreamIdempotencyMode>, &[Vec<u8>]), SentenceError>
    ensures { Gives (λ x. (option_map idempotency_of x.0, arguments x.1.now)) result
        (reading.idempotency_clause (arguments args.now)) }
{
    if !begins_with(&["IDMP", "IDMPAUTO"], args) {
        return Ok((None, args));
    }
    let (mode, rest) = parse_idempotency(alloc, args)?;
    Ok((Some(mode), rest))
}

/// `IDMP producer idempotent` or `IDMPAUTO producer`, and the arguments after it.
fn parse_idempotency(
    alloc: Global,
    args: &[Vec<u8>],
) -> Result<(StreamIdempotencyMode, &[Vec<u8>]), SentenceError>
    ensures { Gives (λ x. (idempotency_of x.0, arguments x.1.now)) result
        (reading.idempotency_at (arguments args.now)) }
{
    match args {
        [] => Err(SentenceError::NotASentence),
        [_word] => Err(SentenceError::NotASentence),
        [word, producer] => {
            if word.as_slice() == b"IDMPAUTO".as_slice() {
                let producer_id = parse_text(alloc, producer)?;
                Ok((StreamIdempotencyMode::Automatic { producer_id }, &[]))
            } else {
                Err(SentenceError::NotASentence)
            }
        }
        [word, producer, idempotent, rest @ ..] => {
            if word.as_slice() == b"IDMPAUTO".as_slice() {
                let producer_id = parse_text(alloc, producer)?;
                Ok((StreamIdempotencyMode::Automatic { producer_id }, &args[2..]))
            } else if word.as_slice() == b"IDMP".as_slice() {
                let producer_id = parse_text(alloc, producer)?;
                let idempotent_id = parse_text(alloc, idempotent)?;
                let mode = StreamIdempotencyMode::Manual {
                    producer_id,
                    idempotent_id,
                };
                Ok((mode, rest))
            } else {
                Err(SentenceError::NotASentence)
            }
        }
    }
}

/// `[strategy]`, and the arguments after it.
fn parse_strategy_clause(
    alloc: Global,
    args: &[Vec<u8>],
) -> Result<(Option<StreamTrimStrategy>, &[Vec<u8>]), SentenceError>
    ensures { Gives (λ x. (option_map strategy_of x.0, arguments x.1.now)) result
        (reading.strategy_clause (arguments args.now)) }
{
    if !begins_with(&["MAXLEN", "MINID", "LIMIT", "=", "~"], args) {
        return Ok((None, args));
    }
    let (strategy, rest) = parse_strategy(alloc, args)?;
    Ok((Some(strategy), rest))
}

/// Sets the flag if `wanted`.
fn with_nomkstream(options: StreamAddOptions, wanted: bool) -> StreamAddOptions
    requires { options.nomkstream ≡ false }
    ensures { result ≡ record options { nomkstream = wanted } }
{
    if wanted {
        options.nomkstream()
    } else {
        options
    }
}

/// Sets the policy, if there is one.
fn with_policy(options: StreamAddOptions, policy: Option<StreamDeletionPolicy>) -> StreamAddOptions
    requires { options.policy ≡ None }
    ensures { result ≡ record options { policy = option_map policy_of policy } }
{
    match policy {
        Some(policy) => options.set_deletion_policy(policy),
        None => options,
    }
}

/// Sets how a duplicate is recognized, if that is given.
fn with_idempotency(
    options: StreamAddOptions,
    mode: Option<StreamIdempotencyMode>,
) -> StreamAddOptions
    requires { options.idempotency ≡ None }
    ensures { result ≡ record options { idempotency = option_map idempotency_of mode } }
{
    match mode {
        Some(
            StreamIdempotencyMode::Manual {
                producer_id,
                idempotent_id,
            },
        ) => options.idmp(producer_id, idempotent_id),
        Some(StreamIdempotencyMode::Automatic { producer_id }) => options.idmpauto(producer_id),
        None => options,
    }
}

/// Sets the strategy, if there is one.
fn with_strategy(
    options: StreamAddOptions,
    strategy: Option<StreamTrimStrategy>,
) -> StreamAddOptions
    requires { options.trim ≡ None }
    ensures { result ≡ record options { trim = option_map strategy_of strategy } }
{
    match strategy {
        Some(strategy) => options.trim(strategy),
        None => options,
    }
}

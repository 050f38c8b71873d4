//! `XTRIM`.
ghost use Rattle.std.specs.Prelude.{◌≡◌, None, IfOk, IfErr};
ghost use Rattle.std.specs.Option.{option_map};
ghost use Rattle.stream_options.specs.Laws.{Equal};
ghost use Rattle.stream_options.specs.ReadBack as reading;
ghost use Rattle.stream_options.specs.Trim.{TrimFits, trim_sentence, trim_words};
ghost use Rattle.stream_options.specs.View.{strategy_of, policy_of};
ghost use Rattle.stream_option_parsing.specs.Parts.{trim_of};
ghost use Rattle.stream_option_parsing.specs.Split.{arguments, IsOneSplit, HasNoSplit, Gives};

use crate::error::SentenceError;
use crate::policy::parse_policy_clause;
use crate::strategy::parse_strategy;
use crate::values::begins_with;
use std::alloc::Global;
use stream_options::{StreamDeletionPolicy, StreamTrimOptions, StreamTrimStrategy};

/// The settings of `XTRIM` one by one: `strategy [policy]`.
#[derive(Debug, Drop)]
pub struct TrimParts {
    /// How the stream is trimmed.
    pub strategy: StreamTrimStrategy,
    /// What happens to the references that groups hold to trimmed entries.
    pub policy: Option<StreamDeletionPolicy>,
}

/// Returns the options of `XTRIM` with these settings. It allocates no memory.
pub fn trim_with(parts: TrimParts) -> StreamTrimOptions
    ensures { result ≡ trim_of parts }
{
    with_policy(build_trim_options(parts.strategy), parts.policy)
}

/// Parses the options of `XTRIM` from the first arguments: `strategy [policy]`. Returns them with the
/// number of arguments parsed.
///
/// Returns `NotASentence` if there are none, or if the rest begins with a fixed word.
pub fn read_trim(
    alloc: Global,
    args: &[Vec<u8>],
) -> Result<(StreamTrimOptions, usize), SentenceError>
    ensures split { let list = arguments args.now in IfOk result (λ x.
        IsOneSplit TrimFits trim_sentence trim_words Equal list x.0 x.1) }
    ensures none { IfErr result (λ e. e ≡ SentenceError.NotASentence
        → HasNoSplit TrimFits trim_sentence trim_words (arguments args.now)) }
{
    let (parts, count) = read_trim_parts(alloc, args)?;
    Ok((trim_with(parts), count))
}

/// Parses the settings of `XTRIM` from the first arguments. Returns them with the number of arguments
/// parsed; `trim_with` makes the options of them.
///
/// Returns `NotASentence` if there are none, or if the rest begins with a fixed word.
pub fn read_trim_parts(alloc: Global, args: &[Vec<u8>]) -> Result<(TrimParts, usize), SentenceError>
    ensures split { let list = arguments args.now in IfOk result (λ x.
        IsOneSplit TrimFits trim_sentence trim_words Equal list (trim_of x.0) x.1) }
    ensures none { IfErr result (λ e. e ≡ SentenceError.NotASentence
        → HasNoSplit TrimFits trim_sentence trim_words (arguments args.now)) }
{
    let (parts, rest) = parse_trim(alloc, args)?;
    let words = [
        "MAXLEN", "MINID", "LIMIT", "=", "~", "KEEPREF", "DELREF", "ACKED",
    ];
    if begins_with(&words, rest) {
        return Err(SentenceError::NotASentence);
    }
    Ok((parts, args.len() - rest.len()))
}

/// The settings, and the arguments after them.
fn parse_trim(alloc: Global, args: &[Vec<u8>]) -> Result<(TrimParts, &[Vec<u8>]), SentenceError>
    ensures { Gives (λ x. (trim_of x.0, arguments x.1.now)) result (reading.trim_at (arguments args.now)) }
{
    let (strategy, rest) = parse_strategy(alloc, args)?;
    let (policy, rest) = parse_policy_clause(rest);
    Ok((TrimParts { strategy, policy }, rest))
}

/// The options with this strategy.
fn build_trim_options(strategy: StreamTrimStrategy) -> StreamTrimOptions
    ensures { result ≡ record { strategy = strategy_of strategy; policy = None } }
{
    match strategy {
        StreamTrimStrategy::MaxLen(mode, max_entries, limit) => {
            with_limit(StreamTrimOptions::maxlen(mode, max_entries), limit)
        }
        StreamTrimStrategy::MinId(mode, stream_id, limit) => {
            with_limit(StreamTrimOptions::minid(mode, stream_id), limit)
        }
    }
}

/// Sets the limit, if there is one.
fn with_limit(options: StreamTrimOptions, limit: Option<usize>) -> StreamTrimOptions
    requires { options.strategy.limit ≡ None }
    ensures { result ≡ record options { strategy = record options.strategy { limit = limit } } }
{
    match limit {
        Some(n) => options.limit(n),
        None => options,
    }
}

/// Sets the policy, if there is one.
fn with_policy(
    options: StreamTrimOptions,
    policy: Option<StreamDeletionPolicy>,
) -> StreamTrimOptions
    requires { options.policy ≡ None }
    ensures { result ≡ record options { policy = option_map policy_of policy } }
{
    match policy {
        Some(policy) => options.set_deletion_policy(policy),
        None => options,
    }
}

//! Strategies of trimming.
ghost use Rattle.std.specs.Prelude.{◌≡◌, None, IfErr};
ghost use Rattle.stream_options.specs.ReadBack as reading;
ghost use Rattle.stream_options.specs.View.{strategy_of};
ghost use Rattle.stream_option_parsing.specs.Split.{arguments, Gives, unlimited_at};

use crate::clauses::parse_number_clause;
use crate::error::SentenceError;
use crate::values::{parse_mode, parse_number, parse_text};
use std::alloc::Global;
use stream_options::StreamTrimStrategy;

/// A strategy, and the arguments after it. Memory is allocated only if there is a bound.
#[tactic(auto, using(crate::proofs::StrategyLemmas::limits))]
pub(crate) fn parse_strategy(
    alloc: Global,
    args: &[Vec<u8>],
) -> Result<(StreamTrimStrategy, &[Vec<u8>]), SentenceError>
    ensures strategy { Gives (λ x. (strategy_of x.0, arguments x.1.now)) result
        (reading.strategy_at (arguments args.now)) }
    ensures none { IfErr result (λ e. unlimited_at (arguments args.now) ≡ None
        → e ≡ SentenceError.NotASentence) }
{
    let (strategy, rest) = parse_bound(alloc, args)?;
    let Some((limit, rest)) = parse_number_clause("LIMIT", rest) else {
        return Err(SentenceError::NotASentence);
    };
    match limit {
        Some(n) => Ok((strategy.limit(n), rest)),
        None => Ok((strategy, rest)),
    }
}

/// `MAXLEN mode n` or `MINID mode id` as a strategy without a limit, and the arguments after it.
/// Memory is allocated only if there is one.
fn parse_bound(
    alloc: Global,
    args: &[Vec<u8>],
) -> Result<(StreamTrimStrategy, &[Vec<u8>]), SentenceError>
    ensures bound { Gives (λ x. (strategy_of x.0, arguments x.1.now)) result
        (unlimited_at (arguments args.now)) }
    ensures none { IfErr result (λ e. unlimited_at (arguments args.now) ≡ None
        → e ≡ SentenceError.NotASentence) }
{
    match args {
        [] => Err(SentenceError::NotASentence),
        [_word] => Err(SentenceError::NotASentence),
        [_word, _mode] => Err(SentenceError::NotASentence),
        [word, mode, value, rest @ ..] => {
            if word.as_slice() == b"MAXLEN".as_slice() {
                match parse_mode(mode) {
                    Some(mode) => match parse_number(value) {
                        Some(n) => Ok((StreamTrimStrategy::maxlen(mode, n), rest)),
                        None => Err(SentenceError::NotASentence),
                    },
                    None => Err(SentenceError::NotASentence),
                }
            } else if word.as_slice() == b"MINID".as_slice() {
                match parse_mode(mode) {
                    Some(mode) => {
                        let id = parse_text(alloc, value)?;
                        Ok((StreamTrimStrategy::minid(mode, id), rest))
                    }
                    None => Err(SentenceError::NotASentence),
                }
            } else {
                Err(SentenceError::NotASentence)
            }
        }
    }
}

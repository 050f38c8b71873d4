//! Configurations.
ghost use Rattle.std.specs.Prelude.{◌≡◌, IfSome, IfOk, IfErr};
ghost use Rattle.std.specs.Option.{option_map};
ghost use Rattle.stream_options.specs.Config.{IsDuration, IsMaxsize, IsConfig, config_sentence, config_words};
ghost use Rattle.stream_options.specs.Laws.{Equal};
ghost use Rattle.stream_options.specs.ReadBack as reading;
ghost use Rattle.stream_options.specs.ReadBack.{number_of};
ghost use Rattle.stream_option_parsing.specs.Split.{arguments, IsOneSplit, HasNoSplit};

use crate::error::SentenceError;
use crate::values::{begins_with, parse_number};
use stream_options::StreamConfigOptions;

/// Parses the options of `XCFGSET` from the first arguments: `[IDMP-DURATION d] [IDMP-MAXSIZE m]`, at
/// least one of them, and each in its range. Returns them with the number of arguments parsed. It
/// allocates no memory.
///
/// Returns `NotASentence` if there are none, or if the rest begins with a fixed word.
pub fn read_config(args: &[Vec<u8>]) -> Result<(StreamConfigOptions, usize), SentenceError>
    ensures split { let list = arguments args.now in IfOk result (λ x.
        IsOneSplit IsConfig config_sentence config_words Equal list x.0 x.1) }
    ensures none { IfErr result (λ e.
        HasNoSplit IsConfig config_sentence config_words (arguments args.now)) }
    ensures cause { IfErr result (λ e. e ≡ SentenceError.NotASentence) }
{
    let Some((options, rest)) = parse_config(args) else {
        return Err(SentenceError::NotASentence);
    };
    if begins_with(&["IDMP-DURATION", "IDMP-MAXSIZE"], rest) {
        return Err(SentenceError::NotASentence);
    }
    Ok((options, args.len() - rest.len()))
}

/// The options, and the arguments after them.
fn parse_config(args: &[Vec<u8>]) -> Option<(StreamConfigOptions, &[Vec<u8>])>
    ensures { option_map (λ x. (x.0, arguments x.1.now)) result
        ≡ reading.config_at (arguments args.now) }
{
    let (seconds, rest) = parse_duration_clause(args)?;
    let (maxsize, rest) = parse_maxsize_clause(rest)?;
    let options = build_config_options(seconds, maxsize)?;
    Some((options, rest))
}

/// `[IDMP-DURATION d]`, and the arguments after it.
fn parse_duration_clause(args: &[Vec<u8>]) -> Option<(Option<u32>, &[Vec<u8>])>
    ensures read { option_map (λ x. (x.0, arguments x.1.now)) result
        ≡ reading.duration_clause (arguments args.now) }
    ensures range { IfSome result (λ x. IfSome x.0 IsDuration) }
{
    match args {
        [first, rest @ ..] if first.as_slice() == b"IDMP-DURATION".as_slice() => match rest {
            [] => None,
            [number, rest @ ..] => match parse_duration(number) {
                Some(n) => Some((Some(n), rest)),
                None => None,
            },
        },
        _ => Some((None, args)),
    }
}

/// `[IDMP-MAXSIZE m]`, and the arguments after it.
fn parse_maxsize_clause(args: &[Vec<u8>]) -> Option<(Option<u16>, &[Vec<u8>])>
    ensures read { option_map (λ x. (x.0, arguments x.1.now)) result
        ≡ reading.maxsize_clause (arguments args.now) }
    ensures range { IfSome result (λ x. IfSome x.0 IsMaxsize) }
{
    match args {
        [first, rest @ ..] if first.as_slice() == b"IDMP-MAXSIZE".as_slice() => match rest {
            [] => None,
            [number, rest @ ..] => match parse_maxsize(number) {
                Some(n) => Some((Some(n), rest)),
                None => None,
            },
        },
        _ => Some((None, args)),
    }
}

/// The duration that the bytes write in decimal; `None` if it is out of range.
fn parse_duration(bytes: &[u8]) -> Option<u32>
    ensures read { result ≡ reading.kept reading.in_duration number_of bytes.now }
    ensures range { IfSome result IsDuration }
{
    match parse_number(bytes) {
        Some(n) => {
            if 1 <= n && n <= 86400 {
                Some(n as u32)
            } else {
                None
            }
        }
        None => None,
    }
}

/// The number of entries that the bytes write in decimal; `None` if it is out of range.
fn parse_maxsize(bytes: &[u8]) -> Option<u16>
    ensures read { result ≡ reading.kept reading.in_maxsize number_of bytes.now }
    ensures range { IfSome result IsMaxsize }
{
    match parse_number(bytes) {
        Some(n) => {
            if 1 <= n && n <= 10000 {
                Some(n as u16)
            } else {
                None
            }
        }
        None => None,
    }
}

/// The options with these numbers, if at least one is given.
fn build_config_options(seconds: Option<u32>, maxsize: Option<u16>) -> Option<StreamConfigOptions>
    requires seconds { IfSome seconds IsDuration }
    requires maxsize { IfSome maxsize IsMaxsize }
    ensures { result ≡ reading.if_passes reading.any_set (reading.config_with (seconds, maxsize)) }
{
    match seconds {
        Some(seconds) => {
            let Ok(options) = StreamConfigOptions::with_idempotency_seconds(seconds) else {
                return None;
            };
            match maxsize {
                Some(maxsize) => match options.idempotency_maxsize(maxsize) {
                    Ok(options) => Some(options),
                    Err(_error) => None,
                },
                None => Some(options),
            }
        }
        None => match maxsize {
            Some(maxsize) => match StreamConfigOptions::with_idempotency_maxsize(maxsize) {
                Ok(options) => Some(options),
                Err(_error) => None,
            },
            None => None,
        },
    }
}

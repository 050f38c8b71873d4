//! Clauses of the arguments: a keyword and its value.
ghost use Rattle.std.specs.Prelude.{◌≡◌, None, IfErr, string_bytes};
ghost use Rattle.std.specs.Option.{option_map};
ghost use Rattle.stream_options.specs.ReadBack as reading;
ghost use Rattle.stream_option_parsing.specs.Split.{arguments, Gives};

use crate::error::SentenceError;
use crate::values::{parse_number, parse_text};
use std::alloc::Global;

/// `[word n]`, and the arguments after it; `None` if no number follows the word.
pub(crate) fn parse_number_clause<'a>(
    word: &str,
    args: &'a [Vec<u8>],
) -> Option<(Option<usize>, &'a [Vec<u8>])>
    ensures { option_map (λ x. (x.0, arguments x.1.now)) result
        ≡ reading.number_clause word.now (arguments args.now) }
{
    match args {
        [first, rest @ ..] if first.as_slice() == word.as_bytes() => match rest {
            [] => None,
            [number, rest @ ..] => match parse_number(number) {
                Some(n) => Some((Some(n), rest)),
                None => None,
            },
        },
        _ => Some((None, args)),
    }
}

/// `[word]`, and the arguments after it.
pub(crate) fn parse_flag_clause<'a>(
    word: &str,
    args: &'a [Vec<u8>],
) -> Option<(bool, &'a [Vec<u8>])>
    ensures { option_map (λ x. (x.0, arguments x.1.now)) result
        ≡ reading.flag_clause word.now (arguments args.now) }
{
    match args {
        [first, rest @ ..] if first.as_slice() == word.as_bytes() => Some((true, rest)),
        _ => Some((false, args)),
    }
}

/// `[word text]`, and the arguments after it. Memory is allocated only if a text follows the word.
pub(crate) fn parse_text_clause<'a>(
    alloc: Global,
    word: &str,
    args: &'a [Vec<u8>],
) -> Result<(Option<String>, &'a [Vec<u8>]), SentenceError>
    ensures clause { Gives (λ x. (option_map string_bytes x.0, arguments x.1.now)) result
        (reading.text_clause word.now (arguments args.now)) }
    ensures none { IfErr result (λ e. reading.text_clause word.now (arguments args.now) ≡ None
        → e ≡ SentenceError.NotASentence) }
{
    match args {
        [first, rest @ ..] if first.as_slice() == word.as_bytes() => match rest {
            [] => Err(SentenceError::NotASentence),
            [text, rest @ ..] => {
                let text = parse_text(alloc, text)?;
                Ok((Some(text), rest))
            }
        },
        _ => Ok((None, args)),
    }
}

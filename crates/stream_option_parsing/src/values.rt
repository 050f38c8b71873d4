//! Values of single arguments.
ghost use Rattle.std.specs.Prelude.{◌≡◌, None, IfErr, map, string_bytes};
ghost use Rattle.std.specs.Option.{option_map};
ghost use Rattle.stream_options.specs.ReadBack.{number_of, text_of, mode_of};
ghost use Rattle.stream_options.specs.View as view;
ghost use Rattle.stream_options.specs.Words.{among, begins};
ghost use Rattle.stream_option_parsing.specs.Split.{arguments, Gives};

use crate::error::SentenceError;
use itoa::Buffer;
use std::alloc::Global;
use stream_options::StreamTrimmingMode;

/// The number that the bytes write in decimal, with no sign and no leading zero.
pub(crate) fn parse_number(bytes: &[u8]) -> Option<usize>
    ensures { result ≡ number_of bytes.now }
{
    let Ok(text) = std::str::from_utf8(bytes) else {
        return None;
    };
    let Ok(n) = text.parse::<usize>() else {
        return None;
    };
    let mut buffer = Buffer::new();
    if buffer.format(n).as_bytes() == bytes {
        Some(n)
    } else {
        None
    }
}

/// The bytes as a text. Memory is allocated only if they are UTF-8.
pub(crate) fn parse_text(alloc: Global, bytes: &[u8]) -> Result<String, SentenceError>
    ensures text { Gives string_bytes result (text_of bytes.now) }
    ensures none { IfErr result (λ e. text_of bytes.now ≡ None → e ≡ SentenceError.NotASentence) }
{
    match std::str::from_utf8(bytes) {
        Ok(text) => Ok(String::from_str(alloc, text)?),
        Err(_error) => Err(SentenceError::NotASentence),
    }
}

/// The mode of a word.
pub(crate) fn parse_mode(arg: &[u8]) -> Option<StreamTrimmingMode>
    ensures { option_map view.mode_of result ≡ mode_of arg.now }
{
    if arg == b"=".as_slice() {
        Some(StreamTrimmingMode::Exact)
    } else if arg == b"~".as_slice() {
        Some(StreamTrimmingMode::Approx)
    } else {
        None
    }
}

/// Whether the first argument is one of the words.
pub(crate) fn begins_with(words: &[&str], args: &[Vec<u8>]) -> bool
    ensures { result ≡ begins (map (λ word. word.now) words.now) (arguments args.now) }
{
    match args {
        [] => false,
        [first, ..] => is_among(words, first),
    }
}

/// Whether the argument is one of the words.
fn is_among(words: &[&str], arg: &[u8]) -> bool
    ensures { result ≡ among (map (λ word. word.now) words.now) arg.now }
{
    for word in words {
        if arg == word.as_bytes() {
            return true;
        }
    }
    false
}

//! `XNACK`.
ghost use Rattle.std.specs.Prelude.{◌≡◌, IfOk, IfErr};
ghost use Rattle.std.specs.Option.{option_map};
ghost use Rattle.stream_options.specs.Laws.{Any, Equal};
ghost use Rattle.stream_options.specs.Nack.{nack_sentence, nack_words};
ghost use Rattle.stream_options.specs.ReadBack as reading;
ghost use Rattle.stream_options.specs.View as view;
ghost use Rattle.stream_option_parsing.specs.Split.{arguments, IsOneSplit, HasNoSplit};

use crate::error::SentenceError;
use crate::values::begins_with;
use stream_options::{StreamNackMode, StreamNackOptions};

/// Parses the options of `XNACK` from the first argument: `SILENT`, `FAIL` or `FATAL`. Returns
/// them with the number of arguments parsed, 1. It allocates no memory.
///
/// Returns `NotASentence` if there is no such word, or if the rest begins with one.
pub fn read_nack(args: &[Vec<u8>]) -> Result<(StreamNackOptions, usize), SentenceError>
    ensures split { let list = arguments args.now in IfOk result (λ x.
        IsOneSplit Any nack_sentence nack_words Equal list x.0 x.1) }
    ensures none { IfErr result (λ e.
        HasNoSplit Any nack_sentence nack_words (arguments args.now)) }
    ensures cause { IfErr result (λ e. e ≡ SentenceError.NotASentence) }
{
    let Some((options, rest)) = parse_nack(args) else {
        return Err(SentenceError::NotASentence);
    };
    if begins_with(&["SILENT", "FAIL", "FATAL"], rest) {
        return Err(SentenceError::NotASentence);
    }
    Ok((options, args.len() - rest.len()))
}

/// The options, and the arguments after them.
fn parse_nack(args: &[Vec<u8>]) -> Option<(StreamNackOptions, &[Vec<u8>])>
    ensures { option_map (λ x. (x.0, arguments x.1.now)) result
        ≡ reading.nack_at (arguments args.now) }
{
    match args {
        [] => None,
        [first, rest @ ..] => {
            let mode = parse_mode(first)?;
            Some((StreamNackOptions::new(mode), rest))
        }
    }
}

/// The mode of a word.
fn parse_mode(arg: &[u8]) -> Option<StreamNackMode>
    ensures { option_map view.nack_of result ≡ reading.nack_of arg.now }
{
    if arg == b"SILENT".as_slice() {
        Some(StreamNackMode::Silent)
    } else if arg == b"FAIL".as_slice() {
        Some(StreamNackMode::Fail)
    } else if arg == b"FATAL".as_slice() {
        Some(StreamNackMode::Fatal)
    } else {
        None
    }
}

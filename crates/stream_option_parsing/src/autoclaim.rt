//! `XAUTOCLAIM`.
ghost use Rattle.std.specs.Prelude.{◌≡◌, IfOk, IfErr};
ghost use Rattle.std.specs.Option.{option_map};
ghost use Rattle.stream_options.specs.AutoClaim.{AutoClaimFits, autoclaim_sentence, autoclaim_words};
ghost use Rattle.stream_options.specs.Laws.{Equal};
ghost use Rattle.stream_options.specs.ReadBack as reading;
ghost use Rattle.stream_option_parsing.specs.Parts.{autoclaim_of};
ghost use Rattle.stream_option_parsing.specs.Split.{arguments, IsOneSplit, HasNoSplit};

use crate::clauses::{parse_flag_clause, parse_number_clause};
use crate::error::SentenceError;
use crate::values::begins_with;
use stream_options::StreamAutoClaimOptions;

/// The settings of `XAUTOCLAIM` one by one: `[COUNT n] [JUSTID]`.
#[derive(Clone, Copy, Debug, PartialEq, Eq)]
pub struct AutoClaimParts {
    /// The largest number of entries that are claimed.
    pub count: Option<usize>,
    /// Whether the reply has only the ids.
    pub justid: bool,
}

/// Returns the options of `XAUTOCLAIM` with these settings. It allocates no memory.
pub fn autoclaim_with(parts: AutoClaimParts) -> StreamAutoClaimOptions
    ensures { result ≡ autoclaim_of parts }
{
    let options = StreamAutoClaimOptions::default();
    let options = match parts.count {
        Some(n) => options.count(n),
        None => options,
    };
    if parts.justid {
        options.with_justid()
    } else {
        options
    }
}

/// Parses the options of `XAUTOCLAIM` from the first arguments: `[COUNT n] [JUSTID]`. Returns them
/// with the number of arguments parsed. It allocates no memory.
///
/// Returns `NotASentence` if there are none, or if the rest begins with a fixed word.
pub fn read_autoclaim(args: &[Vec<u8>]) -> Result<(StreamAutoClaimOptions, usize), SentenceError>
    ensures split { let list = arguments args.now in IfOk result (λ x.
        IsOneSplit AutoClaimFits autoclaim_sentence autoclaim_words Equal list x.0 x.1) }
    ensures none { IfErr result (λ e.
        HasNoSplit AutoClaimFits autoclaim_sentence autoclaim_words (arguments args.now)) }
    ensures cause { IfErr result (λ e. e ≡ SentenceError.NotASentence) }
{
    let (parts, count) = read_autoclaim_parts(args)?;
    Ok((autoclaim_with(parts), count))
}

/// Parses the settings of `XAUTOCLAIM` from the first arguments. Returns them with the number of
/// arguments parsed; `autoclaim_with` makes the options of them. It allocates no memory.
///
/// Returns `NotASentence` if there are none, or if the rest begins with a fixed word.
pub fn read_autoclaim_parts(args: &[Vec<u8>]) -> Result<(AutoClaimParts, usize), SentenceError>
    ensures split { let list = arguments args.now in IfOk result (λ x.
        IsOneSplit AutoClaimFits autoclaim_sentence autoclaim_words Equal list (autoclaim_of x.0) x.1) }
    ensures none { IfErr result (λ e.
        HasNoSplit AutoClaimFits autoclaim_sentence autoclaim_words (arguments args.now)) }
    ensures cause { IfErr result (λ e. e ≡ SentenceError.NotASentence) }
{
    let Some((parts, rest)) = parse_autoclaim(args) else {
        return Err(SentenceError::NotASentence);
    };
    if begins_with(&["COUNT", "JUSTID"], rest) {
        return Err(SentenceError::NotASentence);
    }
    Ok((parts, args.len() - rest.len()))
}

/// The settings, and the arguments after them.
fn parse_autoclaim(args: &[Vec<u8>]) -> Option<(AutoClaimParts, &[Vec<u8>])>
    ensures { option_map (λ x. (autoclaim_of x.0, arguments x.1.now)) result
        ≡ reading.autoclaim_at (arguments args.now) }
{
    let (count, rest) = parse_number_clause("COUNT", args)?;
    let (justid, rest) = parse_flag_clause("JUSTID", rest)?;
    Some((AutoClaimParts { count, justid }, rest))
}

//! `FLUSHALL`, `FLUSHDB`.
ghost use Rattle.std.specs.Prelude.{◌≡◌, [], OnOk, OnErr};

use super::SYNTAX;
use super::words::is_word;
use crate::answer::Answer;
use crate::refusal::Refusal;
use server_store::Stream;

/// `FLUSHALL [ASYNC | SYNC]`, `FLUSHDB [ASYNC | SYNC]`
pub(super) fn remove_all(
    streams: &mut Vec<Stream>,
    arguments: &[Vec<u8>],
) -> Result<Answer, Refusal>
    ensures ok { OnOk result (streams.new.items ≡ []) }
    ensures err { OnErr result (streams.new ≡ streams.old) }
{
    match arguments {
        [] => {}
        [word] if is_word(word, "ASYNC") || is_word(word, "SYNC") => {}
        _ => return Err(SYNTAX),
    }
    streams.clear();
    Ok(Answer::Okay)
}

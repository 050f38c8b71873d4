//! Reads lines and writes one line for each.
ghost use Rattle.std.specs.Prelude.{◌≡◌, ◌≢◌, ◌<◌, [], IfErr, OnOk, IfSome, length, vec_capacity};
ghost use Rattle.std.specs.Io.KnownBytes.{Keeps, IsAtEnd};
ghost use Rattle.stream_option_parsing.specs.Answer.{NeedsNoMemory};
ghost use Rattle.stream_option_parsing.specs.Told.{WroteAnswer, WroteAnswerBeginning};

use crate::answer::append_replies;
use crate::device::{read_all, write_whole};
use crate::run_error::RunError;
use std::alloc::Global;
use std::io::{Read, Write};

/// Reads the input to its end, and then writes one line for each of its lines.
///
/// A line ends at each LF; a last line without LF counts if it has a byte. It is split at each
/// single space. The first part is the type word: `trim`, `add`, `config`, `autoclaim`, `claim`,
/// `read` or `nack`. The others are the arguments, empty ones included. The output line
/// is `ok k` if the reader of this type returns `Ok` with k, `no` if it returns
/// `NotASentence`, and `unknown` if there is no such type.
///
/// Each error of a read or of a write is returned, `Interrupted` too, and so is a write of 0
/// bytes; nothing is retried. After `Read` or `Memory` nothing was written; after `Write` a
/// prefix of the output was. An input with no byte allocates no memory.
pub fn run<R: Read, W: Write>(alloc: Global, input: &mut R, output: &mut W) -> Result<(), RunError>
    ensures answered { OnOk result (IfSome (R.remaining input.old) (λ all.
        WroteAnswer all (W.contents output.old) (W.contents output.new))) }
    ensures end { OnOk result (IsAtEnd (R.remaining input.new)) }
    ensures unwritten { IfErr result (λ e. e ≢ RunError.Write
        → Keeps (W.contents output.old) (W.contents output.new)) }
    ensures memory { IfErr result (λ e. e ≡ RunError.Memory
        → IfSome (R.remaining input.old) (λ all. 0 < length all)) }
    ensures begun { IfErr result (λ e. e ≡ RunError.Write
        → IfSome (R.remaining input.old) (λ all.
        WroteAnswerBeginning all (W.contents output.old) (W.contents output.new))) }
{
    let mut bytes = Vec::new(alloc);
    let mut replies = Vec::new(alloc);
    run_with(alloc, input, output, &mut bytes, &mut replies)
}

/// `run`, with an empty list for the input and one for the replies. `Memory` is returned only if the
/// capacity of a list is too small, or if a line has an argument or a known type.
fn run_with<R: Read, W: Write>(
    alloc: Global,
    input: &mut R,
    output: &mut W,
    bytes: &mut Vec<u8>,
    replies: &mut Vec<u8>,
) -> Result<(), RunError>
    requires bytes { bytes.old.items ≡ [] }
    requires replies { replies.old.items ≡ [] }
    ensures answered { OnOk result (IfSome (R.remaining input.old) (λ all.
        WroteAnswer all (W.contents output.old) (W.contents output.new))) }
    ensures end { OnOk result (IsAtEnd (R.remaining input.new)) }
    ensures unwritten { IfErr result (λ e. e ≢ RunError.Write
        → Keeps (W.contents output.old) (W.contents output.new)) }
    ensures memory { IfErr result (λ e. e ≡ RunError.Memory
        → IfSome (R.remaining input.old) (λ all. 0 < length all)) }
    ensures full { IfErr result (λ e. e ≡ RunError.Memory
        → IfSome (R.remaining input.old) (λ all.
        NeedsNoMemory all replies.old → vec_capacity bytes.old < length all)) }
    ensures begun { IfErr result (λ e. e ≡ RunError.Write
        → IfSome (R.remaining input.old) (λ all.
        WroteAnswerBeginning all (W.contents output.old) (W.contents output.new))) }
{
    read_all(input, bytes)?;
    append_replies(alloc, bytes.as_slice(), replies)?;
    write_whole(output, replies.as_slice())
}

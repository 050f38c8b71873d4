//! Lines, and the parts of a line.
ghost use Rattle.std.specs.Prelude.{◌≡◌, ◌≢◌, [], ◌∷◌, ◌<◌, None, List, ℕ, length};
ghost use Rattle.std.specs.Prelude.{IfOk, IfErr, OnErr, IfSome};
ghost use Rattle.stream_option_parsing.specs.Lines.{lines_of, parts_of, pieces, pieces_from, parts_left};
ghost use Rattle.stream_option_parsing.specs.Split.{arguments};

use crate::run_error::RunError;
use std::alloc::Global;

/// The first line, and the bytes after it.
pub(crate) fn cut_line(bytes: &[u8]) -> (&[u8], &[u8])
    requires { 0 < length bytes.now }
    ensures lines { lines_of bytes.now ≡ result.0.now ∷ lines_of result.1.now }
    ensures shorter { length result.1.now < length bytes.now }
{
    match cut_at(b'\n', bytes) {
        (line, Some(rest)) => (line, rest),
        (line, None) => (line, &[]),
    }
}

/// The type word of a line, and the arguments after it. Memory is allocated only if there are any.
pub(crate) fn cut_parts(alloc: Global, line: &[u8]) -> Result<(&[u8], Vec<Vec<u8>>), RunError>
    ensures parts { IfOk result (λ x. parts_of line.now ≡ x.0.now ∷ arguments x.1.items) }
    ensures err { IfErr result (λ e. e ≡ RunError.Memory) }
    ensures some { OnErr result (parts_of line.now ≢ line.now ∷ []) }
{
    let (word, rest) = cut_at(b' ', line);
    let args = cut_args(alloc, rest)?;
    Ok((word, args))
}

/// The remaining arguments of a line. Memory is allocated only if there are any.
fn cut_args(alloc: Global, line: Option<&[u8]>) -> Result<Vec<Vec<u8>>, RunError>
    ensures args { IfOk result (λ args. arguments args.items ≡ parts_left line.entry) }
    ensures err { IfErr result (λ e. e ≡ RunError.Memory) }
    ensures some { OnErr result (parts_left line.entry ≢ []) }
{
    let mut args = Vec::new(alloc);
    let mut left = line;
    'parts: while let Some(rest) = left {
        let (arg, after) = cut_at(b' ', rest);
        args.push(Vec::from_slice(alloc, arg)?)?;
        left = after;
    }
    Ok(args)
}

/// The bytes before the first `mark`, and those after it, if there is one.
fn cut_at(mark: u8, bytes: &[u8]) -> (&[u8], Option<&[u8]>)
    ensures cut { (end : List (List ℕ)) → pieces mark end bytes.now
        ≡ pieces_from mark end result.0.now result.1 }
    ensures shorter { IfSome result.1 (λ rest. length rest.now < length bytes.now) }
    ensures whole { result.1 ≡ None → result.0.now ≡ bytes.now }
{
    for i in 0..bytes.len() {
        if bytes[i] == mark {
            return (&bytes[..i], Some(&bytes[i + 1..]));
        }
    }
    (bytes, None)
}

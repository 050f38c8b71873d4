//! Words that were sent, and how they are shown.
ghost use Rattle.std.specs.Prelude.{◌≡◌, ◌≤◌, ◌↔◌, IfOk, IsTrue, length as length_of, map, take};
ghost use Rattle.std.specs.Char.{to_ascii_lowercase};
ghost use Rattle.std.specs.List.{prefix_len};
ghost use Rattle.std.specs.Str.{bytes_eq};
ghost use Rattle.server_commands.specs.Commands.{lower_case};
ghost use Rattle.server_commands.specs.Shown.{is_not_nul, text_before_nul};

use std::alloc::{AllocError, Global};

/// Whether the argument is this word, in either case.
pub(super) fn is_word(argument: &[u8], word: &str) -> bool
    ensures word { IsTrue result ↔ (map to_ascii_lowercase argument.now ≡ map to_ascii_lowercase word.now) }
    ensures same { result ≡ bytes_eq (lower_case argument.now) (lower_case word.now) }
{
    argument.eq_ignore_ascii_case(word.as_bytes())
}

/// The part of a word that is shown: up to its first NUL, at most `most` bytes.
pub(super) fn shown(word: &[u8], most: usize) -> &[u8]
    ensures { result.now ≡ take most (text_before_nul word.now) }
{
    take_front(before_nul(word), most)
}

/// The bytes before the first NUL.
pub(super) fn before_nul(word: &[u8]) -> &[u8]
    ensures { result.now ≡ text_before_nul word.now }
{
    let (text, _) = word.split_at(find_text_len(word));
    text
}

/// The first bytes, at most `most`.
fn take_front(text: &[u8], most: usize) -> &[u8]
    ensures { result.now ≡ take most text.now }
{
    let (front, _) = text.split_at(most.min(text.len()));
    front
}

/// How many bytes are before the first NUL.
fn find_text_len(word: &[u8]) -> usize
    ensures len { result ≡ prefix_len is_not_nul word.now }
    ensures within { result ≤ length_of word.now }
{
    word.iter().take_while(|byte| **byte != 0).count()
}

/// The word in lower case.
pub(super) fn lower(alloc: Global, word: &[u8]) -> Result<Vec<u8>, AllocError>
    ensures { IfOk result (λ text. text.items ≡ map to_ascii_lowercase word.now) }
{
    let mut text = Vec::from_slice(alloc, word)?;
    text.make_ascii_lowercase();
    Ok(text)
}

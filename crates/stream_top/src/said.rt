//! Checks that the parsed task matches the values of the command line.
ghost use Rattle.std.specs.Prelude.{◌≡◌, ◌-◌, ◌^◌, ◌&&◌, [], IfOk, IsTrue, None, Some, map};
ghost use Rattle.std.specs.List.{AllZip};
ghost use Rattle.std.specs.Str.{bytes_eq};
ghost use Rattle.command_lines.specs.Said.{IsNumberOf};
ghost use Rattle.command_lines.specs.Words.{said, texts_of};
ghost use Rattle.stream_top.specs.Measured.{name_of};
ghost use Rattle.stream_top.specs.Options.{IsKey, Says, SaysTables, bytes_of, form_said, is_word, key_bytes, number_of_values, text_of};

use crate::options::{Form, Key, Task, Word};
use command_lines::{Arity, Line};
use std::alloc::{AllocError, Global};

/// The number of values of each option of the program: none.
pub struct OptionArity;

impl Arity for OptionArity {
    ghost number = { number_of_values };

    fn number_of_values(_option: &str) -> usize {
        0
    }
}

/// Whether `line` specifies `task`, and the keys of the task are among `words`.
pub fn says(alloc: Global, line: &Line<'_>, words: &[Word], task: &Task) -> Result<bool, AllocError>
    ensures { IfOk result (λ says. IsTrue says → Says words.now (texts_of line.now) task.now) }
{
    match task {
        Task::Tables { key, rounds } => {
            if !has_no_form(line) {
                return Ok(false);
            }
            says_tables(alloc, line, words, key, *rounds)
        }
        Task::Text { keys, form } => {
            if !has_form(line, *form) {
                return Ok(false);
            }
            says_keys(alloc, line, words, keys)
        }
    }
}

/// Whether the line asks for `form`.
fn has_form(line: &Line<'_>, form: Form) -> bool
    ensures { IsTrue result → form_said (texts_of line.now) ≡ Some form }
{
    match form {
        Form::Json => line.has("--json"),
        Form::OpenMetrics => !line.has("--json") && line.has("--openmetrics"),
    }
}

/// Whether the line asks for no form.
fn has_no_form(line: &Line<'_>) -> bool
    ensures { IsTrue result → form_said (texts_of line.now) ≡ None }
{
    !line.has("--json") && !line.has("--openmetrics")
}

/// Whether the positional arguments of the line are `key`, which is one of `words`, and `rounds`.
fn says_tables(
    alloc: Global,
    line: &Line<'_>,
    words: &[Word],
    key: &Key,
    rounds: u32,
) -> Result<bool, AllocError>
    ensures { IfOk result (λ says. IsTrue says → SaysTables words.now (texts_of line.now) key.now rounds) }
{
    let names = line.values_of(alloc, "")?;
    let [name, text] = names.as_slice() else {
        return Ok(false);
    };
    if *name != key.name.as_str() || !is_word(words, key) {
        return Ok(false);
    }
    Ok(is_number(text, rounds))
}

/// Whether the text is the number.
fn is_number(text: &str, number: u32) -> bool
    ensures { IsTrue result → IsNumberOf 0 (2 ^ 32 - 1) text.now number }
{
    match text.parse::<u32>() {
        Ok(said) => said == number,
        Err(_) => false,
    }
}

/// Whether the positional arguments of the line are the keys, in order, and each key is one of `words`.
fn says_keys(
    alloc: Global,
    line: &Line<'_>,
    words: &[Word],
    keys: &[Key],
) -> Result<bool, AllocError>
    ensures { IfOk result (λ says. IsTrue says → AllZip (IsKey words.now) (said [] (texts_of line.now)) keys.now) }
{
    let names = line.values_of(alloc, "")?;
    Ok(are_keys(words, &names, keys))
}

/// Whether the names are those of the keys, in order, and each key is one of `words`.
fn are_keys(words: &[Word], names: &[&str], keys: &[Key]) -> bool
    ensures { IsTrue result → AllZip (IsKey words.now) (map (λ name. name.now) names.now) keys.now }
{
    let mut left = keys;
    for name in names {
        let [key, more @ ..] = left else {
            return false;
        };
        if *name != key.name.as_str() || !is_word(words, key) {
            return false;
        }
        left = more;
    }
    left.is_empty()
}

/// Whether one of the arguments is shown as the name of `key` and has its bytes.
fn is_word(words: &[Word], key: &Key) -> bool
    ensures { result ≡ is_word words.now key.now }
{
    for word in words {
        if is_same(word, key) {
            return true;
        }
    }
    false
}

/// Whether the argument is shown as the name of `key` and has its bytes.
fn is_same(word: &Word, key: &Key) -> bool
    ensures { result ≡ (bytes_eq (text_of word.now) (name_of key.now)
        && bytes_eq (bytes_of word.now) (key_bytes key.now)) }
{
    word.text.as_str() == key.name.as_str() && word.bytes.0.as_slice() == key.bytes.0.as_slice()
}

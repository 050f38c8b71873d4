//! Vectors, and the rows of texts to compare that they make. A vector is a name, the value to print,
//! and the text that is expected.
ghost use Rattle.std.specs.Prelude.{◌≡◌, ◌+◌, ◌∷◌, ◌++◌, [], OnOk, length, map, string_bytes, vec_len};
ghost use Rattle.redis_resp.specs.Value.{tree};
ghost use Rattle.test_notation.specs.Answer.{IsAnswer};
ghost use Rattle.test_notation.specs.ReplyText.{IsReplyText};
ghost use Rattle.test_notation.specs.Vectors.{AddsRow, AddsRows, options_texts, row_texts};

pub mod config;
pub mod options;

use crate::answer::both_answers;
use crate::form::PrintedForm;
use crate::notation::{NotationError, read_value};
use redis_resp::{FromRedisValue, Value};
use std::alloc::{AllocError, Global};

/// A text that was computed, beside the expected text.
#[derive(Drop)]
pub struct Row {
    pub name: String,
    pub text: String,
    pub stored: String,
}

/// Options as a vector: its name, the options, and the stored text.
pub type OptionsVector<T> = (&'static str, T, &'static str);

/// A reply as a vector: its name, the notation of the value, and the stored text.
pub type ReplyVector<'a> = (&'a str, &'a str, &'a str);

/// Adds the row of a vector: its name, the text that was computed, and the stored text.
pub fn push_text_row(
    alloc: Global,
    rows: &mut Vec<Row>,
    name: &str,
    text: String,
    stored: &str,
) -> Result<(), AllocError>
    ensures row { OnOk result (map row_texts rows.new.items
        ≡ map row_texts rows.old.items ++ (name.now, string_bytes text, stored.now) ∷ []) }
    ensures one { OnOk result (vec_len rows.new ≡ vec_len rows.old + 1) }
{
    let name = String::from_str(alloc, name)?;
    let stored = String::from_str(alloc, stored)?;
    rows.push(Row { name, text, stored })?;
    Ok(())
}

/// Adds the row of a vector whose text is the printed form of a value.
pub fn push_row<T: PrintedForm>(
    alloc: Global,
    rows: &mut Vec<Row>,
    name: &str,
    value: &T,
    stored: &str,
) -> Result<(), AllocError>
    ensures row { OnOk result (map row_texts rows.new.items
        ≡ map row_texts rows.old.items ++ (name.now, T.form value.now, stored.now) ∷ []) }
    ensures one { OnOk result (vec_len rows.new ≡ vec_len rows.old + 1) }
{
    push_text_row(alloc, rows, name, value.printed(alloc)?, stored)
}

/// Adds the row of each options value of a table, in order.
pub fn push_options_rows<T: PrintedForm>(
    alloc: Global,
    rows: &mut Vec<Row>,
    vectors: &[OptionsVector<T>],
) -> Result<(), AllocError>
    ensures rows { OnOk result (map row_texts rows.new.items
        ≡ map row_texts rows.old.items ++ map (options_texts T.form) vectors.now) }
    ensures count { OnOk result (vec_len rows.new ≡ vec_len rows.old + length vectors.now) }
{
    for (name, options, stored) in vectors {
        push_row(alloc, rows, name, options, stored)?;
    }
    Ok(())
}

/// Adds the row of a reply: the printed result of both readings of the value.
pub fn push_answer_row<T: FromRedisValue + PrintedForm>(
    alloc: Global,
    rows: &mut Vec<Row>,
    name: &str,
    value: Value,
    stored: &str,
) -> Result<(), AllocError>
    ensures row { OnOk result (AddsRow
        (IsAnswer T.meaning T.reading T.may_refuse T.form (tree value))
        rows.old.items rows.new.items name.now stored.now) }
    ensures one { OnOk result (vec_len rows.new ≡ vec_len rows.old + 1) }
{
    push_text_row(alloc, rows, name, both_answers::<T>(alloc, value)?, stored)
}

/// Adds the row of a reply whose value is in the notation; `no value` if it does not parse.
fn push_reply_row<T: FromRedisValue + PrintedForm>(
    alloc: Global,
    rows: &mut Vec<Row>,
    name: &str,
    notation: &str,
    stored: &str,
) -> Result<(), AllocError>
    ensures row { OnOk result (AddsRow
        (IsReplyText T.meaning T.reading T.may_refuse T.form notation.entry)
        rows.old.items rows.new.items name.now stored.now) }
    ensures one { OnOk result (vec_len rows.new ≡ vec_len rows.old + 1) }
{
    match read_value(alloc, notation) {
        Ok(value) => push_answer_row::<T>(alloc, rows, name, value, stored),
        Err(NotationError::Memory) => Err(AllocError),
        Err(_error) => push_text_row(
            alloc,
            rows,
            name,
            String::from_str(alloc, "no value")?,
            stored,
        ),
    }
}

/// Adds the row of each reply of a table, in order.
pub fn push_reply_rows<T: FromRedisValue + PrintedForm>(
    alloc: Global,
    rows: &mut Vec<Row>,
    vectors: &[ReplyVector<'_>],
) -> Result<(), AllocError>
    ensures rows { OnOk result (AddsRows (IsReplyText T.meaning T.reading T.may_refuse T.form)
        rows.old.items rows.new.items vectors.now) }
    ensures count { OnOk result (vec_len rows.new ≡ vec_len rows.old + length vectors.now) }
{
    for vector in vectors {
        push_reply_row::<T>(alloc, rows, vector.0, vector.1, vector.2)?;
    }
    Ok(())
}

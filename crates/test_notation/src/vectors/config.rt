//! The rows of config calls, which return options or refuse them.
ghost use Rattle.std.specs.Prelude.{◌≡◌, ◌+◌, IfOk, OnOk, length, string_bytes, vec_len};
ghost use Rattle.test_notation.specs.ConfigText.{IsConfigText, IsRefusalText, refusal_text};
ghost use Rattle.test_notation.specs.Vectors.{AddsRow, AddsRows};

use crate::vectors::{OptionsVector, Row, push_row, push_text_row};
use std::alloc::{AllocError, Global};
use stream_options::{ConfigError, StreamConfigOptions};

/// The result of a config call.
pub type ConfigAnswer = Result<StreamConfigOptions, ConfigError>;

/// Adds the row of each config call of a table, in order.
pub fn push_config_rows(
    alloc: Global,
    rows: &mut Vec<Row>,
    vectors: &[OptionsVector<ConfigAnswer>],
) -> Result<(), AllocError>
    ensures rows { OnOk result (AddsRows IsConfigText rows.old.items rows.new.items vectors.now) }
    ensures count { OnOk result (vec_len rows.new ≡ vec_len rows.old + length vectors.now) }
{
    for (name, answer, stored) in vectors {
        push_answer(alloc, rows, name, answer, stored)?;
    }
    Ok(())
}

/// Adds the row of a call's result: its options, or why it was refused.
fn push_answer(
    alloc: Global,
    rows: &mut Vec<Row>,
    name: &str,
    answer: &ConfigAnswer,
    stored: &str,
) -> Result<(), AllocError>
    ensures row { OnOk result (AddsRow (IsConfigText answer.now)
        rows.old.items rows.new.items name.now stored.now) }
    ensures one { OnOk result (vec_len rows.new ≡ vec_len rows.old + 1) }
{
    match answer {
        Ok(options) => push_row(alloc, rows, name, options, stored),
        Err(refusal) => push_text_row(alloc, rows, name, printed_refusal(alloc, refusal)?, stored),
    }
}

/// Returns the text of a refusal, with a remark if it prints another text.
fn printed_refusal(alloc: Global, refusal: &ConfigError) -> Result<String, AllocError>
    ensures { IfOk result (λ text. IsRefusalText refusal.now (string_bytes text)) }
{
    let mut text = text_of_refusal(alloc, refusal)?;
    if refusal.to_string(alloc)? != text {
        text.push_str(", but another text is printed")?;
    }
    Ok(text)
}

/// Returns the text that a refusal has to print.
fn text_of_refusal(alloc: Global, refusal: &ConfigError) -> Result<String, AllocError>
    ensures { IfOk result (λ text. string_bytes text ≡ refusal_text refusal.now) }
{
    match refusal {
        ConfigError::Seconds(seconds) => {
            format!(in alloc; "IDMP-DURATION must be between 1 and 86400 seconds, got: {seconds}")
        }
        ConfigError::Maxsize(entries) => {
            format!(in alloc; "IDMP-MAXSIZE must be between 1 and 10000 entries, got: {entries}")
        }
    }
}

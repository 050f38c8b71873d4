//! Checks that the parsed options match the values of the command line.
ghost use Rattle.std.specs.Prelude.{◌≡◌, ◌∷◌, ◌++◌, IfOk, IfSome, IsTrue, None, Some, codes, map, option_map, string_bytes};
ghost use Rattle.clap.specs.Words.{found_of};
ghost use Rattle.command_lines.specs.Words.{said, texts_of};
ghost use Rattle.stream_sqlite.specs.Columns.{at_last_colon, column_in, columns_in, columns_of, kind_in, shape_of};
ghost use Rattle.stream_sqlite.specs.Options.{AreOptions, Says, SaysTable, last_given, number_of_values};

use crate::options::{COUNT, Options, TABLE};
use clap::ArgMatches;
use command_lines::{Arity, Line, names_after, says_dead, says_settings, says_text};
use std::alloc::{AllocError, Global};
use worker_table::row_table::{Column, Kind};

/// The number of values of each option of the program.
pub struct OptionArity;

impl Arity for OptionArity {
    ghost number = { number_of_values };

    fn number_of_values(option: &str) -> usize {
        match option {
            "--until-empty" => 0,
            "--dead" => 2,
            _ => 1,
        }
    }
}

/// Whether `line` specifies `options`, given that `options` match `matches`.
pub fn says(
    alloc: Global,
    line: &Line<'_>,
    matches: &ArgMatches<'_>,
    options: &Options,
) -> Result<bool, AllocError>
    requires { AreOptions (found_of matches.now) options.now }
    ensures { IfOk result (λ says. IsTrue says → Says (texts_of line.now) options.now) }
{
    let names = line.values_of(alloc, "")?;
    let Some([path]) = names_after(&names, &options.settings) else {
        return Ok(false);
    };
    if *path != options.path.as_str() || options.until_empty != line.has("--until-empty") {
        return Ok(false);
    }
    let settings = says_settings(alloc, line, matches, &COUNT, &options.settings)?;
    let table = says_table(alloc, line, options)?;
    let dead = says_dead(alloc, line, &options.dead)?;
    if !settings || !table || !dead {
        return Ok(false);
    }
    Ok(true)
}

/// Whether `line` specifies the table, the columns and the target stream of `options`.
fn says_table(alloc: Global, line: &Line<'_>, options: &Options) -> Result<bool, AllocError>
    ensures { IfOk result (λ says. IsTrue says → SaysTable (texts_of line.now) options.now) }
{
    let table = says_text(alloc, line, "--table", TABLE, &options.table)?;
    let columns = says_columns(alloc, line, &options.columns)?;
    let forward = says_forward(alloc, line, &options.forward)?;
    if !table || !columns || !forward {
        return Ok(false);
    }
    Ok(true)
}

/// Whether the last `--columns` list of the line is a list of `columns`. Without a list `columns` must be
/// empty.
fn says_columns(alloc: Global, line: &Line<'_>, columns: &[Column]) -> Result<bool, AllocError>
    ensures { IfOk result (λ says. IsTrue says → Some (map shape_of columns.now)
        ≡ columns_of (last_given (said (codes "--columns") (texts_of line.now)))) }
{
    let values = line.values_of(alloc, "--columns")?;
    match find_last_value(&values) {
        Some(list) => Ok(lists(list, columns)),
        None => Ok(columns.is_empty()),
    }
}

/// Whether the last `--forward` stream of the line is `forward`. Without one `forward` must be `None`.
fn says_forward(
    alloc: Global,
    line: &Line<'_>,
    forward: &Option<String>,
) -> Result<bool, AllocError>
    ensures { IfOk result (λ says. IsTrue says → option_map string_bytes forward.now
        ≡ last_given (said (codes "--forward") (texts_of line.now))) }
{
    let values = line.values_of(alloc, "--forward")?;
    Ok(is_target(find_last_value(&values), forward))
}

/// Whether `forward` is the stream `said`, or both are `None`.
fn is_target(said: Option<&str>, forward: &Option<String>) -> bool
    ensures { IsTrue result → option_map string_bytes forward.now ≡ option_map (λ text. text.now) said.entry }
{
    match (said, forward) {
        (None, None) => true,
        (Some(said), Some(target)) => target.as_str() == said,
        _ => false,
    }
}

/// Returns the last value, or `None` if there are no values.
fn find_last_value<'a>(values: &[&'a str]) -> Option<&'a str>
    ensures { option_map (λ text. text.now) result ≡ last_given (map (λ v. v.now) values.now) }
{
    match values.last() {
        Some(value) => Some(*value),
        None => None,
    }
}

/// Whether `list`, such as `item:text,photo:blob?`, is a list of `columns`.
fn lists(list: &str, columns: &[Column]) -> bool
    ensures { IsTrue result → columns_in list.now ≡ Some (map shape_of columns.now) }
{
    let mut rest = list;
    let mut left = columns;
    while let [column, more @ ..] = left {
        let Some((part, behind)) = rest.split_once(',') else {
            return more.is_empty() && is_column(rest, column);
        };
        if !is_column(part, column) {
            return false;
        }
        rest = behind;
        left = more;
    }
    false
}

/// Whether a part of a list, such as `item:text`, is `column`.
fn is_column(part: &str, column: &Column) -> bool
    ensures { IsTrue result → column_in part.now ≡ Some (shape_of column.now) }
{
    match find_kind(part, &column.name) {
        Some(kind) => kind == format_kind(column.kind, column.optional),
        None => false,
    }
}

/// Returns the text after `name` and a colon, if the part begins with them.
fn find_kind<'a>(part: &'a str, name: &str) -> Option<&'a str>
    ensures { IfSome result (λ kind. part.now ≡ name.now ++ 58 ∷ kind.now) }
{
    let rest = strip_front(part, name)?;
    strip_front(rest, ":")
}

/// Returns the text after `front`, if the text begins with it.
fn strip_front<'a>(text: &'a str, front: &str) -> Option<&'a str>
    ensures { IfSome result (λ rest. text.now ≡ front.now ++ rest.now) }
{
    text.strip_prefix(front)
}

/// Returns the word for a kind, with a question mark if a row may have no value.
fn format_kind(kind: Kind, optional: bool) -> &'static str
    ensures kind { kind_in result.now ≡ Some (kind, optional) }
    ensures whole { at_last_colon result.now ≡ None }
{
    match (kind, optional) {
        (Kind::Text, false) => "text",
        (Kind::Integer, false) => "integer",
        (Kind::Blob, false) => "blob",
        (Kind::Text, true) => "text?",
        (Kind::Integer, true) => "integer?",
        (Kind::Blob, true) => "blob?",
    }
}

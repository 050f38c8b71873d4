//! Checks that the parsed options match the values of the command line.
ghost use Rattle.std.specs.Prelude.{◌≡◌, ◌∷◌, [], IfOk, IsTrue, None, Some, if◌then◌else◌, map, option_map, string_bytes};
ghost use Rattle.clap.specs.Words.{found_of};
ghost use Rattle.command_lines.specs.Numbers.{number_of};
ghost use Rattle.command_lines.specs.Words.{texts_of};
ghost use Rattle.stream_options.specs.Trim.{max_len, min_id, unlimited};
ghost use Rattle.stream_options.specs.View.{mode_of, strategy_of};
ghost use Rattle.stream_fill.specs.Options.{AreOptions, Says, last_value, mode_if, name_in, name_said, number_of_values, trim_by, trim_said};

use crate::lines::Form;
use crate::options::{BASE, BATCH, Options};
use clap::ArgMatches;
use command_lines::{Arity, Line, last_of, says_number, says_wait};
use std::alloc::{AllocError, Global};
use stream_options::{StreamTrimStrategy, StreamTrimmingMode};

/// The number of values of each option of the program.
pub struct OptionArity;

impl Arity for OptionArity {
    ghost number = { number_of_values };

    fn number_of_values(option: &str) -> usize {
        match option {
            "--json" | "--onto" | "--approximate" => 0,
            "--wait" => 2,
            _ => 1,
        }
    }
}

/// Whether `line` specifies `options`, given that `options` match `matches`.
pub fn says(
    alloc: Global,
    line: &Line<'_>,
    matches: &ArgMatches<'_>,
    options: &Options,
) -> Result<bool, AllocError>
    requires { AreOptions (found_of matches.now) options.now }
    ensures { IfOk result (λ says. IsTrue says → Says (texts_of line.now) options.now) }
{
    let names = line.values_of(alloc, "")?;
    if !are_names(&names, options) || options.is_onto != line.has("--onto") {
        return Ok(false);
    }
    let batch = says_number(alloc, line, matches, "--batch", &BATCH)?;
    let base = says_number(alloc, line, matches, "--base", &BASE)?;
    let trim = says_trim(alloc, line, &options.trim)?;
    let form = says_form(alloc, line, &options.form)?;
    let wait = says_wait(alloc, line, options.wait)?;
    if !batch || !base || !trim || !form || !wait {
        return Ok(false);
    }
    Ok(true)
}

/// Whether the names are KEY and FILE of `options`.
fn are_names(names: &[&str], options: &Options) -> bool
    ensures { IsTrue result → map (λ name. name.now) names.now
        ≡ string_bytes options.now.settings.key ∷ string_bytes options.now.path ∷ [] }
{
    match names {
        [key, path] => *key == options.settings.key() && *path == options.path.as_str(),
        _ => false,
    }
}

/// Whether `form` is the form that the line specifies.
fn says_form(alloc: Global, line: &Line<'_>, form: &Form) -> Result<bool, AllocError>
    ensures { IfOk result (λ says. IsTrue says → name_in form.now ≡ name_said (texts_of line.now)) }
{
    let names = line.values_of(alloc, "--field")?;
    Ok(has_form(form, line.has("--json"), last_of(&names, "line")))
}

/// Whether `form` is JSON if `is_json` is true, and else the value of the field `name`.
fn has_form(form: &Form, is_json: bool, name: &str) -> bool
    ensures { IsTrue result → name_in form.now ≡ (if is_json then None else Some name.now) }
{
    match form {
        Form::Json => is_json,
        Form::Text(field) => !is_json && field.as_slice() == name.as_bytes(),
    }
}

/// Whether `trim` is the trimming that the line specifies.
fn says_trim(
    alloc: Global,
    line: &Line<'_>,
    trim: &Option<StreamTrimStrategy>,
) -> Result<bool, AllocError>
    ensures { IfOk result (λ says. IsTrue says → option_map strategy_of trim.now ≡ trim_said (texts_of line.now)) }
{
    let lengths = line.values_of(alloc, "--maxlen")?;
    let ids = line.values_of(alloc, "--minid")?;
    let is_about = line.has("--approximate");
    Ok(is_trim(
        trim,
        is_about,
        find_last_value(&lengths),
        find_last_value(&ids),
    ))
}

/// Returns the last value, or `None` if there are no values.
fn find_last_value<'a>(values: &[&'a str]) -> Option<&'a str>
    ensures { option_map (λ v. v.now) result ≡ last_value (map (λ v. v.now) values.now) }
{
    values.last().copied()
}

/// Whether `trim` keeps `length` entries, or else the entries from `id` on. Without both, whether there is no
/// trimming.
fn is_trim(
    trim: &Option<StreamTrimStrategy>,
    is_about: bool,
    length: Option<&str>,
    id: Option<&str>,
) -> bool
    ensures { IsTrue result → option_map strategy_of trim.now
        ≡ trim_by (mode_if is_about) (option_map (λ w. w.now) length.entry) (option_map (λ w. w.now) id.entry) }
{
    match (length, id) {
        (Some(word), _) => keeps_length(trim, is_about, word),
        (None, Some(word)) => keeps_from(trim, is_about, word),
        (None, None) => trim.is_none(),
    }
}

/// Whether `trim` keeps as many entries as `word` specifies.
fn keeps_length(trim: &Option<StreamTrimStrategy>, is_about: bool, word: &str) -> bool
    ensures { IsTrue result → option_map strategy_of trim.now
        ≡ Some (unlimited (max_len (mode_if is_about) (number_of word.now))) }
{
    let Some(StreamTrimStrategy::MaxLen(mode, length, None)) = trim else {
        return false;
    };
    match word.parse::<usize>() {
        Ok(said) => said == *length && is_mode(mode, is_about),
        Err(_) => false,
    }
}

/// Whether `trim` keeps the entries whose ids are not below the id `word`.
fn keeps_from(trim: &Option<StreamTrimStrategy>, is_about: bool, word: &str) -> bool
    ensures { IsTrue result → option_map strategy_of trim.now
        ≡ Some (unlimited (min_id (mode_if is_about) word.now)) }
{
    let Some(StreamTrimStrategy::MinId(mode, id, None)) = trim else {
        return false;
    };
    id.as_str() == word && is_mode(mode, is_about)
}

/// Whether the mode is approximate if `is_about` is true, and else exact.
fn is_mode(mode: &StreamTrimmingMode, is_about: bool) -> bool
    ensures { IsTrue result → mode_of mode.now ≡ mode_if is_about }
{
    match mode {
        StreamTrimmingMode::Approx => is_about,
        StreamTrimmingMode::Exact => !is_about,
    }
}

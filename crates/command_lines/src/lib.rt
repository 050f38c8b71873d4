//! The parts that the command lines of the programs have in common, built on the crate `clap`. They describe
//! the options, parse the arguments, and report errors in the arguments.
//!
//! The standard output of these programs is the connection to the server. Therefore the help, the version and
//! errors go to standard error.
#![tactic(auto)]

ghost use Rattle.std.specs.Prelude.{◌≡◌, ◌≢◌, ◌≤◌, ◌<◌, ◌∷◌, ◌⊎◌, [], ℕ, List, IfErr, IfOk, IfSome, None, Some};
ghost use Rattle.std.specs.Prelude.{IsTrue, codes, false, true, length, map, option_map, string_bytes, unwrap_or};
ghost use Rattle.std.specs.Process.{exit_status};
ghost use Rattle.clap.specs.Words.{BuildsTo, first_value, found_of, kind_of, matched_of, new_rule, one_text, raw_values, rule_of};
ghost use Rattle.clap.specs.declared.builder.command.Command.TheViews.{out-Command as fields_of};
ghost use Rattle.clap.specs.declared.builder.ArgAction.TheVariants.{Set, SetTrue};
ghost use Rattle.clap.specs.declared.builder.value_parser.ValueParser.TheVariants as vp;
ghost use Rattle.command_lines.specs.Numbers.{IsNumberIn, number_of};
ghost use Rattle.command_lines.specs.Words.{asks_help};

mod counts;
mod said;
mod words;
mod worker_settings;

use clap::builder::ValueParser;
use clap::error::ErrorKind;
use clap::{Arg, ArgAction, ArgMatches, Command, Error};
pub use counts::Counts;
pub use said::{names_after, says_dead, says_number, says_settings, says_text, says_wait};
use std::alloc::{AllocError, Global};
use std::fmt::Display;
use std::io;
use std::process::ExitCode;
pub use words::{Arity, Line, asks_help, last_of};
pub use worker_settings::{confirmation_of, dead, give_up_of, settings_of};

/// The version of the programs, which `--version` shows.
pub const VERSION: &str = "0.9.0";

/// The build of the program, after a mark. A release replaces the text after the mark in the built program by a
/// text of the same length. Spaces at the end are not shown.
static BUILD: &str = "@jagyerti-build@unproved, built from a checkout             ";

/// The length of the mark.
const MARK: usize = 16;

/// Returns the command of a program. Its arguments exclude the program's name. A repeated option overrides the
/// earlier one.
pub fn command<'a>(alloc: Global, program: &'a str, about: &'a str) -> Command<'a>
    ensures name { (fields_of result).name ≡ program.entry }
    ensures words { (fields_of result).no_binary_name ≡ true }
    ensures again { (fields_of result).args_override_self ≡ true }
    ensures version { option_map (λ s. s.now) (fields_of result).version ≡ Some VERSION.now }
{
    Command::new(alloc, program)
        .version(VERSION)
        .about(about)
        .after_help(CONNECTION)
        .no_binary_name(true)
        .args_override_self(true)
}

const CONNECTION: &str =
    "Standard input and standard output are the connection with the server, so this text and each \
     error\ngo to standard error. Names that begin with a hyphen come last, after the word --.";

/// Parses the arguments. Fewer than `least` arguments are an error.
pub fn matches_of<'a>(
    alloc: Global,
    command: &mut Command<'a>,
    words: &'a [String],
    least: usize,
) -> Result<ArgMatches<'a>, Error>
    ensures built { IfOk result (λ _. BuildsTo command.old command.new) }
    ensures least { IfOk result (λ _. least ≤ length words.now) }
{
    let matches = command.try_get_matches_from_mut(words)?;
    if words.len() < least {
        return Err(refused(alloc, command, &"words are missing"));
    }
    Ok(matches)
}

/// Returns the error for arguments that the program itself refuses, with the reason.
pub fn refused<D: Display>(alloc: Global, command: &mut Command<'_>, reason: &D) -> Error
    ensures { (kind_of result ≡ ErrorKind.ValueValidation) ⊎ (kind_of result ≡ ErrorKind.OutOfMemory) }
{
    match refuse_value(alloc, command, reason) {
        Ok(error) => error,
        Err(error) => error.into(),
    }
}

fn refuse_value<D: Display>(
    alloc: Global,
    command: &mut Command<'_>,
    reason: &D,
) -> Result<Error, AllocError>
    ensures { IfOk result (λ e. kind_of e ≡ ErrorKind.ValueValidation) }
{
    let text = format!(in alloc; "{reason}")?;
    command.error(ErrorKind::ValueValidation, &text)
}

/// Returns the error for a value of an option that the program itself refuses, with the reason.
pub fn refused_value(
    alloc: Global,
    command: &mut Command<'_>,
    value: &str,
    option: &str,
    reason: &str,
) -> Error
    ensures { (kind_of result ≡ ErrorKind.ValueValidation)
        ⊎ (kind_of result ≡ ErrorKind.OutOfMemory) }
{
    let text = format_args!("invalid value '{value}' for '{option}': {reason}");
    refused(alloc, command, &text)
}

/// Writes the help, the version or the error to standard error. Returns the exit status: 0 for the help and the
/// version, 1 if memory ran out, and 2 for invalid arguments.
pub fn tell<R: Eprint>(alloc: Global, rt: &R, error: &Error) -> io::Result<ExitCode>
    ensures asked { IfOk result (λ code. (kind_of error.now ≡ ErrorKind.DisplayHelp)
        ⊎ (kind_of error.now ≡ ErrorKind.DisplayVersion) → exit_status code ≡ 0) }
    ensures memory { IfOk result (λ code. kind_of error.now ≡ ErrorKind.OutOfMemory → exit_status code ≡ 1) }
    ensures wrong { IfOk result (λ code. kind_of error.now ≢ ErrorKind.DisplayHelp
        → kind_of error.now ≢ ErrorKind.DisplayVersion → kind_of error.now ≢ ErrorKind.OutOfMemory
        → exit_status code ≡ 2) }
{
    match format_error(alloc, error) {
        Ok(text) => eprint!(rt; "{text}")?,
        Err(_) => return Err(io::Error::from(io::ErrorKind::OutOfMemory)),
    }
    Ok(ExitCode::from(choose_status(error)))
}

/// Writes the help, the version or the error for these arguments to standard error. Returns the exit status 0
/// only if an argument asks for the help or the version. Otherwise the status is 1 or 2, as for `tell`.
pub fn tell_line<R: Eprint>(
    alloc: Global,
    rt: &R,
    words: &[String],
    error: &Error,
) -> io::Result<ExitCode>
    ensures status { IfOk result (λ code. exit_status code ≤ 2) }
    ensures help { IfOk result (λ code. exit_status code ≡ 0 → IsTrue (asks_help (map string_bytes words.now))) }
{
    let code = tell(alloc, rt, error)?;
    match error.kind() {
        ErrorKind::DisplayHelp | ErrorKind::DisplayVersion if !asks_help(words) => {
            Ok(ExitCode::from(WRONG))
        }
        _ => Ok(code),
    }
}

/// The exit status for invalid arguments.
const WRONG: u8 = 2;

fn choose_status(error: &Error) -> u8
    ensures asked { (kind_of error.now ≡ ErrorKind.DisplayHelp)
        ⊎ (kind_of error.now ≡ ErrorKind.DisplayVersion) → result ≡ 0 }
    ensures memory { kind_of error.now ≡ ErrorKind.OutOfMemory → result ≡ 1 }
    ensures wrong { kind_of error.now ≢ ErrorKind.DisplayHelp → kind_of error.now ≢ ErrorKind.DisplayVersion
        → kind_of error.now ≢ ErrorKind.OutOfMemory → result ≡ 2 }
{
    match error.kind() {
        ErrorKind::DisplayHelp | ErrorKind::DisplayVersion => 0,
        ErrorKind::OutOfMemory => 1,
        _ => 2,
    }
}

/// Returns advice for the user about a server error with this code, such as `NOGROUP`. Returns `None` if there
/// is no advice.
pub fn remedy_of(code: &str) -> Option<&'static str>
    ensures group { code.now ≡ codes "NOGROUP" → option_map (λ text. text.now) result ≡ Some NO_GROUP.now }
    ensures moved { (code.now ≡ codes "MOVED") ⊎ (code.now ≡ codes "ASK")
        → option_map (λ text. text.now) result ≡ Some MOVED.now }
    ensures none { code.now ≢ codes "NOGROUP" → code.now ≢ codes "MOVED" → code.now ≢ codes "ASK"
        → result ≡ None }
{
    match code {
        "NOGROUP" => Some(NO_GROUP),
        "MOVED" | "ASK" => Some(MOVED),
        _ => None,
    }
}

const NO_GROUP: &str =
    "With --from 0 a group that is missing is made, with all entries; with --from $, from then on.";

const MOVED: &str =
    "This is a node of a cluster, and another node has the key: start 'jagyerti' with --cluster.";

/// Returns the text of an error for display. Each control character of an argument becomes `?`, since it could
/// control a terminal.
fn format_error(alloc: Global, error: &Error) -> Result<String, AllocError> {
    let text = format!(in alloc; "{error}")?;
    if error.kind() == ErrorKind::DisplayVersion {
        return add_build(alloc, text.trim_end());
    }
    let mut shown = String::new(alloc);
    for letter in text.chars() {
        let is_shown = letter == '\n' || !letter.is_control();
        shown.push(if is_shown { letter } else { '?' })?;
    }
    Ok(shown)
}

/// Returns the name, the version and the build of a program. The trailing spaces are searched for in a copy
/// that begins with `version`, so that a compiler cannot compute the text of `BUILD` in advance.
fn add_build(alloc: Global, version: &str) -> Result<String, AllocError> {
    let mut text = String::from_str(alloc, version)?;
    text.push_str(" (")?;
    for letter in BUILD.chars().skip(MARK) {
        text.push(letter)?;
    }
    let mut shown = String::from_str(alloc, text.trim_end())?;
    shown.push_str(")\n")?;
    Ok(shown)
}

/// Returns the value of the argument `id`, or the empty text if it is absent.
pub fn word_of<'a>(matches: &ArgMatches<'a>, id: &str) -> &'a str
    ensures some { (text : List ℕ) → first_value (found_of matches.now) id.now ≡ Some text
        → result.now ≡ text }
    ensures none { first_value (found_of matches.now) id.now ≡ None → result.now ≡ [] }
    ensures value { result.now ≡ unwrap_or (first_value (found_of matches.now) id.now) [] }
{
    match matches.get_str(id) {
        Some(text) => text,
        None => "",
    }
}

/// An option with a number, such as `--count 100`.
#[derive(Clone, Copy)]
pub struct Number {
    /// The name of the option, without the hyphens.
    pub name: &'static str,
    /// The name of the option's value, as `--help` shows it.
    pub value: &'static str,
    /// The description of the option in `--help`.
    pub help: &'static str,
    /// The smallest number allowed.
    pub least: u64,
    /// The largest number allowed.
    pub most: u64,
    /// The default number, in digits.
    pub usual: &'static str,
}

impl Number {
    /// Returns the option for a command. A negative number after the option is parsed as its value, and
    /// refused.
    pub fn arg<'a>(&self, alloc: Global) -> Arg<'a>
        ensures { rule_of result ≡ record (new_rule self.now.name.now) {
          long = Some self.now.name.now;
          action = Some Set;
          parser = Some (vp.Unsigned self.now.least self.now.most);
          value_names = 1;
          defaults = self.now.usual.now ∷ [];
          is_simple = false;
        } }
    {
        Arg::new(alloc, self.name)
            .long(self.name)
            .action(ArgAction::Set)
            .value_name(self.value)
            .value_parser(ValueParser::unsigned(self.least, self.most))
            .default_value(self.usual)
            .allow_negative_numbers(true)
            .help(self.help)
    }

    /// Returns the parsed number, or the default one. The number is in the range of the option.
    pub fn of(&self, matches: &ArgMatches<'_>) -> Option<u64>
        ensures none { one_text (found_of matches.now) self.now.name.now ≡ None → result ≡ None }
        ensures range { IfSome result (λ n. (self.now.least ≤ n) × (n ≤ self.now.most)) }
        ensures value { (text : List ℕ) → one_text (found_of matches.now) self.now.name.now ≡ Some text
            → IsNumberIn self.now.least self.now.most text → result ≡ Some (number_of text) }
    {
        let number = matches.get_one::<u64>(self.name)?;
        if number < self.least || self.most < number {
            return None;
        }
        Some(number)
    }
}

/// The number of milliseconds that the server waits for new entries.
pub const BLOCK: Number = Number {
    name: "block",
    value: "MS",
    help: "How long the server waits for new entries, in milliseconds; 0: no limit",
    least: 0,
    most: u64::MAX,
    usual: "5000",
};

/// The number of milliseconds after which pending entries of other consumers are claimed.
pub const IDLE: Number = Number {
    name: "idle",
    value: "MS",
    help: "Minimum idle time of claimed entries, in milliseconds",
    least: 0,
    most: u64::MAX,
    usual: "60000",
};

/// The number of reads of new entries after which a worker claims.
pub const EVERY: Number = Number {
    name: "every",
    value: "READS",
    help: "Number of reads of new entries between two claims; 0 and 1: a claim after each",
    least: 0,
    most: u64::MAX,
    usual: "10",
};

static BEGINNINGS: [&str; 2] = ["0", "$"];

/// Returns the option `--from`, which says where a new group begins.
pub fn from<'a>(alloc: Global) -> Arg<'a>
    ensures id { (rule_of result).id ≡ codes "from" }
    ensures long { (rule_of result).long ≡ Some (codes "from") }
    ensures one { (rule_of result).action ≡ Some Set }
{
    Arg::new(alloc, "from")
        .long("from")
        .action(ArgAction::Set)
        .value_name("ID")
        .value_parser(ValueParser::Names(BEGINNINGS.as_slice()))
        .help("Makes a group that is missing: with all entries (0), or with those from then on ($)")
}

/// Returns an option without a value, such as `--json`.
pub fn flag<'a>(alloc: Global, name: &'a str, help: &'a str) -> Arg<'a>
    ensures { rule_of result ≡ record (new_rule name.entry.now) {
      long = Some name.entry.now;
      action = Some SetTrue;
    } }
{
    Arg::new(alloc, name)
        .long(name)
        .action(ArgAction::SetTrue)
        .help(help)
}

/// Returns a required argument that must not be empty, such as `KEY`.
pub fn name<'a>(alloc: Global, name: &'a str, help: &'a str) -> Arg<'a>
    ensures { rule_of result ≡ record (new_rule name.entry.now) {
      action = Some Set;
      parser = Some vp.NonEmptyString;
      required = true;
    } }
{
    Arg::new(alloc, name)
        .required(true)
        .action(ArgAction::Set)
        .value_parser(ValueParser::NonEmptyString)
        .help(help)
}

/// Returns an option whose value is the next argument, such as `--table NAME`. The value may begin with a
/// hyphen.
pub fn text<'a>(alloc: Global, name: &'a str, value: &'a str, help: &'a str) -> Arg<'a>
    ensures { rule_of result ≡ record (new_rule name.entry.now) {
      long = Some name.entry.now;
      action = Some Set;
      value_names = 1;
      is_simple = false;
    } }
{
    Arg::new(alloc, name)
        .long(name)
        .action(ArgAction::Set)
        .value_name(value)
        .allow_hyphen_values(true)
        .help(help)
}

/// Returns an option whose values are the next two arguments, such as `--wait REPLICAS MS`. The values may
/// begin with hyphens.
pub fn pair<'a>(alloc: Global, name: &'a str, values: &'a [&'a str], help: &'a str) -> Arg<'a>
    ensures { rule_of result ≡ record (new_rule name.entry.now) {
      long = Some name.entry.now;
      action = Some Set;
      range = Some (record { start_inclusive = 2; end_inclusive = 2 });
      value_names = length values.entry.now;
      is_simple = false;
    } }
{
    Arg::new(alloc, name)
        .long(name)
        .action(ArgAction::Set)
        .num_args(2)
        .value_names(values)
        .allow_hyphen_values(true)
        .help(help)
}

// The names of the values of `--wait`, and the name of the option in an error.
static WAIT_VALUES: [&str; 2] = ["REPLICAS", "MS"];

const WAIT: &str = "--wait <REPLICAS> <MS>";

/// Returns the option `--wait`: this number of replicas must confirm within the milliseconds. `help` describes
/// what they confirm.
pub fn wait<'a>(alloc: Global, help: &'a str) -> Arg<'a>
    ensures { rule_of result ≡ record (new_rule (codes "wait")) {
      long = Some (codes "wait");
      action = Some Set;
      range = Some (record { start_inclusive = 2; end_inclusive = 2 });
      value_names = 2;
      is_simple = false;
    } }
{
    pair(alloc, "wait", WAIT_VALUES.as_slice(), help)
}

/// Returns the numbers of `--wait`: the replicas and the milliseconds. Returns `None` if the option is absent.
/// A number that is not at least 1 is an error.
pub(crate) fn wait_of(
    alloc: Global,
    command: &mut Command<'_>,
    matches: &ArgMatches<'_>,
) -> Result<Option<(u64, u64)>, Error>
    ensures range { IfOk result (λ found. IfSome found (λ wait. (0 < wait.0) × (0 < wait.1))) }
    ensures value { IfOk result (λ found. (replicas milliseconds : List ℕ)
        → option_map raw_values (matched_of (found_of matches.now) (codes "wait"))
        ≡ Some (replicas ∷ milliseconds ∷ []) → found ≡ Some (number_of replicas, number_of milliseconds)) }
    ensures none { IfOk result (λ found. matched_of (found_of matches.now) (codes "wait") ≡ None → found ≡ None) }
    ensures err { IfErr result (λ e. (kind_of e ≡ ErrorKind.ValueValidation)
        ⊎ (kind_of e ≡ ErrorKind.OutOfMemory)) }
{
    let Some([replicas, milliseconds]) = matches.get_strs("wait") else {
        return Ok(None);
    };
    let replicas = parse_positive(alloc, command, replicas)?;
    let milliseconds = parse_positive(alloc, command, milliseconds)?;
    Ok(Some((replicas, milliseconds)))
}

/// Parses a number of `--wait`. A number that is not at least 1 is an error.
fn parse_positive(alloc: Global, command: &mut Command<'_>, word: &str) -> Result<u64, Error>
    ensures range { IfOk result (λ number. 0 < number) }
    ensures value { IfOk result (λ number. number ≡ number_of word.now) }
    ensures err { IfErr result (λ e. (kind_of e ≡ ErrorKind.ValueValidation)
        ⊎ (kind_of e ≡ ErrorKind.OutOfMemory)) }
{
    match word.parse::<u64>() {
        Ok(number) if 0 < number => Ok(number),
        _ => {
            let reason = "wanted is a number, 1 at least";
            Err(refused_value(alloc, command, word, WAIT, reason))
        }
    }
}

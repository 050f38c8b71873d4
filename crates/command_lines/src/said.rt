//! Checks that the parsed options match the values of the command line.
ghost use Rattle.std.specs.Prelude.{◌≡◌, ◌∷◌, [], ℕ, IfOk, IfSome, IsTrue, codes, map, option_map, string_bytes};
ghost use Rattle.clap.specs.Words.{found_of};
ghost use Rattle.command_lines.specs.Said.{IsNumberOf, SaysSettings, number_and_text, two_numbers};
ghost use Rattle.command_lines.specs.WorkerSettings.{AreSettings, IsNumber, parts_of, wait_parts};
ghost use Rattle.command_lines.specs.Words.{last_pair, last_said, pair_of, said, texts_of};

use crate::words::{Line, last_of, last_pair};
use crate::{BLOCK, EVERY, IDLE, Number, word_of};
use clap::ArgMatches;
use redis_connection::Wait;
use std::alloc::{AllocError, Global};
use worker::Settings;
use worker::dead_letters::GiveUp;

/// Whether `line` specifies the numbers and the `--from` value of `settings`, given that `settings` matches
/// `matches`.
pub fn says_settings(
    alloc: Global,
    line: &Line<'_>,
    matches: &ArgMatches<'_>,
    count: &Number,
    settings: &Settings,
) -> Result<bool, AllocError>
    ensures { IfOk result (λ says. IsTrue says
        → AreSettings count.now.name.now count.now.least count.now.most (found_of matches.now) settings.now
        → SaysSettings count.now.usual.now count.now.least count.now.most (texts_of line.now) settings.now) }
{
    let of_count = says_number(alloc, line, matches, "--count", count)?;
    let block = says_number(alloc, line, matches, "--block", &BLOCK)?;
    let idle = says_number(alloc, line, matches, "--idle", &IDLE)?;
    let every = says_number(alloc, line, matches, "--every", &EVERY)?;
    let from = says_text(alloc, line, "--from", "", word_of(matches, "from"))?;
    if !of_count || !block || !idle || !every || !from {
        return Ok(false);
    }
    Ok(true)
}

/// Whether the line and the matches have the same number for `option`, and that number is in its range.
pub fn says_number(
    alloc: Global,
    line: &Line<'_>,
    matches: &ArgMatches<'_>,
    option: &str,
    number: &Number,
) -> Result<bool, AllocError>
    ensures { IfOk result (λ says. IsTrue says → (n : ℕ)
        → IsNumber (found_of matches.now) number.now.name.now number.now.least number.now.most n
        → IsNumberOf number.now.least number.now.most
        (last_said number.now.usual.now (said option.now (texts_of line.now))) n) }
{
    let values = line.values_of(alloc, option)?;
    let text = last_of(&values, number.usual);
    let (Ok(said), Some(found)) = (text.parse::<u64>(), matches.get_one::<u64>(number.name)) else {
        return Ok(false);
    };
    if said != found || said < number.least || number.most < said {
        return Ok(false);
    }
    Ok(true)
}

/// Whether the last value of `option` is `text`. If the line has no such value, `usual` is used instead.
pub fn says_text(
    alloc: Global,
    line: &Line<'_>,
    option: &str,
    usual: &str,
    text: &str,
) -> Result<bool, AllocError>
    ensures { IfOk result (λ says. IsTrue says
        → last_said usual.now (said option.now (texts_of line.now)) ≡ text.now) }
{
    let values = line.values_of(alloc, option)?;
    Ok(last_of(&values, usual) == text)
}

/// Returns the names after KEY, GROUP and CONSUMER.
/// Returns `None` unless `names` begins with the key, the group and the consumer of `settings`.
pub fn names_after<'n, 'a>(names: &'n [&'a str], settings: &Settings) -> Option<&'n [&'a str]>
    ensures { IfSome result (λ rest. map (λ name. name.now) names.now ≡ string_bytes settings.now.key
        ∷ string_bytes settings.now.group ∷ string_bytes settings.now.consumer ∷ map (λ name. name.now) rest.now) }
{
    let [key, group, consumer, rest @ ..] = names else {
        return None;
    };
    if *key != settings.key() || *group != settings.group() || *consumer != settings.consumer() {
        return None;
    }
    Some(rest)
}

/// Whether `dead` matches the `--dead` option of the line.
pub fn says_dead(alloc: Global, line: &Line<'_>, dead: &Option<GiveUp>) -> Result<bool, AllocError>
    ensures { IfOk result (λ says. IsTrue says → option_map parts_of dead.now
        ≡ option_map number_and_text (last_pair (said (codes "--dead") (texts_of line.now)))) }
{
    let values = line.values_of(alloc, "--dead")?;
    Ok(gives_up(last_pair(&values), dead))
}

/// Whether `wait` matches the `--wait` option of the line.
pub fn says_wait(alloc: Global, line: &Line<'_>, wait: Option<Wait>) -> Result<bool, AllocError>
    ensures { IfOk result (λ says. IsTrue says → option_map wait_parts wait
        ≡ option_map two_numbers (last_pair (said (codes "--wait") (texts_of line.now)))) }
{
    let values = line.values_of(alloc, "--wait")?;
    Ok(waits(last_pair(&values), wait))
}

/// Whether `dead` matches the values of `--dead`.
fn gives_up(said: Option<(&str, &str)>, dead: &Option<GiveUp>) -> bool
    ensures { IsTrue result → option_map parts_of dead.now ≡ option_map number_and_text (option_map pair_of said.entry) }
{
    match (said, dead) {
        (None, None) => true,
        (Some((times, stream)), Some(to)) => match times.parse::<usize>() {
            Ok(times) => times == to.deliveries && to.stream.as_str() == stream,
            Err(_) => false,
        },
        _ => false,
    }
}

/// Whether `wait` matches the values of `--wait`.
fn waits(said: Option<(&str, &str)>, wait: Option<Wait>) -> bool
    ensures { IsTrue result → option_map wait_parts wait ≡ option_map two_numbers (option_map pair_of said.entry) }
{
    match (said, wait) {
        (None, None) => true,
        (Some((replicas, milliseconds)), Some(wait)) => {
            match (replicas.parse::<u64>(), milliseconds.parse::<u64>()) {
                (Ok(replicas), Ok(milliseconds)) => Wait::new(replicas, milliseconds) == Ok(wait),
                _ => false,
            }
        }
        _ => false,
    }
}

//! The options that the programs with a worker have in common.
ghost use Rattle.std.specs.Prelude.{◌≡◌, ◌<◌, ◌∷◌, ◌⊎◌, [], ℕ, List, IfErr, IfOk, IfSome, None, Some, codes, false, option_map, string_bytes};
ghost use Rattle.clap.specs.Words.{found_of, kind_of, matched_of, new_rule, raw_values, rule_of};
ghost use Rattle.clap.specs.declared.builder.ArgAction.TheVariants.{Set};
ghost use Rattle.command_lines.specs.WorkerSettings.{AreSettings, GivesUp, IsNumber, MakesGroup, Waits, word_in};

use crate::{BLOCK, EVERY, IDLE, Number, pair, refused, refused_value, wait_of, word_of};
use clap::error::ErrorKind;
use clap::{Arg, ArgMatches, Command, Error};
use redis_connection::Wait;
use std::alloc::Global;
use worker::dead_letters::GiveUp;
use worker::{MakeGroup, Settings};

/// Returns the settings of a worker: the values of KEY, GROUP, CONSUMER, `--count`, `--block`, `--idle`,
/// `--every` and `--from`.
///
/// An empty name is an error, and so is a count that the worker does not accept.
pub fn settings_of(
    alloc: Global,
    command: &mut Command<'_>,
    matches: &ArgMatches<'_>,
    count: &Number,
) -> Result<Settings, Error>
    ensures ok { IfOk result (λ settings. AreSettings count.now.name.now count.now.least count.now.most
        (found_of matches.now) settings) }
    ensures err { IfErr result (λ e. (kind_of e ≡ ErrorKind.ValueValidation) ⊎ (kind_of e ≡ ErrorKind.OutOfMemory)) }
{
    let mut settings = make_settings(alloc, command, matches)?;
    if let Err(error) = settings.set_count(find_number(matches, count)) {
        return Err(refused(alloc, command, &error));
    }
    settings.set_block(find_number(matches, &BLOCK));
    settings.set_min_idle(find_number(matches, &IDLE));
    settings.set_every(find_number(matches, &EVERY));
    settings.set_make_group(make_group(word_of(matches, "from")));
    Ok(settings)
}

/// Returns settings with the names KEY, GROUP and CONSUMER and the default numbers.
fn make_settings(
    alloc: Global,
    command: &mut Command<'_>,
    matches: &ArgMatches<'_>,
) -> Result<Settings, Error>
    ensures ok { IfOk result (λ settings. (string_bytes settings.key ≡ word_in (found_of matches.now) (codes "KEY"))
        × (string_bytes settings.group ≡ word_in (found_of matches.now) (codes "GROUP"))
        × (string_bytes settings.consumer ≡ word_in (found_of matches.now) (codes "CONSUMER"))) }
    ensures err { IfErr result (λ e. (kind_of e ≡ ErrorKind.ValueValidation) ⊎ (kind_of e ≡ ErrorKind.OutOfMemory)) }
{
    let key = String::from_str(alloc, word_of(matches, "KEY"))?;
    let group = String::from_str(alloc, word_of(matches, "GROUP"))?;
    let consumer = String::from_str(alloc, word_of(matches, "CONSUMER"))?;
    match Settings::new(key, group, consumer) {
        Ok(settings) => Ok(settings),
        Err(error) => Err(refused(alloc, command, &error)),
    }
}

/// Returns the number of an option. If the option is absent, clap supplies the default.
fn find_number(matches: &ArgMatches<'_>, number: &Number) -> usize
    ensures { IsNumber (found_of matches.now) number.now.name.now number.now.least number.now.most result }
{
    number.of(matches).unwrap_or(number.least) as usize
}

/// Returns the group that the value of `--from` creates.
fn make_group(word: &str) -> MakeGroup
    ensures { MakesGroup word.now result }
{
    match word {
        "0" => MakeGroup::FromTheFirst,
        "$" => MakeGroup::FromNow,
        _ => MakeGroup::Never,
    }
}

// The names of the values of `--dead`, and the name of the option in an error.
static DEAD_VALUES: [&str; 2] = ["TIMES", "STREAM"];

const DEAD: &str = "--dead <TIMES> <STREAM>";

/// Returns the option `--dead TIMES STREAM`.
pub fn dead<'a>(alloc: Global, help: &'a str) -> Arg<'a>
    ensures { rule_of result ≡ record (new_rule (codes "dead")) {
      long = Some (codes "dead");
      action = Some Set;
      range = Some (record { start_inclusive = 2; end_inclusive = 2 });
      value_names = 2;
      is_simple = false;
    } }
{
    pair(alloc, "dead", DEAD_VALUES.as_slice(), help)
}

/// Returns the values of `--dead`: the number of deliveries after which entries are given up, and the stream
/// for them. Returns `None` if the option is absent. TIMES must be at least 1, and STREAM must not be KEY.
pub fn give_up_of(
    alloc: Global,
    command: &mut Command<'_>,
    matches: &ArgMatches<'_>,
) -> Result<Option<GiveUp>, Error>
    ensures ok { IfOk result (λ to. GivesUp (found_of matches.now) to) }
    ensures err { IfErr result (λ e. (kind_of e ≡ ErrorKind.ValueValidation) ⊎ (kind_of e ≡ ErrorKind.OutOfMemory)) }
{
    let Some([times, stream]) = matches.get_strs("dead") else {
        return Ok(None);
    };
    let deliveries = match times.parse::<usize>() {
        Ok(deliveries) if 0 < deliveries => deliveries,
        _ => {
            let reason = "TIMES is a number, 1 at least";
            return Err(refused_value(alloc, command, times, DEAD, reason));
        }
    };
    if *stream == word_of(matches, "KEY") {
        let reason = "STREAM must not be KEY";
        return Err(refused_value(alloc, command, stream, DEAD, reason));
    }
    let stream = String::from_str(alloc, stream)?;
    Ok(Some(GiveUp { deliveries, stream }))
}

/// Returns the numbers of `--wait REPLICAS MS`, or `None` if the option is absent. Each number must be at least
/// 1.
pub fn confirmation_of(
    alloc: Global,
    command: &mut Command<'_>,
    matches: &ArgMatches<'_>,
) -> Result<Option<Wait>, Error>
    ensures ok { IfOk result (λ wait. Waits (found_of matches.now) wait) }
    ensures err { IfErr result (λ e. (kind_of e ≡ ErrorKind.ValueValidation) ⊎ (kind_of e ≡ ErrorKind.OutOfMemory)) }
{
    let Some((replicas, milliseconds)) = wait_of(alloc, command, matches)? else {
        return Ok(None);
    };
    match Wait::new(replicas, milliseconds) {
        Ok(wait) => Ok(Some(wait)),
        Err(error) => Err(refused(alloc, command, &error)),
    }
}

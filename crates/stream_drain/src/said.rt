//! Checks that the parsed options match the values of the command line.
ghost use Rattle.std.specs.Prelude.{◌≡◌, IfOk, IsTrue};
ghost use Rattle.clap.specs.Words.{found_of};
ghost use Rattle.command_lines.specs.Words.{texts_of};
ghost use Rattle.stream_drain.specs.Options.{AreOptions, Says, SaysFlags, number_of_values};

use crate::options::{COUNT, Options};
use clap::ArgMatches;
use command_lines::{Arity, Line, names_after, says_dead, says_settings, says_wait};
use std::alloc::{AllocError, Global};

/// The number of values of each option of the program.
pub struct OptionArity;

impl Arity for OptionArity {
    ghost number = { number_of_values };

    fn number_of_values(option: &str) -> usize {
        match option {
            "--json" | "--look-up" | "--quiet" | "--until-empty" => 0,
            "--dead" | "--wait" => 2,
            _ => 1,
        }
    }
}

/// Whether `line` specifies `options`, given that `options` match `matches`.
pub fn says(
    alloc: Global,
    line: &Line<'_>,
    matches: &ArgMatches<'_>,
    options: &Options,
) -> Result<bool, AllocError>
    requires { AreOptions (found_of matches.now) options.now }
    ensures { IfOk result (λ says. IsTrue says → Says (texts_of line.now) options.now) }
{
    let names = line.values_of(alloc, "")?;
    let Some([path]) = names_after(&names, &options.settings) else {
        return Ok(false);
    };
    if *path != options.path.as_str() || !are_flags(line, options) {
        return Ok(false);
    }
    let settings = says_settings(alloc, line, matches, &COUNT, &options.settings)?;
    let dead = says_dead(alloc, line, &options.dead)?;
    let wait = says_wait(alloc, line, options.wait)?;
    if !settings || !dead || !wait {
        return Ok(false);
    }
    Ok(true)
}

/// Whether `line` specifies the flags of `options`.
fn are_flags(line: &Line<'_>, options: &Options) -> bool
    ensures { IsTrue result → SaysFlags (texts_of line.now) options.now }
{
    options.until_empty == line.has("--until-empty")
        && options.json == line.has("--json")
        && options.look_up == line.has("--look-up")
        && options.quiet == line.has("--quiet")
}

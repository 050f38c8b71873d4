//! Checks that the parsed options match the values of the command line.
ghost use Rattle.std.specs.Prelude.{◌≡◌, IfOk, IsTrue};
ghost use Rattle.clap.specs.Words.{found_of};
ghost use Rattle.command_lines.specs.Words.{texts_of};
ghost use Rattle.stream_run.specs.Options.{AreOptions, Says, SaysPipes, number_of_values};

use crate::options::{COUNT, LINES, Options, REPLIES};
use clap::ArgMatches;
use command_lines::{Arity, Line, names_after, says_dead, says_settings, says_text};
use std::alloc::{AllocError, Global};

/// The number of values of each option of the program.
pub struct OptionArity;

impl Arity for OptionArity {
    ghost number = { number_of_values };

    fn number_of_values(option: &str) -> usize {
        match option {
            "--until-empty" => 0,
            "--dead" => 2,
            _ => 1,
        }
    }
}

/// Whether `line` specifies `options`, given that `options` match `matches`.
pub fn says(
    alloc: Global,
    line: &Line<'_>,
    matches: &ArgMatches<'_>,
    options: &Options,
) -> Result<bool, AllocError>
    requires { AreOptions (found_of matches.now) options.now }
    ensures { IfOk result (λ says. IsTrue says → Says (texts_of line.now) options.now) }
{
    let names = line.values_of(alloc, "")?;
    let Some([]) = names_after(&names, &options.settings) else {
        return Ok(false);
    };
    if options.until_empty != line.has("--until-empty") {
        return Ok(false);
    }
    let settings = says_settings(alloc, line, matches, &COUNT, &options.settings)?;
    let dead = says_dead(alloc, line, &options.dead)?;
    let pipes = says_pipes(alloc, line, options)?;
    if !settings || !dead || !pipes {
        return Ok(false);
    }
    Ok(true)
}

/// Whether `line` specifies the paths of the pipes in `options`.
fn says_pipes(alloc: Global, line: &Line<'_>, options: &Options) -> Result<bool, AllocError>
    ensures { IfOk result (λ says. IsTrue says → SaysPipes (texts_of line.now) options.now) }
{
    let lines = says_text(alloc, line, "--lines", LINES, &options.lines)?;
    let replies = says_text(alloc, line, "--replies", REPLIES, &options.replies)?;
    Ok(lines && replies)
}

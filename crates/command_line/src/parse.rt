//! The words are read by the one `clap` command, and the subcommand that was met says what they ask for.
ghost use Rattle.std.specs.Prelude.{◌≡◌, IfOk, map, option_and_then, option_map, string_bytes};
ghost use Rattle.clap.specs.Words.{subcommand_rows_of};
ghost use Rattle.command_line.specs.Command.{stands_for};
ghost use Rattle.command_line.specs.Subcommands.{command_of};
ghost use Rattle.command_line.specs.Words.{command, subcommand};

use crate::command::Command;
use crate::subcommands::{cocoon_app, command_of};
use clap::ArgMatches;
use clap::error::ErrorKind;
use cocoon_num::NoMemory;
use std::alloc::Global;

/// What `clap` makes of the words; nothing where it refuses them, or is asked for help.
fn matches<'w>(alloc: Global, words: &'w [String]) -> Result<Option<ArgMatches<'w>>, NoMemory>
    ensures { IfOk result (λ m. option_and_then subcommand_rows_of m
        ≡ subcommand (map string_bytes words.entry.now)) }
{
    let app = cocoon_app(alloc)?;
    match app.try_get_matches_from(words) {
        Ok(matches) => Ok(Some(matches)),
        Err(error) => match error.kind() {
            ErrorKind::OutOfMemory => Err(NoMemory),
            _ => Ok(None),
        },
    }
}

/// What the subcommand that was met asks for.
fn asked<'w>(matches: &ArgMatches<'w>) -> Option<Command<'w>>
    ensures { option_map stands_for result
        ≡ option_and_then command_of (subcommand_rows_of matches.now) }
{
    match matches.subcommand() {
        Some((name, met)) => command_of(name, met),
        None => None,
    }
}

/// The command that the words give, the program's name first.
#[tactic(auto, unfolding(crate::specs::Words::command))]
pub fn parse_command<'w>(
    alloc: Global,
    words: &'w [String],
) -> Result<Option<Command<'w>>, NoMemory>
    ensures { IfOk result (λ c. option_map stands_for c
        ≡ command (map string_bytes words.entry.now)) }
{
    match matches(alloc, words)? {
        Some(matches) => Ok(asked(&matches)),
        None => Ok(None),
    }
}

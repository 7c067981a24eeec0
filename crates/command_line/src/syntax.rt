//! The parts of a command line as `clap` states one: arguments, and what has them.
ghost use Rattle.std.specs.Prelude.{◌≡◌, IfOk, false, map};
ghost use Rattle.clap.specs.Words.{app_of, rule_of, with_rule, with_subcommand};
ghost use Rattle.clap.specs.declared.builder.Command.TheViews.{out-Command};
ghost use Rattle.command_line.specs.Syntax.{option_argument, required_argument, with_arguments};

use clap::{Arg, ArgAction, Command};
use cocoon_num::NoMemory;
use std::alloc::Global;

/// The argument for the file of the design.
pub const DESIGN: &str = "DESIGN";

/// That for the file of the definitions.
pub const DEFS: &str = "DEFS";

/// That for the name of the bundle.
pub const OUT: &str = "OUT";

/// That for the number of a level.
pub const LEVEL: &str = "LEVEL";

/// That for the file of a case.
pub const CASE: &str = "CASE";

/// That for the file of packets.
pub const PACKETS: &str = "PACKETS";

/// The argument for a number of hosts.
pub const HOSTS: &str = "HOSTS";

/// The argument for a number of packets.
pub const COUNT: &str = "COUNT";

/// The option for the number of visits.
pub const HOPS: &str = "hops";

/// That for the number of conflicts.
pub const CONFLICTS: &str = "conflicts";

/// That for the number of rounds.
pub const ROUNDS: &str = "rounds";

/// An argument that has to be there.
fn required_argument<'w>(alloc: Global, id: &'w str) -> Arg<'w>
    ensures rule { rule_of result ≡ required_argument id.entry.now }
    ensures local { result.global ≡ false }
{
    Arg::new(alloc, id).required(true).action(ArgAction::Set)
}

/// An option of this name, with one value.
fn option_argument<'w>(alloc: Global, name: &'w str) -> Arg<'w>
    ensures rule { rule_of result ≡ option_argument name.entry.now }
    ensures local { result.global ≡ false }
{
    Arg::new(alloc, name).long(name).action(ArgAction::Set)
}

/// The command with these arguments, in their order.
pub fn with_arguments<'w>(
    alloc: Global,
    command: Command<'w>,
    ids: &[&'w str],
) -> Result<Command<'w>, NoMemory>
    ensures app { IfOk result (λ c. app_of c
        ≡ with_arguments (app_of command.entry) (map (λ id. id.now) ids.now)) }
    ensures local { IfOk result (λ c. (out-Command c).has_globals
        ≡ (out-Command command.entry).has_globals) }
{
    let mut command = command;
    for id in ids {
        command = command.arg(required_argument(alloc, id))?;
    }
    Ok(command)
}

/// The command with one more option.
pub fn with_option<'w>(
    alloc: Global,
    command: Command<'w>,
    name: &'w str,
) -> Result<Command<'w>, NoMemory>
    ensures app { IfOk result (λ c. app_of c
        ≡ with_rule (app_of command.entry) (option_argument name.now)) }
    ensures local { IfOk result (λ c. (out-Command c).has_globals
        ≡ (out-Command command.entry).has_globals) }
{
    Ok(command.arg(option_argument(alloc, name))?)
}

/// The command with one more subcommand.
pub fn with_subcommand<'w>(command: Command<'w>, sub: Command<'w>) -> Result<Command<'w>, NoMemory>
    requires { (out-Command sub).has_globals ≡ false }
    ensures { IfOk result (λ c. app_of c
        ≡ with_subcommand (app_of command.entry) (app_of sub.entry).top) }
{
    Ok(command.subcommand(sub)?)
}

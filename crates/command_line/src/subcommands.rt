//! Each subcommand: as `clap` states it, and what it asks for by its matches. A new one is a part of its
//! own here, with a call in `cocoon_app` and a branch in `command_of`.
ghost use Rattle.std.specs.Prelude.{◌≡◌, IfOk, false, option_map};
ghost use Rattle.clap.specs.Words.{app_of, found_of, rows_of};
ghost use Rattle.clap.specs.declared.builder.Command.TheViews.{out-Command};
ghost use Rattle.command_line.specs.Command as spec;
ghost use Rattle.command_line.specs.Command.{stands_for};
ghost use Rattle.command_line.specs.Subcommands.{check_app, check_of, cocoon_app, command_of, compile_app, compile_of, conflicts_in, forward_app, forward_of, gen_app, gen_of, hops_in, level_in, rounds_in, step_app, step_of, update_app, update_of, with_searches};

use crate::arguments::{argument_name, argument_number, number_up_to, option_number};
use crate::command::{Check, Command, Compile, Forward, Gen, Step, Update};
use crate::syntax::{
    CASE, CONFLICTS, COUNT, DEFS, DESIGN, HOPS, HOSTS, LEVEL, OUT, PACKETS, ROUNDS, with_arguments,
    with_option, with_subcommand,
};
use clap::ArgMatches;
use cocoon_num::NoMemory;
use std::alloc::Global;

// ---- searches

/// The most conflicts of one search that may be asked for.
const MOST_CONFLICTS: u32 = 200_000;

/// How many are asked for if no word says it.
pub const USUAL_CONFLICTS: u32 = 20_000;

/// The number of conflicts of one search.
fn conflicts<'w>(matches: &ArgMatches<'w>) -> Option<u32>
    ensures { result ≡ conflicts_in (rows_of (found_of matches.now)) }
{
    option_number(matches, CONFLICTS, USUAL_CONFLICTS, MOST_CONFLICTS)
}

/// The most rounds of one obligation that may be asked for.
const MOST_ROUNDS: u32 = 4096;

/// How many are asked for if no word says it.
pub const USUAL_ROUNDS: u32 = 64;

/// The number of rounds of one obligation.
fn rounds<'w>(matches: &ArgMatches<'w>) -> Option<u32>
    ensures { result ≡ rounds_in (rows_of (found_of matches.now)) }
{
    option_number(matches, ROUNDS, USUAL_ROUNDS, MOST_ROUNDS)
}

/// The subcommand with the options of searches.
fn with_searches<'w>(
    alloc: Global,
    command: clap::Command<'w>,
) -> Result<clap::Command<'w>, NoMemory>
    ensures app { IfOk result (λ c. app_of c ≡ with_searches (app_of command.entry)) }
    ensures local { IfOk result (λ c. (out-Command c).has_globals
        ≡ (out-Command command.entry).has_globals) }
{
    let command = with_option(alloc, command, CONFLICTS)?;
    with_option(alloc, command, ROUNDS)
}

// ---- check

/// The subcommand `check`.
fn check_app<'w>(alloc: Global) -> Result<clap::Command<'w>, NoMemory>
    ensures app { IfOk result (λ c. app_of c ≡ check_app) }
    ensures local { IfOk result (λ c. (out-Command c).has_globals ≡ false) }
{
    let command = with_arguments(alloc, clap::Command::new(alloc, "check"), &[DESIGN])?;
    with_searches(alloc, command)
}

/// What a `check` is given, where each part has its form.
fn check_of<'w>(matches: &ArgMatches<'w>) -> Option<Check<'w>>
    ensures { option_map (λ c. spec.check c.design.now c.conflicts c.rounds) result
        ≡ check_of (rows_of (found_of matches.now)) }
{
    let design = argument_name(matches, DESIGN)?;
    let conflicts = conflicts(matches)?;
    let rounds = rounds(matches)?;
    Some(Check {
        design,
        conflicts,
        rounds,
    })
}

// ---- compile

/// The subcommand `compile`.
fn compile_app<'w>(alloc: Global) -> Result<clap::Command<'w>, NoMemory>
    ensures app { IfOk result (λ c. app_of c ≡ compile_app) }
    ensures local { IfOk result (λ c. (out-Command c).has_globals ≡ false) }
{
    let command = with_arguments(
        alloc,
        clap::Command::new(alloc, "compile"),
        &[DESIGN, DEFS, OUT],
    )?;
    with_searches(alloc, command)
}

/// What a `compile` is given, where each part has its form.
fn compile_of<'w>(matches: &ArgMatches<'w>) -> Option<Compile<'w>>
    ensures { option_map (λ c.
        spec.compile c.design.now c.defs.now c.out.now c.conflicts c.rounds) result
        ≡ compile_of (rows_of (found_of matches.now)) }
{
    let design = argument_name(matches, DESIGN)?;
    let defs = argument_name(matches, DEFS)?;
    let out = argument_name(matches, OUT)?;
    let conflicts = conflicts(matches)?;
    let rounds = rounds(matches)?;
    Some(Compile {
        design,
        defs,
        out,
        conflicts,
        rounds,
    })
}

// ---- update

/// The subcommand `update`.
fn update_app<'w>(alloc: Global) -> Result<clap::Command<'w>, NoMemory>
    ensures app { IfOk result (λ c. app_of c ≡ update_app) }
    ensures local { IfOk result (λ c. (out-Command c).has_globals ≡ false) }
{
    let command = with_arguments(
        alloc,
        clap::Command::new(alloc, "update"),
        &[DESIGN, DEFS, OUT],
    )?;
    with_option(alloc, command, CONFLICTS)
}

/// What an `update` is given, where each part has its form.
fn update_of<'w>(matches: &ArgMatches<'w>) -> Option<Update<'w>>
    ensures { option_map (λ u. spec.update u.design.now u.defs.now u.out.now u.conflicts) result
        ≡ update_of (rows_of (found_of matches.now)) }
{
    let design = argument_name(matches, DESIGN)?;
    let defs = argument_name(matches, DEFS)?;
    let out = argument_name(matches, OUT)?;
    let conflicts = conflicts(matches)?;
    Some(Update {
        design,
        defs,
        out,
        conflicts,
    })
}

// ---- step

const HIGHEST_LEVEL: u32 = 16;

/// The subcommand `step`.
fn step_app<'w>(alloc: Global) -> Result<clap::Command<'w>, NoMemory>
    ensures app { IfOk result (λ c. app_of c ≡ step_app) }
    ensures local { IfOk result (λ c. (out-Command c).has_globals ≡ false) }
{
    with_arguments(
        alloc,
        clap::Command::new(alloc, "step"),
        &[DESIGN, DEFS, LEVEL, CASE],
    )
}

/// The word for the level, where it is the number of one.
fn level<'w>(matches: &ArgMatches<'w>) -> Option<u32>
    ensures { result ≡ level_in (rows_of (found_of matches.now)) }
{
    match matches.get_str(LEVEL) {
        Some(word) => number_up_to(HIGHEST_LEVEL, word),
        None => None,
    }
}

/// What a `step` is given, where each part has its form.
fn step_of<'w>(matches: &ArgMatches<'w>) -> Option<Step<'w>>
    ensures { option_map (λ s. spec.step s.design.now s.defs.now s.level s.file.now) result
        ≡ step_of (rows_of (found_of matches.now)) }
{
    let design = argument_name(matches, DESIGN)?;
    let defs = argument_name(matches, DEFS)?;
    let level = level(matches)?;
    let file = argument_name(matches, CASE)?;
    Some(Step {
        design,
        defs,
        level,
        file,
    })
}

// ---- forward

/// The most visits of a packet that may be asked for.
const MOST_HOPS: u32 = 64;

/// How many are asked for if no word says it.
const USUAL_HOPS: u32 = 16;

/// The subcommand `forward`.
fn forward_app<'w>(alloc: Global) -> Result<clap::Command<'w>, NoMemory>
    ensures app { IfOk result (λ c. app_of c ≡ forward_app) }
    ensures local { IfOk result (λ c. (out-Command c).has_globals ≡ false) }
{
    let command = with_arguments(alloc, clap::Command::new(alloc, "forward"), &[OUT, PACKETS])?;
    with_option(alloc, command, HOPS)
}

/// The number of visits.
fn hops<'w>(matches: &ArgMatches<'w>) -> Option<u32>
    ensures { result ≡ hops_in (rows_of (found_of matches.now)) }
{
    option_number(matches, HOPS, USUAL_HOPS, MOST_HOPS)
}

/// What a `forward` is given, where each part has its form.
fn forward_of<'w>(matches: &ArgMatches<'w>) -> Option<Forward<'w>>
    ensures { option_map (λ f. spec.forward f.out.now f.packets.now f.hops) result
        ≡ forward_of (rows_of (found_of matches.now)) }
{
    let out = argument_name(matches, OUT)?;
    let packets = argument_name(matches, PACKETS)?;
    let hops = hops(matches)?;
    Some(Forward { out, packets, hops })
}

// ---- gen

/// The most hosts that may be asked for.
const MOST_HOSTS: u32 = 200;

/// The most packets that may be asked for.
const MOST_PACKETS: u32 = 100_000;

/// The subcommand `gen`.
fn gen_app<'w>(alloc: Global) -> Result<clap::Command<'w>, NoMemory>
    ensures app { IfOk result (λ c. app_of c ≡ gen_app) }
    ensures local { IfOk result (λ c. (out-Command c).has_globals ≡ false) }
{
    with_arguments(alloc, clap::Command::new(alloc, "gen"), &[HOSTS, COUNT])
}

/// What a `gen` is given, where each part has its form.
fn gen_of<'w>(matches: &ArgMatches<'w>) -> Option<Gen>
    ensures { option_map (λ g. spec.gen g.hosts g.packets) result
        ≡ gen_of (rows_of (found_of matches.now)) }
{
    let hosts = argument_number(matches, HOSTS, MOST_HOSTS)?;
    let packets = argument_number(matches, COUNT, MOST_PACKETS)?;
    Some(Gen { hosts, packets })
}

// ---- all of them

/// The whole command line.
pub fn cocoon_app<'w>(alloc: Global) -> Result<clap::Command<'w>, NoMemory>
    ensures { IfOk result (λ c. app_of c ≡ cocoon_app) }
{
    let command = clap::Command::new(alloc, "cocoon");
    let command = with_subcommand(command, check_app(alloc)?)?;
    let command = with_subcommand(command, compile_app(alloc)?)?;
    let command = with_subcommand(command, update_app(alloc)?)?;
    let command = with_subcommand(command, step_app(alloc)?)?;
    let command = with_subcommand(command, forward_app(alloc)?)?;
    let command = with_subcommand(command, gen_app(alloc)?)?;
    Ok(command)
}

/// What a subcommand asks for, by its name and its matches.
pub fn command_of<'w>(name: &str, matches: &ArgMatches<'w>) -> Option<Command<'w>>
    ensures { option_map stands_for result
        ≡ command_of (name.now, rows_of (found_of matches.now)) }
{
    if name == "check" {
        check_of(matches).map(Command::Check)
    } else if name == "compile" {
        compile_of(matches).map(Command::Compile)
    } else if name == "update" {
        update_of(matches).map(Command::Update)
    } else if name == "step" {
        step_of(matches).map(Command::Step)
    } else if name == "forward" {
        forward_of(matches).map(Command::Forward)
    } else if name == "gen" {
        match gen_of(matches) {
            Some(asked) => Some(Command::Gen(asked)),
            None => None,
        }
    } else {
        None
    }
}

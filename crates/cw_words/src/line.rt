ghost use Rattle.std.specs.Prelude.{◌≡◌, ◌⊎◌, [], codes, false, IfErr, IfOk, map, string_bytes};
ghost use Rattle.clap.specs.Words.{app_of, fault_of, kind_of, rule_of, subcommand_of, subcommand_rows_of};
ghost use Rattle.clap.specs.declared.builder.command.Command.TheViews.{out-Command as fields_of};
ghost use Rattle.cw_words.specs.Words.{check_options, keep_options, load_options, races_options, run_options, sim_options};
ghost use Rattle.cw_words.specs.Shapes.{cli, fine, leaf_app, option_rule, word_rule};

use clap::error::ErrorKind;
use clap::{Arg, ArgAction, ArgMatches, Command, Error};
use std::alloc::{AllocError, Global};

// Returns an option whose value is a text.
fn option<'a>(alloc: Global, name: &'a str) -> Arg<'a>
    ensures rule { rule_of result ≡ option_rule name.entry.now }
    ensures global { result.global ≡ false }
{
    Arg::new(alloc, name).long(name)
}

// Returns the argument that collects the words belonging to no option.
fn plain_words<'a>(alloc: Global) -> Arg<'a>
    ensures rule { rule_of result ≡ word_rule }
    ensures global { result.global ≡ false }
{
    Arg::new(alloc, "words").action(ArgAction::Append)
}

// Returns a command that has these options, and words.
fn command_with<'a>(
    alloc: Global,
    name: &'a str,
    options: &'a [&'a str],
) -> Result<Command<'a>, AllocError>
    ensures app { IfOk result (λ r. app_of r ≡ leaf_app name.entry.now (map (λ n. n.now) options.entry.now)) }
    ensures local { IfOk result (λ r. (fields_of r).has_globals ≡ false) }
{
    let mut command = Command::new(alloc, name).arg(plain_words(alloc))?;
    for known in options {
        command = command.arg(option(alloc, *known))?;
    }
    Ok(command)
}

static RUN_OPTIONS: [&str; 6] = ["fuel", "size", "aborts", "strands", "workers", "report"];

static SIM_OPTIONS: [&str; 9] = [
    "fuel", "size", "aborts", "strands", "moves", "workers", "schedule", "seed", "report",
];

static LOAD_OPTIONS: [&str; 1] = ["workers"];

static KEEP_OPTIONS: [&str; 5] = ["fuel", "size", "aborts", "strands", "workers"];

static RACES_OPTIONS: [&str; 2] = ["fuel", "size"];

static CHECK_OPTIONS: [&str; 0] = [];

fn run_line<'a>(alloc: Global) -> Result<Command<'a>, AllocError>
    ensures app { IfOk result (λ r. app_of r ≡ leaf_app (codes "run") run_options) }
    ensures local { IfOk result (λ r. (fields_of r).has_globals ≡ false) }
{
    command_with(alloc, "run", RUN_OPTIONS.as_slice())
}

fn sim_line<'a>(alloc: Global) -> Result<Command<'a>, AllocError>
    ensures app { IfOk result (λ r. app_of r ≡ leaf_app (codes "sim") sim_options) }
    ensures local { IfOk result (λ r. (fields_of r).has_globals ≡ false) }
{
    command_with(alloc, "sim", SIM_OPTIONS.as_slice())
}

fn load_line<'a>(alloc: Global) -> Result<Command<'a>, AllocError>
    ensures app { IfOk result (λ r. app_of r ≡ leaf_app (codes "load") load_options) }
    ensures local { IfOk result (λ r. (fields_of r).has_globals ≡ false) }
{
    command_with(alloc, "load", LOAD_OPTIONS.as_slice())
}

fn keep_line<'a>(alloc: Global) -> Result<Command<'a>, AllocError>
    ensures app { IfOk result (λ r. app_of r ≡ leaf_app (codes "keep") keep_options) }
    ensures local { IfOk result (λ r. (fields_of r).has_globals ≡ false) }
{
    command_with(alloc, "keep", KEEP_OPTIONS.as_slice())
}

fn races_line<'a>(alloc: Global) -> Result<Command<'a>, AllocError>
    ensures app { IfOk result (λ r. app_of r ≡ leaf_app (codes "races") races_options) }
    ensures local { IfOk result (λ r. (fields_of r).has_globals ≡ false) }
{
    command_with(alloc, "races", RACES_OPTIONS.as_slice())
}

fn check_line<'a>(alloc: Global) -> Result<Command<'a>, AllocError>
    ensures app { IfOk result (λ r. app_of r ≡ leaf_app (codes "check") check_options) }
    ensures local { IfOk result (λ r. (fields_of r).has_globals ≡ false) }
{
    command_with(alloc, "check", CHECK_OPTIONS.as_slice())
}

// Returns the command line: six commands, with neither help nor version.
fn command_line<'a>(alloc: Global) -> Result<Command<'a>, AllocError>
    ensures { IfOk result (λ r. app_of r ≡ cli) }
{
    let run = run_line(alloc)?;
    let sim = sim_line(alloc)?;
    let load = load_line(alloc)?;
    let keep = keep_line(alloc)?;
    let races = races_line(alloc)?;
    let check = check_line(alloc)?;
    Command::new(alloc, "cwstm")
        .no_binary_name(true)
        .disable_help_flag(true)
        .disable_help_subcommand(true)
        .subcommand(run)?
        .subcommand(sim)?
        .subcommand(load)?
        .subcommand(keep)?
        .subcommand(races)?
        .subcommand(check)
}

/// Parses the words as clap does. It takes `-` as a word or a value, so it needs words that do not have it.
pub fn parsed<'a>(alloc: Global, words: &'a [String]) -> Result<ArgMatches<'a>, Error>
    ensures ok { IfOk result (λ m. (fault_of cli (map string_bytes words.now) ≡ []) × (subcommand_rows_of m ≡ subcommand_of cli (map string_bytes words.now))) }
    ensures err { IfErr result (λ e. (kind_of e ≡ ErrorKind.OutOfMemory) ⊎ (fine (fault_of cli (map string_bytes words.now)) ≡ false)) }
{
    let command = command_line(alloc)?;
    command.try_get_matches_from(words)
}

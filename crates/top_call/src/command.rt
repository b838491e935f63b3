//! Builds the `clap` command, the description by which the crate `clap` reads the arguments: for each
//! argument its name, the values that it may have, and its default. No argument is `global`, that is, valid
//! for subcommands too.
ghost use Rattle.std.specs.Prelude.{◌≡◌, IfOk, false};
ghost use Rattle.clap.specs.Words.{app_of, rule_of};
ghost use Rattle.top_call.specs.Command.{IsCfApp, count_rule, manager_rule, mode_rule, quantum_rule, seed_rule};
ghost use Rattle.top_call.specs.Command.{manager_names, mode_names, texts_of};

use clap::{Arg, Command, value_parser};
use std::alloc::{AllocError, Global};

/// The names of the modes on the command line.
static MODES: [&str; 8] = [
    "run", "compare", "bench", "large", "save", "load", "slice", "quota",
];

/// The names of the kinds of managers on the command line.
static MANAGERS: [&str; 4] = ["cf", "nm", "tlsf", "half"];

/// The names of the modes, as a slice that `clap` can borrow.
fn modes<'a>() -> &'a [&'a str]
    ensures { texts_of result ≡ mode_names }
{
    MODES.as_slice()
}

/// The names of the kinds of managers, as a slice that `clap` can borrow.
fn managers<'a>() -> &'a [&'a str]
    ensures { texts_of result ≡ manager_names }
{
    MANAGERS.as_slice()
}

/// The rule of the argument MODE, which has no option name before it: one of `names`, by default
/// `run`.
fn mode_arg<'a>(alloc: Global, names: &'a [&'a str]) -> Arg<'a>
    ensures rule { rule_of result ≡ mode_rule names.entry }
    ensures local { result.global ≡ false }
{
    Arg::new(alloc, "mode")
        .value_parser(names)
        .default_value("run")
}

/// The rule of the option `--manager`: one of `names`, by default `cf`.
fn manager_arg<'a>(alloc: Global, names: &'a [&'a str]) -> Arg<'a>
    ensures rule { rule_of result ≡ manager_rule names.entry }
    ensures local { result.global ≡ false }
{
    Arg::new(alloc, "manager")
        .long("manager")
        .value_parser(names)
        .default_value("cf")
}

/// The rule of the option `--seed`: a number of 64 bits, by default 0.
fn seed_arg<'a>(alloc: Global) -> Arg<'a>
    ensures rule { rule_of result ≡ seed_rule }
    ensures local { result.global ≡ false }
{
    Arg::new(alloc, "seed")
        .long("seed")
        .value_parser(value_parser!(u64))
        .default_value("0")
}

/// The rule of the option `--count`, a number of commands: at most 1,000,000, by default 1000.
fn count_arg<'a>(alloc: Global) -> Arg<'a>
    ensures rule { rule_of result ≡ count_rule }
    ensures local { result.global ≡ false }
{
    Arg::new(alloc, "count")
        .long("count")
        .value_parser(value_parser!(u64).range(..=1_000_000))
        .default_value("1000")
}

/// The rule of the option `--quantum`, a number of words: from 1 to 16,384, by default 16.
fn quantum_arg<'a>(alloc: Global) -> Arg<'a>
    ensures rule { rule_of result ≡ quantum_rule }
    ensures local { result.global ≡ false }
{
    Arg::new(alloc, "quantum")
        .long("quantum")
        .value_parser(value_parser!(u64).range(1..=16_384))
        .default_value("16")
}

/// Returns the command of `clap` with the arguments MODE, `--manager`, `--seed`, `--count` and
/// `--quantum`. It has no others but those that `clap` adds to every command, such as `--help`.
/// Fails if out of memory.
pub fn cf_command<'a>(alloc: Global) -> Result<Command<'a>, AllocError>
    ensures { IfOk result (λ command. IsCfApp (app_of command)) }
{
    let mode = mode_arg(alloc, modes());
    let manager = manager_arg(alloc, managers());
    Command::new(alloc, "cf_tool")
        .arg(mode)?
        .arg(manager)?
        .arg(seed_arg(alloc))?
        .arg(count_arg(alloc))?
        .arg(quantum_arg(alloc))
}

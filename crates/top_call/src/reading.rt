//! `read_arguments`: reads the arguments of the command line, and returns the choice that they make.
ghost use Rattle.std.specs.Prelude.{◌≡◌, ◌≤◌, IfOk, map, option_map, string_bytes};
ghost use Rattle.clap.specs.Words.{found_of, one_text};
ghost use Rattle.top_call.specs.Choices.{ReadsAs, kind_named as kind_by, mode_named as mode_by};
ghost use Rattle.top_call.specs.Choices.{quantum_in as quantum_by, u64_in as number_by};

use crate::choice::{ArgumentsFault, Choice, Mode};
use crate::command::cf_command;
use cf_base::Kind;
use clap::ArgMatches;
use clap::error::ErrorKind;
use std::alloc::Global;

/// The mode with this name. `Run` for any other name and for none, which do not occur: the `clap`
/// command refuses other names, and has a default.
fn mode_named(name: Option<&str>) -> Mode
    ensures { result ≡ mode_by (option_map (λ s. s.now) name.entry) }
{
    match name {
        Some("compare") => Mode::Compare,
        Some("bench") => Mode::Bench,
        Some("large") => Mode::Large,
        Some("save") => Mode::Save,
        Some("load") => Mode::Load,
        Some("slice") => Mode::Slice,
        Some("quota") => Mode::Quota,
        _ => Mode::Run,
    }
}

/// The kind of manager with this name. `Moving` for any other name and for none, which do not
/// occur: the `clap` command refuses other names, and has a default.
fn kind_named(name: Option<&str>) -> Kind
    ensures { result ≡ kind_by (option_map (λ s. s.now) name.entry) }
{
    match name {
        Some("nm") => Kind::NonMoving,
        Some("tlsf") => Kind::Tlsf,
        Some("half") => Kind::HalfFit,
        _ => Kind::Moving,
    }
}

/// The number that the option `id` has in the arguments that `clap` has read; 0 for no number,
/// which does not occur: the `clap` command refuses other texts, and has a default.
fn u64_in(matches: &ArgMatches<'_>, id: &str) -> u64
    ensures { result ≡ number_by (one_text (found_of matches.now) id.now) }
{
    matches.get_one::<u64>(id).unwrap_or(0)
}

/// The quantum in words that the option `id` has in the arguments that `clap` has read. 16 for no
/// number and for one that isn't from 1 to 16,384, which do not occur: the `clap` command refuses
/// such a number, and has a default.
fn quantum_in(matches: &ArgMatches<'_>, id: &str) -> u32
    ensures value { result ≡ quantum_by (one_text (found_of matches.now) id.now) }
    ensures least { 1 ≤ result }
    ensures most { result ≤ 16384 }
{
    let quantum = matches.get_one::<u32>(id).unwrap_or(16);
    if 1 <= quantum && quantum <= 16_384 {
        quantum
    } else {
        16
    }
}

/// Reads the arguments `words` of the command line; the first is the program's name. Returns the choice
/// that they make, whose quantum is from 1 to 16,384 words. Fails with `Refused` if `clap` finds a fault
/// in them or they ask for help. Fails with `OutOfMemory`, whatever they are, if out of memory.
// Without `tactic(none)`, a goal that no proof covers would start a search over the whole command,
// which takes long.
#[tactic(none)]
pub fn read_arguments(alloc: Global, words: &[String]) -> Result<Choice, ArgumentsFault>
    ensures reads { ReadsAs (map (λ word. string_bytes word) words.now) result }
    ensures least { IfOk result (λ choice. 1 ≤ choice.quantum) }
    ensures most { IfOk result (λ choice. choice.quantum ≤ 16384) }
{
    let Ok(command) = cf_command(alloc) else {
        return Err(ArgumentsFault::OutOfMemory);
    };
    match command.try_get_matches_from(words) {
        Ok(matches) => Ok(Choice {
            mode: mode_named(matches.get_str("mode")),
            kind: kind_named(matches.get_str("manager")),
            seed: u64_in(&matches, "seed"),
            count: u64_in(&matches, "count"),
            quantum: quantum_in(&matches, "quantum"),
        }),
        Err(error) => match error.kind() {
            ErrorKind::OutOfMemory => Err(ArgumentsFault::OutOfMemory),
            _ => Err(ArgumentsFault::Refused),
        },
    }
}

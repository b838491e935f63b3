//! Tests of `read_arguments`, which reads the arguments of the command line: arguments that are accepted, each
//! with the choice that it must return, and arguments that are refused.
use super::command_line;
use cf_base::Kind;
use std::test::Fail;
use top_call::{ArgumentsFault, Choice, Mode, read_arguments};

// `read_arguments` accepts the arguments of each row, and returns the mode, kind of manager, seed and count of
// commands that the row has after them. What arguments don't name has its default: mode `run`, the moving
// manager, seed 0, 1,000 commands, slices of 16 words. An option may be before or after the mode, with `=` or
// a space before its value. A number may have a `+` and leading zeros.
#[test]
fn arguments_are_taken(rt: HostRuntime) -> Result<(), Fail> {
    for (words, mode, kind, seed, count) in [
        ([].as_slice(), Mode::Run, Kind::Moving, 0, 1_000),
        (["run"].as_slice(), Mode::Run, Kind::Moving, 0, 1_000),
        (
            ["compare"].as_slice(),
            Mode::Compare,
            Kind::Moving,
            0,
            1_000,
        ),
        (["bench"].as_slice(), Mode::Bench, Kind::Moving, 0, 1_000),
        (["large"].as_slice(), Mode::Large, Kind::Moving, 0, 1_000),
        (["save"].as_slice(), Mode::Save, Kind::Moving, 0, 1_000),
        (["load"].as_slice(), Mode::Load, Kind::Moving, 0, 1_000),
        (["slice"].as_slice(), Mode::Slice, Kind::Moving, 0, 1_000),
        (["quota"].as_slice(), Mode::Quota, Kind::Moving, 0, 1_000),
        (["--", "run"].as_slice(), Mode::Run, Kind::Moving, 0, 1_000),
        (
            ["--manager", "cf"].as_slice(),
            Mode::Run,
            Kind::Moving,
            0,
            1_000,
        ),
        (
            ["--manager=nm", "run"].as_slice(),
            Mode::Run,
            Kind::NonMoving,
            0,
            1_000,
        ),
        (
            ["--manager=tlsf"].as_slice(),
            Mode::Run,
            Kind::Tlsf,
            0,
            1_000,
        ),
        (
            ["bench", "--manager", "half"].as_slice(),
            Mode::Bench,
            Kind::HalfFit,
            0,
            1_000,
        ),
        (["--count", "0"].as_slice(), Mode::Run, Kind::Moving, 0, 0),
        (["--count=+7"].as_slice(), Mode::Run, Kind::Moving, 0, 7),
        (["--count=007"].as_slice(), Mode::Run, Kind::Moving, 0, 7),
        (
            ["--count=1000000"].as_slice(),
            Mode::Run,
            Kind::Moving,
            0,
            1_000_000,
        ),
        (
            ["--seed", "5", "bench", "--count", "4"].as_slice(),
            Mode::Bench,
            Kind::Moving,
            5,
            4,
        ),
        (
            ["--seed=18446744073709551615"].as_slice(),
            Mode::Run,
            Kind::Moving,
            u64::MAX,
            1_000,
        ),
    ] {
        let all = command_line(&rt, words)?;
        let wanted = Choice {
            mode,
            kind,
            seed,
            count,
            quantum: 16,
        };
        assert_eq!(rt;
            read_arguments(rt.alloc(), all.as_slice()),
            Ok(wanted),
            "{words:?}"
        );
    }
    Ok(())
}

// `--quantum`, the words of a slice, is accepted from 1 to 16,384, and not just in mode `slice`.
#[test]
fn a_quantum_is_taken_in_each_mode(rt: HostRuntime) -> Result<(), Fail> {
    for (words, mode, quantum) in [
        (["slice", "--quantum", "8"].as_slice(), Mode::Slice, 8),
        (["--quantum=1", "slice"].as_slice(), Mode::Slice, 1),
        (
            ["slice", "--quantum=+16384"].as_slice(),
            Mode::Slice,
            16_384,
        ),
        (["--quantum=007"].as_slice(), Mode::Run, 7),
    ] {
        let all = command_line(&rt, words)?;
        let wanted = Choice {
            mode,
            kind: Kind::Moving,
            seed: 0,
            count: 1_000,
            quantum,
        };
        assert_eq!(rt;
            read_arguments(rt.alloc(), all.as_slice()),
            Ok(wanted),
            "{words:?}"
        );
    }
    Ok(())
}

// `read_arguments` fails with `Refused` for each of these: requests for help or for the version; unknown names
// of modes and managers (upper and lower case differ); a second mode; an option that is unknown, given twice,
// or without a value; and a number that is malformed or out of range.
#[test]
fn arguments_are_refused(rt: HostRuntime) -> Result<(), Fail> {
    for words in [
        ["--help"].as_slice(),
        ["-h"].as_slice(),
        ["help"].as_slice(),
        ["--version"].as_slice(),
        ["-V"].as_slice(),
        ["slices"].as_slice(),
        ["Bench"].as_slice(),
        ["compare", "bench"].as_slice(),
        ["Run"].as_slice(),
        [""].as_slice(),
        ["run", "run"].as_slice(),
        ["run", "extra"].as_slice(),
        ["run", "--help"].as_slice(),
        ["--other"].as_slice(),
        ["--quantum"].as_slice(),
        ["--quantum=0"].as_slice(),
        ["--quantum=-1"].as_slice(),
        ["--quantum", "16385"].as_slice(),
        ["slice", "--quantum=8", "--quantum=8"].as_slice(),
        ["--manager"].as_slice(),
        ["--manager", "other"].as_slice(),
        ["--manager=NM"].as_slice(),
        ["--manager=CF"].as_slice(),
        ["--manager=cf", "--manager=cf"].as_slice(),
        ["--seed"].as_slice(),
        ["--seed="].as_slice(),
        ["--seed", "x"].as_slice(),
        ["--seed", "-1"].as_slice(),
        ["--seed", "18446744073709551616"].as_slice(),
        ["--seed=1", "--seed=1"].as_slice(),
        ["--count="].as_slice(),
        ["--count=-0"].as_slice(),
        ["--count=1.0"].as_slice(),
        ["--count=1000001"].as_slice(),
        ["--count", "1", "--count", "2"].as_slice(),
    ] {
        let all = command_line(&rt, words)?;
        let read = read_arguments(rt.alloc(), all.as_slice());
        assert_eq!(rt; read, Err(ArgumentsFault::Refused), "{words:?}");
    }
    Ok(())
}

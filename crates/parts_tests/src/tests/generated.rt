//! Test of the generator of mode `bench`: the first commands of seed 0. They were worked out by hand from the
//! first numbers that SplitMix64 returns for that seed.
use cf_io::Line;
use script_reader::{Generator, command_text};
use std::test::Fail;

// `Generator::next_command` returns these four commands of a script, and `command_text` writes each as a
// line.
#[test]
fn seed_0_gives_these_commands(rt: HostRuntime) -> Result<(), Fail> {
    let mut generator = Generator::new(0);
    for text in [
        b"f 3503\n".as_slice(),
        b"r 1524 0 8\n".as_slice(),
        b"f 1359\n".as_slice(),
        b"m 492 12876\n".as_slice(),
    ] {
        let mut line = Line::new();
        let command = generator.next_command();
        assert!(rt; command_text(&command, &mut line).is_ok());
        assert_eq!(rt; line.bytes(), text);
    }
    Ok(())
}

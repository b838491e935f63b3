//! Laws of the lines that this crate writes: by the grammar of scripts each line means the command that it was
//! written for.
ghost use Rattle.std.specs.Prelude.{◌≡◌, ◌++◌, ◌∷◌, [], ℕ, List, Bool, true, map};
ghost use Rattle.cf_base.specs.Settings.{profile_from};
ghost use Rattle.script_reader.specs.CommandText.{line_of, spaced, tokens_of};
ghost use Rattle.script_reader.specs.Generated.{generated};
ghost use Rattle.script_reader.specs.ReadBack.{ArePlainCommands, CanOpen, IsCommand, command_lines, heap_line};
ghost use Rattle.script_reader.specs.Items.{asks, item, items, line_says, starts};
ghost use Rattle.script_reader.specs.Lines.{lines};
ghost use Rattle.script_reader.specs.declared.command.Command.{Command};

/// The line that is written for a command `c` with fields in range is one line, whatever bytes
/// follow it, and by the grammar it means `c`. So the items of a `heap` line with settings in range
/// and of this line are the `heap` line and `c`.
pub fn commands_are_read_back()
    ensures line { (c : Command) (rest : List ℕ) (ended : Bool) → IsCommand c
        → lines (line_of c ++ rest) ended ≡ spaced (tokens_of c) ∷ lines rest ended }
    ensures says { (c : Command) → IsCommand c → line_says (spaced (tokens_of c)) ≡ item (asks c) }
    ensures after_heap { (pages page_bytes k proxies : ℕ) (c : Command) → CanOpen pages page_bytes k proxies → IsCommand c
        → items (heap_line pages page_bytes k proxies ++ line_of c) true ≡ starts (profile_from pages page_bytes k proxies) ∷ asks c ∷ [] }
{}

/// If a script is a `heap` line with settings in range, and then the lines that are written for a
/// list of commands with fields in range, none of them `k`, its items are the `heap` line and these
/// commands.
pub fn scripts_are_read_back()
    ensures { (pages page_bytes k proxies : ℕ) (commands : List Command) → CanOpen pages page_bytes k proxies → ArePlainCommands commands
        → items (heap_line pages page_bytes k proxies ++ command_lines commands) true
        ≡ starts (profile_from pages page_bytes k proxies) ∷ map (λ c. asks c) commands }
{}

/// If a script is a `heap` line with settings in range, and then the lines that are written for the first
/// `count` commands of a seed, its items are the `heap` line and these commands.
pub fn generated_scripts_are_read_back()
    ensures { (pages page_bytes k proxies seed count : ℕ) → CanOpen pages page_bytes k proxies
        → items (heap_line pages page_bytes k proxies ++ command_lines (generated seed count)) true
        ≡ starts (profile_from pages page_bytes k proxies) ∷ map (λ c. asks c) (generated seed count) }
{}

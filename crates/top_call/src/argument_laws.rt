//! Laws of the arguments: `clap` reads them alike at whatever addresses the names of modes and kinds
//! are; they make at most one choice, and none if they are refused; `read_arguments` returns this
//! choice, `Refused` or `OutOfMemory`; and examples of arguments with the choices that they make, or
//! that are refused.
ghost use Rattle.std.specs.Prelude.{◌⊎◌, ◌≡◌, ◌∷◌, [], Err, List, Ok, Result, codes};
ghost use Rattle.cf_base.specs.Kind.{kind_name};
ghost use Rattle.cf_base.specs.declared.kind.Kind.{Kind};
ghost use Rattle.cf_base.specs.declared.kind.Kind.TheVariants.{Moving};
ghost use Rattle.clap.specs.Words.{App, Text, fault_of, matches_of};
ghost use Rattle.top_call.specs.Choices.{AreAccepted, AreRefused, Chooses, ReadsAs, chosen};
ghost use Rattle.top_call.specs.Command.{IsCfApp, mode_name};
ghost use Rattle.top_call.specs.declared.choice.Choice.{Choice};
ghost use Rattle.top_call.specs.declared.choice.Mode.{Mode};
ghost use Rattle.top_call.specs.declared.choice.Mode.TheVariants.{Run};
ghost use Rattle.top_call.specs.declared.choice.ArgumentsFault.{ArgumentsFault};
ghost use Rattle.top_call.specs.declared.choice.ArgumentsFault.TheVariants.{OutOfMemory, Refused};

/// Whatever the addresses of the names of modes and kinds, the command of `clap` finds the same
/// faults in the arguments `words`, and the same values (`matches_of`).
pub fn all_such_commands_read_alike()
    ensures faults { (a b : App) (words : List Text) → IsCfApp a → IsCfApp b → fault_of b words ≡ fault_of a words }
    ensures matches { (a b : App) (words : List Text) → IsCfApp a → IsCfApp b → matches_of b words ≡ matches_of a words }
{}

/// Arguments in which `clap` finds a fault (`AreRefused`) are not accepted, and make no choice.
pub fn refused_arguments_are_not_chosen()
    ensures accepted { (words : List Text) → AreRefused words → ¬ AreAccepted words }
    ensures chosen { (words : List Text) (choice : Choice) → AreRefused words → ¬ Chooses words choice }
{}

/// If the same arguments make two choices, both are the same.
pub fn arguments_choose_once()
    ensures { (words : List Text) (one other : Choice) → Chooses words one → Chooses words other → other ≡ one }
{}

/// Any result that `read_arguments` may have for arguments that make a choice is this choice or `OutOfMemory`.
pub fn arguments_with_a_choice_are_read()
    ensures { (words : List Text) (choice : Choice) (result : Result Choice ArgumentsFault) → Chooses words choice
        → ReadsAs words result → (result ≡ Ok choice) ⊎ (result ≡ Err OutOfMemory) }
{}

/// Any result that `read_arguments` may have for arguments that are refused is `Refused` or `OutOfMemory`.
pub fn known_arguments_are_refused()
    ensures { (words : List Text) (result : Result Choice ArgumentsFault) → AreRefused words
        → ReadsAs words result → (result ≡ Err Refused) ⊎ (result ≡ Err OutOfMemory) }
{}

/// With the program's name alone the choice is: mode `run`, the moving manager, seed 0, 1000 commands, slices
/// of 16 words.
pub fn no_arguments_choose_the_defaults()
    ensures { (name : Text) → Chooses (name ∷ []) (chosen Run Moving 0 1000 16) }
{}

/// For each mode and kind: after the program's name, the mode's name and then `--manager`, the kind's name,
/// `--seed 5`, `--count=7` and `--quantum=8` make the choice of these values.
pub fn arguments_choose_what_they_say()
    ensures { (name : Text) (mode : Mode) (kind : Kind) → Chooses
        (name ∷ mode_name mode ∷ codes "--manager" ∷ kind_name kind ∷ codes "--seed" ∷ codes "5" ∷ codes "--count=7" ∷ codes "--quantum=8" ∷ [])
        (chosen mode kind 5 7 8) }
{}

/// Two examples of names that are refused, since they are not in the list: the mode `Run`, which differs from
/// `run` in the case of a letter, and the kind `halt`, which differs from `half` in a letter.
pub fn other_names_are_refused()
    ensures mode { (name : Text) → AreRefused (name ∷ codes "Run" ∷ []) }
    ensures manager { (name : Text) → AreRefused (name ∷ codes "--manager" ∷ codes "halt" ∷ []) }
{}

/// `--help` right after the program's name is refused, whatever follows it.
pub fn help_is_refused()
    ensures { (name : Text) (rest : List Text) → AreRefused (name ∷ codes "--help" ∷ rest) }
{}

/// A count of 1,000,001 is refused.
pub fn a_count_too_far_is_refused()
    ensures { (name : Text) → AreRefused (name ∷ codes "--count=1000001" ∷ []) }
{}

/// A quantum of 0 words is refused, and one of 16,385 words.
pub fn a_quantum_out_of_range_is_refused()
    ensures none { (name : Text) → AreRefused (name ∷ codes "--quantum=0" ∷ []) }
    ensures too_far { (name : Text) → AreRefused (name ∷ codes "--quantum=16385" ∷ []) }
{}

//! Laws of the top call, by what it left on its devices.

ghost use Rattle.std.specs.Prelude.{◌≡◌, ℕ, ◌≤◌, ◌⊎◌, List, length, Option, Some};
ghost use Rattle.script_tree.specs.declared.limits.TheConstants.{DECK_BYTES};
ghost use Rattle.fs_io.specs.Count.{Rose};
ghost use Rattle.command_words.specs.declared.command.Command.{Command};
ghost use Rattle.command_words.specs.declared.command.Command.TheVariants.{Print, Make};
ghost use Rattle.command_words.specs.Words.{AsksFor};
ghost use Rattle.framesweep_cli.specs.declared.fault.InputFault.{InputFault};
ghost use Rattle.framesweep_cli.specs.declared.reading.Reading.TheVariants.{Deck};
ghost use Rattle.framesweep_cli.specs.Inputs.{reading_of, IsValid, IsInvalid};
ghost use Rattle.framesweep_cli.specs.Endings.{Makes};
ghost use Rattle.framesweep_cli.specs.Devices.{Devices};
ghost use Rattle.framesweep_cli.specs.Lines.{memory_line};
ghost use Rattle.framesweep_cli.specs.Statuses.{Ends, Declines, Obeys};

/// Status 1 comes exactly where the words are no command line, want of memory aside; and where they are one, the one
/// command that they ask for is done, or there was no memory to read them.
pub fn words_decide()
    ensures refused { (words : List (List ℕ)) (before after : Devices) (status : ℕ) → Obeys words before after status
        → ((command : Command) → AsksFor words command → ⊥) → (status ≡ 1) ⊎ (status ≡ 5) }
    ensures asked { (words : List (List ℕ)) (command : Command) (before after : Devices) (status : ℕ) → Obeys words before after status
        → AsksFor words command → status ≡ 1 → ⊥ }
    ensures done { (words : List (List ℕ)) (command : Command) (before after : Devices) (status : ℕ) → Obeys words before after status
        → AsksFor words command → Ends command before after status ⊎ Declines before after memory_line 5 status }
{
    command_words::laws::words_ask_for_one_command();
}

/// Where a command is done, or asked for by words, on input that is valid for it, and neither the source's faults nor the
/// output's rose, the status is 0 or 5.
pub fn valid_input_is_served()
    ensures alone { (command : Command) (before after : Devices) (status : ℕ) → Ends command before after status
        → IsValid (reading_of command) before.source.left → (Rose before.source.faults after.source.faults → ⊥)
        → (Rose before.out.faults after.out.faults → ⊥) → (status ≡ 0) ⊎ (status ≡ 5) }
    ensures asked { (words : List (List ℕ)) (command : Command) (before after : Devices) (status : ℕ) → Obeys words before after status
        → AsksFor words command → IsValid (reading_of command) before.source.left → (Rose before.source.faults after.source.faults → ⊥)
        → (Rose before.out.faults after.out.faults → ⊥) → (status ≡ 0) ⊎ (status ≡ 5) }
{
    deck_text::laws::one_answer();
    report_text::reports_are_told_apart();
    command_words::laws::words_ask_for_one_command();
}

/// Where a command is done, or asked for by words, on input that is refused for it, and the source's faults did not rise,
/// the status is 2 or 5; and 2 comes for no valid input.
pub fn invalid_input_is_refused()
    ensures alone { (command : Command) (fault : InputFault) (before after : Devices) (status : ℕ) → Ends command before after status
        → IsInvalid (reading_of command) before.source.left fault → (Rose before.source.faults after.source.faults → ⊥)
        → (status ≡ 2) ⊎ (status ≡ 5) }
    ensures asked { (words : List (List ℕ)) (command : Command) (fault : InputFault) (before after : Devices) (status : ℕ)
        → Obeys words before after status → AsksFor words command → IsInvalid (reading_of command) before.source.left fault
        → (Rose before.source.faults after.source.faults → ⊥) → (status ≡ 2) ⊎ (status ≡ 5) }
    ensures valid_alone { (command : Command) (before after : Devices) (status : ℕ) → Ends command before after status
        → IsValid (reading_of command) before.source.left → status ≡ 2 → ⊥ }
    ensures valid { (words : List (List ℕ)) (command : Command) (before after : Devices) (status : ℕ) → Obeys words before after status
        → AsksFor words command → IsValid (reading_of command) before.source.left → status ≡ 2 → ⊥ }
{
    deck_text::laws::one_answer();
    report_text::reports_are_told_apart();
    command_words::laws::words_ask_for_one_command();
}

/// What `print` makes of an input can stand in its place, where it is within the bytes of a deck: each command that reads a
/// deck alone makes of it what it makes of the input. So a printed deck runs as the deck does, and is printed as itself.
pub fn printed_decks_serve()
    ensures { (command : Command) (left text output : List ℕ) → reading_of command ≡ Some Deck → Makes Print (Some left) text
        → length text ≤ DECK_BYTES → Makes command (Some left) output → Makes command (Some text) output }
{
    deck_text::laws::one_answer();
    deck_text::laws::canonical_deck();
}

/// `make` reads nothing: the source is as it was, and the status is 0, 4 or 5. What it writes for a number is the same each time.
pub fn workloads_are_repeated()
    ensures unread { (number : ℕ) (before after : Devices) (status : ℕ) → Ends (Make number) before after status
        → after.source ≡ before.source }
    ensures status { (number : ℕ) (before after : Devices) (status : ℕ) → Ends (Make number) before after status
        → (status ≡ 0) ⊎ ((status ≡ 4) ⊎ (status ≡ 5)) }
    ensures alike { (number : ℕ) (one other : List ℕ) (left rest : Option (List ℕ)) → Makes (Make number) left one
        → Makes (Make number) rest other → one ≡ other }
{}

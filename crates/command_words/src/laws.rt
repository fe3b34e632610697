//! Laws of command lines.

ghost use Rattle.std.specs.Prelude.{◌≡◌, ℕ, List};
ghost use Rattle.command_words.specs.declared.command.Command.{Command};
ghost use Rattle.command_words.specs.Words.{AsksFor, HasFewVersions};

/// Words ask for one command at most. So `read_words` has one right answer for them, want of memory aside.
pub fn words_ask_for_one_command()
    ensures { (words : List (List ℕ)) (a b : Command) → AsksFor words a → AsksFor words b → a ≡ b }
{}

/// A command that words ask for has no greater limit of versions than the greatest one.
pub fn versions_are_few()
    ensures { (words : List (List ℕ)) (command : Command) → AsksFor words command → HasFewVersions command }
{}

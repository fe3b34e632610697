// The table of commands: the word of each, whether it takes a number, the kinds of options that it has, and the command that they make.

use crate::command::Command;
use crate::kinds::Kinds;

/// A command by its word.
#[derive(Clone, Copy, Debug)]
pub enum Verb {
    Run,
    Replay,
    Serial,
    Print,
    Check,
    Make,
}

impl Verb {
    ghost use Rattle.std.specs.Prelude.{◌≡◌, IfSome, IfNone};
    ghost use Rattle.command_words.specs.declared.verb.Verb.{Verb};
    ghost use Rattle.command_words.specs.Table.{word_of, takes_number, kinds_of, asked};

    /// The command whose word this is.
    pub fn of(word: &str) -> Option<Verb>
        ensures some { IfSome result (λ verb. word.now ≡ word_of verb) }
        ensures none { IfNone result ((verb : Verb) → word.now ≡ word_of verb → ⊥) }
    {
        match word {
            "run" => Some(Verb::Run),
            "replay" => Some(Verb::Replay),
            "serial" => Some(Verb::Serial),
            "print" => Some(Verb::Print),
            "check" => Some(Verb::Check),
            "make" => Some(Verb::Make),
            _ => None,
        }
    }

    /// Whether a number stands between a command's word and its options.
    pub fn takes_number(self) -> bool
        ensures { result ≡ takes_number self }
    {
        match self {
            Verb::Run | Verb::Replay | Verb::Serial | Verb::Print | Verb::Check => false,
            Verb::Make => true,
        }
    }

    /// The kinds of options that a command has.
    pub fn kinds(self) -> Kinds
        ensures { result ≡ kinds_of self }
    {
        match self {
            Verb::Run | Verb::Replay | Verb::Serial => Kinds {
                json: true,
                versions: true,
            },
            Verb::Print | Verb::Make => Kinds {
                json: false,
                versions: false,
            },
            Verb::Check => Kinds {
                json: false,
                versions: true,
            },
        }
    }

    /// The command with its number and the values of its options. One without a number, or without such an option, passes over it.
    pub fn command(self, number: u64, versions: u32, json: bool) -> Command
        ensures { result ≡ asked self number versions json }
    {
        match self {
            Verb::Run => Command::Run { versions, json },
            Verb::Replay => Command::Replay { versions, json },
            Verb::Serial => Command::Serial { versions, json },
            Verb::Print => Command::Print,
            Verb::Check => Command::Check { versions },
            Verb::Make => Command::Make { number },
        }
    }
}

// Kinds of options.

ghost use Rattle.std.specs.Prelude.{◌≡◌};
ghost use Rattle.command_words.specs.Options.{has};
ghost use Rattle.command_words.specs.Kinds.{without};

/// A kind of option.
#[derive(Clone, Copy, Debug)]
pub enum Kind {
    /// `--json`.
    Json,
    /// `--versions`, with a limit of versions.
    Versions,
}

/// Some kinds of options.
#[derive(Clone, Copy, Debug)]
pub struct Kinds {
    pub json: bool,
    pub versions: bool,
}

impl Kinds {
    ghost use Rattle.std.specs.Prelude.{◌≡◌};
    ghost use Rattle.command_words.specs.Options.{has};
    ghost use Rattle.command_words.specs.Kinds.{without};

    /// Whether a kind is one of these.
    pub fn has(self, kind: Kind) -> bool
        ensures { result ≡ has self kind }
    {
        match kind {
            Kind::Json => self.json,
            Kind::Versions => self.versions,
        }
    }

    /// These but one.
    pub fn without(self, kind: Kind) -> Kinds
        ensures { result ≡ without self kind }
    {
        match kind {
            Kind::Json => Kinds {
                json: false,
                ..self
            },
            Kind::Versions => Kinds {
                versions: false,
                ..self
            },
        }
    }
}

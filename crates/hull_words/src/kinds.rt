//! The commands, their options, and how each is spelled.
ghost use Rattle.std.specs.Prelude.{◌≡◌};
ghost use Rattle.std.specs.List.{find};
ghost use Rattle.std.specs.Str.{bytes_eq};
ghost use Rattle.hull_words.specs.Spelling.{command_named, options, spelling};

/// A command without its words.
#[derive(Clone, Copy)]
pub enum CommandKind {
    Price,
    Check,
    Try,
    Bound,
    Fixed,
    Audit,
    Settle,
    Certify,
    Convex,
}

/// An option without its value.
#[derive(Clone, Copy)]
pub enum OptionKind {
    Case,
    Schedule,
    Report,
    Prices,
    Mixture,
    Proposals,
    Workers,
    Ahead,
    Radius,
    Within,
    Rounds,
}

impl CommandKind {
    /// The command that the word names.
    pub fn named(word: &str) -> Option<CommandKind>
        ensures { result ≡ command_named word.now }
    {
        match word {
            "price" => Some(CommandKind::Price),
            "check" => Some(CommandKind::Check),
            "try" => Some(CommandKind::Try),
            "bound" => Some(CommandKind::Bound),
            "fixed" => Some(CommandKind::Fixed),
            "audit" => Some(CommandKind::Audit),
            "settle" => Some(CommandKind::Settle),
            "certify" => Some(CommandKind::Certify),
            "convex" => Some(CommandKind::Convex),
            _ => None,
        }
    }

    /// The options that the command has.
    fn options(self) -> &'static [OptionKind]
        ensures { result.now ≡ options self }
    {
        match self {
            CommandKind::Price | CommandKind::Fixed => &[
                OptionKind::Case,
                OptionKind::Schedule,
                OptionKind::Proposals,
                OptionKind::Workers,
                OptionKind::Ahead,
            ],
            CommandKind::Check => &[OptionKind::Case, OptionKind::Schedule],
            CommandKind::Try => &[
                OptionKind::Proposals,
                OptionKind::Workers,
                OptionKind::Ahead,
            ],
            CommandKind::Bound => &[
                OptionKind::Case,
                OptionKind::Schedule,
                OptionKind::Proposals,
                OptionKind::Workers,
                OptionKind::Ahead,
                OptionKind::Radius,
            ],
            CommandKind::Audit => &[
                OptionKind::Case,
                OptionKind::Schedule,
                OptionKind::Report,
                OptionKind::Workers,
            ],
            CommandKind::Settle => &[OptionKind::Case, OptionKind::Schedule, OptionKind::Prices],
            CommandKind::Certify => &[
                OptionKind::Case,
                OptionKind::Schedule,
                OptionKind::Prices,
                OptionKind::Mixture,
                OptionKind::Radius,
            ],
            CommandKind::Convex => &[
                OptionKind::Case,
                OptionKind::Schedule,
                OptionKind::Within,
                OptionKind::Rounds,
            ],
        }
    }

    /// The option of the command that has this name.
    pub fn option(self, name: &str) -> Option<OptionKind>
        ensures { result ≡ find (λ o. bytes_eq name.now (spelling o)) (options self) }
    {
        self.options()
            .iter()
            .copied()
            .find(|option| name == option.spelling())
    }
}

impl OptionKind {
    /// The name behind the two dashes.
    fn spelling(self) -> &'static str
        ensures { result.now ≡ spelling self }
    {
        match self {
            OptionKind::Case => "case",
            OptionKind::Schedule => "schedule",
            OptionKind::Report => "report",
            OptionKind::Prices => "prices",
            OptionKind::Mixture => "mixture",
            OptionKind::Proposals => "proposals",
            OptionKind::Workers => "workers",
            OptionKind::Ahead => "ahead",
            OptionKind::Radius => "radius",
            OptionKind::Within => "within",
            OptionKind::Rounds => "rounds",
        }
    }
}

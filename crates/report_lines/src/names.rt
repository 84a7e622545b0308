//! The name of a command word that is missing.
ghost use Rattle.std.specs.Prelude.{◌≡◌};
ghost use Rattle.report_lines.specs.Names.{name_text};

use std::marker::Model;

/// What may be missing of a command's words: a word by its place, or an option.
#[derive(Clone, Copy, Debug, PartialEq, Eq)]
pub enum Name {
    Command,
    Schema,
    Query,
    Schedule,
    Number,
    Rows,
    Shift,
    From,
    To,
}

/// The name of a command word that is missing, seen as its bytes.
#[derive(Drop)]
pub struct NameText {
    name: Name,
}

impl Model for NameText {
    ghost use Rattle.std.specs.Prelude.{List, ℕ};
    ghost use Rattle.report_lines.specs.Names.{name_text};

    ghost Value = { List ℕ };

    ghost view = { λ n. name_text n.name };
}

impl NameText {
    /// The text of this name.
    pub fn new(name: Name) -> NameText
        ensures { result ≡ name_text name }
    {
        NameText { name }
    }

    /// The text.
    pub fn as_str(&self) -> &'static str
        ensures { result.now ≡ self.now }
    {
        match self.name {
            Name::Command => "command",
            Name::Schema => "schema",
            Name::Query => "--query",
            Name::Schedule => "--schedule",
            Name::Number => "--number",
            Name::Rows => "--rows",
            Name::Shift => "--shift",
            Name::From => "--from",
            Name::To => "--to",
        }
    }
}

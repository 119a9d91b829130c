// A row of the table of options: its name, what it takes and its default.
ghost use Rattle.std.specs.Prelude.{◌≡◌, ◌&&◌};
ghost use Rattle.std.specs.List.{list_any};
ghost use Rattle.std.specs.Str.{bytes_eq};
ghost use Rattle.command_line.specs.Options.{is_for, takes_of};
ghost use Rattle.command_line.specs.Table.{row_read, takes_read};

use crate::texts::{is_name, number};

/// What the value of an option may be. Generic in how texts are held, as the rows below are: a constant of such a type has a
/// name in definitions.
#[derive(Clone, Copy, Debug)]
pub enum TakesOf<Texts> {
    /// A name: some text that doesn't begin with a dash.
    Name,
    /// One of these texts.
    OneOf(Texts),
    /// A number from the least to the most, both of them taken.
    Number(u64, u64),
}

/// What the value of an option may be.
pub type Takes = TakesOf<&'static [&'static str]>;

/// A row of the table: an option, without its two dashes. What it says to a person is of a type of its own, since the form of a
/// command is without it.
#[derive(Clone, Copy, Debug)]
pub struct RowOf<Text, Texts, Says> {
    pub name: Text,
    pub takes: TakesOf<Texts>,
    /// The value where the option isn't given. `None`: it has to be.
    pub default: Option<Text>,
    /// A sentence for a person, of at most 100 characters.
    pub says: Says,
}

/// A row of the table: an option, without its two dashes.
pub type OptionRow = RowOf<&'static str, &'static [&'static str], &'static str>;

/// Which command a row is of.
#[derive(Clone, Copy, Debug, PartialEq, Eq)]
pub enum CommandName {
    Run,
    Asm,
    Replay,
    Convert,
    Standby,
    Resume,
    Serve,
    Diagnose,
    Drill,
    Frame,
    Unframe,
}

/// A command with its positionals, in their order, and its options.
#[derive(Clone, Copy, Debug)]
pub struct CommandOf<Text, Texts, Rows, Says> {
    pub which: CommandName,
    pub name: Text,
    pub positionals: Texts,
    pub options: Rows,
    /// A sentence for a person, of at most 100 characters.
    pub says: Says,
}

/// A command with its positionals, in their order, and its options.
pub type CommandRow = CommandOf<
    &'static str,
    &'static [&'static str],
    &'static [OptionRow],
    &'static str,
>;

// Whether a text is one of these.
fn is_one_of(texts: &[&str], value: &str) -> bool
    ensures { result ≡ list_any (λ text. bytes_eq text.now value.now) texts.now }
{
    texts.iter().any(|text| *text == value)
}

/// Whether an option takes the value.
pub fn takes_value(takes: &Takes, value: &str) -> bool
    ensures { result ≡ takes_of (takes_read takes.now) value.now }
{
    match takes {
        TakesOf::Name => is_name(value),
        TakesOf::OneOf(texts) => is_one_of(texts, value),
        TakesOf::Number(least, most) => match number(value) {
            None => false,
            Some(n) => *least <= n && n <= *most,
        },
    }
}

// Whether a word is the option's name behind two dashes.
pub(crate) fn is_named(word: &str, row: &OptionRow) -> bool
    ensures { result ≡ is_for (row_read row.now) word.now }
{
    match word.as_bytes() {
        [b'-', b'-', name @ ..] => name == row.name.as_bytes(),
        _ => false,
    }
}

// Whether a row has this name and takes this value.
pub(crate) fn takes_option(row: &OptionRow, word: &str, value: &str) -> bool
    ensures { result ≡ (is_for (row_read row.now) word.now && takes_of (row_read row.now).takes value.now) }
{
    if !is_named(word, row) {
        return false;
    }
    takes_value(&row.takes, value)
}

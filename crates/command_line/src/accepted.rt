// Our own check of the words: it takes no memory, and refuses all that is refused.
ghost use Rattle.std.specs.Prelude.{◌≡◌};
ghost use Rattle.command_line.specs.Options.{value_of};
ghost use Rattle.command_line.specs.Parts.{parts_of};
ghost use Rattle.command_line.specs.Table.{form_read, row_read};
ghost use Rattle.command_line.specs.Commands.{fits, positional};

use crate::options::{CommandRow, OptionRow};
use crate::parts::{are_complete, are_names, are_taken, given, positional};

// Whether the words have the form of this command.
pub(crate) fn have_form(words: &[String], command: &CommandRow) -> bool
    ensures { result ≡ fits (form_read command.now) (parts_of words.now) }
{
    are_names(words, command.positionals.len())
        && are_taken(words, command.options)
        && are_complete(words, command.options)
}

// The value of an option: the one that is given, or the default of its row.
pub(crate) fn value<'a>(words: &'a [String], row: &OptionRow) -> &'a str
    ensures { result.now ≡ value_of (row_read row.now) (parts_of words.now).options }
{
    match given(words, row) {
        Some(text) => text,
        None => match row.default {
            Some(text) => text,
            None => "",
        },
    }
}

// The positional behind so many others, empty where there is none.
pub(crate) fn name_at<'a>(words: &'a [String], index: usize) -> &'a str
    ensures { result.now ≡ positional index (parts_of words.now) }
{
    match positional(words, index) {
        Some(text) => text,
        None => "",
    }
}

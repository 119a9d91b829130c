// The option `--record-full` of the commands that serve: what becomes of a session whose record can't be written any more. It is no part of what a session
// is asked for.
ghost use Rattle.std.specs.Prelude.{◌≡◌};
ghost use Rattle.command_line.specs.Options.{value_of};
ghost use Rattle.command_line.specs.Parts.{parts_of, texts_of};
ghost use Rattle.command_line.specs.Recording.{asked_record_stop};
ghost use Rattle.command_line.specs.Table.{record_full_row};

use crate::accepted::value;
use crate::run_words::{RECORD_FULL, STOP};

// The value that the words behind a command's name give the option, or its default.
#[tactic(auto, unfolding(crate::specs::Table::record_full_row))]
fn record_full_in<'a>(words: &'a [String]) -> &'a str
    ensures { result.now ≡ value_of record_full_row (parts_of words.now).options }
{
    value(words, &RECORD_FULL)
}

/// Whether the words behind the program's own name ask that only the record stops where it can't be written any more, and the session goes on, as they are
/// those of a command that has the option.
pub fn asked_record_stop(words: &[String]) -> bool
    ensures { result ≡ asked_record_stop (texts_of words.now) }
{
    let [_, behind @ ..] = words else {
        return false;
    };
    record_full_in(behind) == STOP
}

// The option `--durable` of the commands that serve: whether the report is written through to the disk. It is no part of what a session is asked for.
ghost use Rattle.std.specs.Prelude.{◌≡◌};
ghost use Rattle.command_line.specs.Durable.{asked_durable};
ghost use Rattle.command_line.specs.Options.{value_of};
ghost use Rattle.command_line.specs.Parts.{parts_of, texts_of};
ghost use Rattle.command_line.specs.Table.{durable_row};

use crate::accepted::value;
use crate::run_words::{DURABLE, ON};

// The value that the words behind a command's name give the option, or its default.
#[tactic(auto, unfolding(crate::specs::Table::durable_row))]
fn durable_in<'a>(words: &'a [String]) -> &'a str
    ensures { result.now ≡ value_of durable_row (parts_of words.now).options }
{
    value(words, &DURABLE)
}

/// Whether the words behind the program's own name ask that each episode is on the disk before replies that come of it are written, as they are those of a
/// command that has the option.
pub fn asked_durable(words: &[String]) -> bool
    ensures { result ≡ asked_durable (texts_of words.now) }
{
    let [_, behind @ ..] = words else {
        return false;
    };
    durable_in(behind) == ON
}

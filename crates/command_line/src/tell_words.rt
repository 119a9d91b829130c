// The option `--tell` of the commands that serve: whether a person is told of each recovery. It is no part of what a session is asked for.
ghost use Rattle.std.specs.Prelude.{◌≡◌};
ghost use Rattle.command_line.specs.Options.{value_of};
ghost use Rattle.command_line.specs.Parts.{parts_of, texts_of};
ghost use Rattle.command_line.specs.Table.{tell_row};
ghost use Rattle.command_line.specs.Telling.{asked_tell, tell_of};

use crate::accepted::value;
use crate::run_words::{OFF, ON, TELL};

/// Whether a person is told of each recovery.
#[derive(Clone, Copy, Debug, PartialEq, Eq)]
pub enum Tell {
    /// Where somebody reads it.
    Auto,
    On,
    Off,
}

// What a value of the option says.
fn tell_of(text: &str) -> Tell
    ensures { result ≡ tell_of text.now }
{
    if text == ON {
        return Tell::On;
    }
    if text == OFF {
        return Tell::Off;
    }
    Tell::Auto
}

// The value that the words behind a command's name give the option, or its default.
#[tactic(auto, unfolding(crate::specs::Table::tell_row))]
fn tell_in<'a>(words: &'a [String]) -> &'a str
    ensures { result.now ≡ value_of tell_row (parts_of words.now).options }
{
    value(words, &TELL)
}

/// What the words behind the program's own name say of `--tell`, as they are those of a command that has it.
pub fn asked_tell(words: &[String]) -> Tell
    ensures { result ≡ asked_tell (texts_of words.now) }
{
    let [_, behind @ ..] = words else {
        return Tell::Auto;
    };
    tell_of(tell_in(behind))
}

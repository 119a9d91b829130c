// The commands `frame` and `unframe`, which have no names and no options.
ghost use Rattle.std.specs.Prelude.{◌≡◌};
ghost use Rattle.command_line.specs.Parts.{parts_of};
ghost use Rattle.command_line.specs.Commands.{is_frame, is_unframe};

use crate::accepted::have_form;
use crate::options::{CommandName, CommandOf, CommandRow, OptionRow};

/// The names of a command that has none.
pub const NO_NAMES: [&str; 0] = [];

/// The options of a command that has none.
pub const NO_OPTIONS: [OptionRow; 0] = [];

/// Turns lines into frames.
pub const FRAME_LINES: CommandRow = CommandOf {
    which: CommandName::Frame,
    name: "frame",
    positionals: &NO_NAMES,
    options: &NO_OPTIONS,
    says: "Turns lines on standard input into frames of the trunk on standard output.",
};

/// Turns frames into lines.
pub const UNFRAME: CommandRow = CommandOf {
    which: CommandName::Unframe,
    name: "unframe",
    positionals: &NO_NAMES,
    options: &NO_OPTIONS,
    says: "Turns frames of the trunk on standard input into lines on standard output.",
};

// Whether these are the words behind `frame`.
#[tactic(auto, unfolding(crate::specs::Commands::is_frame, crate::specs::Commands::frame_form))]
pub(crate) fn are_frame_words(words: &[String]) -> bool
    ensures { result ≡ is_frame (parts_of words.now) }
{
    have_form(words, &FRAME_LINES)
}

// Whether these are the words behind `unframe`.
#[tactic(auto, unfolding(crate::specs::Commands::is_unframe, crate::specs::Commands::unframe_form))]
pub(crate) fn are_unframe_words(words: &[String]) -> bool
    ensures { result ≡ is_unframe (parts_of words.now) }
{
    have_form(words, &UNFRAME)
}

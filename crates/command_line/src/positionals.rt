// What stands at the places of the commands' names: a row each, as of the options.
use crate::asm_words::{OUT, SOURCE};
use crate::drill_words::{COUNT, SEED};
use crate::options::{OptionRow, RowOf, TakesOf};
use crate::replay_words::RECORDED;
use crate::resume_words::REPORTED;
use crate::run_words::PROGRAM;
use crate::serve_words::{CONNS, PORT};
use crate::standby_words::COUNTS;

/// The names that stand behind a command, with what each of them may be. None of them has a default.
pub const POSITIONALS: [OptionRow; 10] = [
    RowOf {
        name: PROGRAM,
        takes: TakesOf::Name,
        default: None,
        says: "The file of the program, a static executable.",
    },
    RowOf {
        name: RECORDED,
        takes: TakesOf::Name,
        default: None,
        says: "The file of the record of a session.",
    },
    RowOf {
        name: REPORTED,
        takes: TakesOf::Name,
        default: None,
        says: "The file of the report of a session.",
    },
    RowOf {
        name: COUNTS,
        takes: TakesOf::Name,
        default: None,
        says: "The file of how many bytes of its replies each connection has.",
    },
    RowOf {
        name: SOURCE,
        takes: TakesOf::Name,
        default: None,
        says: "The file of the text that is assembled.",
    },
    RowOf {
        name: OUT,
        takes: TakesOf::Name,
        default: None,
        says: "The file that is written.",
    },
    PORT,
    CONNS,
    SEED,
    COUNT,
];

// The row of a name that stands behind a command.
pub(crate) fn positional_named(name: &str) -> Option<OptionRow> {
    for row in POSITIONALS {
        if row.name == name {
            return Some(row);
        }
    }
    None
}

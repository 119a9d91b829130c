//! The words behind the program's own name, as a command with its names and numbers.
//!
//! One table tells each option with its values and its default.
//! Values and defaults are read by `clap`. That it has no fault at words that `is_command` takes is proved.
//! `complaint`, `range_of`, `usage` and `help_text` are sentences for a person, and have no clause.
#![tactic(auto)]

mod accepted;
mod asm_words;
mod command;
mod convert_words;
mod diagnose_words;
mod drill_words;
mod durable_words;
mod frame_words;
mod help_words;
mod laws;
mod matching;
mod options;
mod parts;
mod positionals;
mod record_words;
mod replay_words;
mod resume_words;
mod run_words;
mod serve_words;
mod standby_words;
mod tell_words;
mod texts;
mod wording;

pub use asm_words::{ASM, ASM_OPTIONS, AsmCommand};
pub use command::{COMMANDS, Command, is_command, name_of, read_command};
pub use convert_words::{CONVERT, CONVERT_OPTIONS, ConvertCommand};
pub use diagnose_words::{DIAGNOSE, DIAGNOSE_OPTIONS, DiagnoseCommand};
pub use drill_words::{DRILL, DRILL_NUMBERS, DRILL_OPTIONS, DrillCommand};
pub use durable_words::asked_durable;
pub use frame_words::{FRAME_LINES, NO_NAMES, NO_OPTIONS, UNFRAME};
pub use help_words::{Help, asked_help, help_text};
pub use laws::{help_is_no_command, numbers_of, ranges_of};
pub use options::{
    CommandName, CommandOf, CommandRow, OptionRow, RowOf, Takes, TakesOf, takes_value,
};
pub use positionals::POSITIONALS;
pub use record_words::asked_record_stop;
pub use replay_words::{REPLAY, REPLAY_OPTIONS, ReplayCommand};
pub use resume_words::{REPORTED, RESUME, RESUME_OPTIONS, ResumeCommand, run_in};
pub use run_words::{Form, Guard, NO_RECORD, RUN, RUN_OPTIONS, RunCommand};
pub use serve_words::{SERVE, SERVE_NUMBERS, SERVE_OPTIONS, ServeCommand};
pub use standby_words::{STANDBY, STANDBY_OPTIONS, StandbyCommand};
pub use tell_words::{Tell, asked_tell};
pub use texts::{is_name, number};
pub use wording::{complaint, range_of, usage};

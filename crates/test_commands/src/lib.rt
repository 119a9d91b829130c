//! Commands as rows of a text, for tests: what is played to a program over files and streams in memory, and what is expected.
//!
//! They serve tests alone, and no clause says what they play. A row goes through the public call `run_rx`, and one that can't be read fails its test.
//! What a test expects is worked out by hand, and is never what the program printed.
//!
//! A block of rows begins with a line for their program: the name of an example guest or a text, which is assembled, or what the file `p` has in its place,
//! `bytes=` or `text=`. A line `all:` behind it has cells of all rows of the block, each for those that have none of its name. A line with `#` is a comment.
//!
//! The cells of a row stand between `;`, each a name, `=` and a value. A `/` in a text is a line feed. Bytes are pairs of hexadecimal digits, between
//! which blanks may stand; `78*39` is a pair so many times.
//!
//! What is played: `words` of the command, or `options` behind the usual ones; `before`, what `r` and `t` have, which else aren't there, with `kept`, how
//! many bytes there are of it, and `spoilt`, bytes of it that are others, each behind its place; `counts` and `reported`, what `c` and `q` have, which else
//! aren't there; `in`, the input, with `cut`, how many bytes there are of it; `edit`, bytes of `p` that are others; `files`, `source` and `sink`, the numbers
//! of the calls on them that fail; `takes` and `gives`, how many bytes a call on the source and on the sink moves at most. `clients`, what each client of a
//! port sends, texts between `|`; `bind`, `wait`, `accept`, `take` and `give`, the numbers of the calls on the port that fail; `moves`,
//! how many bytes such a call takes or gives at most. `ready`, what the waits answer one after another: `client`, or a connection's number.
//! `each`, a first and a last number: the row is played for each from the one to the other, which stands in it for `@`.
//!
//! What is expected, where it stands: `end`, the answer, the status, how many choices are recorded, those behind them, the instructions and the items
//! taken, or `answer` alone; `differs`, what differs from a record; `out`, all that stands in the sink, or `wrote`, of which a byte stands there for each
//! call on it before the one that fails; `left`, what the source gives in one call more; `record` and `report`, the texts of `r` and `t`, `none` where
//! they aren't there; `written`, the bytes of `o`, and `o`, its text; `port`, the calls on the port, each behind a blank: a wait for any or for an open one, with what was
//! ready, and at the others their connection; `given`, what each of its connections was given, a `|` behind each. `calls`, the same calls without waits
//! and connections; `replies`, what clients were given one after another, a `|` where one was closed.
#![tactic(auto)]

mod cells;
mod expecting;
mod outsides;
mod programs;
mod running;
mod showing;
mod table;

pub use programs::executable_of;
pub use running::{RUN, run_over};
pub use showing::shown;
pub use table::play_rows;

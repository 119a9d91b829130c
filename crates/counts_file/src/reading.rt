// A text of counts, read line by line.
ghost use Rattle.std.specs.Prelude.{IfOk};
ghost use Rattle.counts_file.specs.Answers.{ReadsCounts};
ghost use Rattle.counts_file.specs.Steps.{AreAllLines};

use crate::counts::{Counts, CountsRefusal};
use crate::telling::count_in;
use rx_base::Conn;
use std::alloc::{AllocError, Global};
use text_lines::split_line;

// The counts whose lines a text begins with, and the text behind these lines.
fn take_lines(alloc: Global, text: &[u8]) -> Result<(Vec<(Conn, u64)>, &[u8]), AllocError>
    ensures { IfOk result (λ taken. AreAllLines text.now taken.0.items taken.1.now) }
{
    let mut counts = Vec::new(alloc);
    let mut least: Conn = 0;
    let mut rest = text;
    'lines: loop {
        let (line, behind) = split_line(rest);
        let Some(count) = count_in(alloc, least, line)? else {
            return Ok((counts, rest));
        };
        counts.push(count)?;
        least = count.0 + 1;
        rest = behind;
    }
}

/// Reads a text of lines `CONN COUNT`, each with its line feed: decimal numbers without leading zeros, CONN below `CONNECTIONS` and
/// above that of the line before, COUNT below 2^63. A connection without a line has 0, and a text may have no line.
///
/// `Refused` has the first line, counted from 1, that isn't of its form.
pub fn read_counts(alloc: Global, bytes: &[u8]) -> Result<Counts, CountsRefusal>
    ensures { ReadsCounts bytes.now result }
{
    let (counts, rest) = take_lines(alloc, bytes)?;
    if !rest.is_empty() {
        return Err(CountsRefusal::Refused {
            line: counts.len() as u32 + 1,
        });
    }
    Ok(Counts::from_vec(counts))
}

// A record's text, read line by line.
ghost use Rattle.std.specs.Prelude.{◌≡◌, IfOk};
ghost use Rattle.schedule_file.specs.Answers.{ReadsRecord, ReadsUnfinished};
ghost use Rattle.schedule_file.specs.Steps.{AreAllLines, unfinished_with};

use crate::recorded::{Finish, Head, Line, Lines, RecordRefusal, Recorded, Unfinished};
use crate::telling::{answer_of, end_of, head_of};
use std::alloc::{AllocError, Global};
use text_lines::{is_line, split_line};

// The answers whose lines, in a version, a text begins with, and the text behind these lines.
fn take_lines(alloc: Global, version: u8, text: &[u8]) -> Result<(Vec<Line>, &[u8]), AllocError>
    ensures { IfOk result (λ taken. AreAllLines version text.now taken.0.items taken.1.now) }
{
    let mut lines = Vec::new(alloc);
    let mut rest = text;
    'lines: loop {
        let (line, behind) = split_line(rest);
        let Some(answer) = answer_of(version, line) else {
            return Ok((lines, rest));
        };
        lines.push(answer)?;
        rest = behind;
    }
}

fn unfinished(head: Head, lines: Vec<Line>, finish: Option<Finish>) -> Unfinished
    ensures { result ≡ unfinished_with head lines.items finish }
{
    Unfinished {
        version: head.version,
        window: head.window,
        frame: head.frame,
        lines: Lines::from_vec(lines),
        finish,
    }
}

/// Reads the text of a record that may lack its last line, as a session leaves it that is killed. What stands behind its lines
/// without a line feed isn't looked at. One pass, line by line; beside the answers it takes room for one line at a time.
///
/// `Refused` has the first line, counted from 1, that isn't in its place: it has a line feed and isn't of its form, or it stands
/// behind the last line. A first line that isn't whole, or whose version is neither 1 nor 2, is refused at line 1.
pub fn read_unfinished(alloc: Global, bytes: &[u8]) -> Result<Unfinished, RecordRefusal>
    ensures { ReadsUnfinished bytes.now result }
{
    let (line, rest) = split_line(bytes);
    let Some(head) = head_of(alloc, line)? else {
        return Err(RecordRefusal::Refused { line: 1 });
    };
    let (lines, rest) = take_lines(alloc, head.version, rest)?;
    let number = lines.len() as u64 + 2;
    let (line, rest) = split_line(rest);
    let Some(finish) = end_of(alloc, line)? else {
        if is_line(line) {
            return Err(RecordRefusal::Refused { line: number });
        }
        return Ok(unfinished(head, lines, None));
    };
    if !rest.is_empty() {
        return Err(RecordRefusal::Refused { line: number + 1 });
    }
    Ok(unfinished(head, lines, Some(finish)))
}

/// Reads the text of a record, as `read_unfinished` does; but its last line has to be there.
///
/// `Refused` has the first line, counted from 1, that isn't of its form. A last line that is missing is refused at the number
/// after the last line that is there, and a line behind the last one at its own number. A version that is neither 1 nor 2 is
/// refused at line 1.
pub fn read_record(alloc: Global, bytes: &[u8]) -> Result<Recorded, RecordRefusal>
    ensures { ReadsRecord bytes.now result }
{
    let read = read_unfinished(alloc, bytes)?;
    let Some(finish) = read.finish else {
        let number = read.lines.as_slice().len() as u64 + 2;
        return Err(RecordRefusal::Refused { line: number });
    };
    Ok(Recorded {
        version: read.version,
        window: read.window,
        frame: read.frame,
        lines: read.lines,
        steps: finish.steps,
        taken: finish.taken,
    })
}

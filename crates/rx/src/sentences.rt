// Standard error: what was wrong, where, and what would be right.
ghost use Rattle.command_line.specs.Commands.{shown};
ghost use Rattle.command_line.specs.Ranges.{HasRanges};

use crate::facts::{add_answer, add_difference, add_limits, add_seen, words_of};
use crate::message::Message;
use crate::rows::{head_of, rest_of};
use crate::seen::seen_behind;
use command_line::{Command, complaint, read_command, usage};
use replay::Difference;
use run_history::Answer;
use rx_io::FileFault;
use rx_serve::End;
use std::alloc::AllocError;

// The commands in short.
const COMMANDS: &str = "  run PROGRAM                          serves the events of standard input
  serve PROGRAM PORT CONNS             serves the clients of a port
  diagnose PROGRAM                     is a run that says what each failure was
  resume PROGRAM RECORD REPORT COUNTS  goes on for a host that was killed
  standby PROGRAM RECORD COUNTS        takes over from a host that stopped
  replay, convert                      do a recorded run again
  asm, drill                           assemble a program; serve a generated session
  frame, unframe                       turn lines into frames, and frames into lines
rx help tells all of it, and rx help COMMAND one command.
";

/// Tells that memory ran out.
pub fn tell_memory(rt: &HostRuntime) {
    let _ = eprintln!(rt; "rx: memory ran out");
}

/// Tells that a word isn't UTF-8, and how the commands are written.
pub fn tell_not_utf8(rt: &HostRuntime) {
    let _ = eprintln!(rt; "rx: a word isn't UTF-8, so no command has these words");
    tell_usage(rt, "");
}

// How a command is written; all of them, where the name is that of none.
fn tell_usage(rt: &HostRuntime, name: &str) {
    match usage(rt.alloc(), name) {
        Ok(lines) => {
            let _ = eprint!(rt; "{lines}");
        }
        Err(_) => tell_memory(rt),
    }
}

// What is wrong with words that are those of no command.
fn tell_words(rt: &HostRuntime, words: &[String]) {
    match complaint(rt.alloc(), words) {
        Ok(line) => {
            let _ = eprintln!(rt; "rx: {line}");
        }
        Err(_) => tell_memory(rt),
    }
    match words {
        [] => {
            let _ = eprint!(rt; "{COMMANDS}");
        }
        [command, ..] => tell_usage(rt, command.as_str()),
    }
}

// The sentence for an answer to a command.
fn message_of<'a>(
    rt: &HostRuntime,
    answer: Answer,
    difference: Option<Difference>,
    command: Command<'a>,
    fault: Option<FileFault>,
) -> Result<Message<'a>, AllocError>
    requires { HasRanges (shown command) }
{
    let mut facts = words_of(rt.alloc(), &command)?;
    let seen = seen_behind(rt, answer, command, facts.as_slice(), fault);
    let head = head_of(&command, answer, seen.as_ref());
    let [middle, end] = rest_of(&command, answer, seen.as_ref(), difference);
    add_limits(&mut facts)?;
    add_answer(&mut facts, answer)?;
    if let Some(difference) = difference {
        add_difference(&mut facts, difference)?;
    }
    if let Some(seen) = seen {
        add_seen(&mut facts, seen)?;
    }
    Ok(Message {
        texts: [head, middle, end],
        facts,
    })
}

/// Tells what the end of the command of these words means, and of a run that isn't the recorded one what differs; and why a file couldn't
/// be written, if that was it. The names and numbers in it are those of the command that the words ask for.
pub fn tell(rt: &HostRuntime, end: &End, words: &[String], fault: Option<FileFault>) {
    match read_command(rt.alloc(), words) {
        Ok(Some(command)) => match message_of(rt, end.answer, end.difference, command, fault) {
            Ok(message) => {
                let _ = eprintln!(rt; "rx: {message}");
            }
            Err(_) => tell_memory(rt),
        },
        Ok(None) => tell_words(rt, words),
        Err(_) => tell_memory(rt),
    }
}

// Standard output: how the commands are written and what they do, where the words ask for it.
use command_line::{Help, help_text};

// What `--version` prints: what stands in the changelog, and the kit that proved it.
const VERSION_LINE: &str = "rx, unreleased; proved by rattle-kit-13f";

// The status where standard output can't be written, and where memory ran out.
const NO_OUTPUT: u8 = 8;

const NO_MEMORY: u8 = 10;

// The status behind a line or lines that were written, or not.
fn status_of_write(written: bool) -> u8 {
    if written { 0 } else { NO_OUTPUT }
}

fn print_commands(rt: &HostRuntime, help: Help) -> u8 {
    let name = match help {
        Help::Of(name) => Some(name),
        _ => None,
    };
    match help_text(rt.alloc(), name) {
        Ok(text) => status_of_write(print!(rt; "{text}").is_ok()),
        Err(_) => NO_MEMORY,
    }
}

/// Prints what is asked of the program itself, and answers the status.
pub fn print_help(rt: &HostRuntime, help: Help) -> u8 {
    match help {
        Help::Version => status_of_write(println!(rt; "{VERSION_LINE}").is_ok()),
        _ => print_commands(rt, help),
    }
}

// The descriptors that a program is started with: 0 to be read, 1 and 2 to be written.
use std::fs::{File, OpenOptions};
use std::os::fd::AsRawFd;

// A device that has nothing to read and keeps nothing that is written.
const NULL_DEVICE: &str = "/dev/null";

/// Descriptors that were closed when the program was started, each open now on the null device. They are closed again where this is dropped.
#[derive(Drop)]
pub struct Held {
    first: Option<File>,
    second: Option<File>,
    third: Option<File>,
}

// Opens the null device the other way round than the lowest free descriptor is used, if that is one of the first three: standard input to be
// written, and the others to be read. So what they are used for still fails.
fn hold_one(rt: &HostRuntime) -> Option<File> {
    let file = OpenOptions::new().read(true).open(rt, NULL_DEVICE).ok()?;
    match file.as_raw_fd() {
        0 => {
            drop(file);
            OpenOptions::new().write(true).open(rt, NULL_DEVICE).ok()
        }
        1 | 2 => Some(file),
        _ => None,
    }
}

/// Sees to it that no file is opened as standard input, output or error: a descriptor of them that is closed is opened on the null device, so that
/// reads and writes there fail as they would on a closed one.
pub fn hold_closed(rt: &HostRuntime) -> Held {
    Held {
        first: hold_one(rt),
        second: hold_one(rt),
        third: hold_one(rt),
    }
}

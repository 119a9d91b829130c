// What is seen of lines that become frames of the trunk, and of frames that become lines.
use crate::link_rows::bytes_of;
use rx_io::{MemorySink, MemorySource};
use std::alloc::Global;
use std::test::Fail;
use trunk_text::{Ended, frame_lines, unframe};

// How many bytes the sink takes a call at most.
const MOST: usize = 4;

fn hex_of(alloc: Global, bytes: &[u8]) -> Result<String, Fail> {
    let mut hex = String::new(alloc);
    for byte in bytes {
        hex.push_str(format!(in alloc; "{byte:02x}")?.as_str())?;
    }
    Ok(hex)
}

// How lines end that become frames, or frames that become lines, and what they become; a call of the source fails, and one of the sink.
fn turned(
    alloc: Global,
    is_back: bool,
    (reads, writes): (u64, u64),
    bytes: &[u8],
) -> Result<(Ended, Vec<u8>), Fail> {
    let mut source = MemorySource::make(bytes.to_vec(alloc)?, [reads].to_vec(alloc)?, 64);
    let mut sink = MemorySink::make(alloc, [writes].to_vec(alloc)?, MOST);
    let ended = if is_back {
        unframe(alloc, &mut source, &mut sink)
    } else {
        frame_lines(alloc, &mut source, &mut sink)
    };
    Ok((ended, sink.bytes().to_vec(alloc)?))
}

fn feeds_of(alloc: Global, text: &str) -> Result<String, Fail> {
    Ok(text.replace(alloc, ".", "\n")?)
}

/// The answer for lines, of which a dot ends one, and their frames as hexadecimal digits.
pub fn frames_seen(alloc: Global, reads: u64, writes: u64, text: &str) -> Result<String, Fail> {
    let text = feeds_of(alloc, text)?;
    let (ended, frames) = turned(alloc, false, (reads, writes), text.as_str().as_bytes())?;
    Ok(format!(in alloc; "{ended:?} {}", hex_of(alloc, frames.as_slice())?)?)
}

/// The answer for frames of hexadecimal digits, and their lines.
pub fn lines_seen(alloc: Global, reads: u64, writes: u64, hex: &str) -> Result<String, Fail> {
    let frames = bytes_of(alloc, hex)?;
    let (ended, lines) = turned(alloc, true, (reads, writes), frames.as_slice())?;
    Ok(format!(in alloc;
        "{ended:?} {}",
        String::from_utf8_lossy(alloc, lines.as_slice())?
    )?)
}

// Both answers, and the frames, for frames that become lines and frames again.
fn frames_back(alloc: Global, hex: &str) -> Result<String, Fail> {
    let (first, lines) = turned(alloc, true, (0, 0), bytes_of(alloc, hex)?.as_slice())?;
    let (second, frames) = turned(alloc, false, (0, 0), lines.as_slice())?;
    let hex = hex_of(alloc, frames.as_slice())?;
    Ok(format!(in alloc; "{first:?} {second:?} {hex}")?)
}

// Both answers, and the lines, for lines that become frames and lines again.
fn lines_back(alloc: Global, text: &str) -> Result<String, Fail> {
    let text = feeds_of(alloc, text)?;
    let (first, frames) = turned(alloc, false, (0, 0), text.as_str().as_bytes())?;
    let (second, lines) = turned(alloc, true, (0, 0), frames.as_slice())?;
    let lines = String::from_utf8_lossy(alloc, lines.as_slice())?;
    Ok(format!(in alloc; "{first:?} {second:?} {lines}")?)
}

/// Both answers, and what is had, for `lines` that become frames and lines again, or `frames` that become lines and frames again. No call fails.
pub fn turned_back(alloc: Global, what: &str, text: &str) -> Result<String, Fail> {
    if what == "frames" {
        return frames_back(alloc, text);
    }
    lines_back(alloc, text)
}

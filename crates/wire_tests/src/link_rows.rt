// What is seen of links.
ghost use Rattle.std.specs.Prelude.{◌≡◌, true};

use crate::rows::events_of;
use links::{Link, LinkEvent, LinkFault, MemoryLink};
use rx_io::{MemorySink, MemorySource};
use std::alloc::{AllocError, Global};
use std::test::Fail;
use trunk_wire::TrunkLink;

fn add_answer(
    alloc: Global,
    answers: &mut String,
    answer: &Result<LinkEvent, LinkFault>,
) -> Result<(), AllocError> {
    answers.push_str(format!(in alloc; "{answer:?} ")?.as_str())
}

// The answers of `next` until the link ends or fails.
fn answers_of<L: Link>(alloc: Global, link: &mut L) -> Result<String, Fail>
    requires { (L.seen link.old).takes ≡ true }
{
    let mut answers = String::new(alloc);
    'turns: for _ in 0..20 {
        let answer = link.next();
        add_answer(alloc, &mut answers, &answer)?;
        match answer {
            Ok(LinkEvent::Ends) => return Ok(answers),
            Ok(_) => {}
            Err(_) => return Ok(answers),
        }
    }
    Err(Fail::new("no end"))
}

/// The answers of a link that plays events, and whose call of a number fails.
pub fn list_seen(alloc: Global, fails: u64, line: &str) -> Result<String, Fail> {
    let line = line.replace(alloc, ".", "\n")?;
    let events = events_of(alloc, line.as_str())?;
    let fails = [fails].to_vec(alloc)?;
    let mut link = MemoryLink::make(alloc, events, fails, Vec::new(alloc));
    answers_of(alloc, &mut link)
}

/// The second answer and the journal of a link that opens connection 0, and is given `x` and `hi` with a line feed.
pub fn gifts_seen(alloc: Global, fails: u64, count: usize) -> Result<String, Fail> {
    let fails = [fails].to_vec(alloc)?;
    let gones = [(3, count)].to_vec(alloc)?;
    let mut link = MemoryLink::make(alloc, events_of(alloc, "o0")?, fails, gones);
    if link.next().is_err() || link.give(0, b"x").is_err() {
        return Err(Fail::new("no first give"));
    }
    let given = link.give(0, b"hi\n");
    Ok(format!(in alloc; "{given:?} {:?}", link.journal())?)
}

/// The answers of a trunk whose source gives these bytes.
pub fn trunk_seen(alloc: Global, most: usize, fails: u64, hex: &str) -> Result<String, Fail> {
    let fails = [fails].to_vec(alloc)?;
    let source = MemorySource::make(bytes_of(alloc, hex)?, fails, most.max(1));
    let sink = MemorySink::make(alloc, Vec::new(alloc), 1);
    answers_of(alloc, &mut TrunkLink::make(alloc, source, sink))
}

/// The answer of a trunk that is given `hi` with a line feed for connection 258, and what its sink has then.
pub fn output_seen(alloc: Global, most: usize, fails: u64) -> Result<String, Fail> {
    let source = MemorySource::make(Vec::new(alloc), Vec::new(alloc), 1);
    let sink = MemorySink::make(alloc, [fails].to_vec(alloc)?, most.max(1));
    let mut link = TrunkLink::make(alloc, source, sink);
    let given = link.give(258, b"hi\n");
    let (_, sink) = link.into_parts();
    Ok(format!(in alloc; "{given:?} {:?}", sink.bytes())?)
}

fn byte_of(pair: &[u8]) -> Result<u8, Fail> {
    let pair = std::str::from_utf8(pair).ok().ok_or("no pair")?;
    Ok(u8::from_str_radix(pair, 16)?)
}

/// The bytes of pairs of hexadecimal digits; none of a dash.
pub fn bytes_of(alloc: Global, hex: &str) -> Result<Vec<u8>, Fail> {
    let mut bytes = Vec::new(alloc);
    if hex == "-" {
        return Ok(bytes);
    }
    for pair in hex.as_bytes().chunks(2) {
        bytes.push(byte_of(pair)?)?;
    }
    Ok(bytes)
}

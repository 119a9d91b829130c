// One happy path per form, and what no clause says: that calls succeed, what std does, and interrupted calls.
use durable_files::{DiskFiles, Through};
use rx_base::{IoFault, LoadFault};
use rx_io::{
    FileCall, Files, MemoryFiles, MemorySink, MemorySource, Sink, Source, StdFiles, StdSink,
    StdSource, TameFiles, TameSink, TameSource,
};
use std::alloc::{Allocator, Global};
use std::io::{BufRead, ErrorKind, Input, Lines, Read};
use std::test::Fail;
use std::{fs, io};

// A reader that is interrupted so often, and then has so many bytes left. It gives up to five at a time, and each is the number of those
// that were left.
#[derive(Clone, Copy)]
struct Fives {
    interrupts: u32,
    left: u8,
}

impl Read for Fives {
    fn read(&mut self, buf: &mut [u8]) -> io::Result<usize> {
        if self.interrupts > 0 {
            self.interrupts -= 1;
            return Err(io::Error::from(ErrorKind::Interrupted));
        }
        let count = self.left.min(5).min(buf.len().min(5) as u8);
        buf[..count as usize].fill(self.left);
        self.left -= count;
        Ok(count as usize)
    }
}

impl BufRead for Fives {
    fn fill_buf(&mut self) -> io::Result<&[u8]> {
        Ok(&[])
    }

    fn consume(&mut self, _amount: usize) {}
}

// A standard input whose readers are all like that.
impl Input for Fives {
    type Reader = Fives;

    fn read_line<A: Allocator + Clone>(&self, _buf: &mut String<A>) -> io::Result<usize> {
        Ok(0)
    }

    fn lines<A: Allocator>(&self, alloc: A) -> Lines<Fives, A> {
        self.reader().lines(alloc)
    }

    fn reader(&self) -> Fives {
        *self
    }
}

// What a source answers to takes with so much room each.
fn takes<S: Source>(alloc: Global, source: &mut S, rooms: &[usize]) -> Result<String, Fail> {
    let mut text = String::new(alloc);
    for room in rooms {
        text.push_str(take(alloc, source, *room)?.as_str())?;
    }
    Ok(text)
}

fn take<S: Source>(alloc: Global, source: &mut S, room: usize) -> Result<String, Fail> {
    let mut buf = [0u8; 4096];
    let (place, _) = buf.split_at_mut(room.max(1).min(4096));
    Ok(match source.take(place) {
        Ok(count) => format!(in alloc; "{:?} ", &place[..count])?,
        Err(fault) => format!(in alloc; "{fault:?} ")?,
    })
}

// What a sink answers to gives of these texts.
fn gives<S: Sink>(alloc: Global, sink: &mut S, texts: &[&str]) -> Result<String, Fail> {
    let mut text = String::new(alloc);
    for bytes in texts {
        if !bytes.is_empty() {
            let answer = sink.give(bytes.as_bytes());
            text.push_str(format!(in alloc; "{answer:?} ")?.as_str())?;
        }
    }
    Ok(text)
}

// How often a reader is interrupted, and how many bytes it has then; how much room there is for each take, and the answers.
static READERS: [(u32, u8, &[usize], &str); 4] = [
    // The other two of the first read come before the second one.
    (0, 7, &[3, 3, 3, 3], "[7, 7, 7] [7, 7] [2, 2] [] "),
    // As long as the buffer itself: straight from the reader.
    (0, 7, &[4096, 4096, 4096], "[7, 7, 7, 7, 7] [2, 2] [] "),
    (3, 1, &[2], "[1] "),
    (u32::MAX, 1, &[2], "Failed "),
];

#[test]
fn standard_streams_answer(rt: HostRuntime) -> Result<(), Fail> {
    let alloc = rt.alloc();
    assert!(rt; takes(alloc, &mut StdSource::make(&rt), &[2])?.as_str() != "Failed ");
    assert!(rt; gives(alloc, &mut StdSink::make(&rt), &["\n"])?.as_str() == "Ok(1) ");
    for (i, row) in READERS.iter().enumerate() {
        let (interrupts, left, rooms, wanted) = *row;
        let input = Fives { interrupts, left };
        let seen = takes(alloc, &mut StdSource::make(&input), rooms)?;
        assert!(rt; seen.as_str() == wanted, "row {i}");
    }
    Ok(())
}

fn tame_takes(alloc: Global) -> Result<String, Fail> {
    let bytes = [7, 8, 9].to_vec(alloc)?;
    takes(alloc, &mut TameSource::make(bytes, 2), &[4])
}

// The second take fails.
fn memory_takes(alloc: Global) -> Result<String, Fail> {
    let bytes = [1, 2, 3].to_vec(alloc)?;
    let fails = [2].to_vec(alloc)?;
    takes(
        alloc,
        &mut MemorySource::make(bytes, fails, 2),
        &[4, 4, 4, 4],
    )
}

#[test]
fn sources_in_memory_take(rt: HostRuntime) -> Result<(), Fail> {
    assert!(rt; tame_takes(rt.alloc())?.as_str() == "[7, 8] ");
    assert!(rt; memory_takes(rt.alloc())?.as_str() == "[1, 2] Failed [3] [] ");
    Ok(())
}

fn tame_gives(alloc: Global) -> Result<bool, Fail> {
    let mut sink = TameSink::make(alloc, 2);
    let seen = gives(alloc, &mut sink, &["abc"])?;
    Ok(seen.as_str() == "Ok(2) " && sink.bytes() == b"ab".as_slice())
}

// The second give fails.
fn memory_gives(alloc: Global) -> Result<bool, Fail> {
    let mut sink = MemorySink::make(alloc, [2].to_vec(alloc)?, 3);
    let seen = gives(alloc, &mut sink, &["abcd", "d", "d"])?;
    Ok(seen.as_str() == "Ok(3) Err(Failed) Ok(1) " && sink.bytes() == b"abcd".as_slice())
}

#[test]
fn sinks_in_memory_give(rt: HostRuntime) -> Result<(), Fail> {
    assert!(rt; tame_gives(rt.alloc())?);
    assert!(rt; memory_gives(rt.alloc())?);
    Ok(())
}

// A call on files: of a load what is told is how many bytes there are, and the last one.
#[derive(Clone, Copy)]
enum Call {
    Start(&'static str),
    Add(&'static str, &'static str),
    Load(&'static str, u64),
}

// What a load answered.
fn loaded_shown(alloc: Global, answer: Result<Vec<u8>, LoadFault>) -> Result<String, Fail> {
    let word = match answer {
        Ok(bytes) => {
            let text = std::str::from_utf8(bytes.as_slice()).ok();
            return Ok(format!(in alloc; "{text:?} ")?);
        }
        Err(LoadFault::Failed) => "no file ",
        Err(LoadFault::TooLarge) => "too large ",
        Err(LoadFault::Memory) => "no memory ",
    };
    Ok(String::from_str(alloc, word)?)
}

// Makes a call, and tells what it answered.
fn make_call<F: Files>(alloc: Global, files: &mut F, call: Call) -> Result<String, Fail> {
    let answer = match call {
        Call::Start(name) => files.start(name),
        Call::Add(name, text) => files.add(name, text.as_bytes()),
        Call::Load(name, limit) => return loaded_shown(alloc, files.load(alloc, name, limit)),
    };
    Ok(format!(in alloc; "{answer:?} ")?)
}

// Makes calls one after the other.
fn called<F: Files>(alloc: Global, files: &mut F, calls: &[Call]) -> Result<String, Fail> {
    let mut text = String::new(alloc);
    for one in calls {
        text.push_str(make_call(alloc, files, *one)?.as_str())?;
    }
    Ok(text)
}

// Calls on any files in which nothing fails but what is missing.
static CALLS: [Call; 9] = [
    Call::Start("rx_io_a"),
    Call::Add("rx_io_a", "abc"),
    Call::Add("rx_io_a", "de"),
    Call::Load("rx_io_a", 4),
    Call::Load("rx_io_a", 5),
    Call::Load("rx_io_no_folder/a", 5),
    Call::Add("rx_io_b", "f"),
    Call::Start("rx_io_a"),
    Call::Load("rx_io_a", 0),
];

const ANSWERS: &str =
    "Ok(()) Ok(()) Ok(()) too large Some(\"abcde\") no file Ok(()) Ok(()) Some(\"\") ";

// A call's file, by its name.
fn told(alloc: Global, calls: &[FileCall]) -> Result<String, Fail> {
    let mut text = String::new(alloc);
    for call in calls {
        let (word, name) = match call {
            FileCall::Loaded(name) => ("loaded", name),
            FileCall::Started(name) => ("started", name),
            FileCall::Added(name) => ("added", name),
        };
        let name = std::str::from_utf8(name.as_slice()).ok();
        text.push_str(format!(in alloc; "{word} {name:?} ")?.as_str())?;
    }
    Ok(text)
}

// The second of these calls, the eleventh in all, fails.
fn holds_files(alloc: Global, files: &mut MemoryFiles) -> Result<bool, Fail> {
    let seen = called(alloc, files, &CALLS)?;
    let more = called(
        alloc,
        files,
        &[Call::Add("rx_io_b", "g"), Call::Start("rx_io_b")],
    )?;
    Ok(seen.as_str() == ANSWERS && more.as_str() == "Ok(()) Err(Failed) ")
}

#[test]
fn memory_holds_files(rt: HostRuntime) -> Result<(), Fail> {
    let alloc = rt.alloc();
    let mut files = MemoryFiles::make(alloc, Vec::new(alloc), [11].to_vec(alloc)?);
    assert!(rt; holds_files(alloc, &mut files)?);
    assert!(rt; files.bytes_of("rx_io_b") == Some(b"fg".as_slice()));
    assert!(rt; files.bytes_of("rx_io_missing").is_none());
    Ok(())
}

static TAME_CALLS: [Call; 5] = [
    Call::Load("b", 0),
    Call::Start("b"),
    Call::Add("a", "z"),
    Call::Load("a", 3),
    Call::Load("b", 3),
];

const TOLD: &str =
    "loaded Some(\"b\") started Some(\"b\") added Some(\"a\") loaded Some(\"a\") loaded Some(\"b\") ";

fn tells_calls(alloc: Global, files: &mut TameFiles) -> Result<bool, Fail> {
    let seen = called(alloc, files, &TAME_CALLS)?;
    let told = told(alloc, files.calls())?;
    Ok(
        seen.as_str() == "Some(\"\") Ok(()) Ok(()) Some(\"xyz\") Some(\"\") "
            && told.as_str() == TOLD,
    )
}

// Tame files of which `a` is there.
fn tame_files(alloc: Global) -> Result<TameFiles, Fail> {
    let name = String::from_str(alloc, "a")?;
    let bytes = b"xy".to_vec(alloc)?;
    let mut held = Vec::new(alloc);
    held.push((name, bytes))?;
    Ok(TameFiles::make(alloc, held))
}

// In tame files a missing name is loaded as an empty file. They tell their calls by name.
#[test]
fn tame_files_tell_their_calls(rt: HostRuntime) -> Result<(), Fail> {
    let mut files = tame_files(rt.alloc())?;
    assert!(rt; tells_calls(rt.alloc(), &mut files)?);
    assert!(rt; files.bytes_of("a") == Some(b"xyz".as_slice()));
    assert!(rt; files.bytes_of("missing").is_none());
    Ok(())
}

// A file of several pieces is loaded whole.
fn loads_whole<F: Files>(alloc: Global, files: &mut F) -> Result<bool, Fail> {
    let bytes = vec![in alloc; 5u8; 10_000]?;
    let added = files.add("rx_io_long", bytes.as_slice());
    let whole = match files.load(alloc, "rx_io_long", 10_000) {
        Ok(bytes) => bytes.len() == 10_000,
        Err(_) => false,
    };
    let short = matches!(
        files.load(alloc, "rx_io_long", 9_999),
        Err(LoadFault::TooLarge)
    );
    Ok(added == Ok(()) && whole && short)
}

#[test]
fn the_system_holds_files(rt: HostRuntime) -> Result<(), Fail> {
    let alloc = rt.alloc();
    let mut files = StdFiles::make(&rt, alloc);
    assert!(rt; called(alloc, &mut files, &CALLS)?.as_str() == ANSWERS);
    fs::remove_file(&rt, "rx_io_a")?;
    fs::remove_file(&rt, "rx_io_b")?;
    let is_whole = loads_whole(alloc, &mut files)?;
    fs::remove_file(&rt, "rx_io_long")?;
    assert!(rt; is_whole);
    Ok(())
}

// Files of which two are written through to the disk are files all the same.
#[test]
fn the_disk_takes_files(rt: HostRuntime) -> Result<(), Fail> {
    let alloc = rt.alloc();
    let through = Through {
        each: "rx_io_a",
        first: "rx_io_b",
    };
    let mut files = DiskFiles::make(&rt, alloc, Some(through));
    assert!(rt; called(alloc, &mut files, &CALLS)?.as_str() == ANSWERS);
    fs::remove_file(&rt, "rx_io_a")?;
    fs::remove_file(&rt, "rx_io_b")?;
    Ok(())
}

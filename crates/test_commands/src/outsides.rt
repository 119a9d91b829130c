// What a command is run over: files, streams and a port, all in memory.
use crate::cells::{bytes_of, cell_of, number_of, put_bytes, text_of};
use ports::{MemoryPort, PortCall, Ready};
use rx_base::Conn;
use rx_io::{MemoryFiles, MemorySink, MemorySource, Source};
use std::alloc::{AllocError, Global};
use std::test::Fail;

// What a command is run over.
#[derive(Drop)]
pub(crate) struct Outside {
    pub(crate) files: MemoryFiles,
    pub(crate) source: MemorySource,
    pub(crate) sink: MemorySink,
    pub(crate) port: MemoryPort,
}

// A file, and the name of the cell with its text.
type FileCell = (&'static str, &'static str);

// A call on a port, and the name of its cell.
type PortRow = (PortCall, &'static str);

// The bytes of a file that a row has before its command.
fn before_in(alloc: Global, before: &str, row: &str) -> Result<Vec<u8>, Fail> {
    let mut bytes = text_of(alloc, before)?.into_bytes();
    bytes.truncate(number_of(row, "kept", bytes.len())?);
    put_bytes(bytes.as_mut_slice(), cell_of(row, "spoilt").unwrap_or(""))?;
    Ok(bytes)
}

// Adds a file with the text of a cell, if it stands there.
fn push_text(
    alloc: Global,
    held: &mut Vec<(String, Vec<u8>)>,
    row: &str,
    cell: FileCell,
) -> Result<(), Fail> {
    if let Some(text) = cell_of(row, cell.1) {
        let bytes = text_of(alloc, text)?.into_bytes();
        held.push((String::from_str(alloc, cell.0)?, bytes))?;
    }
    Ok(())
}

// Files in memory with the file `p`, and with `r`, `t`, `c` and `q` where a row says what they have.
fn files_of(alloc: Global, program: &[u8], row: &str) -> Result<MemoryFiles, Fail> {
    let mut held = Vec::new(alloc);
    held.push((String::from_str(alloc, "p")?, program.to_vec(alloc)?))?;
    if let Some(before) = cell_of(row, "before") {
        for name in ["r", "t"] {
            let bytes = before_in(alloc, before, row)?;
            held.push((String::from_str(alloc, name)?, bytes))?;
        }
    }
    push_text(alloc, &mut held, row, ("c", "counts"))?;
    push_text(alloc, &mut held, row, ("q", "reported"))?;
    let fails = number_of(row, "files", 0)? as u64;
    Ok(MemoryFiles::make(alloc, held, [fails].to_vec(alloc)?))
}

// The source of a row.
fn source_in(alloc: Global, row: &str) -> Result<MemorySource, Fail> {
    let mut input = bytes_of(alloc, cell_of(row, "in").unwrap_or(""))?;
    input.truncate(number_of(row, "cut", input.len())?);
    let fails = number_of(row, "source", 0)? as u64;
    let most = number_of(row, "takes", 10_000)?.max(1);
    Ok(MemorySource::make(input, [fails].to_vec(alloc)?, most))
}

// The sink of a row.
fn sink_in(alloc: Global, row: &str) -> Result<MemorySink, Fail> {
    let fails = number_of(row, "sink", 0)? as u64;
    let most = number_of(row, "gives", 10_000)?.max(1);
    Ok(MemorySink::make(alloc, [fails].to_vec(alloc)?, most))
}

// What each client of a port sends.
fn inputs_of(alloc: Global, clients: &str) -> Result<Vec<Vec<u8>>, AllocError> {
    let mut inputs = Vec::new(alloc);
    for client in clients.split('|') {
        let text = text_of(alloc, client)?;
        inputs.push(text.into_bytes())?;
    }
    Ok(inputs)
}

// Adds which call of a kind fails.
fn push_port_fail(fails: &mut Vec<(PortCall, u64)>, row: &str, call: PortRow) -> Result<(), Fail> {
    let fail = number_of(row, call.1, 0)? as u64;
    fails.push((call.0, fail))?;
    Ok(())
}

// The calls on the port of a row that fail.
fn port_fails_of(alloc: Global, row: &str) -> Result<Vec<(PortCall, u64)>, Fail> {
    let calls: [PortRow; 5] = [
        (PortCall::Bind, "bind"),
        (PortCall::Wait, "wait"),
        (PortCall::Accept, "accept"),
        (PortCall::Take, "take"),
        (PortCall::Give, "give"),
    ];
    let mut fails = Vec::new(alloc);
    for call in calls {
        push_port_fail(&mut fails, row, call)?;
    }
    Ok(fails)
}

// What is ready by a word.
fn ready_of(word: &str) -> Result<Ready, Fail> {
    if word == "client" {
        return Ok(Ready::Accepts);
    }
    if word == "stop" {
        return Ok(Ready::Stops);
    }
    Ok(Ready::Reads(word.parse::<Conn>()?))
}

// What the waits of a row answer.
fn script_of(alloc: Global, row: &str) -> Result<Vec<Ready>, Fail> {
    let mut script = Vec::new(alloc);
    for word in cell_of(row, "ready").unwrap_or("").split_whitespace() {
        script.push(ready_of(word)?)?;
    }
    Ok(script)
}

// The port of a row.
fn port_in(alloc: Global, row: &str) -> Result<MemoryPort, Fail> {
    let inputs = inputs_of(alloc, cell_of(row, "clients").unwrap_or(""))?;
    let script = script_of(alloc, row)?;
    let fails = port_fails_of(alloc, row)?;
    let most = number_of(row, "moves", 10_000)?.max(1);
    Ok(MemoryPort::make(alloc, inputs, script, fails, most))
}

// What a row says of files, streams and port.
pub(crate) fn outside_in(alloc: Global, program: &[u8], row: &str) -> Result<Outside, Fail> {
    Ok(Outside {
        files: files_of(alloc, program, row)?,
        source: source_in(alloc, row)?,
        sink: sink_in(alloc, row)?,
        port: port_in(alloc, row)?,
    })
}

// What a source gives in one call, none where that fails.
pub(crate) fn left_in(alloc: Global, source: &mut MemorySource) -> Result<Vec<u8>, AllocError> {
    let mut buffer = [0u8; 64].to_vec(alloc)?;
    let count = source.take(buffer.as_mut_slice()).unwrap_or(0);
    buffer.truncate(count);
    Ok(buffer)
}

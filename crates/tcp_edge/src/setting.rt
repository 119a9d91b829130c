// How a client's socket is accepted and set.
use rx_io::TRIES;
use std::io::ErrorKind;
use std::net::{OpenListener, OpenStream};
use std::time::Duration;

/// How long a client is waited for: for so many seconds, or at 0 without limit.
pub fn patience_of(seconds: u64) -> Option<Duration> {
    if seconds == 0 {
        None
    } else {
        Some(Duration::from_secs(seconds))
    }
}

/// The next connection, or none where there is none. One that its client gave up before it was accepted is passed over.
pub fn accept_some<L: OpenListener>(listener: &L) -> Option<L::Stream> {
    'tries: for _ in 0..TRIES {
        match listener.accept() {
            Ok((stream, _)) => return Some(stream),
            Err(e) => match e.kind() {
                ErrorKind::Interrupted | ErrorKind::ConnectionAborted => {}
                _ => return None,
            },
        }
    }
    None
}

/// Sets how long a stream waits for its client, and that small replies aren't held back. A stream that can't be set so waits as
/// the system has it.
pub fn set_up<S: OpenStream>(stream: &S, patience: Option<Duration>) {
    let _ = stream.set_nodelay(true);
    let _ = stream.set_read_timeout(patience);
    let _ = stream.set_write_timeout(patience);
}

// The five bytes before a frame's payload, and what is refused by them.
ghost use Rattle.std.specs.Prelude.{◌≡◌, ◌<◌, ◌≤◌, ◌^◌, true, false, None, length};
ghost use Rattle.links.specs.ConnectionTables.{phases_in, is_in_order};
ghost use Rattle.trunk_wire.specs.Frames.{header_bytes};
ghost use Rattle.trunk_wire.specs.Grammar.{is_known, is_extra, is_reopened, is_not_open, header_refusal, event_of};

use links::{ConnectionTable, LinkEvent};
use rx_base::{Bytes, CONNECTIONS, Conn};

/// The kind of a frame by which a connection opens.
pub const OPEN: u8 = 1;

/// The kind of a frame of bytes.
pub const BYTES: u8 = 2;

/// The kind of a frame by which a connection closes.
pub const CLOSE: u8 = 3;

/// The kind of a frame that asks for all output.
pub const SETTLE: u8 = 4;

/// A frame's kind, its connection, and how many bytes of payload it has.
#[derive(Clone, Copy, Drop)]
pub struct Header {
    pub kind: u8,
    pub conn: Conn,
    pub length: u16,
}

/// The header that these bytes are.
pub fn header_from(bytes: [u8; 5]) -> Header
    ensures bytes { header_bytes result ≡ bytes }
    ensures fits { result.conn < 2 ^ 16 }
{
    let [kind, conn_low, conn_high, length_low, length_high] = bytes;
    Header {
        kind,
        conn: Conn::from(conn_low) + 256 * Conn::from(conn_high),
        length: u16::from(length_low) + 256 * u16::from(length_high),
    }
}

/// The bytes of a header.
pub fn bytes_from(header: Header) -> [u8; 5]
    ensures { result ≡ header_bytes header }
{
    [
        header.kind,
        (header.conn % 256) as u8,
        (header.conn / 256 % 256) as u8,
        (header.length % 256) as u8,
        (header.length / 256 % 256) as u8,
    ]
}

fn is_known(header: Header) -> bool
    ensures { result ≡ is_known header }
{
    header.kind >= OPEN && header.kind <= SETTLE
}

fn is_extra(header: Header) -> bool
    ensures { result ≡ is_extra header }
{
    header.kind != BYTES && header.length != 0
}

fn is_reopened(table: &ConnectionTable, header: Header) -> bool
    requires { header.conn < CONNECTIONS }
    ensures { result ≡ is_reopened (phases_in table.now) header }
{
    header.kind == OPEN && !table.is_unopened(header.conn)
}

fn is_not_open(table: &ConnectionTable, header: Header) -> bool
    requires { header.conn < CONNECTIONS }
    ensures { result ≡ is_not_open (phases_in table.now) header }
{
    (header.kind == BYTES || header.kind == CLOSE) && !table.is_open(header.conn)
}

/// The kind by which a header is refused.
pub fn header_refusal(table: &ConnectionTable, header: Header) -> Option<u8>
    ensures { result ≡ header_refusal (phases_in table.now) header }
{
    if !is_known(header) {
        return Some(1);
    }
    if header.conn >= CONNECTIONS {
        return Some(2);
    }
    if is_extra(header) {
        return Some(6);
    }
    if is_reopened(table, header) {
        return Some(3);
    }
    if is_not_open(table, header) {
        return Some(4);
    }
    None
}

/// The event of a frame.
pub fn event_of(header: Header, payload: Bytes) -> LinkEvent
    ensures { result ≡ event_of header payload }
{
    match header.kind {
        OPEN => LinkEvent::Opens(header.conn),
        BYTES => LinkEvent::Piece(header.conn, payload),
        CLOSE => LinkEvent::Closes(header.conn),
        _ => LinkEvent::Settles,
    }
}

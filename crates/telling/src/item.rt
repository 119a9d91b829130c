// The item that a guest took last.
ghost use Rattle.std.specs.Prelude.{◌≡◌};
ghost use Rattle.telling.specs.Items.{taken_last};

use item_log::ItemLog;
use rx_base::Conn;

/// An item: its kind, its connection, its number among the messages of that connection since it opened, and how many bytes it has. The
/// first message has number 1, an open 0, and a close that of the last message before it.
#[derive(Clone, Copy, Debug, PartialEq, Eq)]
pub struct SeenItem {
    pub kind: u8,
    pub conn: Conn,
    pub number: u64,
    pub len: usize,
}

/// The item that was taken last, where so many were taken, if the log has it still.
pub(crate) fn taken_last(items: &ItemLog, point: u64) -> Option<SeenItem>
    ensures { result ≡ taken_last items.now point }
{
    if point == 0 {
        return None;
    }
    let number = point - 1;
    if number < items.first() {
        return None;
    }
    if number >= items.received() {
        return None;
    }
    let item = items.item(number);
    Some(SeenItem {
        kind: item.kind,
        conn: item.conn,
        number: items.number_in_connection(number),
        len: item.bytes.as_slice().len(),
    })
}

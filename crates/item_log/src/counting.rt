// How many messages each connection has had since it opened.
ghost use Rattle.std.specs.Prelude.{◌≡◌, ◌+◌, ◌<◌, ◌^◌, length};
ghost use Rattle.item_log.specs.Counting.{HaveRoom, count_then, counted_one, number_at};

use crate::kinds::{MESSAGE, OPENED};
use rx_base::Item;
use std::collections::VecDeque;

// A connection's count after an item of this kind.
fn count_then(kind: u8, count: u64) -> u64
    requires { count + 1 < 2 ^ 64 }
    ensures { result ≡ count_then kind count }
{
    match kind {
        OPENED => 0,
        MESSAGE => count + 1,
        _ => count,
    }
}

/// Counts an item.
pub fn count_one(counts: &mut [u64], item: &Item)
    requires { HaveRoom 1 counts.old }
    ensures { counts.new ≡ counted_one counts.old item.now }
{
    let conn = item.conn as usize;
    if conn < counts.len() {
        counts[conn] = count_then(item.kind, counts[conn]);
    }
}

/// The number of the item at a place among the messages of its connection: how many that had since it opened, with this item. These
/// are the counts before the first item.
pub fn number_at(counts: &[u64], items: &VecDeque<Item>, place: usize) -> u64
    requires there { place < length items.now.items }
    requires room { HaveRoom (place + 1) counts.now }
    ensures { result ≡ number_at counts.now items.now.items place }
{
    let conn = items[place].conn;
    if conn as usize >= counts.len() {
        return 0;
    }
    let mut count = counts[conn as usize];
    'each: for i in 0..place + 1 {
        let item = &items[i];
        if item.conn != conn {
            continue 'each;
        }
        count = count_then(item.kind, count);
    }
    count
}

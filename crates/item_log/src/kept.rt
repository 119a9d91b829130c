// Items in a queue.
ghost use Rattle.std.specs.Prelude.{◌≡◌, ◌+◌, ◌≤◌, ◌∷◌, [], ◌++◌, map, drop, length, take, OnOk, OnErr};
ghost use Rattle.std.specs.VecDeque.{deque_len, deque_capacity};
ghost use Rattle.item_log.specs.Counting.{counted, HaveRoom};
ghost use Rattle.item_log.specs.Heard.{bare_item, message_item};

use crate::counting::count_one;
use crate::kinds::MESSAGE;
use rx_base::{Bytes, Conn, Item};
use std::alloc::{AllocError, Global};
use std::collections::VecDeque;

/// Puts an item without bytes at the end.
pub fn push_bare(
    alloc: Global,
    items: &mut VecDeque<Item>,
    kind: u8,
    conn: Conn,
) -> Result<(), AllocError>
    ensures ok { OnOk result (items.new.items ≡ items.old.items ++ bare_item kind conn ∷ []) }
    ensures err { OnErr result (items.new.items ≡ items.old.items) }
{
    let item = Item {
        kind,
        conn,
        bytes: Bytes::from_vec(Vec::new(alloc)),
    };
    items.push_back(item)?;
    Ok(())
}

/// Puts a message of a connection at the end.
pub fn push_message(
    alloc: Global,
    items: &mut VecDeque<Item>,
    conn: Conn,
    message: &[u8],
) -> Result<(), AllocError>
    ensures ok { OnOk result (items.new.items ≡ items.old.items ++ message_item conn message.now ∷ []) }
    ensures err { OnErr result (items.new.items ≡ items.old.items) }
{
    let bytes = Bytes::from_vec(message.to_vec(alloc)?);
    items.push_back(Item {
        kind: MESSAGE,
        conn,
        bytes,
    })?;
    Ok(())
}

/// Puts messages of a connection at the end, where room was made for them.
pub fn push_messages(items: &mut VecDeque<Item>, conn: Conn, messages: Vec<Bytes>)
    requires { deque_len items.old + length messages.items ≤ deque_capacity items.old }
    ensures { items.new.items ≡ items.old.items ++ map (message_item conn) messages.items }
{
    for bytes in messages {
        items.push_back_reserved(Item {
            kind: MESSAGE,
            conn,
            bytes,
        });
    }
}

/// Gives so many of the first items up, and counts them.
pub fn drop_front(items: &mut VecDeque<Item>, counts: &mut [u64], count: usize)
    requires within { count ≤ length items.old.items }
    requires room { HaveRoom count counts.old }
    ensures items { items.new.items ≡ drop count items.old.items }
    ensures counts { counts.new ≡ counted counts.old (take count items.old.items) }
{
    for _i in 0..count {
        let Some(item) = items.pop_front() else {
            return;
        };
        count_one(counts, &item);
    }
}

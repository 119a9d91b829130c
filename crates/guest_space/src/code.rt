// The table of a guest's code.
ghost use Rattle.std.specs.Prelude.{◌≡◌, ◌≤◌, ◌+◌, ◌-◌, ◌*◌, ◌^◌, ◌%◌, length, take, drop, replicate, None, IfOk};
ghost use Rattle.cow_pages.specs.declared.frame_copy.TheConstants.{PAGE};
ghost use Rattle.code_table.specs.Tables.{IsTableOf};
ghost use Rattle.guest_space.specs.Code.{HasCode};
ghost use Rattle.guest_space.specs.Filling.{IsFilled};

use crate::span::Span;
use code_table::CodeTable;
use cow_pages::PageStore;
use std::alloc::{AllocError, Global};

/// The table of the whole words of the first span that may be executed and not written, and that begins at a multiple of 4. Where there is none, that of no word.
pub fn code_of(
    alloc: Global,
    base: u32,
    spans: &[Span],
    store: &PageStore,
) -> Result<CodeTable, AllocError>
    requires { IsFilled base spans.now store.now }
    ensures { IfOk result (HasCode base spans.now store.now) }
{
    for span in spans {
        if span.is_code() {
            let start = span.start();
            return table_at(alloc, store, start, start - base, span.words_len());
        }
    }
    CodeTable::none(alloc)
}

// The table of the words that stand in a store from a place on.
fn table_at(
    alloc: Global,
    store: &PageStore,
    start: u32,
    place: u32,
    len: u32,
) -> Result<CodeTable, AllocError>
    requires start_is_whole { start % 4 ≡ 0 }
    requires whole { len % 4 ≡ 0 }
    requires below { start + len ≤ 2 ^ 32 }
    requires inside { place + len ≤ PAGE * store.now.pages }
    ensures { IfOk result (IsTableOf start (take len (drop place store.now.live.bytes))) }
{
    let mut bytes = vec![in alloc; 0; len as usize]?;
    store.read_run(place, bytes.as_mut_slice());
    CodeTable::make(alloc, start, bytes.as_slice())
}

// The slots of a store.
ghost use Rattle.std.specs.Prelude.{IfOk};
ghost use Rattle.cow_pages.specs.Pool.{AreBlank};

use std::alloc::{AllocError, Global};

// A table of frames, and whether it is in use. Pages that moved before this number did so before it was saved.
#[derive(Debug, Drop)]
pub struct Slot {
    pub saved: bool,
    pub seen: u64,
    pub table: Vec<u32>,
}

// So many slots in which nothing is saved, with room for so many pages each.
pub fn blank_slots(alloc: Global, count: u32, pages: u32) -> Result<Vec<Slot>, AllocError>
    ensures { IfOk result (λ slots. AreBlank count pages slots.items) }
{
    let mut slots = Vec::with_capacity(alloc, count as usize)?;
    'slots: for _ in 0..count {
        slots.push(Slot {
            saved: false,
            seen: 0,
            table: vec![in alloc; 0; pages as usize]?,
        })?;
    }
    Ok(slots)
}

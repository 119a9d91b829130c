// A guest at the start of its program.
ghost use Rattle.std.specs.Prelude.{◌≡◌, ◌*◌, ◌/◌, ◌≤◌, length, All, IfOk};
ghost use Rattle.guest_cpu.specs.Cpus.{IsStartCore, IsFreshCpu};

use crate::guest_core::Core;
use crate::{Cpu, Marks};
use block_book::Book;
use call_gate::ConnSet;
use ckpt_ring::Ring;
use cow_pages::{MAX_FRAMES_PER_PAGE, MAX_SLOTS, PAGE};
use guest_image::Image;
use guest_space::{AccessRule, GuestSpace, Windows};
use run_history::Regs;
use std::alloc::{AllocError, Global};

impl<R: AccessRule + Drop> Cpu<R> {
    /// A guest at the start of a program, of which 1 to `MAX_SLOTS` checkpoints can stand, and 2 to `MAX_FRAMES_PER_PAGE` frames for
    /// each page of its window. Memory for all of them is taken here.
    pub fn make(
        alloc: Global,
        image: &Image,
        slots: u32,
        frames: u32,
        rule: R,
    ) -> Result<Cpu<R>, AllocError>
        requires numbered { (1 ≤ slots) × (slots ≤ MAX_SLOTS) }
        requires enough { (2 * (image.now.window / PAGE) ≤ frames) × (frames ≤ MAX_FRAMES_PER_PAGE * (image.now.window / PAGE)) }
        ensures { IfOk result (λ cpu. IsFreshCpu image.now slots frames rule cpu) }
    {
        Ok(Cpu {
            rule,
            core: Core::at_start(alloc, image)?,
            space: GuestSpace::make(alloc, image, slots, frames)?,
            saved: cores(alloc, image, slots)?,
            ring: Ring::make(alloc)?,
            windows: Windows::none(),
        })
    }
}

// Room for so many cores.
fn cores(alloc: Global, image: &Image, count: u32) -> Result<Vec<Core>, AllocError>
    ensures many { IfOk result (λ cores. length cores.items ≡ count) }
    ensures each { IfOk result (λ cores. All (IsStartCore image.now) cores.items) }
{
    let mut cores = Vec::with_capacity(alloc, count as usize)?;
    for _ in 0..count {
        cores.push(Core::at_start(alloc, image)?)?;
    }
    Ok(cores)
}

impl Core {
    // What a guest has beside its memory at the start of a program.
    #[tactic(auto, unfolding(run_history::specs::Machine::start_machine))]
    fn at_start(alloc: Global, image: &Image) -> Result<Core, AllocError>
        ensures { IfOk result (IsStartCore image.now) }
    {
        let mut x = [0; 32];
        x[2] = image.stack_top();
        Ok(Core {
            regs: Regs { pc: image.entry, x },
            book: Book::make(alloc, image.heap_start(), image.heap_end())?,
            connections: ConnSet::make(alloc)?,
            marks: Marks {
                taken: 0,
                since: 0,
                steps: 0,
                choices: 0,
                sends: 0,
            },
            ended: None,
        })
    }
}

// Replays over a link in memory.
ghost use Rattle.std.specs.Prelude.{◌≡◌, ◌*◌, ◌<◌, ◌^◌};
ghost use Rattle.links.specs.MemoryLinks.{seen_in};
ghost use Rattle.session_history.specs.Answering.{MayBegin};

use block_book::Ask;
use guest_image::Image;
use links::MemoryLink;
use msg_frame::Framing;
use replay::{AnyGiver, Difference, Filled, fill_by};
use run_history::Answer;
use rv_asm::assemble;
use rx_base::Steps;
use schedule_file::{Line, Lines, Recorded};
use std::alloc::Global;
use std::marker::Brand;
use std::process::Abort;
use std::sync::ledger::{Blank, Ledger};
use std::test::Fail;
use test_rows::{line_of, link_of};

// The bytes of each program's window.
const WINDOW: u32 = 1 << 20;

// What is played: the events, the numbers of the link's calls that fail, and of its gives that find their connection gone after so
// many bytes.
#[derive(Clone, Copy)]
pub struct Played<'a> {
    pub events: &'a str,
    pub fails: &'a [u64],
    pub gones: &'a [(u64, usize)],
}

// What a record says of its run: each answer of the allocator, what was asked, how many bytes it carries, and how many instructions and items.
// With no ask it is of version 1.
#[derive(Clone, Copy)]
pub struct Told<'a> {
    pub choices: &'a [(u32, bool)],
    pub asks: &'a [Ask],
    pub carried: &'a [u32],
    pub steps: u64,
    pub taken: u64,
}

// The image of a program's text.
pub fn assembled(alloc: Global, text: &str) -> Result<Image, Fail> {
    Ok(assemble(alloc, text.as_bytes(), WINDOW)?)
}

// A record of lines, in a window of 1 MiB.
fn recorded_of(alloc: Global, told: &Told<'_>) -> Result<Recorded, Fail> {
    let mut lines = Vec::new(alloc);
    for (number, (at, zeroed)) in told.choices.iter().enumerate() {
        lines.push(Line {
            ask: told.asks.get(number).copied(),
            at: *at,
            zeroed: *zeroed,
            carried: told.carried.get(number).copied().unwrap_or(0),
        })?;
    }
    Ok(Recorded {
        version: if told.asks.is_empty() { 1 } else { 2 },
        window: 1,
        frame: Framing::Line,
        lines: Lines::from_vec(lines),
        steps: told.steps,
        taken: told.taken,
    })
}

// Replays with a counter of its own. It is generic over its ledger, and is handed the blank of which the counter is made.
fn replay_counted<L: Ledger>(
    alloc: Global,
    image: &Image,
    recorded: &Recorded,
    link: &mut MemoryLink,
    blank: Blank,
) -> Filled
    requires name { blank.name ≡ L.name }
    requires parts { blank.parts ≡ L.parts }
    requires some { 0 < blank.parts }
    requires window { image.now.window ≡ recorded.now.window * 1048576 }
    requires short { recorded.now.steps < 2 ^ 63 }
    requires may { MayBegin (seen_in link.old) }
{
    let mut steps = Steps::<L>::start(blank);
    fill_by(alloc, image, recorded, &AnyGiver, link, &mut steps)
}

// Replays a record over a link with a counter of its own.
fn replay_told(
    rt: &impl Abort,
    alloc: Global,
    image: &Image,
    told: &Told<'_>,
    link: &mut MemoryLink,
) -> Result<Filled, Fail>
    requires may { MayBegin (seen_in link.old) }
{
    let recorded = recorded_of(alloc, told)?;
    let steps = recorded.steps;
    assert!(rt; image.window == recorded.window.wrapping_mul(1 << 20));
    assert!(rt; recorded.window == 1);
    assert!(rt; steps < 1 << 63);
    Ok(replay_counted::<Brand>(alloc, image, &recorded, link, Blank::new(1)))
}

// Replays, and compares the answer and the journal. What differs is there exactly at Mismatch.
pub fn expect_replay(
    rt: &impl Abort,
    alloc: Global,
    image: &Image,
    played: &Played<'_>,
    told: &Told<'_>,
    answer: Answer,
    journal: &str,
) -> Result<(), Fail> {
    let steps = told.steps;
    let mut link = link_of(alloc, played.events, played.fails, played.gones)?;
    let found = replay_told(rt, alloc, image, told, &mut link)?;
    let line = line_of(alloc, link.journal())?;
    let differs = matches!(answer, Answer::Mismatch { .. });
    assert_eq!(rt; line.as_slice(), journal.as_bytes(), "at {steps}");
    assert_eq!(rt; found.answer, answer, "at {steps}");
    assert_eq!(rt; found.difference.is_some(), differs, "at {steps}");
    Ok(())
}

// Replays, and compares what differs.
pub fn expect_difference(
    rt: &impl Abort,
    alloc: Global,
    image: &Image,
    played: &Played<'_>,
    told: &Told<'_>,
    difference: Difference,
) -> Result<(), Fail> {
    let steps = told.steps;
    let mut link = link_of(alloc, played.events, played.fails, played.gones)?;
    let found = replay_told(rt, alloc, image, told, &mut link)?;
    assert_eq!(rt; found.difference, Some(difference), "at {steps}");
    Ok(())
}

// A drill: its program, its session, and its five lines.
ghost use Rattle.std.specs.Prelude.{◌≡◌, ◌+◌, ◌-◌, ◌≤◌, ℕ, List, true, false, IfOk, IfErr, IfSome};
ghost use Rattle.std.specs.List.{list_any};
ghost use Rattle.guest_image.specs.declared.image.Image.{Image};
ghost use Rattle.example_guests.specs.Guests.{keys_text};
ghost use Rattle.run_history.specs.declared.answer.Answer.TheVariants as answer;
ghost use Rattle.rv_asm.specs.Assembling.{IsAssembled, IsReason};
ghost use Rattle.rx_base.specs.Faults.{Rose};
ghost use Rattle.session_state.specs.Serving.{IsReadyToServe};
ghost use Rattle.session_state.specs.Sessions.{IsBegun};
ghost use Rattle.drill.specs.Generator.{drill_events, is_end};
ghost use Rattle.drill.specs.Links.{are_in_order, none_opened};
ghost use Rattle.drill.specs.Settings.{settings};
ghost use Rattle.drill.specs.Drilling.{SumsUp, DrillEnds};

use crate::drill_link::DrillLink;
use crate::episode_notes::EpisodeNotes;
use crate::generating::drill_events;
use crate::passing::passed_bytes;
use crate::settings::{WINDOW, settings};
use crate::summary::{Summary, end_status, summary_text, write_all};
use example_guests::keys_source;
use guest_image::Image;
use guest_space::AllMapped;
use links::LinkEvent;
use run_history::Answer;
use rv_asm::{AsmRefusal, assemble};
use rx_base::{IoFault, Steps};
use rx_engine::Session;
use rx_io::Sink;
use std::alloc::Global;
use std::sync::ledger::Ledger;

// The image of guest keys.
fn program(alloc: Global) -> Result<Image, AsmRefusal>
    ensures image { IfOk result (IsAssembled keys_text settings.window) }
    ensures refused { IfErr result (IsReason keys_text settings.window) }
{
    assemble(alloc, keys_source().as_bytes(), WINDOW)
}

// Serves these events with a session that was begun, and sums up how it ended; None where it was broken off, for want of memory.
fn serve_events<L: Ledger>(
    alloc: Global,
    session: &mut Session<AllMapped>,
    events: Vec<LinkEvent>,
    steps: &mut Steps<L>,
) -> Option<Summary>
    requires begun { IsReadyToServe session.old }
    requires settings { session.old.options ≡ settings }
    requires no_end { list_any is_end events.items ≡ false }
    requires ordered { are_in_order none_opened events.items ≡ true }
    ensures sums_up { IfSome result (λ summary. (image : Image) → IsBegun image session.old.options session.old.cpu.rule session.old → SumsUp events.items image (steps.new - steps.old) summary) }
    ensures later { steps.old ≤ steps.new }
{
    let mut link = DrillLink::make(alloc, events);
    let mut notes = EpisodeNotes::make(alloc);
    let end = session.serve(&mut link, &mut notes, steps);
    let status = end_status(end)?;
    Some(Summary {
        items: session.taken(),
        episodes: notes.count() as u64,
        bytes: passed_bytes(link.journal()),
        status,
    })
}

// Serves the events of a drill with a session of a program, and sums up how it ended; None where memory ran out.
fn serve_drill<L: Ledger>(
    alloc: Global,
    seed: u32,
    count: u32,
    image: &Image,
    steps: &mut Steps<L>,
) -> Option<Summary>
    requires { image.now.window ≡ settings.window }
    ensures sums_up { IfSome result (SumsUp (drill_events seed count) image.now (steps.new - steps.old)) }
    ensures later { steps.old ≤ steps.new }
{
    let Ok(events) = drill_events(alloc, seed, count) else {
        return None;
    };
    let options = settings();
    let Ok(mut session) = Session::begin(alloc, image, &options, AllMapped) else {
        return None;
    };
    serve_events(alloc, &mut session, events, steps)
}

/// Serves a generated session in memory and writes five lines about it to a sink: `drill SEED COUNT`, `items T`, `episodes E`, `bytes B` and
/// `status S`. The program is guest keys, in a window of 4 MiB and with every option at its default. Four clients connect, send `count` lines
/// that a generator draws from `seed`, and close. The answer is Finished whatever end the session came to; `status S` tells that one.
/// Nothing is written before that end. A session that memory ran out for has none: the answer is Memory then, and nothing is written.
pub fn run_drill<K: Sink, L: Ledger>(
    alloc: Global,
    seed: u32,
    count: u32,
    output: &mut K,
    steps: &mut Steps<L>,
) -> Answer
    ensures ends { DrillEnds seed count (steps.new - steps.old) (K.told output.old) (K.told output.new) result }
    ensures write_fault { result ≡ answer.WriteFault → Rose (K.faults output.old) (K.faults output.new) }
    ensures later { (K.faults output.old ≤ K.faults output.new) × (steps.old ≤ steps.new) }
    ensures fixed { K.fixed output.new ≡ K.fixed output.old }
{
    let image = match program(alloc) {
        Ok(image) => image,
        Err(AsmRefusal::Refused { kind, line }) => return Answer::AsmRefused { kind, line },
        Err(AsmRefusal::Memory) => return Answer::Memory,
    };
    let Some(summary) = serve_drill(alloc, seed, count, &image, steps) else {
        return Answer::Memory;
    };
    let Ok(text) = summary_text(alloc, seed, count, &summary) else {
        return Answer::Memory;
    };
    match write_all(output, text.as_slice()) {
        Ok(()) => Answer::Finished,
        Err(IoFault::Failed) => Answer::WriteFault,
        Err(IoFault::Memory) => Answer::Memory,
    }
}

// Plays a row: a session over a link in memory with notes in memory, both of which may run out of memory.
ghost use Rattle.std.specs.Prelude.{◌≡◌, ◌<◌, IfOk};
ghost use Rattle.links.specs.MemoryLinks.{seen_in};
ghost use Rattle.links.specs.Seen.{IsFreshLink};
ghost use Rattle.session_state.specs.Options.{AreInRange};
ghost use Rattle.session_history.specs.Answering.{MayBegin};
ghost use Rattle.session_state.specs.Serving.{IsReadyToServe};
ghost use Rattle.test_rows.specs.ShortLinks.{IsFreshShort};

use crate::failure_count::FailureCount;
use crate::link_of;
use crate::programs::image_of;
use crate::rows::{Row, calls_of, large_number_of, number_of, options_of, value_of};
use crate::short_link::ShortLink;
use crate::short_notes::ShortNotes;
use crate::showing::{shown, text_of};
use guest_image::Image;
use guest_space::AllMapped;
use links::{Link, MemoryLink};
use recovery::Watch;
use run_history::Answer;
use rx_base::Steps;
use rx_engine::{Options, Session};
use session_notes::{NoteList, Notes};
use std::alloc::Global;
use std::marker::Brand;
use std::sync::ledger::{Blank, Ledger};
use std::test::Fail;

// Each number is in its range.
fn expect_in_range(options: &Options) -> Result<(), Fail>
    ensures { IfOk result (λ _. AreInRange options.now) }
{
    if options.hold > 1000 {
        return Err(Fail::new("hold"));
    }
    if options.ring < 1 || options.ring > 16 {
        return Err(Fail::new("ring"));
    }
    if options.every < 1 || options.every > 64 {
        return Err(Fail::new("every"));
    }
    if options.frames < 2 || options.frames > 16 {
        return Err(Fail::new("frames"));
    }
    if options.budget < 1 || options.budget > 68_719_476_736 {
        return Err(Fail::new("budget"));
    }
    if options.keep < 1 {
        return Err(Fail::new("keep"));
    }
    if options.max_items < 1 || options.max_items > 1_048_576 {
        return Err(Fail::new("max_items"));
    }
    if options.max_events < 1 || options.max_events > 4_294_967_296 {
        return Err(Fail::new("max_events"));
    }
    Ok(())
}

// A session of a row's program at its start.
fn begin(alloc: Global, image: &Image, row: &Row<'_>) -> Result<Session<AllMapped>, Fail>
    ensures { IfOk result (λ session. IsReadyToServe session) }
{
    let options = options_of(row.given)?;
    expect_in_range(&options)?;
    if options.window != image.window {
        return Err(Fail::new("another window"));
    }
    Ok(Session::begin(alloc, image, &options, AllMapped)?)
}

// The link of a row, without its want of memory. Its events are a word.
fn whole_link(alloc: Global, row: &Row<'_>) -> Result<MemoryLink, Fail>
    ensures { IfOk result (λ link. IsFreshLink (seen_in link)) }
{
    let events = text_of(alloc, row.events)?;
    let fails = calls_of(alloc, row.given, "fail")?;
    let mut gones = Vec::new(alloc);
    if value_of(row.given, "gone").is_some() {
        let call = large_number_of(row.given, "gone", 0)?;
        gones.push((call, number_of(row.given, "after", 0)?))?;
    }
    link_of(alloc, events.as_str(), fails.as_slice(), gones.as_slice())
}

// The link of a row.
fn link_played(alloc: Global, row: &Row<'_>) -> Result<ShortLink<MemoryLink>, Fail>
    ensures { IfOk result (λ short. IsFreshShort short) }
{
    let calls_left = large_number_of(row.given, "memory", u64::MAX)?;
    Ok(ShortLink {
        link: whole_link(alloc, row)?,
        calls_left,
        takes: true,
        gives: true,
    })
}

// The notes of a row.
fn notes_played(alloc: Global, row: &Row<'_>) -> Result<ShortNotes<NoteList>, Fail> {
    let calls_left = large_number_of(row.given, "note_memory", u64::MAX)?;
    Ok(ShortNotes {
        notes: NoteList::make(alloc, calls_of(alloc, row.given, "note_fail")?),
        calls_left,
    })
}

// Serves a link with a counter of its own. It is generic over its ledger, and is handed the blank of which the counter is made.
fn serve_counted<K: Link, N: Notes, W: Watch, L: Ledger>(
    session: &mut Session<AllMapped>,
    link: &mut K,
    notes: &mut N,
    watch: &mut W,
    blank: Blank,
) -> Answer
    requires name { blank.name ≡ L.name }
    requires parts { blank.parts ≡ L.parts }
    requires some { 0 < blank.parts }
    requires begun { IsReadyToServe session.old }
    requires may { MayBegin (K.seen link.old) }
{
    let mut steps = Steps::<L>::start(blank);
    session.serve_watched(link, notes, watch, &mut steps)
}

// Serves the link of a row.
fn serve_row(
    session: &mut Session<AllMapped>,
    link: &mut ShortLink<MemoryLink>,
    notes: &mut ShortNotes<NoteList>,
    watch: &mut FailureCount,
) -> Answer
    requires begun { IsReadyToServe session.old }
    requires fresh { IsFreshShort link.old }
{
    serve_counted::<ShortLink<MemoryLink>, ShortNotes<NoteList>, FailureCount, Brand>(
        session,
        link,
        notes,
        watch,
        Blank::new(1),
    )
}

// Plays a session to its end, and tells how it ended, as words.
fn play(
    alloc: Global,
    mut session: Session<AllMapped>,
    mut link: ShortLink<MemoryLink>,
    mut notes: ShortNotes<NoteList>,
) -> Result<String, Fail>
    requires begun { IsReadyToServe session }
    requires fresh { IsFreshShort link }
{
    let mut watch = FailureCount { failures: 0 };
    let answer = serve_row(&mut session, &mut link, &mut notes, &mut watch);
    let left = session.into_end();
    shown(
        alloc,
        answer,
        link.link.journal(),
        &left,
        &notes.notes,
        watch.failures,
    )
}

// How the session of a row ends, as words.
pub(crate) fn played(alloc: Global, row: &Row<'_>) -> Result<String, Fail> {
    let image = image_of(alloc, row.program)?;
    let link = link_played(alloc, row)?;
    let notes = notes_played(alloc, row)?;
    let session = begin(alloc, &image, row)?;
    play(alloc, session, link, notes)
}

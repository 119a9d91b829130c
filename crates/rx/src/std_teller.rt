// Standard error: each recovery as it happens, what a diagnosis says of it, and how a session ended.
use crate::readings::meaning;
use command_line::{CommandName, Tell, asked_tell, name_of};
use rx_serve::End;
use session_notes::Episode;
use std::alloc::AllocError;
use std::cell::Cell;
use std::io::IsTerminal;
use std::time::{Duration, Instant, SystemTime};
use telling::{
    Counts, Helps, Sighting, Teller, end_line, fault_of, is_recovered, recovery_line,
    sighting_lines,
};

/// Tells of recoveries on standard error, and of what a diagnosis says of each failure. What was seen at a failure is kept until it is known
/// what was tried.
#[derive(Drop)]
pub struct StdTeller<'a> {
    rt: &'a HostRuntime,
    tells: bool,
    diagnoses: bool,
    seen: Cell<Option<Sighting>>,
    helps: Cell<Option<Helps>>,
    began: Cell<Option<Instant>>,
    recovered: Cell<u64>,
    given_up: Cell<u64>,
}

// Whether words ask for a diagnosis.
fn is_diagnosis(words: &[String]) -> bool {
    let [word, ..] = words else {
        return false;
    };
    matches!(name_of(word.as_str()), Some(CommandName::Diagnose))
}

// Whether words ask that recoveries are told. `auto` is so for `diagnose`, and elsewhere where standard error is a terminal.
fn is_asked(rt: &HostRuntime, words: &[String]) -> bool {
    let [word, ..] = words else {
        return false;
    };
    match (name_of(word.as_str()), asked_tell(words)) {
        (Some(CommandName::Diagnose), Tell::Auto) => true,
        (Some(CommandName::Run | CommandName::Serve | CommandName::Resume), Tell::Auto) => {
            rt.stderr().is_terminal()
        }
        (_, told) => told == Tell::On,
    }
}

// A duration in microseconds.
fn micros_of(duration: Duration) -> u64 {
    duration
        .as_secs()
        .saturating_mul(1_000_000)
        .saturating_add(u64::from(duration.subsec_micros()))
}

// How many seconds of this day have gone by, in UTC, if the clock can be read.
fn second_of_day(rt: &HostRuntime) -> Option<u32> {
    let now = SystemTime::now(rt).ok()?;
    let since = now.duration_since(SystemTime::UNIX_EPOCH).ok()?;
    Some((since.as_secs() % 86_400) as u32)
}

// Adds one to a count.
fn count_one(count: &Cell<u64>) {
    count.set(count.get().saturating_add(1));
}

impl<'a> StdTeller<'a> {
    /// It tells where the words ask for it.
    pub fn make(rt: &'a HostRuntime, words: &[String]) -> StdTeller<'a> {
        StdTeller {
            rt,
            tells: is_asked(rt, words),
            diagnoses: is_diagnosis(words),
            seen: Cell::new(None),
            helps: Cell::new(None),
            began: Cell::new(None),
            recovered: Cell::new(0),
            given_up: Cell::new(0),
        }
    }

    // How many microseconds have gone by since the failure, if the clock can be read.
    fn taken(&self) -> Option<u64> {
        let began = self.began.get()?;
        let duration = began.elapsed(self.rt).ok()?;
        Some(micros_of(duration))
    }

    // The lines of a recovery.
    fn lines(&self, episode: &Episode) -> Result<String, AllocError> {
        let alloc = self.rt.alloc();
        let micros = self.taken();
        let seen = self.seen.get();
        let mut text = recovery_line(
            alloc,
            second_of_day(self.rt),
            micros,
            seen.as_ref(),
            episode,
        )?;
        if let Some(seen) = &seen {
            let more = sighting_lines(alloc, episode.cause, seen)?;
            text.push_str(more.as_str())?;
        }
        Ok(text)
    }

    // Tells what was tried after a failure.
    fn tell_recovery(&self, episode: &Episode) {
        if let Ok(text) = self.lines(episode) {
            let _ = eprint!(self.rt; "{text}");
        }
    }

    // Tells what is most likely wrong at the failure of a number.
    fn tell_meaning(&self, number: u64, episode: &Episode) {
        let Some(seen) = self.seen.get() else {
            return;
        };
        let helps = self.helps.get();
        let meaning = meaning(fault_of(episode.cause, &seen, helps), helps);
        let pc = episode.pc;
        let _ = eprintln!(self.rt; "rx: failure {number} at {pc:08x}: {meaning}");
    }

    /// Tells how a session ended, if there was one.
    pub fn tell_end(&self, end: &End) {
        if !self.tells || end.steps == 0 {
            return;
        }
        let counts = Counts {
            recovered: self.recovered.get(),
            given_up: self.given_up.get(),
        };
        let line = end_line(
            self.rt.alloc(),
            second_of_day(self.rt),
            end.status,
            end.taken,
            &counts,
        );
        if let Ok(line) = line {
            let _ = eprint!(self.rt; "{line}");
        }
    }
}

impl Teller for StdTeller<'_> {
    fn wants(&self) -> bool {
        self.tells || self.diagnoses
    }

    fn failed(&self, seen: &Sighting) {
        self.seen.set(Some(*seen));
        self.began.set(Instant::now(self.rt).ok());
    }

    fn tried(&self, helps: Option<Helps>) {
        self.helps.set(helps);
    }

    fn noted(&self, episode: &Episode) {
        let number = self.recovered.get().saturating_add(self.given_up.get());
        if is_recovered(episode) {
            count_one(&self.recovered);
        } else {
            count_one(&self.given_up);
        }
        if self.tells {
            self.tell_recovery(episode);
        }
        if self.diagnoses {
            self.tell_meaning(number, episode);
        }
    }
}

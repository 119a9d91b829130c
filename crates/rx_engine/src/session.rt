// A session of a program over a link.
ghost use Rattle.std.specs.Prelude.{◌≡◌, IfOk};
ghost use Rattle.session_state.specs.Options.{AreInRange};
ghost use Rattle.session_state.specs.Sessions.{IsBegun, env_of};

use crate::Left;
use alloc_env::Env;
use block_book::{Choice, Choices};
use guest_image::Image;
use guest_space::AccessRule;
use recovery::{Recoverable, Room};
use session_state::{Nothing, Options, Past};
use std::alloc::{AllocError, Global};
use std::marker::Model;

/// A session of a program over a link.
#[derive(Drop)]
pub struct Session<R: AccessRule> {
    pub(crate) options: Options,
    pub(crate) held: Recoverable<R>,
    pub(crate) events: u64,
    pub(crate) taken: u64,
    pub(crate) steps: u64,
    pub(crate) env: Env,
    pub(crate) until: u64,
    pub(crate) past: Past,
    pub(crate) hold: u32,
}

impl<R: AccessRule> Model for Session<R> {
    ghost use Rattle.session_state.specs.Options.{AreInRange};
    ghost use Rattle.session_state.specs.Sessions.{SessionState};

    ghost Value = { SessionState R };

    ghost view = { λ s. record { options = s.options; cpu = s.held.cpu; log = s.held.log; replies = s.held.replies; events = s.events; recorded = s.held.recorded; choices = s.held.choices.items; taken = s.taken; steps = s.steps; env = s.env; until = s.until; before = s.past.before; hold = s.hold } };

    ghost invariant = { λ s. AreInRange s.options };
}

impl<R: AccessRule + Drop> Session<R> {
    /// A session at the start of a program. Memory for the program's pages, its checkpoints and their blocks is taken here.
    pub fn begin(
        alloc: Global,
        image: &Image,
        options: &Options,
        rule: R,
    ) -> Result<Session<R>, AllocError>
        requires in_range { AreInRange options.now }
        requires window { options.now.window ≡ image.now.window }
        ensures { IfOk result (IsBegun image.now options.now rule) }
    {
        let room = Room {
            ring: options.ring,
            frames: options.frames,
            framing: options.frame,
            max_items: options.max_items,
        };
        let held = Recoverable::make(alloc, image, room, rule)?;
        Ok(Session {
            options: *options,
            held,
            events: 0,
            taken: 0,
            steps: 0,
            env: options.base,
            until: 0,
            past: Past::of(&Nothing),
            hold: options.hold,
        })
    }

    /// What the session leaves. It takes no memory.
    pub fn into_end(self) -> Left<R>
        ensures { result ≡ record { recorded = self.recorded; tail = self.choices; steps = self.steps; taken = self.taken; cpu = self.cpu; log = self.log; replies = self.replies } }
    {
        let Session {
            held,
            taken,
            steps,
            ..
        } = self;
        let Recoverable {
            cpu,
            log,
            replies,
            recorded,
            choices,
            ..
        } = held;
        Left {
            recorded,
            tail: Choices::from_vec(choices),
            steps,
            taken,
            cpu,
            log,
            replies,
        }
    }
}

impl<R: AccessRule> Session<R> {
    /// How many items the run has taken that the session answers for.
    pub fn taken(&self) -> u64
        ensures { result ≡ self.now.taken }
    {
        self.taken
    }

    /// How many instructions that run has.
    pub fn steps(&self) -> u64
        ensures { result ≡ self.now.steps }
    {
        self.steps
    }

    /// How many of its answers of the allocator are noted.
    pub fn recorded(&self) -> u64
        ensures { result ≡ self.now.recorded }
    {
        self.held.recorded
    }

    /// The answers of the allocator that it used behind those, in their order.
    pub fn choices(&self) -> &[Choice]
        ensures { result.now ≡ self.now.choices }
    {
        self.held.choices.as_slice()
    }

    /// The environment that is in force with the items taken so far.
    pub(crate) fn env_now(&self) -> Env
        ensures { result ≡ env_of self.now }
    {
        if self.taken < self.until {
            return self.env;
        }
        self.options.base
    }

    /// The counts of the guest's run are those that the session answers for.
    pub(crate) fn count_run(&mut self)
        ensures { self.new ≡ record self.old { taken = self.old.cpu.slots.live.guest.machine.taken; steps = self.old.cpu.slots.live.steps } }
    {
        let marks = self.held.cpu.marks();
        self.taken = marks.taken;
        self.steps = marks.steps;
    }
}

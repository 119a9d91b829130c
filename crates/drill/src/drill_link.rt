// The link of a drill.
ghost use Rattle.std.specs.Prelude.{◌≡◌, ◌<◌, ◌^◌, true, length, []};
ghost use Rattle.drill.specs.Links.{IsTame};

use links::{Entry, Given, Link, LinkEvent, LinkFault, MemoryLink};
use rx_base::Conn;
use std::alloc::Global;

/// A link in memory that plays a list of events, keeps its journal, and never fails.
#[derive(Drop)]
pub struct DrillLink {
    link: MemoryLink,
    ghost tame: { IsTame link },
}

impl DrillLink {
    ghost use Rattle.links.specs.MemoryLinks.{link_script, link_journal, seen_in, first_script};
    ghost use Rattle.links.specs.Seen.{IsFreshLink};
    ghost use Rattle.drill.specs.Links.{are_in_order, none_opened};

    /// Plays these events, which are in order for their connections, and then answers `Ends`.
    pub fn make(alloc: Global, events: Vec<LinkEvent>) -> DrillLink
        requires { are_in_order none_opened events.items ≡ true }
        ensures script { link_script result.link ≡ first_script events.items [] [] }
        ensures journal { link_journal result.link ≡ [] }
        ensures fresh { IsFreshLink (seen_in result.link) }
    {
        DrillLink {
            link: MemoryLink::make(alloc, events, Vec::new(alloc), Vec::new(alloc)),
        }
    }

    /// The events taken, `Ends` among them, and the pieces given, in order.
    pub fn journal(&self) -> &[Entry]
        ensures journal { result.now ≡ link_journal self.now.link }
        ensures tame { IsTame self.now.link }
    {
        self.link.journal()
    }
}

impl Link for DrillLink {
    ghost use Rattle.std.specs.Prelude.{◌≡◌, ◌<◌, ◌^◌, true, length};
    ghost use Rattle.links.specs.Seen.{NextShows, GiveShows};
    ghost use Rattle.links.specs.MemoryLinks.{seen_in, MemoryWent};
    ghost use Rattle.links.specs.MemoryLaws.{memory_sound, memory_same, memory_on};
    ghost use Rattle.drill.specs.Links.{quiet};

    ghost seen = { λ s. quiet (seen_in s.link) };

    ghost sound = { λ s. record { gives_open = (memory_sound s.link).gives_open; below = (memory_sound s.link).below } };

    ghost Went = { λ old new. MemoryWent old.link new.link };

    ghost went_same = { λ s. memory_same s.link };

    ghost went_on = { λ first second third one two. memory_on first.link second.link third.link one two };

    fn next(&mut self) -> Result<LinkEvent, LinkFault>
        requires { (quiet (seen_in self.old.link)).takes ≡ true }
        ensures shows { NextShows (quiet (seen_in self.old.link)) (quiet (seen_in self.new.link)) result }
        ensures went { MemoryWent self.old.link self.new.link }
    {
        self.link.next()
    }

    fn give(&mut self, conn: Conn, bytes: &[u8]) -> Result<Given, LinkFault>
        requires may { (quiet (seen_in self.old.link)).gives ≡ true }
        requires connected { (quiet (seen_in self.old.link)).gives_to conn ≡ true }
        requires some { 0 < length bytes.now }
        requires few { length bytes.now < 2 ^ 16 }
        ensures shows { GiveShows (quiet (seen_in self.old.link)) (quiet (seen_in self.new.link)) conn bytes.now result }
        ensures went { MemoryWent self.old.link self.new.link }
    {
        self.link.give(conn, bytes)
    }
}

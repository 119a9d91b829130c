// A link that runs out of memory in mid-stream.
use links::{Given, Link, LinkEvent, LinkFault};
use rx_base::Conn;

// A link of which so many calls are done. Each call behind them answers `Memory` and does nothing. It tells nothing.
#[derive(Drop)]
pub struct ShortLink<K: Link> {
    pub link: K,
    pub calls_left: u64,
    pub takes: bool,
    pub gives: bool,
}

impl<K: Link> Link for ShortLink<K> {
    ghost use Rattle.std.specs.Prelude.{false, None, if◌then◌else◌};

    ghost seen = { λ s. record (K.seen s.link) { told = record { events = None; pieces = None; journal = None }; coming = None; handed = None; takes = if s.takes then (K.seen s.link).takes else false; gives = if s.gives then (K.seen s.link).gives else false } };

    ghost sound = { λ s. record { gives_open = (K.sound s.link).gives_open; below = (K.sound s.link).below } };

    ghost Went = { λ old new. K.Went old.link new.link };

    ghost went_same = { λ s. K.went_same s.link };

    ghost went_on = { λ a b c. K.went_on a.link b.link c.link };

    fn next(&mut self) -> Result<LinkEvent, LinkFault> {
        if self.calls_left == 0 {
            self.takes = false;
            return Err(LinkFault::Memory);
        }
        self.calls_left -= 1;
        self.link.next()
    }

    fn give(&mut self, conn: Conn, bytes: &[u8]) -> Result<Given, LinkFault> {
        if self.calls_left == 0 {
            self.gives = false;
            return Err(LinkFault::Memory);
        }
        self.calls_left -= 1;
        self.link.give(conn, bytes)
    }
}

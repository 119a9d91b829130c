//! A link whose connections are accepted at a port, and of which one or several are served at the same time.
//!
//! The journal of such a link is a fold over the calls that its port tells, with a stage for each connection. Which connection is
//! ready next isn't told, only that nothing is refused: so a session over a port never ends at a refusal.
#![tactic(auto)]

mod giving;
mod place;
mod port_link;
mod taking;

pub use place::{Closing, Place, PortLimits, Stage};
pub use port_link::PortLink;

//! The outside of the recovery system: where bytes come from and go, as traits that tell what they hold and count
//! their own faults; forms of them in memory, and adapters over the real streams and files.
//!
//! Each of these objects says by `cause` that `Failed` is answered only where its own count of faults rose.
//! Each says by `fixed` what no call changes. Of one that is lent this is which object it is.
//! The tame forms never fail. The other forms in memory fail exactly where it is planned.
//! The adapters over real streams and files meet the same traits, but tell no bytes.
//! So what a real file or pipe holds is trusted, and not said by a clause.
#![tactic(auto)]

mod attempts;
mod file_calls;
mod files;
mod lent;
mod memory_files;
mod memory_sink;
mod memory_source;
mod read_ahead;
mod shelf;
mod sink;
mod source;
mod std_files;
mod std_sink;
mod std_source;
mod tame_files;
mod tame_sink;
mod tame_source;

pub use attempts::{TRIES, read_some, write_some};
pub use file_calls::FileCall;
pub use files::Files;
pub use memory_files::MemoryFiles;
pub use memory_sink::MemorySink;
pub use memory_source::MemorySource;
pub use sink::Sink;
pub use source::Source;
pub use std_files::{FileFault, StdFiles};
pub use std_sink::StdSink;
pub use std_source::StdSource;
pub use tame_files::TameFiles;
pub use tame_sink::TameSink;
pub use tame_source::TameSource;

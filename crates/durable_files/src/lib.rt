//! The files of the system, of which some are written through to the disk.
//!
//! They meet the contracts of all files and tell nothing. So that the disk has the bytes is trusted, and not said by a clause.
#![tactic(auto)]

mod disk_files;

pub use disk_files::{DiskFiles, Through};

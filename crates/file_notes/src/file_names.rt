// The names of the two files.

/// The names of the two files of a session's notes.
#[derive(Clone, Copy, Debug)]
pub struct FileNames<'n> {
    pub record: &'n str,
    pub report: &'n str,
}

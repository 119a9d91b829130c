// The forms of a report.

/// The form of a report.
#[derive(Clone, Copy, Debug, PartialEq, Eq)]
pub enum Form {
    /// Lines of words and numbers.
    Text,
    /// A compact JSON object on each line, its keys in the order of their bytes.
    Json,
}

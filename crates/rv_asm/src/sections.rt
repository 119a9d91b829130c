// The bytes of both sections.
use rx_base::Bytes;

/// The bytes of the text section and of the data section.
#[derive(Drop)]
pub struct Sections {
    pub code: Bytes,
    pub variables: Bytes,
}

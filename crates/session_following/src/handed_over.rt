// What a second host is handed, as values.
use block_book::Choice;
use rx_base::Conn;
use session_notes::Episode;

/// Where a record's last line says that its run stood: how many instructions were done, and how many items taken.
#[derive(Clone, Copy, Debug)]
pub struct Place {
    pub steps: u64,
    pub taken: u64,
}

/// What a second host is handed: how many bytes each client has, as lines of a connection and its count; the episodes of the report, the oldest first; the
/// answers of the allocator that stand in the record; and the record's last line, if it is there.
#[derive(Clone, Copy, Debug)]
pub struct HandedOver<'h> {
    pub counts: &'h [(Conn, u64)],
    pub episodes: &'h [Episode],
    pub choices: &'h [Choice],
    pub finish: Option<Place>,
}

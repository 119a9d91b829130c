// How many bytes were passed.
ghost use Rattle.std.specs.Prelude.{◌≡◌, length};
ghost use Rattle.drill.specs.Summary.{payload_of, passed_bytes};

use links::Entry;

// How many bytes of payload an entry of a journal has.
fn payload_length(entry: &Entry) -> usize
    ensures { result ≡ length (payload_of entry.now) }
{
    match entry {
        Entry::Took(_) => 0,
        Entry::Gave { bytes, .. } => bytes.as_slice().len(),
    }
}

/// How many bytes were passed to all connections together.
pub fn passed_bytes(journal: &[Entry]) -> u128
    ensures { result ≡ passed_bytes journal.now }
{
    let mut passed: u128 = 0;
    let mut rest = journal;
    'entries: while let [entry, behind @ ..] = rest {
        passed += payload_length(entry) as u128;
        rest = behind;
    }
    passed
}

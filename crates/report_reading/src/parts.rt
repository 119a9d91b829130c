// How a text is cut.
ghost use Rattle.report_reading.specs.Steps.{IsSplit};

// The first line of a text, with its line feed, and the text behind it; None where no line feed stands in it.
pub(crate) fn split_line(text: &[u8]) -> Option<(&[u8], &[u8])>
    ensures { IsSplit text.now result }
{
    for (i, byte) in text.iter().enumerate() {
        if *byte == b'\n' {
            return Some(text.split_at(i + 1));
        }
    }
    None
}

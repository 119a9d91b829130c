//! Laws of counts and their texts, each as the contract of a function that does nothing.
ghost use Rattle.counts_file.specs.Laws.{OneReading, ReadUnlessRefused, ReadAsWritten, LinesAreLines, IsOnTheLine};

/// A text has one reading at most.
pub fn one_reading()
    ensures { OneReading }
{}

/// A text has a reading exactly where no line of it is refused.
pub fn read_unless_refused()
    ensures { ReadUnlessRefused }
{}

/// A line is read as a connection and its count exactly where both are in range and the line is what is written of them.
pub fn read_as_written()
    ensures { ReadAsWritten }
{}

/// Each line that is written ends with a line feed, and holds no other one.
pub fn lines_are_lines()
    ensures { LinesAreLines }
{}

/// The count of a connection is the one on its line, and 0 where it has none.
pub fn is_on_the_line()
    ensures { IsOnTheLine }
{}

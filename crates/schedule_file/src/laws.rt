//! Laws of records and their texts, each as the contract of a function that does nothing.
ghost use Rattle.schedule_file.specs.Laws.{OneReading, ReadUnlessRefused, WrittenInPieces, WrittenIsRead, LinesAreLines, ReadAsWritten, OneUnfinished, UnfinishedUnlessRefused, FinishedIsRecord, RefusedAsRecord, CutIsRead};

/// Two records with the same text are the same.
pub fn one_reading()
    ensures { OneReading }
{}

/// A text has a reading exactly where no line of it is refused.
pub fn read_unless_refused()
    ensures { ReadUnlessRefused }
{}

/// The text of more answers is the same text with their lines before the last one.
pub fn written_in_pieces()
    ensures { WrittenInPieces }
{}

/// What is written of some answers is read as their record.
pub fn written_is_read()
    ensures { WrittenIsRead }
{}

/// Each line that is written ends with a line feed, and holds no other one.
pub fn lines_are_lines()
    ensures { LinesAreLines }
{}

/// A line is read as a value exactly where the value is in range and the line is what is written of it.
pub fn read_as_written()
    ensures { ReadAsWritten }
{}

/// Two readings of a text that may lack its last line are the same.
pub fn one_unfinished()
    ensures { OneUnfinished }
{}

/// A text that may lack its last line has a reading exactly where no line of it is refused.
pub fn unfinished_unless_refused()
    ensures { UnfinishedUnlessRefused }
{}

/// A text is a record's exactly where its reading has the last line, and it has the record's values then.
pub fn finished_is_record()
    ensures { FinishedIsRecord }
{}

/// A line that is refused though the last line may be missing is refused where it may not.
pub fn refused_as_record()
    ensures { RefusedAsRecord }
{}

/// A record's text that is cut off behind its first line is read with the answers whose lines are whole.
pub fn cut_is_read()
    ensures { CutIsRead }
{}

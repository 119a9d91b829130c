//! Laws of reports and their texts, each as the contract of a function that does nothing.
ghost use Rattle.report_reading.specs.Laws.{CutIsRead, OneReading, ReadUnlessRefused, WrittenIsRead};

/// A text has one reading.
pub fn one_reading()
    ensures { OneReading }
{}

/// A text has a reading exactly where no line of it is refused.
pub fn read_unless_refused()
    ensures { ReadUnlessRefused }
{}

/// What a session wrote of its episodes and its end is read as them. A trial that ended itself is read as one that asks for the next item.
pub fn written_is_read()
    ensures { WrittenIsRead }
{}

/// A report that is cut anywhere behind its first line feed is read, and its adopted episodes are the first ones of the whole.
pub fn cut_is_read()
    ensures { CutIsRead }
{}

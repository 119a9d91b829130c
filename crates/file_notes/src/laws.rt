//! What stands in the two files at the end, as the contracts of functions that do nothing.
ghost use Rattle.file_notes.specs.Laws.{WholeTexts, WholeTextsBehind};

/// Files that were started, in which all was noted and no call failed, and that were ended, have the text of the whole record
/// and that of the whole report.
pub fn whole_texts()
    ensures { WholeTexts }
{}

/// So have files of a session that took over: the episodes that were told before stand in the report in front of its own.
pub fn whole_texts_behind()
    ensures { WholeTextsBehind }
{}

//! Laws of lines and frames, each as the contract of a function that does nothing.
ghost use Rattle.trunk_text.specs.Laws.{LinesReadBack, CallsRun, FramesComeBack, PlainComeBack, LinesAreTaken, LinesComeBack, FramesAreTaken};

/// A line that is written is read as what it says.
pub fn lines_read_back()
    ensures { LinesReadBack }
{}

/// By their clauses, calls of `frame_lines` and `unframe` are runs, of which the laws below speak.
pub fn calls_run()
    ensures { CallsRun }
{}

/// Framing what was unframed gives the same frames, but a settle is one of connection 0.
pub fn frames_come_back()
    ensures { FramesComeBack }
{}

/// Framing what was unframed gives the same bytes, where each settle is one of connection 0.
pub fn plain_come_back()
    ensures { PlainComeBack }
{}

/// No line of what was unframed is refused.
pub fn lines_are_taken()
    ensures { LinesAreTaken }
{}

/// Unframing what was framed gives the same lines as `text_of` spells them, without those that say nothing.
pub fn lines_come_back()
    ensures { LinesComeBack }
{}

/// No frame of what was framed is refused.
pub fn frames_are_taken()
    ensures { FramesAreTaken }
{}

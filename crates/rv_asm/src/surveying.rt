// The first pass: where the statements and labels of a text stand.
ghost use Rattle.rv_asm.specs.Steps.{Surveys};

use crate::asm_refusal::Stop;
use crate::layout::Layout;
use asm_lines::split_line;
use std::alloc::Global;

/// The layout of a text, or the first line that is wrong whatever the labels' places are.
pub fn survey<'a>(alloc: Global, text: &'a [u8]) -> Result<Layout<'a>, Stop>
    ensures { Surveys text.now result }
{
    let mut layout = Layout::new(alloc);
    let mut rest = text;
    'lines: loop {
        let (line, behind) = split_line(rest);
        let last = behind.is_empty();
        let number = layout.lines + 1;
        if let Err(trouble) = layout.add_line(line, last) {
            return Err(trouble.at_line(number));
        }
        if last {
            return Ok(layout);
        }
        rest = behind;
    }
}

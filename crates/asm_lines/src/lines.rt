// The lines of a text, and what stands on one.
ghost use Rattle.std.specs.Prelude.{◌≡◌, ◌<◌, ◌∷◌, length, false};
ghost use Rattle.std.specs.List.{list_all};
ghost use Rattle.asm_lines.specs.Bytes.{is_allowed};
ghost use Rattle.asm_lines.specs.Lines.{lines_of, lines_from, uncommented, code_of, words_of, line_from, line_of_code, line_of};

use crate::bytes::{cut, is_allowed, is_name, skip_blanks, split_word, trimmed};
use crate::line::{Line, Words};
use crate::mnemonics::form_of;
use crate::part::Part;

/// The first line of a text, without its line feed, and the text behind it.
pub fn split_line(text: &[u8]) -> (&[u8], &[u8])
    ensures lines { lines_of text.now ≡ result.0.now ∷ lines_from result.1.now }
    ensures less { 0 < length result.1.now → length result.1.now < length text.now }
{
    match cut(text, b'\n') {
        Some(parts) => parts,
        None => (text, &[]),
    }
}

// A line without its comment.
fn uncommented(line: &[u8]) -> &[u8]
    ensures { result.now ≡ uncommented false line.now }
{
    let mut quoted = false;
    for (i, byte) in line.iter().enumerate() {
        if *byte == b'#' && !quoted {
            let (front, _) = line.split_at(i);
            return front;
        }
        if *byte == b'"' {
            quoted = !quoted;
        }
    }
    line
}

// The code of a line.
#[tactic(auto, unfolding(crate::specs::Lines::code_of))]
fn code_of(line: &[u8]) -> &[u8]
    ensures { result.now ≡ code_of line.now }
{
    trimmed(uncommented(line))
}

// The mnemonic's form and the operands of a statement.
#[tactic(auto, unfolding(crate::specs::Lines::words_of))]
fn words_of<'a>(code: &'a [u8]) -> Option<Words<'a>>
    ensures { result ≡ words_of code.now }
{
    let (word, rest) = split_word(code);
    match form_of(word) {
        None => None,
        Some(form) => Some(Words {
            form,
            operands: Part::new(skip_blanks(rest)),
        }),
    }
}

// A line with this label, or without one, and with this statement, which may be empty.
fn line_from<'a>(label: Option<Part<'a>>, code: &'a [u8]) -> Option<Line<'a>>
    ensures { result ≡ line_from label.entry code.now }
{
    if code.is_empty() {
        return Some(Line { label, words: None });
    }
    match words_of(code) {
        None => None,
        Some(words) => Some(Line {
            label,
            words: Some(words),
        }),
    }
}

// What the code of a line says.
#[tactic(auto, unfolding(crate::specs::Lines::line_of_code))]
fn line_of_code<'a>(code: &'a [u8]) -> Option<Line<'a>>
    ensures { result ≡ line_of_code code.now }
{
    match cut(code, b':') {
        Some((name, behind)) => {
            if is_name(name) {
                line_from(Some(Part::new(name)), skip_blanks(behind))
            } else {
                line_from(None, code)
            }
        }
        None => line_from(None, code),
    }
}

// Whether a line may have these bytes.
fn are_allowed(bytes: &[u8]) -> bool
    ensures { result ≡ list_all is_allowed bytes.now }
{
    bytes.iter().all(|byte| is_allowed(*byte))
}

/// What stands on a line, if each of its bytes is allowed and its statement is known.
#[tactic(auto, unfolding(crate::specs::Lines::line_of))]
pub fn line_of<'a>(bytes: &'a [u8]) -> Option<Line<'a>>
    ensures { result ≡ line_of bytes.now }
{
    if are_allowed(bytes) {
        line_of_code(code_of(bytes))
    } else {
        None
    }
}

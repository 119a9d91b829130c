// What stands on a line.
use crate::form::Form;
use crate::part::Part;

/// The words of a statement: its mnemonic's form, and the operands as they are written.
#[derive(Debug, Drop)]
pub struct Words<'a> {
    pub form: Form,
    pub operands: Part<'a>,
}

/// What stands on a line beside its comment.
#[derive(Debug, Drop)]
pub struct Line<'a> {
    pub label: Option<Part<'a>>,
    pub words: Option<Words<'a>>,
}

// Where statements and labels stand.
ghost use Rattle.std.specs.Prelude.{◌≡◌, ◌<◌, ◌≤◌, ◌+◌, ◌^◌, ◌||◌, ◌&&◌, false, OnOk};
ghost use Rattle.rv_asm.specs.Layout.{data_start};
ghost use Rattle.rv_asm.specs.Refusals.{is_misplaced, has_no_text, is_too_large};
ghost use Rattle.rv_asm.specs.Steps.{AddsLine};
ghost use Rattle.rv_asm.specs.Passes.{is_repeated, no_lines, size_of_both, with_label, next_spot, with_statement, spot_address};

use crate::asm_refusal::Trouble;
use crate::labels::Labels;
use crate::placed::{Placed, Spot, Statements};
use asm_lines::{
    Flaw, Line, Part, Section, Statement, Words, gives_bytes, line_of, stands_in, statement_of,
};
use guest_image::PAGE;
use std::alloc::{AllocError, Global};

/// Where the text section begins.
pub const TEXT_START: u32 = 0x10000;

// How many bytes both sections may have together.
const MOST_BYTES: usize = 524_288;

/// What some lines of a text come to: the section in force behind them, how many bytes each section has, and the labels
/// and statements at their places.
#[derive(Drop)]
pub struct Layout<'a> {
    pub lines: usize,
    pub section: Section,
    pub text_size: u32,
    pub data_size: u32,
    pub labels: Labels<'a>,
    pub statements: Statements<'a>,
}

/// Where the data section begins: at the first page at or above the end of text.
pub fn data_start(text_size: u32) -> u32
    requires { text_size ≤ MOST_BYTES }
    ensures { result ≡ data_start text_size }
{
    (TEXT_START + text_size + (PAGE - 1)) / PAGE * PAGE
}

impl<'a> Layout<'a> {
    /// Before the first line.
    pub fn new(alloc: Global) -> Layout<'a>
        ensures { result ≡ no_lines }
    {
        Layout {
            lines: 0,
            section: Section::Text,
            text_size: 0,
            data_size: 0,
            labels: Labels::new(alloc),
            statements: Statements::new(alloc),
        }
    }

    // The place of what comes next.
    fn next_spot(&self) -> Spot
        ensures { result ≡ next_spot self.now }
    {
        let offset = match self.section {
            Section::Text => self.text_size,
            Section::Data => self.data_size,
        };
        Spot {
            section: self.section,
            offset,
        }
    }

    // Whether a statement stands in the wrong section.
    fn is_misplaced(&self, words: &Option<Words<'a>>) -> bool
        ensures { result ≡ is_misplaced self.now.section words.now }
    {
        match words {
            None => false,
            Some(words) => !stands_in(self.section, words.form),
        }
    }

    // Whether the text section has no bytes behind a line with this statement.
    fn has_no_text(&self, words: &Option<Words<'a>>) -> bool
        ensures { result ≡ has_no_text self.now.section self.now.text_size words.now }
    {
        let gives_text = match words {
            None => false,
            Some(words) => self.section == Section::Text && gives_bytes(words.form),
        };
        self.text_size == 0 && !gives_text
    }

    // Whether a line can't stand here, the last line where the text section has no bytes among them.
    fn is_out_of_place(&self, last: bool, words: &Option<Words<'a>>) -> bool
        ensures { result ≡ (is_misplaced self.now.section words.now || last && has_no_text self.now.section self.now.text_size words.now) }
    {
        self.is_misplaced(words) || (last && self.has_no_text(words))
    }

    // Whether a label is defined already.
    fn is_repeated(&self, label: &Option<Part<'a>>) -> bool
        ensures { result ≡ is_repeated self.now label.now }
    {
        match label {
            None => false,
            Some(name) => self.labels.get(name.as_slice()).is_some(),
        }
    }

    // Whether a statement makes the sections too large.
    fn is_too_large(&self, statement: &Statement<'a>) -> bool
        ensures { result ≡ is_too_large (size_of_both self.now) statement.now }
    {
        let size = statement.size();
        MOST_BYTES < size || MOST_BYTES < self.text_size as usize + self.data_size as usize + size
    }

    // Defines a label at the place of what comes next.
    fn add_label(&mut self, label: Option<Part<'a>>) -> Result<(), AllocError>
        requires { is_repeated self.old label ≡ false }
        ensures { OnOk result (self.new ≡ with_label label.entry self.old) }
    {
        if let Some(name) = label {
            let spot = self.next_spot();
            self.labels.push(name.as_slice(), spot)?;
        }
        Ok(())
    }

    // Puts a statement at the place of what comes next.
    fn add_statement(&mut self, statement: Statement<'a>) -> Result<(), AllocError>
        requires { is_too_large (size_of_both self.old) statement ≡ false }
        ensures { OnOk result (self.new ≡ with_statement statement.entry self.old) }
    {
        if let Statement::Into(section) = statement {
            self.section = section;
            return Ok(());
        }
        let size = statement.size() as u32;
        let placed = Placed {
            line: self.lines,
            spot: self.next_spot(),
            statement,
        };
        self.statements.push(placed)?;
        match self.section {
            Section::Text => self.text_size += size,
            Section::Data => self.data_size += size,
        }
        Ok(())
    }

    /// Takes a line more, or says what is wrong with it, whatever the labels' places are.
    pub fn add_line(&mut self, bytes: &'a [u8], last: bool) -> Result<(), Trouble>
        requires { self.old.lines + 1 < 2 ^ 64 }
        ensures { AddsLine self.old self.new last bytes.now result }
    {
        let Some(line) = line_of(bytes) else {
            return Err(Trouble::Flawed(Flaw::UnknownWord));
        };
        if self.is_out_of_place(last, &line.words) {
            return Err(Trouble::Flawed(Flaw::UnknownWord));
        }
        if self.is_repeated(&line.label) {
            return Err(Trouble::Flawed(Flaw::DoubleLabel));
        }
        let Line { label, words } = line;
        let Some(words) = words else {
            self.lines += 1;
            self.add_label(label)?;
            return Ok(());
        };
        let statement = match statement_of(words.form, words.operands.as_slice()) {
            Ok(statement) => statement,
            Err(flaw) => return Err(Trouble::Flawed(flaw)),
        };
        if self.is_too_large(&statement) {
            return Err(Trouble::Flawed(Flaw::Range));
        }
        self.lines += 1;
        self.add_label(label)?;
        self.add_statement(statement)?;
        Ok(())
    }

    /// The address of a place.
    pub fn address_at(&self, spot: Spot) -> u32
        requires size { self.now.text_size ≤ MOST_BYTES }
        requires offset { spot.offset ≤ MOST_BYTES }
        ensures { result ≡ spot_address self.now spot }
    {
        match spot.section {
            Section::Text => TEXT_START + spot.offset,
            Section::Data => data_start(self.text_size) + spot.offset,
        }
    }
}

// What may be wrong with a line.
ghost use Rattle.std.specs.Prelude.{◌≡◌};
ghost use Rattle.asm_lines.specs.Flaws.{kind_of};

/// What may be wrong with a line.
#[derive(Clone, Copy, Debug, PartialEq, Eq)]
pub enum Flaw {
    /// A byte that isn't allowed, a line that is no line, a statement that isn't known, or one in the wrong section; also,
    /// at the last line, a text whose text section has no bytes.
    UnknownWord,
    /// The operands are too many, too few or not of the statement's kinds.
    BadOperand,
    /// A number is out of its range, the sections are too large, or a branch or jump doesn't reach its label.
    Range,
    /// A label is used and isn't defined.
    Label,
    /// A label was defined on an earlier line.
    DoubleLabel,
}

impl Flaw {
    /// The number of the kind.
    pub fn kind(self) -> u8
        ensures { result ≡ kind_of self }
    {
        match self {
            Flaw::UnknownWord => 1,
            Flaw::BadOperand => 2,
            Flaw::Range => 3,
            Flaw::Label => 4,
            Flaw::DoubleLabel => 5,
        }
    }
}

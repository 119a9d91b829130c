// Statements at their places.
ghost use Rattle.std.specs.Prelude.{◌≡◌, List, [], ◌∷◌, ◌++◌, OnOk};
ghost use Rattle.rv_asm.specs.declared.placed.Placed.{Placed};

use asm_lines::{Section, Statement};
use std::alloc::{AllocError, Global};
use std::marker::Model;

/// A place: a section, and how many of its bytes stand before.
#[derive(Clone, Copy, Debug)]
pub struct Spot {
    pub section: Section,
    pub offset: u32,
}

/// A statement, its line and its place.
#[derive(Debug, Drop)]
pub struct Placed<'a> {
    pub line: usize,
    pub spot: Spot,
    pub statement: Statement<'a>,
}

/// Statements in the order of their lines.
#[derive(Debug, Drop)]
pub struct Statements<'a> {
    items: Vec<Placed<'a>>,
}

impl<'a> Model for Statements<'a> {
    ghost Value = { List Placed };

    ghost view = { λ s. s.items.items };
}

impl<'a> Statements<'a> {
    /// No statements.
    pub fn new(alloc: Global) -> Statements<'a>
        ensures { result ≡ [] }
    {
        Statements {
            items: Vec::new(alloc),
        }
    }

    /// Adds a statement behind the others.
    pub fn push(&mut self, placed: Placed<'a>) -> Result<(), AllocError>
        ensures { OnOk result (self.new ≡ self.old ++ placed.entry ∷ []) }
    {
        self.items.push(placed)?;
        Ok(())
    }

    /// The statements in their order.
    pub fn as_slice(&self) -> &[Placed<'a>]
        ensures { result.now ≡ self.now }
    {
        &self.items
    }
}

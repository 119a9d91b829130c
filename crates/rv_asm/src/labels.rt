// Labels and their places.
ghost use Rattle.std.specs.Prelude.{◌≡◌, ℕ, List, [], ◌∷◌, ◌++◌, None, map, OnOk};
ghost use Rattle.rv_asm.specs.Places.{Definition, definition_of, spot_of};

use crate::placed::Spot;
use indexmap::IndexMap;
use std::alloc::{AllocError, Global};
use std::marker::Model;

/// The labels that are defined, each with its place, in the order of their lines.
#[derive(Drop)]
pub struct Labels<'a> {
    spots: IndexMap<&'a [u8], Spot>,
}

impl<'a> Model for Labels<'a> {
    ghost Value = { List Definition };

    ghost view = { λ l. map (λ e. definition_of e.0.now e.1) l.spots.entries };
}

impl<'a> Labels<'a> {
    /// No labels.
    pub fn new(alloc: Global) -> Labels<'a>
        ensures { result ≡ [] }
    {
        Labels {
            spots: IndexMap::new(alloc),
        }
    }

    /// The place of a label, where it is defined.
    pub fn get(&self, name: &[u8]) -> Option<Spot>
        ensures { result ≡ spot_of self.now name.now }
    {
        self.spots.get(name).copied()
    }

    /// Defines a label that isn't defined yet.
    pub fn push(&mut self, name: &'a [u8], spot: Spot) -> Result<(), AllocError>
        requires { spot_of self.old name.now ≡ None }
        ensures { OnOk result (self.new ≡ self.old ++ definition_of name.now spot ∷ []) }
    {
        self.spots.insert(name, spot)?;
        Ok(())
    }
}

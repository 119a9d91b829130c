// Laws of the instruction table, as contracts of functions.
ghost use Rattle.std.specs.Prelude.{◌≡◌, ◌↔◌, Some};
ghost use Rattle.rv_isa.specs.declared.instr.Instr.{Instr};
ghost use Rattle.rv_isa.specs.Listing.{IsRow};
ghost use Rattle.rv_isa.specs.Ranges.{IsInRange};
ghost use Rattle.rv_isa.specs.Table.{row};

use crate::{Instr, decode, encode};

/// A law: the table answers an instruction exactly where the listing says that the word is that instruction, so no
/// word is two instructions.
pub fn table_is_the_listing(word: u32)
    ensures listed { (i : Instr) → (row word ≡ Some i) ↔ IsRow word i }
    ensures single { (i j : Instr) → IsRow word i → IsRow word j → i ≡ j }
{}

/// A law: what is encoded is decoded again.
pub fn decode_of_encode(instr: &Instr) -> Option<Instr>
    requires { IsInRange instr.now }
    ensures { result ≡ Some instr.now }
{
    decode(encode(instr))
}

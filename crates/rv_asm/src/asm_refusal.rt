// Why a text gives no image.
ghost use Rattle.std.specs.Prelude.{◌≡◌};
ghost use Rattle.rv_asm.specs.declared.asm_refusal.AsmRefusal.TheVariants.{Memory};
ghost use Rattle.rv_asm.specs.declared.asm_refusal.Trouble.TheVariants as trouble;
ghost use Rattle.rv_asm.specs.declared.asm_refusal.Stop.TheVariants as stop;
ghost use Rattle.asm_lines.specs.Flaws.{kind_of};
ghost use Rattle.rv_asm.specs.Troubles.{stopped, Answers};

use asm_lines::Flaw;
use std::alloc::AllocError;
use thiserror::Error;

/// What is wrong, and on which line, counted from 1.
#[derive(Clone, Copy, Debug)]
pub struct Fault {
    pub flaw: Flaw,
    pub line: usize,
}

/// Why a line can't be taken.
#[derive(Clone, Copy, Debug)]
pub enum Trouble {
    Flawed(Flaw),
    Memory,
}

impl From<AllocError> for Trouble {
    ghost from_gives = { λ _ e. e ≡ trouble.Memory };

    fn from(_error: AllocError) -> Trouble {
        Trouble::Memory
    }
}

impl Trouble {
    /// The trouble with this line.
    pub fn at_line(self, line: usize) -> Stop
        ensures { result ≡ stopped line self }
    {
        match self {
            Trouble::Flawed(flaw) => Stop::Refused(Fault { flaw, line }),
            Trouble::Memory => Stop::Memory,
        }
    }
}

/// Why a text can't be taken.
#[derive(Clone, Copy, Debug)]
pub enum Stop {
    Refused(Fault),
    Memory,
}

impl From<AllocError> for Stop {
    ghost from_gives = { λ _ e. e ≡ stop.Memory };

    fn from(_error: AllocError) -> Stop {
        Stop::Memory
    }
}

/// Why a text gives no image.
#[derive(Clone, Copy, Debug, PartialEq, Eq, Error)]
pub enum AsmRefusal {
    /// The first line that is wrong, counted from 1, and what is wrong there: 1 UnknownWord, 2 BadOperand, 3 Range,
    /// 4 Label, 5 DoubleLabel. A line past 2^32 - 1 is answered as 2^32 - 1.
    #[error("line {line}: refused ({kind})")]
    Refused { kind: u8, line: u32 },
    /// Memory ran out.
    #[error("memory ran out while a text was assembled")]
    Memory,
}

impl From<AllocError> for AsmRefusal {
    ghost from_gives = { λ _ e. e ≡ Memory };

    fn from(_error: AllocError) -> AsmRefusal {
        AsmRefusal::Memory
    }
}

impl Stop {
    /// The refusal that is answered.
    pub fn refusal(self) -> AsmRefusal
        ensures { Answers self result }
    {
        match self {
            Stop::Refused(fault) => {
                let line = fault.line.min(0xffff_ffff) as u32;
                AsmRefusal::Refused {
                    kind: fault.flaw.kind(),
                    line,
                }
            }
            Stop::Memory => AsmRefusal::Memory,
        }
    }
}

// The words of a report's lines.
ghost use Rattle.std.specs.Prelude.{◌≡◌, IfOk, string_bytes};
ghost use Rattle.session_notes.specs.Words.{cause_text, env_word, tried_text, eight_digits};

use crate::episode::Tried;
use alloc_env::Env;
use run_history::Cause;
use std::alloc::{AllocError, Global};

/// The text of a cause: its name, and for an assertion its code.
pub fn cause_text(alloc: Global, cause: Cause) -> Result<String, AllocError>
    ensures { IfOk result (λ text. string_bytes text ≡ cause_text cause) }
{
    let name = match cause {
        Cause::BadAccess => "BadAccess",
        Cause::BadJump => "BadJump",
        Cause::BadInstruction => "BadInstruction",
        Cause::AssertFailed(code) => return format!(in alloc; "AssertFailed {code}"),
        Cause::Hang => "Hang",
        Cause::BadFree => "BadFree",
        Cause::BadCall => "BadCall",
    };
    String::from_str(alloc, name)
}

/// The word of an environment.
pub fn env_word(env: Env) -> &'static str
    ensures { result.now ≡ env_word env }
{
    match env {
        Env::Plain => "plain",
        Env::Pad => "pad",
        Env::Zero => "zero",
        Env::Isolate => "isolate",
        Env::Delay => "delay",
        Env::All => "all",
    }
}

/// The text of what came of a trial.
pub fn tried_text(alloc: Global, tried: Tried) -> Result<String, AllocError>
    ensures { IfOk result (λ text. string_bytes text ≡ tried_text tried) }
{
    let name = match tried {
        Tried::Asks => "survived",
        Tried::Exits(_) => "survived",
        Tried::Failed(cause) => return cause_text(alloc, cause),
        Tried::Contradicts => "Contradicts",
        Tried::Behind => "Behind",
    };
    String::from_str(alloc, name)
}

/// An address as eight lower-case hexadecimal digits.
#[tactic(auto, using(crate::proofs::Digits::padded_eight))]
pub fn pc_text(alloc: Global, pc: u32) -> Result<String, AllocError>
    ensures { IfOk result (λ text. string_bytes text ≡ eight_digits pc) }
{
    format!(in alloc; "{pc:08x}")
}

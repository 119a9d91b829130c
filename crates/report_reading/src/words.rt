// What words at the front of some bytes tell.
ghost use Rattle.std.specs.Prelude.{◌≡◌};
ghost use Rattle.report_reading.specs.Telling.{cause_told, behind_cause, tried_told, env_told};

use crate::numbers::{behind_digits, word_told};
use alloc_env::Env;
use run_history::Cause;
use session_notes::Tried;
use text_lines::behind;

// The cause in front.
pub(crate) fn cause_told(bytes: &[u8]) -> Cause
    ensures { result ≡ cause_told bytes.now }
{
    match bytes.get(0) {
        Some(b'A') => return Cause::AssertFailed(word_told(behind(bytes, 13))),
        Some(b'H') => return Cause::Hang,
        _ => {}
    }
    match bytes.get(3) {
        Some(b'A') => Cause::BadAccess,
        Some(b'J') => Cause::BadJump,
        Some(b'I') => Cause::BadInstruction,
        Some(b'F') => Cause::BadFree,
        _ => Cause::BadCall,
    }
}

// What stands behind a cause.
pub(crate) fn behind_cause(cause: Cause, bytes: &[u8]) -> &[u8]
    ensures { result.now ≡ behind_cause cause bytes.now }
{
    match cause {
        Cause::BadAccess => behind(bytes, 9),
        Cause::BadJump => behind(bytes, 7),
        Cause::BadInstruction => behind(bytes, 14),
        Cause::AssertFailed(_) => behind_digits(behind(bytes, 13)),
        Cause::Hang => behind(bytes, 4),
        Cause::BadFree => behind(bytes, 7),
        Cause::BadCall => behind(bytes, 7),
    }
}

// What came of a trial.
pub(crate) fn tried_told(bytes: &[u8]) -> Tried
    ensures { result ≡ tried_told bytes.now }
{
    match bytes.get(0) {
        Some(b's') => return Tried::Asks,
        Some(b'C') => return Tried::Contradicts,
        _ => {}
    }
    match bytes.get(1) {
        Some(b'e') => Tried::Behind,
        _ => Tried::Failed(cause_told(bytes)),
    }
}

// The environment in front.
pub(crate) fn env_told(bytes: &[u8]) -> Env
    ensures { result ≡ env_told bytes.now }
{
    match bytes.get(0) {
        Some(b'z') => return Env::Zero,
        Some(b'i') => return Env::Isolate,
        Some(b'd') => return Env::Delay,
        Some(b'a') => return Env::All,
        _ => {}
    }
    match bytes.get(1) {
        Some(b'l') => Env::Plain,
        _ => Env::Pad,
    }
}

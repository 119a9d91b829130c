// A report's lines as JSON.
ghost use Rattle.std.specs.Prelude.{◌≡◌, IfOk, false};
ghost use Rattle.serde_json.specs.Data.{array};
ghost use Rattle.serde_json.specs.View.{view, items_of};
ghost use Rattle.serde_json.specs.Written.{has_float};
ghost use Rattle.run_report.specs.JsonLines.{json_line, head_data, try_data, tries_data, episode_data, end_data};

use rx_base::Bytes;
use serde_json::{Value, json};
use session_notes::{Episode, Try, cause_text, env_word, pc_text, tried_text};
use std::alloc::{AllocError, Global};

// The compact text of a value without a float, and a line feed.
#[tactic(auto, unfolding(crate::specs::JsonLines::json_line))]
fn json_line(alloc: Global, value: &Value) -> Result<Bytes, AllocError>
    requires { has_float (view value.now) ≡ false }
    ensures { IfOk result (λ bytes. bytes ≡ json_line (view value.now)) }
{
    let text = value.to_string(alloc)?;
    let line = format!(in alloc; "{text}\n")?;
    Ok(Bytes::from_vec(line.into_bytes()))
}

// The first line as a value.
fn head_value(alloc: Global) -> Result<Value, AllocError>
    ensures { IfOk result (λ value. view value ≡ head_data) }
{
    json!(in alloc; {"report": 1u64})
}

// A trial as a value.
fn try_value(alloc: Global, t: &Try) -> Result<Value, AllocError>
    ensures { IfOk result (λ value. view value ≡ try_data t.now) }
{
    let checkpoint = t.checkpoint;
    let env = env_word(t.env);
    let tried = tried_text(alloc, t.tried)?;
    json!(in alloc; {"checkpoint": checkpoint, "env": env, "result": tried})
}

// The trials of an episode as a value.
fn tries_value(alloc: Global, tries: &[Try]) -> Result<Value, AllocError>
    ensures { IfOk result (λ value. view value ≡ array (tries_data tries.now)) }
{
    let mut values = Vec::new(alloc);
    'tries: for t in tries {
        let value = try_value(alloc, t)?;
        values.push(value)?;
    }
    Ok(Value::Array(values))
}

// An episode as a value.
fn episode_value(alloc: Global, number: u64, e: &Episode) -> Result<Value, AllocError>
    ensures { IfOk result (λ value. view value ≡ episode_data number e.now) }
{
    let cause = cause_text(alloc, e.cause)?;
    let pc = pc_text(alloc, e.pc)?;
    let point = e.point;
    let tries = tries_value(alloc, e.tries.as_slice())?;
    json!(in alloc; {"cause": cause, "failure": number, "pc": pc, "point": point, "tries": tries})
}

// The end of a session as a value.
fn end_value(alloc: Global, status: u8, taken: u64, steps: u64) -> Result<Value, AllocError>
    ensures { IfOk result (λ value. view value ≡ end_data status taken steps) }
{
    json!(in alloc; {"end": status, "steps": steps, "taken": taken})
}

// The first line.
pub(crate) fn head_line(alloc: Global) -> Result<Bytes, AllocError>
    ensures { IfOk result (λ bytes. bytes ≡ json_line head_data) }
{
    let value = head_value(alloc)?;
    json_line(alloc, &value)
}

// The line of an episode.
pub(crate) fn episode_line(alloc: Global, number: u64, e: &Episode) -> Result<Bytes, AllocError>
    ensures { IfOk result (λ bytes. bytes ≡ json_line (episode_data number e.now)) }
{
    let value = episode_value(alloc, number, e)?;
    json_line(alloc, &value)
}

// The last line.
pub(crate) fn end_line(
    alloc: Global,
    status: u8,
    taken: u64,
    steps: u64,
) -> Result<Bytes, AllocError>
    ensures { IfOk result (λ bytes. bytes ≡ json_line (end_data status taken steps)) }
{
    let value = end_value(alloc, status, taken, steps)?;
    json_line(alloc, &value)
}

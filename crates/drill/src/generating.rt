// The clients of a drill: what they send is drawn from a generator of numbers.
ghost use Rattle.std.specs.Prelude.{◌≡◌, ◌++◌, ◌∷◌, [], ◌<◌, ◌^◌, IfOk, OnOk};
ghost use Rattle.drill.specs.Generator.{next_state, drawn, third_state, line_of, message, messages, opening, closing, drill_events};

use links::LinkEvent;
use rx_base::{Bytes, Conn};
use std::alloc::{AllocError, Global};

// The constants of the linear congruential generator of "Numerical Recipes", modulo 2^32.
const MULTIPLIER: u32 = 1664525;

const INCREMENT: u32 = 1013904223;

// A set whose key has forty letters, at which the server fails.
const FAILING: &str = "set aaaaaaaaaaaaaaaaaaaaaaaaaaaaaaaaaaaaaaaa z\n";

// Makes the generator's next state, and draws its upper half.
#[tactic(auto, using(crate::proofs::GeneratorLemmas::wrapped))]
fn draw(state: &mut u32) -> u32
    ensures state { state.new ≡ next_state state.old }
    ensures value { result ≡ drawn state.old }
{
    *state = state.wrapping_mul(MULTIPLIER).wrapping_add(INCREMENT);
    *state >> 16
}

// The line of a message, by two draws.
#[tactic(auto, unfolding(crate::specs::Generator::failing_line, crate::specs::Generator::set_line, crate::specs::Generator::get_line))]
fn line_of(alloc: Global, key: u32, kind: u32) -> Result<Bytes, AllocError>
    ensures { IfOk result (λ bytes. bytes ≡ line_of key kind) }
{
    let name = key % 50;
    let value = kind % 1000;
    if kind % 64 == 0 {
        let text = String::from_str(alloc, FAILING)?;
        return Ok(Bytes::from_vec(text.into_bytes()));
    }
    if kind % 2 == 1 {
        let text = format!(in alloc; "set k{name} v{value}\n")?;
        return Ok(Bytes::from_vec(text.into_bytes()));
    }
    let text = format!(in alloc; "get k{name}\n")?;
    Ok(Bytes::from_vec(text.into_bytes()))
}

// A message, by three draws.
fn message(alloc: Global, state: &mut u32) -> Result<LinkEvent, AllocError>
    ensures message { IfOk result (λ event. event ≡ message state.old) }
    ensures state { state.new ≡ third_state state.old }
{
    let conn = (draw(state) % 4) as Conn;
    let key = draw(state);
    let kind = draw(state);
    let line = line_of(alloc, key, kind)?;
    Ok(LinkEvent::Piece(conn, line))
}

// So many messages, behind other events.
fn add_messages(
    alloc: Global,
    events: &mut Vec<LinkEvent>,
    seed: u32,
    count: u32,
) -> Result<(), AllocError>
    ensures { OnOk result (events.new.items ≡ events.old.items ++ messages count seed) }
{
    let mut state = seed;
    for _ in 0..count {
        let event = message(alloc, &mut state)?;
        events.push(event)?;
    }
    Ok(())
}

// Four connections open.
fn open_clients(alloc: Global) -> Result<Vec<LinkEvent>, AllocError>
    ensures { IfOk result (λ events. events.items ≡ opening) }
{
    let mut events = Vec::new(alloc);
    events.push(LinkEvent::Opens(0))?;
    events.push(LinkEvent::Opens(1))?;
    events.push(LinkEvent::Opens(2))?;
    events.push(LinkEvent::Opens(3))?;
    Ok(events)
}

// The four connections close, behind other events.
#[tactic(auto, using(crate::proofs::GeneratorLemmas::four_more))]
fn close_clients(events: &mut Vec<LinkEvent>) -> Result<(), AllocError>
    ensures { OnOk result (events.new.items ≡ events.old.items ++ closing) }
{
    events.push(LinkEvent::Closes(0))?;
    events.push(LinkEvent::Closes(1))?;
    events.push(LinkEvent::Closes(2))?;
    events.push(LinkEvent::Closes(3))?;
    Ok(())
}

/// The events of a drill: four connections open, then so many messages come, then the connections close.
#[tactic(auto, unfolding(crate::specs::Generator::drill_events))]
pub fn drill_events(alloc: Global, seed: u32, count: u32) -> Result<Vec<LinkEvent>, AllocError>
    ensures { IfOk result (λ events. events.items ≡ drill_events seed count) }
{
    let mut events = open_clients(alloc)?;
    add_messages(alloc, &mut events, seed, count)?;
    close_clients(&mut events)?;
    Ok(events)
}

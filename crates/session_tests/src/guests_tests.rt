// Example guests by themselves, without a session: where malloc answers them in an environment, and how they fail. The addresses
// are worked out from the start of the heap, which is 0x12000 for overflow and 0x13000 for tell_free.
ghost use Rattle.std.specs.Prelude.{◌≡◌, ◌<◌, ◌^◌, length, true, None, IfOk};
ghost use Rattle.run_history.specs.Machine.{Wants};
ghost use Rattle.run_history.specs.Run.{does};

use alloc_env::Env;
use guest_cpu::{Cpu, Event};
use guest_space::AllMapped;
use rx_base::{Bytes, Item, Steps};
use std::alloc::Global;
use std::marker::Brand;
use std::process::Abort;
use std::sync::ledger::{Blank, Ledger};
use std::test::Fail;
use test_rows::image_of;

// The guest, the environment, and its blocks behind the message `hi`, with the cause where it fails then.
#[rattlefmt::skip]
static GUESTS: [(&str, Env, &str); 4] = [
    ("overflow", Env::Plain, "12000 12010 "),
    ("overflow", Env::Pad, "12100 12310 "), // 256 and 784 bytes above
    ("tell_free", Env::Plain, "13000 BadFree "),
    ("tell_free", Env::Pad, "13100 BadFree "),
];

// An item of connection 0 with few bytes.
fn item_of(alloc: Global, kind: u8, text: &str) -> Result<Item, Fail>
    requires { length text.now < 2 ^ 32 }
    ensures { IfOk result (λ item. length item.bytes < 2 ^ 32) }
{
    Ok(Item {
        kind,
        conn: 0,
        bytes: Bytes::from_vec(text.as_bytes().to_vec(alloc)?),
    })
}

// Runs to the next request, and notes blocks; or to a failure, which is noted too.
fn runs_to_request<L: Ledger>(
    rt: &impl Abort,
    alloc: Global,
    cpu: &mut Cpu<AllMapped>,
    env: Env,
    seen: &mut String,
    steps: &mut Steps<L>,
) -> Result<bool, Fail>
    requires { cpu.old.slots.live.ended ≡ None }
    ensures lives { cpu.new.slots.live.ended ≡ None }
    ensures asks { IfOk result (λ asks. asks ≡ true → does None None cpu.new.slots.live.guest.machine ≡ Wants) }
{
    for _ in 0..4 {
        assert!(rt; cpu.marks().steps < 1000);
        match cpu.run_to_event(alloc, env, 1000, steps)? {
            Event::Asks => return Ok(true),
            Event::Chooses(choice) => {
                let line = format!(in alloc; "{:x} ", choice.at)?;
                seen.push_str(&line)?;
            }
            Event::Failed(cause) => {
                let line = format!(in alloc; "{cause:?} ")?;
                seen.push_str(&line)?;
                return Ok(false);
            }
            Event::Emits(_, _) => {}
            Event::Exits(_) => panic!(rt; "no exit is there"),
        }
    }
    panic!(rt; "it doesn't ask")
}

// The guest comes to a request, and takes the item.
fn hears<L: Ledger>(
    rt: &impl Abort,
    alloc: Global,
    cpu: &mut Cpu<AllMapped>,
    env: Env,
    item: &Item,
    steps: &mut Steps<L>,
) -> Result<(), Fail>
    requires lives { cpu.old.slots.live.ended ≡ None }
    requires short { length item.now.bytes < 2 ^ 32 }
    ensures { cpu.new.slots.live.ended ≡ None }
{
    let mut seen = String::new(alloc);
    assert!(rt; runs_to_request(rt, alloc, cpu, env, &mut seen, steps)?);
    assert!(rt; seen.is_empty());
    assert!(rt; cpu.marks().steps < 1000);
    cpu.take_item(item, steps);
    Ok(())
}

fn try_guest<L: Ledger>(
    rt: &impl Abort,
    alloc: Global,
    (name, env, expected): (&str, Env, &str),
    steps: &mut Steps<L>,
) -> Result<(), Fail> {
    let image = image_of(alloc, name)?;
    let pages = image.window / 4096;
    let mut cpu = Cpu::make(alloc, &image, 1, 2 * pages, AllMapped)?;
    let opened = item_of(alloc, 1, "")?;
    hears(rt, alloc, &mut cpu, env, &opened, steps)?;
    let message = item_of(alloc, 2, "hi")?;
    hears(rt, alloc, &mut cpu, env, &message, steps)?;
    let mut seen = String::new(alloc);
    runs_to_request(rt, alloc, &mut cpu, env, &mut seen, steps)?;
    assert!(rt; seen.as_str() == expected, "{name} in {env:?}");
    Ok(())
}

fn try_guests<L: Ledger>(rt: &impl Abort, alloc: Global, blank: Blank) -> Result<(), Fail>
    requires name { blank.name ≡ L.name }
    requires parts { blank.parts ≡ L.parts }
    requires some { 0 < blank.parts }
{
    let mut steps = Steps::<L>::start(blank);
    for row in GUESTS.iter() {
        try_guest(rt, alloc, *row, &mut steps)?;
    }
    Ok(())
}

#[test]
fn guests_are_given_blocks_by_the_table(rt: HostRuntime) -> Result<(), Fail> {
    try_guests::<Brand>(&rt, rt.alloc(), Blank::new(1))
}

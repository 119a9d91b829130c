use example_guests::source_of;
use rv_asm::assemble;
use std::test::Fail;

// The window of 1 MiB, which the assembler's command takes.
const WINDOW: u32 = 1 << 20;

const NAMES: [&str; 17] = [
    "three",
    "echo",
    "counter",
    "divide",
    "null",
    "overflow",
    "unset",
    "twice",
    "stale",
    "tell_free",
    "tell_over",
    "pair",
    "late",
    "dirty",
    "keys",
    "grow",
    "stale_grow",
];

#[test]
fn each_name_has_a_text_that_assembles(rt: HostRuntime) -> Result<(), Fail> {
    for name in NAMES {
        let text = source_of(name).ok_or(name)?;
        assemble(rt.alloc(), text.as_bytes(), WINDOW)?;
    }
    for name in ["thre", "", "Echo"] {
        assert!(rt; source_of(name).is_none(), "{name}");
    }
    Ok(())
}

// What no clause says of the words: that a command comes out of them, and the sentences for a person. All values are worked out by
// hand from the table in the documents. A line of a table is a case; one space parts its words.
use command_line::{
    COMMANDS, CommandName, OptionRow, POSITIONALS, asked_help, complaint, help_text, is_command,
    read_command, usage,
};
use std::alloc::Global;
use std::process::Abort;
use std::test::Fail;

// The words of a line. A line without a byte has none.
fn words_of(alloc: Global, line: &str) -> Result<Vec<String>, Fail> {
    let mut words = Vec::new(alloc);
    if line.is_empty() {
        return Ok(words);
    }
    for word in line.split(' ') {
        words.push(String::from_str(alloc, word)?)?;
    }
    Ok(words)
}

// What comes of the words of a line: the command, on which our own check has to agree, or what a person is told.
fn answer_to(rt: &impl Abort, alloc: Global, line: &str, is_told: bool) -> Result<String, Fail> {
    let words = words_of(alloc, line)?;
    if is_told {
        return Ok(complaint(alloc, words.as_slice())?);
    }
    let command = read_command(alloc, words.as_slice())?;
    assert!(rt; is_command(words.as_slice()) == command.is_some(), "{line}");
    Ok(format!(in alloc; "{command:?}")?)
}

// Each line of a table behind this front has the answer that stands behind its arrow, or the usual one.
fn are_answered(
    rt: &impl Abort,
    alloc: Global,
    (front, usual): (&str, &str),
    table: &str,
    is_told: bool,
) -> Result<(), Fail> {
    for row in table.lines() {
        let (end, expected) = row.split_once(" => ").unwrap_or((row, usual));
        let line = format!(in alloc; "{front}{end}")?;
        let answer = answer_to(rt, alloc, line.as_str(), is_told)?;
        assert!(rt; answer.as_str() == expected, "{row}, and not {answer}");
    }
    Ok(())
}

// What `run p --record r --report t` is, in whatever order.
const SHORTEST: &str =
    "Some(Run(RunCommand { program: \"p\", recording: \"r\", report: \"t\", form: Text, frame: Line, window: 4, hold: 0, ring: 8, every: 1, frames: 4, budget: 1000000, keep: 4, env: Plain, guard: Off }))";

// The program and the two names in each order.
const ORDERS: &str = "\
    run p --record r --report t\n\
    run p --report t --record r\n\
    run --record r p --report t\n\
    run --report t p --record r\n\
    run --record r --report t p\n\
    run --report t --record r p\n\
    run --hold 0 p --window 4 --record r --ring 8 --report t --budget 1000000 --keep 4\n\
    run --guard off --durable on --budget 1000000 --report t --frames 4 --record r --every 1 p --form text\n";

const ACCEPTED: &str = "\
    run --record r --report t p --form json --frame length --window 64 --hold 1000 --ring 16 --every 64 --frames 16 --budget 68719476736 --keep 4294967295 --env all --guard block => Some(Run(RunCommand { program: \"p\", recording: \"r\", report: \"t\", form: Json, frame: Length, window: 64, hold: 1000, ring: 16, every: 64, frames: 16, budget: 68719476736, keep: 4294967295, env: All, guard: Block }))\n\
    run p --guard extent --keep 1 --env pad --budget 1 --frames 2 --every 1 --ring 1 --hold 0 --window 1 --frame whole --form text --report t --record r => Some(Run(RunCommand { program: \"p\", recording: \"r\", report: \"t\", form: Text, frame: Whole, window: 1, hold: 0, ring: 1, every: 1, frames: 2, budget: 1, keep: 1, env: Pad, guard: Extent }))\n\
    run --frame line --ring 10 p --hold 9 --record r --every 7 --report t --window 5 => Some(Run(RunCommand { program: \"p\", recording: \"r\", report: \"t\", form: Text, frame: Line, window: 5, hold: 9, ring: 10, every: 7, frames: 4, budget: 1000000, keep: 4, env: Plain, guard: Off }))\n\
    run run --record asm --report = => Some(Run(RunCommand { program: \"run\", recording: \"asm\", report: \"=\", form: Text, frame: Line, window: 4, hold: 0, ring: 8, every: 1, frames: 4, budget: 1000000, keep: 4, env: Plain, guard: Off }))\n\
    run 0 --record a-b --report c--d --frames 3 --budget 999 => Some(Run(RunCommand { program: \"0\", recording: \"a-b\", report: \"c--d\", form: Text, frame: Line, window: 4, hold: 0, ring: 8, every: 1, frames: 3, budget: 999, keep: 4, env: Plain, guard: Off }))\n\
    run p --budget 4294967297 --record r --report t => Some(Run(RunCommand { program: \"p\", recording: \"r\", report: \"t\", form: Text, frame: Line, window: 4, hold: 0, ring: 8, every: 1, frames: 4, budget: 4294967297, keep: 4, env: Plain, guard: Off }))\n\
    asm a b => Some(Asm(AsmCommand { source: \"a\", out: \"b\" }))\n\
    asm asm run => Some(Asm(AsmCommand { source: \"asm\", out: \"run\" }))\n\
    replay p r => Some(Replay(ReplayCommand { program: \"p\", recording: \"r\" }))\n\
    replay run run => Some(Replay(ReplayCommand { program: \"run\", recording: \"run\" }))\n\
    convert p r o => Some(Convert(ConvertCommand { program: \"p\", recording: \"r\", out: \"o\" }))\n\
    convert p p q => Some(Convert(ConvertCommand { program: \"p\", recording: \"p\", out: \"q\" }))\n\
    convert p r p => Some(Convert(ConvertCommand { program: \"p\", recording: \"r\", out: \"p\" }))\n\
    standby p r c --record o => Some(Standby(StandbyCommand { program: \"p\", recorded: \"r\", counts: \"c\", recording: \"o\", budget: 1000000 }))\n\
    standby --budget 68719476736 p --record o r c => Some(Standby(StandbyCommand { program: \"p\", recorded: \"r\", counts: \"c\", recording: \"o\", budget: 68719476736 }))\n\
    standby 1 2 3 --budget 1 --record standby => Some(Standby(StandbyCommand { program: \"1\", recorded: \"2\", counts: \"3\", recording: \"standby\", budget: 1 }))\n\
    resume p r q c --record o --report t => Some(Resume(ResumeCommand { program: \"p\", recorded: \"r\", reported: \"q\", counts: \"c\", recording: \"o\", report: \"t\", form: Text, hold: 0, ring: 8, every: 1, frames: 4, budget: 1000000, keep: 4, env: Plain, guard: Off }))\n\
    resume --hold 1000 1 --ring 16 2 --every 64 3 --report 6 --record 5 4 --frames 16 --keep 12 --env zero --budget 1 --form json --guard block --durable on --tell off => Some(Resume(ResumeCommand { program: \"1\", recorded: \"2\", reported: \"3\", counts: \"4\", recording: \"5\", report: \"6\", form: Json, hold: 1000, ring: 16, every: 64, frames: 16, budget: 1, keep: 12, env: Zero, guard: Block }))\n\
    serve p 80 1 --record r --report t => Some(Serve(ServeCommand { session: RunCommand { program: \"p\", recording: \"r\", report: \"t\", form: Text, frame: Line, window: 4, hold: 0, ring: 8, every: 1, frames: 4, budget: 1000000, keep: 4, env: Plain, guard: Off }, port: 80, conns: 1, patience: 60, at_once: 1, stops: false, drain: 10 }))\n\
    serve --patience 0 p --record 80 --report 1 65535 --frame whole 4096 --form json --window 64 --ring 16 --every 64 --frames 16 --budget 68719476736 => Some(Serve(ServeCommand { session: RunCommand { program: \"p\", recording: \"80\", report: \"1\", form: Json, frame: Whole, window: 64, hold: 0, ring: 16, every: 64, frames: 16, budget: 68719476736, keep: 4, env: Plain, guard: Off }, port: 65535, conns: 4096, patience: 0, at_once: 1, stops: false, drain: 10 }))\n\
    serve 1 1 1 --record r --report t --patience 3600 --guard extent --keep 2 --env isolate => Some(Serve(ServeCommand { session: RunCommand { program: \"1\", recording: \"r\", report: \"t\", form: Text, frame: Line, window: 4, hold: 0, ring: 8, every: 1, frames: 4, budget: 1000000, keep: 2, env: Isolate, guard: Extent }, port: 1, conns: 1, patience: 3600, at_once: 1, stops: false, drain: 10 }))\n\
    serve p 80 2 --at-once 256 --record r --report t => Some(Serve(ServeCommand { session: RunCommand { program: \"p\", recording: \"r\", report: \"t\", form: Text, frame: Line, window: 4, hold: 0, ring: 8, every: 1, frames: 4, budget: 1000000, keep: 4, env: Plain, guard: Off }, port: 80, conns: 2, patience: 60, at_once: 256, stops: false, drain: 10 }))\n\
    serve p 80 2 --stop input --drain 0 --record none --record-full stop --report t => Some(Serve(ServeCommand { session: RunCommand { program: \"p\", recording: \"none\", report: \"t\", form: Text, frame: Line, window: 4, hold: 0, ring: 8, every: 1, frames: 4, budget: 1000000, keep: 4, env: Plain, guard: Off }, port: 80, conns: 2, patience: 60, at_once: 1, stops: true, drain: 0 }))\n\
    serve p 80 2 --stop never --drain 3600 --record r --record-full end --report t => Some(Serve(ServeCommand { session: RunCommand { program: \"p\", recording: \"r\", report: \"t\", form: Text, frame: Line, window: 4, hold: 0, ring: 8, every: 1, frames: 4, budget: 1000000, keep: 4, env: Plain, guard: Off }, port: 80, conns: 2, patience: 60, at_once: 1, stops: false, drain: 3600 }))\n\
    diagnose p --record r --report t --diagnosis d => Some(Diagnose(DiagnoseCommand { session: RunCommand { program: \"p\", recording: \"r\", report: \"t\", form: Text, frame: Line, window: 4, hold: 0, ring: 8, every: 1, frames: 4, budget: 1000000, keep: 4, env: Plain, guard: Extent }, diagnosis: \"d\" }))\n\
    diagnose --diagnosis d --hold 7 --keep 8 --env delay --report t p --record r --form json => Some(Diagnose(DiagnoseCommand { session: RunCommand { program: \"p\", recording: \"r\", report: \"t\", form: Json, frame: Line, window: 4, hold: 7, ring: 8, every: 1, frames: 4, budget: 1000000, keep: 8, env: Delay, guard: Extent }, diagnosis: \"d\" }))\n\
    drill 0 1 => Some(Drill(DrillCommand { seed: 0, count: 1 }))\n\
    drill 4294967295 100000 => Some(Drill(DrillCommand { seed: 4294967295, count: 100000 }))\n\
    drill 7 7 => Some(Drill(DrillCommand { seed: 7, count: 7 }))\n\
    frame => Some(Frame)\n\
    unframe => Some(Unframe)\n";

// Refused behind `run p --record r --report t `.
const REFUSED_ENDS: &str = "\
    --ring 0\n\
    --ring 08\n\
    --ring 17\n\
    --ring 2 --ring 2\n\
    --durable\n\
    --durable yes\n\
    --record-full\n\
    --record-full never\n\
    --stop input\n\
    --drain 1\n\
    --ring\n\
    --ring \n\
    --ring +5\n\
    --ring -5\n\
    --ring 5x\n\
    --ring x\n\
    --ring --hold\n\
    --hold=2\n\
    --hold -1\n\
    --hold 1001\n\
    --hold 00\n\
    --window 0\n\
    --window 65\n\
    --every 0\n\
    --every 65\n\
    --frames 1\n\
    --frames 17\n\
    --budget 0\n\
    --budget 68719476737\n\
    --budget 12345678901234567890\n\
    --budget 18446744073709551617\n\
    --hold 4294967296\n\
    --keep 0\n\
    --keep 04\n\
    --keep 4294967296\n\
    --keep\n\
    --keep 4 --keep 4\n\
    --env none\n\
    --env Pad\n\
    --env\n\
    --env pad --env pad\n\
    --form xml\n\
    --form Text\n\
    --form \n\
    --frame lines\n\
    --frame\n\
    --\n\
    -\n\
    -h\n\
    --help\n\
    --version\n\
    -r 2\n\
    --Ring 2\n\
    ring 2\n\
    q\n\n\
    --hold 2 --ring 2 --hold 2\n\
    --window 4 --window 5\n\
    --every 1 --every 1\n\
    --frames 4 --frames 4\n\
    --budget 1 --budget 2\n\
    --form text --form json\n\
    --guard on\n\
    --guard Block\n\
    --guard \n\
    --guard\n\
    --guard extent --guard extent\n\
    --frame line --frame line\n\
    --record s\n\
    --record r\n\
    --report s\n\
    --color red\n\
    -- q\n";

const REFUSED: &str = "\n \n\
    run\n\
    run p\n\
    run p --record r\n\
    run p --report t\n\
    run --record r --report t\n\
    run p --record r --report r\n\
    run p --record p --report t\n\
    run p --record r --report p\n\
    run  --record r --report t\n\
    run -p --record r --report t\n\
    run p --record  --report t\n\
    run p --record -r --report t\n\
    run p --record r --report\n\
    run p --record=r --report=t\n\
    --ring 2 run p --record r --report t\n\
    p run --record r --report t\n\
    Run p --record r --report t\n\
    runs p --record r --report t\n\
    drill p 80 1 --record r --report t\n\
    -h\n\
    asm\n\
    asm a\n\
    asm a a\n\
    asm a \n\
    asm a b c\n\
    asm a b --ring 2\n\
    asm -a b\n\
    asm a b --\n\
    replay\n\
    replay p\n\
    replay p r q\n\
    replay p r --ring 2\n\
    replay p --record r\n\
    replay -p r\n\
    replay p -r\n\
    replay p \n\
    convert\n\
    convert p\n\
    convert p r\n\
    convert p r r\n\
    convert p r o q\n\
    convert p r o --ring 2\n\
    convert p r -o\n\
    convert p r \n\
    converts p r o\n\
    standby\n\
    standby p r --record o\n\
    standby p r c\n\
    standby p r c o\n\
    standby p r c q --record o\n\
    standby p p c --record o\n\
    standby p r p --record o\n\
    standby p r r --record o\n\
    standby p r c --record p\n\
    standby p r c --record r\n\
    standby p r c --record c\n\
    standby p r -c --record o\n\
    standby p r c --record o --budget 0\n\
    standby p r c --record o --budget 68719476737\n\
    standby p r c --record o --budget 01\n\
    standby p r c --record o --record o\n\
    standby p r c --record o --window 4\n\
    standby p r c --record o --frame line\n\
    standby p r c --record o --report t\n\
    standby p r c --record o --tell off\n\
    standby p r c --record o --keep 4\n\
    standby p r c --record o --env plain\n\
    resume\n\
    resume p r c --record o --report t\n\
    resume p r q c --record o\n\
    resume p r q c --report t\n\
    resume p r q c d --record o --report t\n\
    resume p r q p --record o --report t\n\
    resume p r r c --record o --report t\n\
    resume p r q q --record o --report t\n\
    resume p r q c --record r --report t\n\
    resume p r q c --record q --report t\n\
    resume p r q c --record o --report q\n\
    resume p r q c --record o --report c\n\
    resume p r q c --record o --report o\n\
    resume p r q c --record o --report t --window 4\n\
    resume p r q c --record o --report t --frame line\n\
    resume p r q c --record o --report t --hold 1001\n\
    resume p r q c --record o --report t --ring 0\n\
    resume p r q c --record o --report t --keep 0\n\
    resume p r q c --record o --report t --env none\n\
    stand p r c --record o\n\
    run p --record r --report t --patience 5\n\
    serve\n\
    serve p 80 --record r --report t\n\
    serve p 80 1 2 --record r --report t\n\
    serve p 0 1 --record r --report t\n\
    serve p 080 1 --record r --report t\n\
    serve p 65536 1 --record r --report t\n\
    serve p +1 1 --record r --report t\n\
    serve p x 1 --record r --report t\n\
    serve p 80 0 --record r --report t\n\
    serve p 80 4097 --record r --report t\n\
    serve p 80 01 --record r --report t\n\
    serve 80 p 1 --record r --report t\n\
    serve p 80 1 --record r\n\
    serve p 80 1 --record r --report r\n\
    serve p 80 1 --record p --report t\n\
    serve p 80 1 --record r --report t --hold 0\n\
    serve p 80 1 --record r --report t --patience 3601\n\
    serve p 80 1 --record r --report t --patience 05\n\
    serve p 80 1 --record r --report t --patience 5 --patience 5\n\
    serve p 80 1 --record r --report t --at-once 0\n\
    serve p 80 1 --record r --report t --at-once 257\n\
    serve p 80 1 --record r --report t --at-once 01\n\
    serve p 80 1 --record r --report t --at-once 2 --at-once 2\n\
    serve p 80 1 --record r --report t --stop\n\
    serve p 80 1 --record r --report t --stop on\n\
    serve p 80 1 --record r --report t --drain 3601\n\
    serve p 80 1 --record r --report t --drain 01\n\
    run p --record r --report t --at-once 1\n\
    diagnose p --record r --report t\n\
    diagnose p --record r --report t --diagnosis p\n\
    diagnose p --record r --report t --diagnosis r\n\
    diagnose p --record r --report t --diagnosis t\n\
    run p --record r --report t --diagnosis d\n\
    drill\n\
    drill 1\n\
    drill 1 2 3\n\
    drill 01 1\n\
    drill -1 1\n\
    drill 4294967296 1\n\
    drill 0 0\n\
    drill 0 100001\n\
    drill 0 +1\n\
    drill p 1\n\
    drill 0 1 --ring 2\n\
    frame a\n\
    frame \n\
    frame --frame line\n\
    frame --\n\
    Frame\n\
    unframe a\n\
    unframe --form text\n\
    help\n\
    help run\n\
    help frame\n\
    run --help\n\
    frame --help\n\
    --help\n\
    --version\n\
    serve p 80 1 --record r --report t --guard blocks\n\
    asm a b --guard off\n\
    replay p r --guard off\n";

const COMPLAINTS: &str =
    " => word 1: the command is missing, run or asm or replay or convert or standby or resume or serve or diagnose or drill or frame or unframe\n\
    dril p => word 1: the command is run or asm or replay or convert or standby or resume or serve or diagnose or drill or frame or unframe, not dril\n\
    drill p => word 2: SEED is 0 to 4294967295, not p\n\
    drill 4294967296 => word 2: SEED is 0 to 4294967295, not 4294967296\n\
    drill 1 100001 => word 3: COUNT is 1 to 100000, not 100001\n\
    drill 1 => word 3: COUNT is missing\n\
    drill 1 1 --ring 2 => word 4: --ring is no option of drill\n\
    drill 1 1 => \n\
    frame a => word 2: a is one name too many for frame\n\
    frame --form text => word 2: --form is no option of frame\n\
    unframe => \n\
    diagnose p --record r --report t => word 7: --diagnosis is missing, a name\n\
    diagnose p --diagnosis r --report t --record r => word 8: --record and --diagnosis are two names, not r twice\n\
    serve p 80 1 --at-once 257 => word 6: --at-once is 1 to 256, not 257\n\
    serve p => word 3: PORT is missing\n\
    serve p 65536 => word 3: PORT is 1 to 65535, not 65536\n\
    serve p --record r 80 0 => word 6: CONNS is 1 to 4096, not 0\n\
    serve p 80  => word 4: CONNS is 1 to 4096, not nothing\n\
    serve p 80 1 q => word 5: q is one name too many for serve\n\
    serve p 80 1 --hold 0 => word 5: --hold is no option of serve\n\
    serve p 80 1 --patience 3601 => word 6: --patience is 0 to 3600, not 3601\n\
    serve p 80 1 --record p --report t => word 6: PROGRAM and --record are two names, not p twice\n\
    serve p 80 1 --record r --report t => \n\
    run p --ring 08 --record r --report t => word 4: --ring is 1 to 16, not 08\n\
    run p --hold=2 => word 3: --hold=2 is no option of run\n\
    run --hold 1001 => word 3: --hold is 0 to 1000, not 1001\n\
    run p --ring 2 --ring 2 => word 5: --ring is given once, not again\n\
    run p --ring => word 4: --ring is 1 to 16, not nothing\n\
    run p --record -r => word 4: --record is a name, not -r\n\
    run p --form xml => word 4: --form is text or json, not xml\n\
    run p --frame lines => word 4: --frame is line or length or whole, not lines\n\
    run p --guard on => word 4: --guard is off or extent or block, not on\n\
    run p -h => word 3: -h is no option of run\n\
    run p --keep 0 => word 4: --keep is 1 to 4294967295, not 0\n\
    run p --env none => word 4: --env is plain or pad or zero or isolate or delay or all, not none\n\
    run p q => word 3: q is one name too many for run\n\
    run p --budget 68719476737 => word 4: --budget is 1 to 68719476736, not 68719476737\n\
    run  => word 2: PROGRAM is a name, not nothing\n\
    run => word 2: PROGRAM is missing\n\
    run p => word 3: --record is missing, a name\n\
    run p --record r => word 5: --report is missing, a name\n\
    run p --record r --report r => word 6: --record and --report are two names, not r twice\n\
    run p --record p --report t => word 4: PROGRAM and --record are two names, not p twice\n\
    asm a a => word 3: SOURCE and OUT are two names, not a twice\n\
    asm a b => \n\
    replay p => word 3: RECORD is missing\n\
    replay p r --ring 2 => word 4: --ring is no option of replay\n\
    replay p p => \n\
    convert p r => word 4: OUT is missing\n\
    convert p r r => word 4: RECORD and OUT are two names, not r twice\n\
    convert r r o => \n\
    convert p r o --ring 2 => word 5: --ring is no option of convert\n\
    standby p r => word 4: COUNTS is missing\n\
    standby p r c => word 5: --record is missing, a name\n\
    standby p r c --window 4 => word 5: --window is no option of standby\n\
    standby p r c --budget 0 => word 6: --budget is 1 to 68719476736, not 0\n\
    standby r r c --record o => word 3: PROGRAM and RECORD are two names, not r twice\n\
    standby c r c --record o => word 4: PROGRAM and COUNTS are two names, not c twice\n\
    standby p r r --record o => word 4: RECORD and COUNTS are two names, not r twice\n\
    standby --record p p r c => word 4: PROGRAM and --record are two names, not p twice\n\
    standby p r c --record r => word 6: RECORD and --record are two names, not r twice\n\
    standby p r c --record c => word 6: COUNTS and --record are two names, not c twice\n\
    standby p r c --record o => \n\
    resume p r q => word 5: COUNTS is missing\n\
    resume p r q c => word 6: --record is missing, a name\n\
    resume p r q c --window 4 => word 6: --window is no option of resume\n\
    resume p r q c --record o --report t => \n";

const RUN_USAGE: &str = "run PROGRAM and in any place, each once:
  --record a name, always
  --report a name, always
  --form text or json (text)
  --frame line or length or whole (line)
  --window 1 to 64 (4)
  --hold 0 to 1000 (0)
  --ring 1 to 16 (8)
  --every 1 to 64 (1)
  --frames 2 to 16 (4)
  --budget 1 to 68719476736 (1000000)
  --keep 1 to 4294967295 (4)
  --env plain or pad or zero or isolate or delay or all (plain)
  --guard off or extent or block (off)
  --tell auto or on or off (auto)
  --durable on or off (off)
  --record-full end or stop (end)
";

const RESUME_USAGE: &str = "resume PROGRAM RECORD REPORT COUNTS and in any place, each once:
  --record a name, always
  --report a name, always
  --form text or json (text)
  --hold 0 to 1000 (0)
  --ring 1 to 16 (8)
  --every 1 to 64 (1)
  --frames 2 to 16 (4)
  --budget 1 to 68719476736 (1000000)
  --keep 1 to 4294967295 (4)
  --env plain or pad or zero or isolate or delay or all (plain)
  --guard off or extent or block (off)
  --tell auto or on or off (auto)
  --durable on or off (off)
  --record-full end or stop (end)
";

const STANDBY_USAGE: &str = "standby PROGRAM RECORD COUNTS and in any place, each once:
  --record a name, always
  --budget 1 to 68719476736 (1000000)
";

const OTHERS_USAGE: &str = "asm SOURCE OUT
replay PROGRAM RECORD
convert PROGRAM RECORD OUT
standby PROGRAM RECORD COUNTS and in any place, each once:
  --record a name, always
  --budget 1 to 68719476736 (1000000)
resume PROGRAM RECORD REPORT COUNTS and in any place, each once:
  --record a name, always
  --report a name, always
  --form text or json (text)
  --hold 0 to 1000 (0)
  --ring 1 to 16 (8)
  --every 1 to 64 (1)
  --frames 2 to 16 (4)
  --budget 1 to 68719476736 (1000000)
  --keep 1 to 4294967295 (4)
  --env plain or pad or zero or isolate or delay or all (plain)
  --guard off or extent or block (off)
  --tell auto or on or off (auto)
  --durable on or off (off)
  --record-full end or stop (end)
";

const SERVE_USAGE: &str =
    "serve PROGRAM PORT (1 to 65535) CONNS (1 to 4096) and in any place, each once:
  --record a name, always
  --report a name, always
  --form text or json (text)
  --frame line or length or whole (line)
  --window 1 to 64 (4)
  --ring 1 to 16 (8)
  --every 1 to 64 (1)
  --frames 2 to 16 (4)
  --budget 1 to 68719476736 (1000000)
  --keep 1 to 4294967295 (4)
  --env plain or pad or zero or isolate or delay or all (plain)
  --guard off or extent or block (off)
  --patience 0 to 3600 (60)
  --at-once 1 to 256 (1)
  --stop never or input (never)
  --drain 0 to 3600 (10)
  --tell auto or on or off (auto)
  --durable on or off (off)
  --record-full end or stop (end)
";

const DIAGNOSE_USAGE: &str = "diagnose PROGRAM and in any place, each once:
  --record a name, always
  --report a name, always
  --diagnosis a name, always
  --form text or json (text)
  --frame line or length or whole (line)
  --window 1 to 64 (4)
  --hold 0 to 1000 (0)
  --ring 1 to 16 (8)
  --every 1 to 64 (1)
  --frames 2 to 16 (4)
  --budget 1 to 68719476736 (1000000)
  --keep 1 to 4294967295 (4)
  --env plain or pad or zero or isolate or delay or all (plain)
  --guard off or extent or block (extent)
  --tell auto or on or off (auto)
  --durable on or off (off)
  --record-full end or stop (end)
drill SEED (0 to 4294967295) COUNT (1 to 100000)
frame
unframe
";

// What the words of a line ask of the program itself.
const ASKED: &str = " => None\n\
    help => Some(All)\n\
    --help => Some(All)\n\
    -h => Some(All)\n\
    --version => Some(Version)\n\
    -v => None\n\
    version => None\n\
    Help => None\n\
    help run => Some(Of(Run))\n\
    help asm => Some(Of(Asm))\n\
    help replay => Some(Of(Replay))\n\
    help convert => Some(Of(Convert))\n\
    help standby => Some(Of(Standby))\n\
    help resume => Some(Of(Resume))\n\
    help serve => Some(Of(Serve))\n\
    help diagnose => Some(Of(Diagnose))\n\
    help drill => Some(Of(Drill))\n\
    help frame => Some(Of(Frame))\n\
    help unframe => Some(Of(Unframe))\n\
    help help => None\n\
    help --help => None\n\
    help runs => None\n\
    run --help => Some(Of(Run))\n\
    unframe --help => Some(Of(Unframe))\n\
    run -h => None\n\
    run help => None\n\
    --help run => None\n\
    --version run => None\n\
    help run p => None\n\
    run p --help => None\n";

const SERVE_HELP: &str = "serve PROGRAM PORT CONNS --record NAME --report NAME [--OPTION VALUE] ..
  Runs a program for the clients of a port of this machine.
  PROGRAM a name: The file of the program, a static executable.
  PORT 1 to 65535: The port that clients connect to, on 127.0.0.1.
  CONNS 1 to 4096: How many connections are served.
  --record a name: Where the record of the session is written. With none it isn't.
  --report a name: Where the report of the failures is written.
  --form text or json (text): The form of the report.
  --frame line or length or whole (line): How the bytes of a connection are cut into messages.
  --window 1 to 64 (4): The memory of the program, in MiB.
  --ring 1 to 16 (8): How many checkpoints of the program are kept at most.
  --every 1 to 64 (1): How many items are taken from one checkpoint to the next at least.
  --frames 2 to 16 (4): How often the memory of the program is taken, for it and its checkpoints.
  --budget 1 to 68719476736 (1000000): How many instructions may come from one item to the next. 1000000 take 4 ms, 250000000 a second.
  --keep 1 to 4294967295 (4): For how many items more an environment that survived stays in force.
  --env plain or pad or zero or isolate or delay or all (plain): The environment of malloc and free from the start, and where no trial's is in force.
  --guard off or extent or block (off): Which accesses to the heap are refused, by its blocks.
  --patience 0 to 3600 (60): For how many seconds a client is waited for. With 0 it is without limit.
  --at-once 1 to 256 (1): How many clients are served at the same time. With 1 it is one after another.
  --stop never or input (never): Whether a line stop on standard input, or its end, stops it: then no client is accepted any more.
  --drain 0 to 3600 (10): For how many seconds clients that are connected may stay behind a stop.
  --tell auto or on or off (auto): Whether each recovery is told on standard error as it happens.
  --durable on or off (off): Whether an episode is on the disk before replies that come of it are written.
  --record-full end or stop (end): Whether the session ends where its record can't be written any more, or only the record stops.
";

#[test]
fn words_are_read_and_a_person_is_told(rt: HostRuntime) -> Result<(), Fail> {
    for (usual, table) in [
        (("", "no arrow"), ACCEPTED),
        (("", SHORTEST), ORDERS),
        (("run p --record r --report t ", "None"), REFUSED_ENDS),
        (("", "None"), REFUSED),
    ] {
        are_answered(&rt, rt.alloc(), usual, table, false)?;
    }
    are_answered(&rt, rt.alloc(), ("", "no arrow"), COMPLAINTS, true)
}

// A command, and the parts of its usage.
static USAGES: [(&str, [&str; 4]); 8] = [
    ("run", [RUN_USAGE, "", "", ""]),
    ("asm", ["", "asm SOURCE OUT\n", "", ""]),
    ("convert", ["", "convert PROGRAM RECORD OUT\n", "", ""]),
    ("standby", ["", "", STANDBY_USAGE, ""]),
    ("resume", ["", "", RESUME_USAGE, ""]),
    ("serve", ["", "", SERVE_USAGE, ""]),
    (
        "drill",
        [
            "",
            "drill SEED (0 to 4294967295) COUNT (1 to 100000)\n",
            "",
            "",
        ],
    ),
    (
        "help",
        [RUN_USAGE, OTHERS_USAGE, SERVE_USAGE, DIAGNOSE_USAGE],
    ),
];

fn has_usage(alloc: Global, command: &str, parts: [&str; 4]) -> Result<bool, Fail> {
    let [first, rest, last, others] = parts;
    let expected = format!(in alloc; "{first}{rest}{last}{others}")?;
    Ok(usage(alloc, command)?.as_str() == expected.as_str())
}

#[test]
fn usage_is_told(rt: HostRuntime) -> Result<(), Fail> {
    for row in USAGES.iter() {
        let (command, parts) = *row;
        assert!(rt; has_usage(rt.alloc(), command, parts)?, "{command}");
    }
    Ok(())
}

// What the words of a line ask of the program itself.
fn asked_by(alloc: Global, line: &str) -> Result<String, Fail> {
    let words = words_of(alloc, line)?;
    let asked = asked_help(words.as_slice());
    Ok(format!(in alloc; "{asked:?}")?)
}

#[test]
fn help_is_asked_for(rt: HostRuntime) -> Result<(), Fail> {
    for row in ASKED.lines() {
        let (line, expected) = row.split_once(" => ").unwrap_or((row, ""));
        let asked = asked_by(rt.alloc(), line)?;
        assert!(rt; asked.as_str() == expected, "{row}");
    }
    Ok(())
}

// A command, and its help.
static HELPS: [(CommandName, &str); 3] = [
    (CommandName::Serve, SERVE_HELP),
    (
        CommandName::Asm,
        "asm SOURCE OUT\n  Assembles a text, and writes its executable.\n  SOURCE a name: The file of the text that is assembled.\n  OUT a name: The file that is written.\n",
    ),
    (
        CommandName::Frame,
        "frame\n  Turns lines on standard input into frames of the trunk on standard output.\n",
    ),
];

#[test]
fn help_is_told(rt: HostRuntime) -> Result<(), Fail> {
    for row in HELPS.iter() {
        let (name, expected) = *row;
        let told = help_text(rt.alloc(), Some(name))?;
        assert!(rt; told.as_str() == expected, "{name:?}");
    }
    let all = help_text(rt.alloc(), None)?;
    assert!(rt; all.as_str().lines().count() == 22);
    Ok(())
}

// Whether each of these rows has a short sentence.
fn are_short(rows: &[OptionRow]) -> bool {
    for row in rows {
        if row.says.len() > 100 {
            return false;
        }
    }
    true
}

#[test]
fn each_sentence_is_short(rt: HostRuntime) {
    for command in COMMANDS {
        let is_short = command.says.len() <= 100 && are_short(command.options);
        assert!(rt; is_short, "{}", command.says);
    }
    assert!(rt; are_short(&POSITIONALS));
}

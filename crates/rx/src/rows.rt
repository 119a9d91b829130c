// The sentences of standard error, as rows of texts: a name in braces stands for what the command's words, its answer or its files have there.
use crate::seen::Seen;
use command_line::Command;
use replay::Difference;
use run_history::{Answer, Cause};

/// How the sentence for an answer to a command begins, or the whole of it.
pub fn head_of(command: &Command<'_>, answer: Answer, seen: Option<&Seen<'_>>) -> &'static str {
    match answer {
        Answer::FileFault => match (command, seen) {
            (_, Some(Seen::Unread(_, _))) => "the file {file} can't be read: {error}",
            (_, Some(Seen::Unwritten(_, _))) => "the file {file} couldn't be written: {error}",
            (Command::Run(_) | Command::Serve(_), _) =>
                "the program file {program} couldn't be read, or the record {recording} or the report {report} couldn't be written: is the disk full?",
            (Command::Diagnose(_), _) =>
                "the program file {program} couldn't be read, or the record {recording}, the report {report} or the diagnosis {diagnosis} couldn't be written: is the disk full?",
            (Command::Asm(_), _) =>
                "the text {source} couldn't be read, or {out} couldn't be written: is the disk full?",
            (Command::Replay(_), _) =>
                "the program file {program} or the record {recorded} couldn't be read",
            (Command::Convert(_), _) =>
                "the program file {program} or the record {recorded} couldn't be read, or {out} couldn't be written: is the disk full?",
            (Command::Standby(_), _) =>
                "the program file {program}, the record {recorded} or the counts {counts} couldn't be read, or the record {recording} couldn't be written: is the disk full?",
            (Command::Resume(_), _) =>
                "the program file {program}, the record {recorded}, the report {reported} or the counts {counts} couldn't be read, or the record {recording} or the report {report} couldn't be written: is the disk full?",
            _ => OTHER,
        },
        Answer::TooLarge => match (command, seen) {
            (_, Some(Seen::Large(_, _, _))) =>
                "the file {file} has {size} bytes, and {limit} is the limit",
            (Command::Run(_) | Command::Serve(_) | Command::Diagnose(_), _) =>
                "the program file {program} has more than {MAX_PROGRAM} bytes, which is the limit",
            (Command::Asm(_), _) =>
                "the text {source} has more than {MAX_SOURCE} bytes, which is the limit",
            (Command::Replay(_) | Command::Convert(_), _) =>
                "the program file {program} has more than {MAX_PROGRAM} bytes, or the record {recorded} more than {MAX_RECORD}: these are the limits",
            (Command::Standby(_), _) =>
                "the program file {program} has more than {MAX_PROGRAM} bytes, the record {recorded} more than {MAX_RECORD}, or the counts {counts} more than {MAX_COUNTS}: these are the limits",
            (Command::Resume(_), _) =>
                "the program file {program} has more than {MAX_PROGRAM} bytes, the record {recorded} more than {MAX_RECORD}, the report {reported} more than {MAX_REPORT}, or the counts {counts} more than {MAX_COUNTS}: these are the limits",
            _ => OTHER,
        },
        Answer::ElfRefused(_) => "the program file {program} isn't run: {refusal}",
        Answer::AsmRefused { .. } => match (command, seen) {
            (Command::Drill(_), _) =>
                "the text of the server that a drill runs isn't assembled: line {line} is wrong",
            (_, Some(Seen::Explained(_))) => "the text {source} isn't assembled: {explanation}",
            _ => "the text {source} isn't assembled: line {line} is wrong",
        },
        Answer::RecordRefused { .. } => match (command, seen) {
            (Command::Resume(_), _) | (_, Some(Seen::Long)) =>
                "the record {recorded} isn't followed: ",
            _ => "the record {recorded} isn't replayed: ",
        },
        Answer::ReportRefused { .. } => "the report {reported} isn't followed: ",
        Answer::CountsRefused { .. } =>
            "the counts {counts} aren't taken: line {line} isn't of its form, a connection from 0 to 4095 above that of the line before, a space, and how many bytes it has",
        Answer::Short { .. } => match command {
            Command::Resume(_) =>
                "the counts {counts} say that connection {conn} has more bytes than the run sent there, as far as the record {recorded} and the input go: are they of one session, and is the report whole?",
            _ =>
                "the counts {counts} say that connection {conn} has more bytes than the run of the record {recorded} sent there: is it the record of what was served?",
        },
        Answer::Mismatch { .. } => match command {
            Command::Resume(_) =>
                "the program {program} doesn't go on as the record {recorded} and the report {reported} tell: it went as they tell for {step} instructions",
            _ =>
                "the program {program} doesn't go on as the record {recorded} says: it went as recorded for {step} instructions",
        },
        Answer::GaveUp { .. } => match command {
            Command::Standby(_) =>
                "the program {program} failed behind the recorded run, with {point} items taken, opens and closes among them: ",
            _ =>
                "the program {program} failed with {point} items taken, opens and closes among them: ",
        },
        Answer::Exited(_) => "the program {program} ended itself with the code {code}",
        Answer::InputRefused { .. } => match command {
            Command::Frame => "the line that begins at byte {offset} of the input is refused: ",
            Command::Unframe => "the frame at byte {offset} of the input is refused: ",
            _ => "the input's frame at byte {offset} is refused: ",
        },
        Answer::MessageTooLong { .. } =>
            "a message of more than {MAX_MESSAGE} bytes, which is the limit, came on connection {conn}",
        Answer::LimitItems => "more than {MAX_ITEMS} items came, which is the limit of a session",
        Answer::LimitEvents =>
            "more than {MAX_EVENTS} events came, which is the limit of a session",
        Answer::ReadFault => match command {
            Command::Serve(_) =>
                "the port {port} can't be bound on 127.0.0.1, or no connection could be accepted there: it has to be one that is free and that this user may have",
            _ => "standard input can't be read: it has to be open for reading",
        },
        Answer::WriteFault =>
            "standard output can't be written: it has to be open, and its reader still there",
        Answer::Memory => "memory ran out",
        Answer::Finished | Answer::BadWords => OTHER,
    }
}

// What is said where a command doesn't end so.
const OTHER: &str = "the command ended with {answer}";

// A file that has no whole line: its host had begun nothing.
const TORN: &str =
    "it ends before the end of line 1. Its host was killed before it gave anything: take the files that it was handed, or, if it was handed none, run again";

/// How the sentence goes on: up to two texts, one behind the other.
pub fn rest_of(
    command: &Command<'_>,
    answer: Answer,
    seen: Option<&Seen<'_>>,
    difference: Option<Difference>,
) -> [&'static str; 2] {
    match answer {
        Answer::ElfRefused(kind) => match seen {
            Some(Seen::Field(_)) => ["; {field}", advice(kind)],
            _ => ["", advice(kind)],
        },
        Answer::RecordRefused { .. } => match seen {
            Some(Seen::Cut) => [
                "it ends before line {line}, so its last line is missing, as where its session was broken off",
                "",
            ],
            Some(Seen::Long) => [
                "line {line} says that its run has 2^62 instructions or more, which none can be that is followed",
                "",
            ],
            Some(Seen::Torn) => [TORN, ""],
            Some(Seen::Old) => [
                "line {line} says that it is of version 1, whose lines don't say what was asked: if it is whole, convert makes one of version {VERSION} of it",
                "",
            ],
            _ => ["line {line} isn't of its form", ""],
        },
        Answer::ReportRefused { .. } => match seen {
            Some(Seen::Torn) => [TORN, ""],
            _ => [
                "line {line} isn't of its form, or not in its place: failures are numbered from 0, their points rise, and none stands behind one that nothing helped",
                "",
            ],
        },
        Answer::Mismatch { step } => match (command, difference) {
            (Command::Resume(_), _) => [
                if step == 0 {
                    ", or a trial of the report isn't of its failure"
                } else {
                    ""
                },
                ". They have to be of this program, and of this input from its beginning, made under no larger budget, under no weaker guard and with the same --keep and --env",
            ],
            (_, Some(difference)) => [
                difference_text(difference),
                match difference {
                    Difference::Failed { cause } => cause_text(cause),
                    _ => "",
                },
            ],
            _ => ["", ""],
        },
        Answer::GaveUp { cause, .. } => [
            match cause {
                Cause::Hang =>
                    "{budget} instructions came since the last item or the start, which is the limit that --budget sets (some {milliseconds} ms); if the server was only slow, a larger --budget lets it pass",
                _ => cause_text(cause),
            },
            match command {
                Command::Standby(_) => "",
                _ =>
                    "; the report {report} says where, and what was tried. Where most trials are Contradicts, --hold may help, and --every where the fault lies further back than the checkpoints reach",
            },
        ],
        Answer::InputRefused { kind, offset } => match command {
            Command::Frame | Command::Unframe => [turned_flaw(kind), ""],
            _ => [
                frame_flaw(kind),
                if offset == 0 {
                    ". Standard input has to be frames: docs/USING.md says how they are written"
                } else {
                    ""
                },
            ],
        },
        _ => ["", ""],
    }
}

// What to build a program with, whose file is refused by this number: for who didn't write the file by hand.
fn advice(kind: u8) -> &'static str {
    match kind {
        2 => ": only an executable is run, and this is none",
        3 | 6 =>
            ": it is for another machine. A C compiler for RISC-V makes one by -march=rv32im -mabi=ilp32 -static",
        5 | 9 =>
            ": it isn't a static executable. Link it by -static and without -pie, as guests/Makefile does",
        7 =>
            ": it has compressed or floating-point instructions. Compile it by -march=rv32im -mabi=ilp32",
        10 => ": it has thread-local data, of which errno of a C library is mostly the cause",
        _ => "",
    }
}

// Why a program failed.
fn cause_text(cause: Cause) -> &'static str {
    match cause {
        Cause::BadAccess => "it touched memory that it may not touch so",
        Cause::BadJump => "it jumped to an address that is no multiple of 4",
        Cause::BadInstruction => "it came to a word that is no instruction",
        Cause::AssertFailed(_) => "its assertion {code} failed",
        Cause::Hang => "it took no item for too many instructions",
        Cause::BadFree =>
            "it freed what wasn't its own, or had realloc put another block in its place",
        Cause::BadCall => "it made a call with a number in a7 that isn't 1 to 8",
    }
}

// What differs where a run isn't the recorded one.
fn difference_text(difference: Difference) -> &'static str {
    match difference {
        Difference::Ended { .. } =>
            "; then it ended itself with the code {code} before the record's end",
        Difference::Failed { .. } => "; then it failed before the record's end: ",
        Difference::InputEnded => "; then it asks for an item, and the input has ended",
        Difference::NoLine { .. } => "; then it calls {asked}, and {recorded} has no answer left",
        Difference::OtherAsk { .. } =>
            "; then it calls {asked}, and line {line} of {recorded} has {told}",
        Difference::Unusable { carried, .. } if carried > 0 =>
            "; then it calls {asked}, and line {line} of {recorded} answers {at} and carries {carried} bytes, which can't be",
        Difference::Unusable { zeroed: false, .. } =>
            "; then it calls {asked}, and line {line} of {recorded} answers {at}, which can't be",
        Difference::Unusable { zeroed: true, .. } =>
            "; then it calls {asked}, and line {line} of {recorded} answers {at} with zeros, which can't be",
        Difference::LinesLeft { .. } =>
            "; then the record ends, and it has used {used} of the {lines} answers of the allocator there",
        Difference::ItemsApart { .. } =>
            "; then the record ends, and it has taken {taken} items in place of {told}",
    }
}

// What is wrong with a frame of the input, by the number of the refusal.
fn frame_flaw(kind: u8) -> &'static str {
    match kind {
        1 => "its kind has to be 1 (opens), 2 (bytes), 3 (closes) or 4 (settles)",
        2 => "its connection has to be 0 to 4095",
        3 =>
            "it opens a connection that was opened before: each opens once, by one frame of kind 1",
        4 =>
            "its connection isn't open: a frame of kind 1 has to open it, and none of kind 3 may have closed it",
        5 =>
            "the input ends within it: a frame is its kind in one byte, its connection and its length in two bytes each, the lower one first, and as many bytes as its length says",
        6 => "its length has to be 0: only a frame of kind 2 has bytes",
        _ => "it may not stand there",
    }
}

// What is wrong with a line that is to become a frame, or with a frame that is to become a line.
fn turned_flaw(kind: u8) -> &'static str {
    match kind {
        5 => "the input ends within it",
        7 =>
            "a line is +N (N opens), N>TEXT or N<TEXT (a piece), -N (N closes), settle, or empty, or it begins with #",
        8 => "a connection is a number from 0 to 65535, without a sign or a zero in front",
        9 =>
            "a backslash stands before n, r, t, another one, or x and two hexadecimal digits, or at the line's end, where no line feed is wanted",
        10 => "a control byte is written as \\xHH, and a carriage return as \\r",
        11 => "a piece has at most 65535 bytes",
        12 => "it is longer than any piece needs",
        _ => frame_flaw(kind),
    }
}

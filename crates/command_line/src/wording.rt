// What is wrong with words that are refused, for a person.
use crate::accepted::name_at;
use crate::asm_words::{OUT, SOURCE};
use crate::command::commands;
use crate::diagnose_words::diagnosis;
use crate::options::{CommandName, CommandRow, OptionRow, Takes, TakesOf, is_named, takes_value};
use crate::parts::{Part, given, is_there, next_part, positional};
use crate::positionals::positional_named;
use crate::replay_words::RECORDED;
use crate::resume_words::REPORTED;
use crate::run_words::{PROGRAM, recording, report};
use crate::standby_words::COUNTS;
use crate::texts::is_name;
use std::alloc::{AllocError, Global};

// The command of this name.
fn command_named(name: &str) -> Option<&'static CommandRow> {
    for command in commands() {
        if command.name == name {
            return Some(command);
        }
    }
    None
}

// The row of the option that this word names.
fn row_named(rows: &[OptionRow], word: &str) -> Option<OptionRow> {
    for row in rows {
        if is_named(word, row) {
            return Some(*row);
        }
    }
    None
}

// Texts as a choice: `text or json`.
fn choice(alloc: Global, texts: &[&str]) -> Result<String, AllocError> {
    let mut line = String::new(alloc);
    for text in texts {
        if !line.is_empty() {
            line.push_str(" or ")?;
        }
        line.push_str(text)?;
    }
    Ok(line)
}

/// What an option takes, in words: `a name`, `text or json`, `1 to 16`.
pub fn range_of(alloc: Global, takes: &Takes) -> Result<String, AllocError> {
    match takes {
        TakesOf::Name => format!(in alloc; "a name"),
        TakesOf::OneOf(texts) => choice(alloc, texts),
        TakesOf::Number(least, most) => format!(in alloc; "{least} to {most}"),
    }
}

// A line of a complaint.
fn told(line: Result<String, AllocError>) -> Result<Option<String>, AllocError> {
    match line {
        Ok(line) => Ok(Some(line)),
        Err(error) => Err(error),
    }
}

// What is wrong with the value of an option, which stands at this place.
fn wrong_value(
    alloc: Global,
    takes: &Takes,
    place: usize,
    word: &str,
    value: &str,
) -> Result<Option<String>, AllocError> {
    let range = range_of(alloc, takes)?;
    let given = if value.is_empty() { "nothing" } else { value };
    told(format!(in alloc; "word {place}: {word} is {range}, not {given}"))
}

// What is wrong with an option and its value. `behind` is what follows them.
fn wrong_option(
    alloc: Global,
    command: &CommandRow,
    place: usize,
    word: &str,
    value: &str,
    before: &[String],
) -> Result<Option<String>, AllocError> {
    let Some(row) = row_named(command.options, word) else {
        return told(format!(in alloc; "word {place}: {word} is no option of {}", command.name));
    };
    if is_there(before, word) {
        return told(format!(in alloc; "word {place}: {word} is given once, not again"));
    }
    if is_name(value) && takes_value(&row.takes, value) {
        return Ok(None);
    }
    wrong_value(alloc, &row.takes, place.saturating_add(1), word, value)
}

// What is wrong with a positional behind so many others.
fn wrong_name(
    alloc: Global,
    command: &CommandRow,
    place: usize,
    word: &str,
    seen: usize,
) -> Result<Option<String>, AllocError> {
    if seen >= command.positionals.len() {
        return told(format!(in alloc;
            "word {place}: {word} is one name too many for {}",
            command.name
        ));
    }
    wrong_word(alloc, command.positionals[seen], place, word)
}

// What is wrong with a positional of this name.
fn wrong_word(
    alloc: Global,
    name: &str,
    place: usize,
    word: &str,
) -> Result<Option<String>, AllocError> {
    let takes = match positional_named(name) {
        Some(row) => row.takes,
        None => TakesOf::Name,
    };
    if is_name(word) && takes_value(&takes, word) {
        return Ok(None);
    }
    wrong_value(alloc, &takes, place, name, word)
}

// What is wrong with the first part that is wrong. The words stand behind the command.
fn wrong_part(
    alloc: Global,
    command: &CommandRow,
    words: &[String],
) -> Result<Option<String>, AllocError> {
    let mut rest = words;
    let mut seen: usize = 0;
    'parts: while let Some(next) = next_part(rest) {
        let gone = words.len().saturating_sub(rest.len());
        let place = gone.saturating_add(2);
        rest = next.behind;
        let wrong = match next.part {
            Part::Option(word, value) => {
                wrong_option(
                    alloc,
                    command,
                    place,
                    word,
                    value,
                    words_before(words, gone),
                )?
            }
            Part::Positional(word) => {
                let wrong = wrong_name(alloc, command, place, word, seen)?;
                seen = seen.saturating_add(1);
                wrong
            }
        };
        if wrong.is_some() {
            return Ok(wrong);
        }
    }
    Ok(None)
}

// The first so many words.
fn words_before(words: &[String], count: usize) -> &[String] {
    if count <= words.len() {
        return &words[..count];
    }
    words
}

// What is missing behind the words.
fn missing(
    alloc: Global,
    command: &CommandRow,
    words: &[String],
) -> Result<Option<String>, AllocError> {
    let place = words.len().saturating_add(2);
    for (i, name) in command.positionals.iter().enumerate() {
        if positional(words, i).is_none() {
            return told(format!(in alloc; "word {place}: {name} is missing"));
        }
    }
    missing_option(alloc, command, place, words)
}

// Which option is missing that has no default.
fn missing_option(
    alloc: Global,
    command: &CommandRow,
    place: usize,
    words: &[String],
) -> Result<Option<String>, AllocError> {
    for row in command.options {
        if row.default.is_none() && given(words, row).is_none() {
            let range = range_of(alloc, &row.takes)?;
            return told(format!(in alloc; "word {place}: --{} is missing, {range}", row.name));
        }
    }
    Ok(None)
}

// The place of the last word that is this text, counted from 1 behind the program's name.
fn last_place(words: &[String], text: &str) -> usize {
    let mut place = 1;
    for (i, word) in words.iter().enumerate() {
        if word.as_str() == text {
            place = i.saturating_add(2);
        }
    }
    place
}

// What is wrong where two names that have to differ are alike.
fn alike(
    alloc: Global,
    words: &[String],
    first: &str,
    one: &str,
    second: &str,
    other: &str,
) -> Result<Option<String>, AllocError> {
    if one != other {
        return Ok(None);
    }
    let place = last_place(words, one);
    told(format!(in alloc; "word {place}: {first} and {second} are two names, not {one} twice"))
}

// Which names of a session are alike.
fn alike_of_session(alloc: Global, words: &[String]) -> Result<Option<String>, AllocError> {
    let program = name_at(words, 0);
    let to_record = recording(words);
    let to_report = report(words);
    let wrong = alike(alloc, words, PROGRAM, program, "--record", to_record)?;
    if wrong.is_some() {
        return Ok(wrong);
    }
    let wrong = alike(alloc, words, PROGRAM, program, "--report", to_report)?;
    if wrong.is_some() {
        return Ok(wrong);
    }
    alike(alloc, words, "--record", to_record, "--report", to_report)
}

// Which names of a session with a diagnosis are alike.
fn alike_of_diagnose(alloc: Global, words: &[String]) -> Result<Option<String>, AllocError> {
    let wrong = alike_of_session(alloc, words)?;
    if wrong.is_some() {
        return Ok(wrong);
    }
    let fourth = "--diagnosis";
    let to_diagnosis = diagnosis(words);
    let program = name_at(words, 0);
    let wrong = alike(alloc, words, PROGRAM, program, fourth, to_diagnosis)?;
    if wrong.is_some() {
        return Ok(wrong);
    }
    let to_record = recording(words);
    let wrong = alike(alloc, words, "--record", to_record, fourth, to_diagnosis)?;
    if wrong.is_some() {
        return Ok(wrong);
    }
    let to_report = report(words);
    alike(alloc, words, "--report", to_report, fourth, to_diagnosis)
}

// Which names of `asm` are alike.
fn alike_of_asm(alloc: Global, words: &[String]) -> Result<Option<String>, AllocError> {
    let source = name_at(words, 0);
    let out = name_at(words, 1);
    alike(alloc, words, SOURCE, source, OUT, out)
}

// Which names of `convert` are alike.
fn alike_of_convert(alloc: Global, words: &[String]) -> Result<Option<String>, AllocError> {
    let recording = name_at(words, 1);
    let out = name_at(words, 2);
    alike(alloc, words, RECORDED, recording, OUT, out)
}

// Which names of `standby` are alike.
fn alike_of_standby(alloc: Global, words: &[String]) -> Result<Option<String>, AllocError> {
    let wrong = alike_of_names(alloc, words)?;
    if wrong.is_some() {
        return Ok(wrong);
    }
    let to_record = recording(words);
    let program = name_at(words, 0);
    let wrong = alike(alloc, words, PROGRAM, program, "--record", to_record)?;
    if wrong.is_some() {
        return Ok(wrong);
    }
    let recorded = name_at(words, 1);
    let wrong = alike(alloc, words, RECORDED, recorded, "--record", to_record)?;
    if wrong.is_some() {
        return Ok(wrong);
    }
    let counts = name_at(words, 2);
    alike(alloc, words, COUNTS, counts, "--record", to_record)
}

// Which of the names that stand behind `standby` are alike.
fn alike_of_names(alloc: Global, words: &[String]) -> Result<Option<String>, AllocError> {
    let program = name_at(words, 0);
    let recorded = name_at(words, 1);
    let counts = name_at(words, 2);
    let wrong = alike(alloc, words, PROGRAM, program, RECORDED, recorded)?;
    if wrong.is_some() {
        return Ok(wrong);
    }
    let wrong = alike(alloc, words, PROGRAM, program, COUNTS, counts)?;
    if wrong.is_some() {
        return Ok(wrong);
    }
    alike(alloc, words, RECORDED, recorded, COUNTS, counts)
}

// Which of these names is alike to a text. Each stands beside what it is the name of.
fn alike_among(
    alloc: Global,
    words: &[String],
    first: &str,
    one: &str,
    names: &[(&str, &str)],
) -> Result<Option<String>, AllocError> {
    for (second, other) in names {
        let wrong = alike(alloc, words, first, one, *second, *other)?;
        if wrong.is_some() {
            return Ok(wrong);
        }
    }
    Ok(None)
}

// Which names of `resume` are alike.
fn alike_of_resume(alloc: Global, words: &[String]) -> Result<Option<String>, AllocError> {
    let names = [
        (PROGRAM, name_at(words, 0)),
        (RECORDED, name_at(words, 1)),
        (REPORTED, name_at(words, 2)),
        (COUNTS, name_at(words, 3)),
        ("--record", recording(words)),
        ("--report", report(words)),
    ];
    for (i, (first, one)) in names.iter().enumerate() {
        let wrong = alike_among(alloc, words, *first, *one, &names[..i])?;
        if wrong.is_some() {
            return Ok(wrong);
        }
    }
    Ok(None)
}

// Which names of a command are alike.
fn alike_of(
    alloc: Global,
    command: &CommandRow,
    words: &[String],
) -> Result<Option<String>, AllocError> {
    match command.which {
        CommandName::Run => alike_of_session(alloc, words),
        CommandName::Serve => alike_of_session(alloc, words),
        CommandName::Diagnose => alike_of_diagnose(alloc, words),
        CommandName::Asm => alike_of_asm(alloc, words),
        CommandName::Convert => alike_of_convert(alloc, words),
        CommandName::Standby => alike_of_standby(alloc, words),
        CommandName::Resume => alike_of_resume(alloc, words),
        CommandName::Replay => Ok(None),
        CommandName::Drill => Ok(None),
        CommandName::Frame => Ok(None),
        CommandName::Unframe => Ok(None),
    }
}

// What is wrong with the words behind a command.
fn wrong_of(
    alloc: Global,
    command: &CommandRow,
    words: &[String],
) -> Result<Option<String>, AllocError> {
    let wrong = wrong_part(alloc, command, words)?;
    if wrong.is_some() {
        return Ok(wrong);
    }
    let wrong = missing(alloc, command, words)?;
    if wrong.is_some() {
        return Ok(wrong);
    }
    alike_of(alloc, command, words)
}

// The same as a text, which is empty where nothing is wrong.
fn complaint_of(
    alloc: Global,
    command: &CommandRow,
    words: &[String],
) -> Result<String, AllocError> {
    match wrong_of(alloc, command, words)? {
        Some(line) => Ok(line),
        None => Ok(String::new(alloc)),
    }
}

// The names of the commands, as a choice.
fn command_names(alloc: Global) -> Result<String, AllocError> {
    let mut line = String::new(alloc);
    for command in commands() {
        if !line.is_empty() {
            line.push_str(" or ")?;
        }
        line.push_str(command.name)?;
    }
    Ok(line)
}

/// What is wrong with the words behind the program's own name: the first word that is wrong, its place, counted from 1, and what
/// would be right, as `word 5: --ring is 1 to 16, not 08`. Empty where they are those of a command.
pub fn complaint(alloc: Global, words: &[String]) -> Result<String, AllocError> {
    let [word, rest @ ..] = words else {
        let names = command_names(alloc)?;
        return format!(in alloc; "word 1: the command is missing, {names}");
    };
    match command_named(word.as_str()) {
        Some(command) => complaint_of(alloc, command, rest),
        None => {
            let names = command_names(alloc)?;
            format!(in alloc; "word 1: the command is {names}, not {word}")
        }
    }
}

// The line of an option: what it takes, and its default.
fn option_line(alloc: Global, row: &OptionRow) -> Result<String, AllocError> {
    let range = range_of(alloc, &row.takes)?;
    match row.default {
        Some(text) => format!(in alloc; "  --{} {range} ({text})\n", row.name),
        None => format!(in alloc; "  --{} {range}, always\n", row.name),
    }
}

// A positional in such a line, with its range where it is a number.
fn usage_word(alloc: Global, name: &str) -> Result<String, AllocError> {
    let takes = match positional_named(name) {
        Some(row) => row.takes,
        None => TakesOf::Name,
    };
    match takes {
        TakesOf::Number(_, _) => {
            let range = range_of(alloc, &takes)?;
            format!(in alloc; " {name} ({range})")
        }
        _ => format!(in alloc; " {name}"),
    }
}

// The lines of a command: its names, and then its options.
fn usage_of(alloc: Global, command: &CommandRow) -> Result<String, AllocError> {
    let mut lines = format!(in alloc; "{}", command.name)?;
    for name in command.positionals {
        let word = usage_word(alloc, name)?;
        lines.push_str(word.as_str())?;
    }
    if command.options.is_empty() {
        lines.push_str("\n")?;
        return Ok(lines);
    }
    lines.push_str(" and in any place, each once:\n")?;
    add_options(alloc, lines, command.options)
}

// The lines with those of the options behind them.
fn add_options(alloc: Global, lines: String, rows: &[OptionRow]) -> Result<String, AllocError> {
    let mut lines = lines;
    for row in rows {
        let line = option_line(alloc, row)?;
        lines.push_str(line.as_str())?;
    }
    Ok(lines)
}

/// How a command is written: a line for it and one for each of its options, and each ends with a line feed. Of all commands
/// where the name is that of none.
pub fn usage(alloc: Global, name: &str) -> Result<String, AllocError> {
    if let Some(command) = command_named(name) {
        return usage_of(alloc, command);
    }
    let mut lines = String::new(alloc);
    for command in commands() {
        let more = usage_of(alloc, command)?;
        lines.push_str(more.as_str())?;
    }
    Ok(lines)
}

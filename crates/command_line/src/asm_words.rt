// The command `asm`: its words, and what they come to.
ghost use Rattle.std.specs.Prelude.{◌≡◌, true, IfOk, IfErr};
ghost use Rattle.clap.specs.Words.{kind_of};
ghost use Rattle.clap.specs.declared.error.kind.ErrorKind.TheVariants.{OutOfMemory};
ghost use Rattle.command_line.specs.Parts.{Parts, parts_of};
ghost use Rattle.command_line.specs.Commands.{asm_form, asm_shown, asm_value, fits, is_asm};
ghost use Rattle.command_line.specs.Reading.{HasRead};

use crate::accepted::{have_form, name_at};
use crate::matching::{out_of_memory, parser, value_in};
use crate::options::{CommandName, CommandOf, CommandRow, OptionRow};
use clap::{ArgMatches, Error};
use std::alloc::{AllocError, Global};

/// The file of an assembler's text.
pub const SOURCE: &str = "SOURCE";
/// The file that is written.
pub const OUT: &str = "OUT";

/// The options of `asm`.
pub const ASM_OPTIONS: [OptionRow; 0] = [];

/// Assembles a program.
pub const ASM: CommandRow = CommandOf {
    which: CommandName::Asm,
    name: "asm",
    positionals: &[SOURCE, OUT],
    options: &ASM_OPTIONS,
    says: "Assembles a text, and writes its executable.",
};

/// An assembly: the names of its source and of what it writes, not alike.
#[derive(Clone, Copy, Debug)]
pub struct AsmCommand<'a> {
    pub source: &'a str,
    pub out: &'a str,
}

// Whether the words have the form of `asm`.
#[tactic(auto, unfolding(crate::specs::Commands::asm_form))]
fn fit_asm(words: &[String]) -> bool
    ensures { result ≡ fits asm_form (parts_of words.now) }
{
    have_form(words, &ASM)
}

// Whether these are the words behind `asm`.
#[tactic(auto, unfolding(crate::specs::Commands::is_asm))]
pub(crate) fn are_asm_words(words: &[String]) -> bool
    ensures { result ≡ is_asm (parts_of words.now) }
{
    if !fit_asm(words) {
        return false;
    }
    name_at(words, 0) != name_at(words, 1)
}

// The words behind `asm`, read by clap. What our own check takes has no fault there: only memory may be wanted.
fn read_asm<'a>(alloc: Global, words: &'a [String]) -> Result<ArgMatches<'a>, Error>
    requires { fits asm_form (parts_of words.now) ≡ true }
    ensures read { IfOk result (λ m. HasRead asm_form (parts_of words.now) m) }
    ensures faultless { IfErr result (λ e. kind_of e ≡ OutOfMemory) }
{
    let command = parser(alloc, &ASM)?;
    command.try_get_matches_from(words)
}

// The names of `asm`, once clap has read the words.
fn asm_from<'a>(matches: &ArgMatches<'a>) -> AsmCommand<'a>
    ensures { (p : Parts) → HasRead asm_form p matches.now → asm_shown result ≡ asm_value p }
{
    AsmCommand {
        source: value_in(matches, SOURCE),
        out: value_in(matches, OUT),
    }
}

// The command that the words behind `asm` are.
pub(crate) fn asm_command<'a>(
    alloc: Global,
    words: &'a [String],
) -> Result<AsmCommand<'a>, AllocError>
    requires { is_asm (parts_of words.now) ≡ true }
    ensures { IfOk result (λ asm. asm_shown asm ≡ asm_value (parts_of words.now)) }
{
    match read_asm(alloc, words) {
        Ok(matches) => Ok(asm_from(&matches)),
        Err(error) => Err(out_of_memory(error)),
    }
}

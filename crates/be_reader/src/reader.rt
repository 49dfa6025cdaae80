ghost use Rattle.std.specs.Prelude.{◌≡◌, ◌≤◌, true, ℕ, Some, length, IfOk};
ghost use Rattle.be_lex.specs.Lines.{lines_of};
ghost use Rattle.be_lex.specs.Words.{words_of};
ghost use Rattle.be_line.specs.FirstWords.{meant, statement_of};
ghost use Rattle.be_script.specs.Limits.{IsWithinLimits};
ghost use Rattle.be_script.specs.Routable.{IsRoutable};
ghost use Rattle.be_script.specs.Script.{declared_by};
ghost use Rattle.be_said.specs.Due.{IsDue};
ghost use Rattle.be_said.specs.SoFar.{is_closed, declared_in, nothing_said};
ghost use Rattle.be_reader.specs.Grammar.{finished, read_known, read_line, read_lines, script_of};
ghost use Rattle.be_reader.specs.Outcomes.{IsRead};

use crate::deeds::read_deed;
use crate::fault::{ScriptFault, fault_at};
use crate::law::an_accepted_script_keeps_its_limits;
use be_command::Reason;
use be_geom::NoMemory;
use be_lex::{Line, Lines, Words, is_passed_over, is_printable};
use be_line::{Site, Statement};
use be_said::{LineFault, SoFar};
use be_script::{Script, work};
use std::alloc::Global;

const SCRIPT_BYTES: usize = 1_048_576;

const LINE_BYTES: usize = 2_048;

const WORK: u64 = 262_144;

/// Reads a script. It costs a few steps for each byte and for each message that is written, and
/// memory for what the script says.
#[tactic(auto, unfolding(crate::specs::Grammar::script_of))]
pub fn read(alloc: Global, bytes: &[u8]) -> Result<Script, ScriptFault>
    ensures said { IsRead (script_of bytes.now) result }
    ensures limits { IfOk result (λ script. IsWithinLimits (declared_by script)) }
{
    if bytes.len() > SCRIPT_BYTES {
        return Err(ScriptFault::At {
            line: 0,
            reason: Reason::TooLong,
        });
    }
    let script = read_lines(alloc, bytes)?;
    an_accepted_script_keeps_its_limits(bytes);
    Ok(script)
}

/// Reads the lines of a script, one behind the other.
#[tactic(auto, unfolding(crate::specs::Grammar::read_lines))]
fn read_lines(alloc: Global, bytes: &[u8]) -> Result<Script, ScriptFault>
    requires { length bytes.now ≤ 1048576 }
    ensures { IsRead (read_lines 1 nothing_said (lines_of bytes.now)) result }
{
    let mut said = SoFar::new(alloc);
    let mut lines = Lines::of(bytes);
    let mut number = 1;
    while let Some(line) = lines.next() {
        said = match read_line(alloc, said, &line) {
            Ok(said) => said,
            Err(fault) => return Err(fault_at(number, fault)),
        };
        number += 1;
    }
    finish(alloc, said, number)
}

/// The script, where nothing is missing behind its last line.
#[tactic(auto, unfolding(crate::specs::Grammar::finished))]
fn finish(alloc: Global, said: SoFar, line: u64) -> Result<Script, ScriptFault>
    requires { (size : ℕ × ℕ) → said.screen ≡ Some size →
        is_closed said.begun ≡ true → IsRoutable (declared_in said size) }
    ensures { IsRead (finished line said said.screen) result }
{
    let Some(script) = said.into_script() else {
        return Err(ScriptFault::At {
            line,
            reason: Reason::Unfinished,
        });
    };
    match work(alloc, &script) {
        Ok(work) if work <= WORK => Ok(script),
        Ok(_) => Err(ScriptFault::At {
            line,
            reason: Reason::TooMuchWork,
        }),
        Err(NoMemory) => Err(ScriptFault::NoMemory),
    }
}

/// Reads a line, and does what it says.
#[tactic(auto, unfolding(crate::specs::Grammar::read_line))]
fn read_line(alloc: Global, said: SoFar, line: &Line<'_>) -> Result<SoFar, LineFault>
    ensures { IsDue (read_line said line.now) result }
{
    if line.len() > LINE_BYTES {
        return Err(LineFault::Bad(Reason::LongLine));
    }
    let text = line.text();
    if !is_printable(text) {
        return Err(LineFault::Bad(Reason::BadByte));
    }
    if is_passed_over(text) {
        return Ok(said);
    }
    let mut words = Words::of(text);
    match words.next() {
        Some(first) => read_words(alloc, said, first, words, text),
        None => Ok(said),
    }
}

/// The same of a line with these words behind its first one.
fn read_words(
    alloc: Global,
    said: SoFar,
    first: &[u8],
    words: Words<'_>,
    text: &[u8],
) -> Result<SoFar, LineFault>
    ensures { IsDue (read_known said (statement_of first.now)
        (record { words = words_of words.entry; window = None; text = text.now })) result }
{
    let site = said.site();
    let Some(statement) = Statement::of(first) else {
        return Err(LineFault::Bad(Reason::UnknownWord));
    };
    let statement = meant(site, statement);
    if let Some(reason) = site.refuses(statement.seat()) {
        return Err(LineFault::Bad(reason));
    }
    let deed = read_deed(alloc, &said, statement, words, text)?;
    said.done(alloc, deed)
}

/// What a first word says here: in a body `bitmap` is a command.
fn meant(site: Site, statement: Statement) -> Statement
    ensures { result ≡ meant site statement }
{
    match site {
        Site::AtStart | Site::Outside | Site::AmongRows => statement,
        Site::InHandler | Site::InDraw | Site::InProgram | Site::UnderLock => {
            statement.as_command()
        }
    }
}

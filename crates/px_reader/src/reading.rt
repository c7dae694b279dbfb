//! Reads all lines of an input.
ghost use Rattle.std.specs.Prelude.{◌≡◌, ℕ, ◌<◌, ◌+◌, ◌==◌, None, IfOk, IfErr, OnOk, length, count_by};
ghost use Rattle.px_base.specs.Bounds.{u32_max};
ghost use Rattle.px_script.specs.Lines.{without_mark, without_return};
ghost use Rattle.px_script.specs.Ranges.{IsOfStage};
ghost use Rattle.px_script.specs.Scripts.{PassAll, IsScript, FirstFault};
ghost use Rattle.px_reader.specs.Common.{AreScript, ScriptValue, nothing_declared, Refusal, stage_now, lines_in, stage_view, LinesFail, HasFirstFault, IsRead, IsLineRefused, content, told, declared_of};

use crate::lines::{finish, read_line};
use crate::refused::{Refused, ScriptErr};
use px_causes::LineFault;
use px_script::Script;
use px_so_far::SoFar;
use std::alloc::Global;
use std::str;

/// The words that are built: all that are described.
const STAGE: [&str; 37] = [
    "script",
    "object",
    "predicate",
    "axiom",
    "operator",
    "pre",
    "delete",
    "add",
    "building",
    "room",
    "door",
    "box",
    "robot",
    "end",
    "fact",
    "height",
    "nodes",
    "shapes",
    "plan",
    "learn",
    "show",
    "disturb",
    "run",
    "facts",
    "sort",
    "param",
    "table",
    "step",
    "goal",
    "proof",
    "save",
    "certify",
    "edit",
    "duo",
    "pursue",
    "weight",
    "tree",
];

/// Returns the text without a byte order mark in front.
fn without_mark(text: &str) -> &str
    ensures { result.now ≡ without_mark text.now }
{
    match text.strip_prefix('\u{feff}') {
        Some(rest) => rest,
        None => text,
    }
}

/// Returns the line without a carriage return at its end.
fn without_return(line: &str) -> &str
    ensures { result.now ≡ without_return line.now }
{
    match line.strip_suffix('\r') {
        Some(prefix) => prefix,
        None => line,
    }
}

fn refused(line: u32, fault: LineFault) -> ScriptErr
    ensures { result ≡ told line fault }
{
    let (code, limit) = fault.numbers();
    ScriptErr::Refused(Refused { line, code, limit })
}

/// Reads the lines of a text in turn.
fn read_each(stage: &[&str], so_far: &mut SoFar, text: &str) -> Result<(), ScriptErr>
    requires start { declared_of so_far.old ≡ nothing_declared }
    requires few { length text.now < u32_max }
    ensures passes { OnOk result (PassAll (stage_view stage.now) 1 nothing_declared (lines_in text.now) (declared_of so_far.new)) }
    ensures fails { IfErr result (LinesFail (stage_view stage.now) (lines_in text.now)) }
{
    let mut number = 0;
    for line in text.split('\n') {
        number += 1;
        match read_line(so_far, stage, number, without_return(line)) {
            Ok(None) => {}
            Ok(Some(fault)) => return Err(refused(number, fault)),
            Err(_) => return Err(ScriptErr::NoMemory),
        }
    }
    Ok(())
}

/// Reads all lines of a text, after which no block may be open.
fn read_closed(stage: &[&str], so_far: &mut SoFar, text: &str) -> Result<(), ScriptErr>
    requires start { declared_of so_far.old ≡ nothing_declared }
    requires few { length text.now < u32_max }
    ensures passes { OnOk result (PassAll (stage_view stage.now) 1 nothing_declared (lines_in text.now) (declared_of so_far.new)) }
    ensures closed { OnOk result ((declared_of so_far.new).block ≡ None) }
    ensures fails { IfErr result (LinesFail (stage_view stage.now) (lines_in text.now)) }
{
    read_each(stage, so_far, text)?;
    match &so_far.block {
        Some(block) => Err(refused(block.line, LineFault::MissingEnd)),
        None => Ok(()),
    }
}

/// Reads all lines of a text, and returns the script that they are.
fn read_lines(stage: &[&str], so_far: &mut SoFar, text: &str) -> Result<Script, ScriptErr>
    requires start { declared_of so_far.old ≡ nothing_declared }
    requires few { length text.now < u32_max }
    ensures script { IfOk result (λ script. AreScript (stage_view stage.now) (lines_in text.now) (content script)) }
    ensures fails { IfErr result (LinesFail (stage_view stage.now) (lines_in text.now)) }
{
    read_closed(stage, so_far, text)?;
    match finish(so_far) {
        Ok(script) => Ok(script),
        Err(_) => Err(ScriptErr::NoMemory),
    }
}

fn read_text(alloc: Global, stage: &[&str], text: &str) -> Result<Script, ScriptErr>
    requires { length text.now < u32_max }
    ensures script { IfOk result (λ script. IsScript (stage_view stage.now) text.now (content script)) }
    ensures refused { IfErr result (HasFirstFault (stage_view stage.now) text.now) }
{
    let Ok(mut so_far) = SoFar::new(alloc) else {
        return Err(ScriptErr::NoMemory);
    };
    read_lines(stage, &mut so_far, without_mark(text))
}

/// Returns the line of the byte after these.
fn line_after(prefix: &[u8]) -> u32
    requires { length prefix.now < u32_max }
    ensures { result ≡ 1 + count_by (λ b. b == 10) prefix.now }
{
    prefix.iter().filter(|byte| **byte == b'\n').count() as u32 + 1
}

/// Reads a script where these words are built, or finds its first fault.
fn read_at(alloc: Global, stage: &[&str], bytes: &[u8]) -> Result<Script, ScriptErr>
    requires { length bytes.now < u32_max }
    ensures script { IfOk result (λ script. IsScript (stage_view stage.now) bytes.now (content script)) }
    ensures refused { IfErr result (HasFirstFault (stage_view stage.now) bytes.now) }
{
    match str::from_utf8(bytes) {
        Ok(text) => read_text(alloc, stage, text),
        Err(error) => Err(refused(
            line_after(&bytes[..error.valid_up_to()]),
            LineFault::NotText,
        )),
    }
}

/// Reads a script, or finds its first fault.
///
/// # Errors
/// `Refused` where the bytes are no script, with the first fault. `NoMemory` where memory runs out: no clause says when that is.
pub fn read_script(alloc: Global, bytes: &[u8]) -> Result<Script, ScriptErr>
    requires { length bytes.now < u32_max }
    ensures script { IfOk result (λ script. IsScript stage_now bytes.now (content script)) }
    ensures of_stage { IfOk result (λ script. IsOfStage stage_now (content script)) }
    ensures refused { IfErr result (HasFirstFault stage_now bytes.now) }
    ensures all_scripts { (value : ScriptValue) → IsScript stage_now bytes.now value → IsRead result value }
    ensures all_faults { (line : ℕ) (refusal : Refusal) → FirstFault stage_now bytes.now line refusal → IsLineRefused result line refusal }
{
    read_at(alloc, &STAGE, bytes)
}

//! Reading a script.

ghost use Rattle.std.specs.Prelude.{◌≡◌, ◌^◌, ◌<◌, ◌≤◌, ◌+◌, length, IfOk, OnOk};
ghost use Rattle.script_text.specs.Lines.{lines_of, words_of};
ghost use Rattle.script_text.specs.Script.{ScriptValue, no_script};
ghost use Rattle.script_text.specs.Grammar.{app_line, call_line, control_line, step_line, words_line, line_of, script_from, script_of};
ghost use Rattle.script_text.specs.Parsed.{IsParsed, IsRead, HasGrown};

use crate::calls::call;
use crate::controls::control;
use crate::script::{Control, Script, Step};
use crate::values::{is_name, same, uuid};
use crate::words::{cut_line, cut_word, is_ascii, two};
use std::alloc::{AllocError, Global};
use tee_types::{MAX_APPLICATIONS, NoMemory};

/// Why a text is not read as a script.
#[derive(Clone, Copy, Debug, PartialEq, Eq)]
pub enum ScriptFault {
    /// The line of this number, from 1, is the first outside the grammar.
    BadLine(u32),
    /// No line is bad, but so many applications are declared, more than 16.
    TooManyApps(u32),
    /// There is no memory for the script.
    NoMemory,
}

impl From<AllocError> for ScriptFault {
    ghost use Rattle.std.specs.Prelude.{◌≡◌};
    ghost use Rattle.script_text.specs.declared.reading.ScriptFault.TheVariants.{NoMemory as NoMemoryFault};

    ghost from_gives = { λ _ e. e ≡ NoMemoryFault };

    fn from(_: AllocError) -> ScriptFault {
        ScriptFault::NoMemory
    }
}

/// `NAME CALL`: adds the step, and tells whether the line is in the grammar.
#[tactic(auto, unfolding(crate::specs::Grammar::call_line))]
fn add_call(alloc: Global, script: &mut Script, name: &[u8], words: &[u8]) -> Result<bool, NoMemory>
    ensures read { IfOk result (λ good. IsRead good script.old script.new
        (call_line script.old name.now (words_of words.now))) }
    ensures grown { OnOk result (HasGrown script.old script.new) }
{
    let Some(app) = script.place_of(name) else {
        return Ok(false);
    };
    let Some(call) = call(alloc, words)? else {
        return Ok(false);
    };
    script.add(alloc, Step::Call { app, call })?;
    Ok(true)
}

/// `app NAME UUID`: declares the application, and tells whether the line is in the grammar.
#[tactic(auto, unfolding(crate::specs::Grammar::app_line))]
fn add_app(alloc: Global, script: &mut Script, words: &[u8]) -> Result<bool, NoMemory>
    requires { length script.old.applications + 1 < 2 ^ 32 }
    ensures read { IfOk result (λ good. IsRead good script.old script.new (app_line script.old (words_of words.now))) }
    ensures grown { OnOk result (HasGrown script.old script.new) }
{
    let Some((name, uuid_word)) = two(words) else {
        return Ok(false);
    };
    if !is_name(name) || script.has_call() || script.place_of(name).is_some() {
        return Ok(false);
    }
    let Some(app) = uuid(uuid_word) else {
        return Ok(false);
    };
    script.declare(Vec::from_slice(alloc, name)?, app)?;
    Ok(true)
}

/// Adds a control, and tells whether it may stand where it does.
#[tactic(auto, unfolding(crate::specs::Grammar::control_line))]
fn add_control(alloc: Global, script: &mut Script, control: Control) -> Result<bool, NoMemory>
    ensures read { IfOk result (λ good. IsRead good script.old script.new (control_line script.old control)) }
    ensures grown { OnOk result (HasGrown script.old script.new) }
{
    if !script.may_stand(&control) {
        return Ok(false);
    }
    script.add(alloc, Step::Control(control))?;
    Ok(true)
}

/// Adds the step that a line means, a control or a call, and tells whether the line is in the grammar.
#[tactic(auto, unfolding(crate::specs::Grammar::step_line))]
fn add_step(alloc: Global, script: &mut Script, word: &[u8], words: &[u8]) -> Result<bool, NoMemory>
    ensures read { IfOk result (λ good. IsRead good script.old script.new
        (step_line script.old word.now (words_of words.now))) }
    ensures grown { OnOk result (HasGrown script.old script.new) }
{
    let Some(control) = control(alloc, word, words)? else {
        return add_call(alloc, script, word, words);
    };
    add_control(alloc, script, control)
}

/// Adds what the words of a line mean, and tells whether the line is in the grammar.
#[tactic(auto, unfolding(crate::specs::Grammar::words_line))]
fn add_words(alloc: Global, script: &mut Script, line: &[u8]) -> Result<bool, NoMemory>
    requires { length script.old.applications + 1 < 2 ^ 32 }
    ensures read { IfOk result (λ good. IsRead good script.old script.new (words_line script.old (words_of line.now))) }
    ensures grown { OnOk result (HasGrown script.old script.new) }
{
    let Some((word, words)) = cut_word(line) else {
        return Ok(true);
    };
    if word.starts_with(b"#") {
        return Ok(true);
    }
    if same(word, b"app") {
        return add_app(alloc, script, words);
    }
    add_step(alloc, script, word, words)
}

/// Adds what one line means, and tells whether the line is in the grammar.
#[tactic(auto, unfolding(crate::specs::Grammar::line_of))]
fn add_line(alloc: Global, script: &mut Script, line: &[u8]) -> Result<bool, NoMemory>
    requires { length script.old.applications + 1 < 2 ^ 32 }
    ensures read { IfOk result (λ good. IsRead good script.old script.new (line_of script.old line.now)) }
    ensures grown { OnOk result (HasGrown script.old script.new) }
{
    if !is_ascii(line) {
        return Ok(false);
    }
    add_words(alloc, script, line)
}

/// Reads the lines of a script, however many applications they declare.
fn read_lines(alloc: Global, text: &[u8]) -> Result<Script, ScriptFault>
    requires { length text.now < 2 ^ 32 }
    ensures meaning { IsParsed result (script_from no_script 1 (lines_of text.now)) }
    ensures short { IfOk result (λ script. length script.steps ≤ length text.now) }
{
    let mut script = Script::new(alloc);
    let mut rest = text;
    let mut number = 0;
    while let Some((line, behind)) = cut_line(rest) {
        number += 1;
        if !add_line(alloc, &mut script, line)? {
            return Err(ScriptFault::BadLine(number));
        }
        rest = behind;
    }
    Ok(script)
}

/// Reads a script. `BadLine` comes exactly where that line is the first outside the grammar, and `TooManyApps`
/// exactly where no line is, and more than 16 applications are declared.
pub fn parse(alloc: Global, text: &[u8]) -> Result<Script, ScriptFault>
    requires { length text.now < 2 ^ 32 }
    ensures meaning { IsParsed result (script_of text.now) }
    ensures short { IfOk result (λ script. length script.steps ≤ length text.now) }
{
    let script = read_lines(alloc, text)?;
    if MAX_APPLICATIONS < script.apps() {
        return Err(ScriptFault::TooManyApps(script.apps()));
    }
    Ok(script)
}

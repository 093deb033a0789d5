// What one line says.
ghost use Rattle.std.specs.Prelude.{◌≡◌, IfOk, IsErrOf, Some, None};
ghost use Rattle.std.specs.List.{list_all};
ghost use Rattle.serde_json.specs.View.{view};
ghost use Rattle.json_frames.specs.Frame.{json_of};
ghost use Rattle.script_text.specs.Line.{is_blank, declaration, asking, line_from, line_of};
ghost use Rattle.script_text.specs.Readable.{IsReadableLine};

use crate::fault::LineFault;
use crate::form::{Form, has_form};
use crate::member::name_at;
use crate::parts::{place_at, session_at};
use crate::plain_enqueue::plain_line;
use crate::statement::statement_at;
use aq_base::{DbId, LINE_LIMIT};
use payload_records::{Name, Shared};
use queue_rows::Statement;
use serde_json::Value;
use std::alloc::Global;

/// What a line says.
#[derive(Drop)]
pub enum Line {
    /// Nothing.
    Blank,
    /// A session is declared.
    Declared {
        /// Its name.
        name: Name,
        /// The database that it belongs to.
        at: DbId,
    },
    /// A session asks a statement.
    Asked {
        /// The session's name.
        session: Name,
        /// The statement.
        statement: Shared<Statement>,
    },
}

/// The JSON value that a text is.
pub fn json(alloc: Global, line: &[u8]) -> Result<Value, LineFault>
    ensures ok { IfOk result (λ v. json_of line.now ≡ Some (view v)) }
    ensures bad { IsErrOf result LineFault.Bad → json_of line.now ≡ None }
{
    match Value::from_slice(alloc, line) {
        Ok(value) => Ok(value),
        Err(e) => {
            if e.is_memory() {
                Err(LineFault::Memory)
            } else {
                Err(LineFault::Bad)
            }
        }
    }
}

#[tactic(auto, unfolding(crate::specs::Line::declaration))]
fn declaration(alloc: Global, value: &Value) -> Result<Line, LineFault>
    ensures ok { IfOk result (λ l. declaration (view value.now) ≡ Some l) }
    ensures readable { IfOk result IsReadableLine }
    ensures bad { IsErrOf result LineFault.Bad → declaration (view value.now) ≡ None }
{
    let name = session_at(alloc, value)?;
    match place_at(value) {
        Some(at) => Ok(Line::Declared { name, at }),
        None => Err(LineFault::Bad),
    }
}

#[tactic(auto, unfolding(crate::specs::Line::asking))]
fn asking(alloc: Global, value: &Value) -> Result<Line, LineFault>
    ensures ok { IfOk result (λ l. asking (view value.now) ≡ Some l) }
    ensures readable { IfOk result IsReadableLine }
    ensures bad { IsErrOf result LineFault.Bad → asking (view value.now) ≡ None }
{
    let session = name_at(alloc, value, "s")?;
    let statement = Shared::new(alloc, statement_at(alloc, value)?)?;
    Ok(Line::Asked { session, statement })
}

#[tactic(auto, unfolding(crate::specs::Line::line_from))]
fn line_from(alloc: Global, value: &Value) -> Result<Line, LineFault>
    ensures ok { IfOk result (λ l. line_from (view value.now) ≡ Some l) }
    ensures readable { IfOk result IsReadableLine }
    ensures bad { IsErrOf result LineFault.Bad → line_from (view value.now) ≡ None }
{
    if let Some(line) = plain_line(alloc, value)? {
        return Ok(line);
    }
    if value.get("session").is_none() {
        return asking(alloc, value);
    }
    if !has_form(Form::Declaration, value) {
        return Err(LineFault::Bad);
    }
    declaration(alloc, value)
}

fn is_blank(byte: u8) -> bool
    ensures { result ≡ is_blank byte }
{
    byte == b' ' || byte == b'\t' || byte == b'\r'
}

fn are_blank(line: &[u8]) -> bool
    ensures { result ≡ list_all is_blank line.now }
{
    line.iter()
        .all(|byte| *byte == b' ' || *byte == b'\t' || *byte == b'\r')
}

// Mostly its first byte says that it is not.
fn is_all_blank(line: &[u8]) -> bool
    ensures { result ≡ list_all is_blank line.now }
{
    match line {
        [first, ..] if !is_blank(*first) => false,
        _ => are_blank(line),
    }
}

/// What a line says, which is given without its line feed.
#[tactic(auto, unfolding(crate::specs::Line::line_of))]
pub fn read_line(alloc: Global, line: &[u8]) -> Result<Line, LineFault>
    ensures ok { IfOk result (λ l. line_of line.now ≡ Some l) }
    ensures readable { IfOk result IsReadableLine }
    ensures bad { IsErrOf result LineFault.Bad → line_of line.now ≡ None }
{
    if line.len() > LINE_LIMIT {
        return Err(LineFault::Bad);
    }
    if is_all_blank(line) {
        return Ok(Line::Blank);
    }
    let value = json(alloc, line)?;
    line_from(alloc, &value)
}

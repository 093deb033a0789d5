// The parts of a line: ids, slots, sessions and texts as JSON.
ghost use Rattle.std.specs.Prelude.{◌≡◌, ◌<◌, ◌∷◌, [], OnOk, IfOk, option_map, Some, decimal, if◌then◌else◌};
ghost use Rattle.std.specs.Fmt.{signed_decimal};
ghost use Rattle.std.specs.List.{list_all};
ghost use Rattle.serde_json.specs.View.{view};
ghost use Rattle.transcript.specs.Text.{Writes, letter_of, other_of, id_text, spaced_id_text, slot_text, is_plain, quoted_text, json_text, json_or_null, name_or_null, number_or_null, session_text};

use aq_base::DbId;
use itoa::Buffer;
use payload_records::{List, Name, Text};
use queue_rows::{MsgId, SessionScript, SlotRef};
use serde_json::Value;
use std::alloc::{AllocError, Global};
use std::fmt;

fn letter_of(db: DbId) -> &'static str
    ensures { result.now ≡ letter_of db }
{
    match db {
        DbId::Home => "h",
        DbId::Away => "a",
    }
}

pub(crate) fn other_of(db: DbId) -> DbId
    ensures { result ≡ other_of db }
{
    match db {
        DbId::Home => DbId::Away,
        DbId::Away => DbId::Home,
    }
}

/// An id, which prints as `h7`.
#[derive(Clone, Copy)]
pub(crate) struct Id(pub MsgId);

/// A slot of a message, which prints as `h7.2`.
#[derive(Clone, Copy)]
pub(crate) struct Slot {
    pub db: DbId,
    pub id: u64,
    pub number: u64,
}

impl fmt::Display for Id {
    ghost output = { λ id. Some (id_text id.0.db id.0.number) };

    fn fmt<W: fmt::Write>(&self, f: &mut fmt::Formatter<W>) -> fmt::Result {
        let Id(MsgId { db, number }) = *self;
        let letter = letter_of(db);
        write!(f, "{letter}{number}")
    }
}

impl fmt::Display for Slot {
    ghost output = { λ slot. Some (slot_text slot.db slot.id slot.number) };

    fn fmt<W: fmt::Write>(&self, f: &mut fmt::Formatter<W>) -> fmt::Result {
        let Slot { db, id, number } = *self;
        let letter = letter_of(db);
        write!(f, "{letter}{id}.{number}")
    }
}

impl From<SlotRef> for Slot {
    ghost from_gives = { λ at slot. slot ≡ record { db = at.db; id = at.id; number = at.slot } };

    fn from(at: SlotRef) -> Self {
        Slot {
            db: at.db,
            id: at.id,
            number: u64::from(at.slot),
        }
    }
}

#[tactic(auto, using(std::proofs::lemmas::Fmt::decimal_digit))]
fn put_digit(out: &mut String, digit: u8) -> Result<(), AllocError>
    requires { digit < 10 }
    ensures { OnOk result (Writes out.old out.new (decimal digit)) }
{
    out.push((b'0' + digit) as char)
}

/// Puts a number in.
pub(crate) fn put_number(out: &mut String, number: u64) -> Result<(), AllocError>
    ensures { OnOk result (Writes out.old out.new (decimal number)) }
{
    if number < 10 {
        put_digit(out, number as u8)
    } else {
        out.push_str(Buffer::new().format(number))
    }
}

/// Puts a number with a sign in.
pub(crate) fn put_signed(out: &mut String, number: i64) -> Result<(), AllocError>
    ensures { OnOk result (Writes out.old out.new (signed_decimal number)) }
{
    if number >= 0 {
        put_number(out, number as u64)
    } else {
        out.push_str(Buffer::new().format(number))
    }
}

fn id_letter(db: DbId) -> char
    ensures { (result < 128) × (letter_of db ≡ result ∷ []) }
{
    match db {
        DbId::Home => 'h',
        DbId::Away => 'a',
    }
}

/// Puts an id in, as ` h7`, behind a space.
pub(crate) fn put_spaced_id(out: &mut String, id: MsgId) -> Result<(), AllocError>
    ensures { OnOk result (Writes out.old out.new (spaced_id_text id.db id.number)) }
{
    out.push(' ')?;
    out.push(id_letter(id.db))?;
    put_number(out, id.number)
}

fn is_plain(text: &str) -> bool
    ensures { result ≡ list_all is_plain text.now }
{
    text.as_bytes()
        .iter()
        .all(|byte| *byte >= b' ' && *byte != b'"' && *byte != b'\\')
}

fn put_quoted(out: &mut String, text: &str) -> Result<(), AllocError>
    ensures { OnOk result (Writes out.old out.new (quoted_text text.now)) }
{
    out.push('"')?;
    out.push_str(text)?;
    out.push('"')
}

fn put_escaped(out: &mut String, text: &str) -> Result<(), AllocError>
    ensures { OnOk result (Writes out.old out.new (json_text text.now)) }
{
    let alloc = *out.allocator();
    let value = Value::String(String::from_str(alloc, text)?);
    let json = value.to_string(alloc)?;
    out.push_str(json.as_str())
}

/// Puts a text in as a JSON text, in its quotes. It takes no memory but that of the text that it
/// is put into, unless something has to be escaped.
#[tactic(auto, using(crate::proofs::Plain::plain_text))]
pub(crate) fn put_json(out: &mut String, text: &str) -> Result<(), AllocError>
    ensures { OnOk result (Writes out.old out.new (json_text text.now)) }
{
    if is_plain(text) {
        put_quoted(out, text)
    } else {
        put_escaped(out, text)
    }
}

/// Puts a text in as a JSON text, or null.
pub(crate) fn put_json_or_null(out: &mut String, text: &Option<Text>) -> Result<(), AllocError>
    ensures { OnOk result (Writes out.old out.new (json_or_null text.now)) }
{
    match text {
        Some(text) => put_json(out, text.as_str()),
        None => out.push_str("null"),
    }
}

/// The one word or the other.
pub(crate) fn word_of(test: bool, yes: &'static str, no: &'static str) -> &'static str
    ensures { result.now ≡ (if test then yes.now else no.now) }
{
    if test { yes } else { no }
}

/// A name as it stands, or null.
pub(crate) fn name_or_null(name: &Option<Name>) -> &str
    ensures { result.now ≡ name_or_null name.now }
{
    match name {
        Some(name) => name.as_str(),
        None => "null",
    }
}

/// Puts a number in, or null.
pub(crate) fn put_number_or_null(out: &mut String, number: Option<u64>) -> Result<(), AllocError>
    ensures { OnOk result (Writes out.old out.new (number_or_null number)) }
{
    match number {
        Some(number) => put_number(out, number),
        None => out.push_str("null"),
    }
}

/// The name of the session of that number, from 0; no text where there is no such session.
pub(crate) fn session_name(scripts: &List<SessionScript>, session: u32) -> &str
    ensures { result.now ≡ session_text scripts.now session }
{
    match scripts.get(session as usize) {
        Some(script) => script.name.as_str(),
        None => "",
    }
}

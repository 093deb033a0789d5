// Enqueues that were read, for lines that are the same as one of them but for the payload.
ghost use Rattle.std.specs.Prelude.{◌≡◌, ◌++◌, ◌∷◌, [], IfOk, IfSome, Some, true, option_map, option_and_then, is_some, codes};
ghost use Rattle.json_frames.specs.Frame.{json_of};
ghost use Rattle.payload_records.specs.Name.{is_name};
ghost use Rattle.payload_records.specs.Payload.{payload_of, has_ascending_keys};
ghost use Rattle.queue_rows.specs.declared.statement.Enqueue.{Enqueue as Ask};
ghost use Rattle.queue_rows.specs.declared.statement.Statement.TheVariants as statements;
ghost use Rattle.serde_json.specs.Find.{get, as_object};
ghost use Rattle.serde_json.specs.View.{view};
ghost use Rattle.script_text.specs.Alike.{is_empty_object, IsPlainLine, IsAlike, IsEarlierEnqueue};
ghost use Rattle.script_text.specs.Line.{line_of};
ghost use Rattle.script_text.specs.Readable.{IsReadable};
ghost use Rattle.script_text.specs.declared.line.Line.TheVariants.{Asked};

use crate::earlier::sum_of;
use crate::fault::LineFault;
use crate::line::json;
use crate::plain_enqueue::{plain_ask, plain_members};
use aq_base::LINE_LIMIT;
use json_frames::Frame;
use memchr::memchr;
use payload_records::{Copied, Name, Payload, Shared};
use queue_rows::{Enqueue, Statement, Visibility};
use serde_json::Value;
use std::alloc::{AllocError, Global};
use std::marker::Model;

/// A line that enqueues, but for its payload.
pub struct EarlierEnqueue {
    frame: Frame,
    /// The session's name.
    pub session: Name,
    /// The session's number.
    pub at: usize,
    queue: Name,
    visibility: Visibility,
}

impl Drop for EarlierEnqueue {
    fn drop(self) {
        let Self {
            frame: _,
            session: _,
            at: _,
            queue: _,
            visibility: _,
        } = self;
    }
}

// The JSON value that a text is, if it is one.
fn json_if(alloc: Global, text: &[u8]) -> Result<Option<Value>, AllocError>
    ensures { IfOk result (λ o. IfSome o (λ v. json_of text.now ≡ Some (view v))) }
{
    match json(alloc, text) {
        Ok(value) => Ok(Some(value)),
        Err(LineFault::Bad) => Ok(None),
        Err(LineFault::Memory) => Err(AllocError),
    }
}

fn payload_in(alloc: Global, text: &[u8]) -> Result<Option<Payload>, AllocError>
    ensures payload { IfOk result (λ o. IfSome o (λ p.
        option_map payload_of (json_of text.now) ≡ Some p)) }
    ensures in_order { IfOk result (λ o. IfSome o (λ p. has_ascending_keys p ≡ true)) }
{
    match json_if(alloc, text)? {
        Some(value) => Ok(Some(Payload::of(alloc, &value)?)),
        None => Ok(None),
    }
}

impl EarlierEnqueue {
    /// What a line asks that is the same but for the payload. Of others nothing is told.
    #[tactic(auto, unfolding(crate::specs::Alike::IsAlike, queue_rows::specs::Within::is_within, history_laws::specs::Ordered::is_ordered))]
    pub fn statement(
        &self,
        alloc: Global,
        line: &[u8],
    ) -> Result<Option<Shared<Statement>>, AllocError>
        requires { IsEarlierEnqueue self.now }
        ensures said { IfOk result (λ o. IfSome o (λ s.
            line_of line.now ≡ Some (Asked self.now.session s))) }
        ensures readable { IfOk result (λ o. IfSome o IsReadable) }
    {
        let Some(inner) = self.frame.inner(line) else {
            return Ok(None);
        };
        if line.len() > LINE_LIMIT {
            return Ok(None);
        }
        let Some(payload) = payload_in(alloc, inner)? else {
            return Ok(None);
        };
        let queue = self.queue.copied()?;
        let ask = plain_ask(alloc, queue, payload, self.visibility);
        Ok(Some(Shared::new(alloc, Statement::Enqueue(ask))?))
    }
}

#[tactic(auto, using(crate::proofs::Enqueues::none_in))]
fn is_empty_object(value: &Value) -> bool
    ensures { result ≡ is_empty_object (view value.now) }
{
    match value.as_object() {
        Some(members) => members.is_empty(),
        None => false,
    }
}

// Whether the payload is what stands in the frame.
fn is_around_payload(alloc: Global, frame: &Frame) -> Result<bool, AllocError>
    ensures { IfOk result (λ is. is ≡ true
        → option_map is_empty_object (option_and_then (get (codes "payload"))
        (json_of (frame.now.0 ++ ((123 ∷ 125 ∷ []) ++ frame.now.1)))) ≡ Some true) }
{
    let text = frame.with(alloc, b"{}")?;
    let Some(value) = json_if(alloc, &text)? else {
        return Ok(false);
    };
    match value.get("payload") {
        Some(payload) => Ok(is_empty_object(payload)),
        None => Ok(false),
    }
}

// Whether a line enqueues with a payload of some member and says nothing that is mostly left out.
fn is_plain(alloc: Global, line: &[u8]) -> Result<bool, AllocError>
    ensures { IfOk result (λ is. is ≡ true → IsPlainLine line.now) }
{
    let Some(value) = json_if(alloc, line)? else {
        return Ok(false);
    };
    match plain_members(&value) {
        Some(members) => Ok(!is_empty_object(members.payload)),
        None => Ok(false),
    }
}

// Whether a text is a JSON object.
fn is_object(alloc: Global, text: &[u8]) -> Result<bool, AllocError>
    ensures { IfOk result (λ is. is ≡ true
        → is_some (option_and_then as_object (json_of text.now)) ≡ true) }
{
    match json_if(alloc, text)? {
        Some(value) => Ok(value.is_object()),
        None => Ok(false),
    }
}

// What stands around the payload of a line, where every line is alike that has another one there.
fn frame_alike(alloc: Global, line: &[u8]) -> Result<Option<Frame>, AllocError>
    ensures { IfOk result (λ o. IfSome o (λ f. (session : Name) (ask : Ask)
        → line_of line.now ≡ Some (Asked session (statements.Enqueue ask))
        → IsAlike f.0 f.1 session ask.queue ask.visibility)) }
{
    let Some(frame) = Frame::around(alloc, line)? else {
        return Ok(None);
    };
    let Some(inner) = frame.inner(line) else {
        return Ok(None);
    };
    if is_object(alloc, inner)? && is_around_payload(alloc, &frame)? && is_plain(alloc, line)? {
        return Ok(Some(frame));
    }
    Ok(None)
}

/// How many places there are for such lines.
const PLACES: usize = 1024;

/// How many lines a place takes at most, so that a script of which no two lines are alike is read as fast as if none were kept.
const LINES: u8 = 4;

// The line that is kept at a place, if one is, and how many more may be.
#[derive(Drop)]
struct Place {
    kept: Option<EarlierEnqueue>,
    left: u8,
}

impl Model for Place {
    ghost use Rattle.std.specs.Prelude.{Option, IfSome};
    ghost use Rattle.script_text.specs.Alike.{IsEarlierEnqueue};
    ghost use Rattle.script_text.specs.declared.alike.EarlierEnqueue.{EarlierEnqueue};

    ghost Value = { Option EarlierEnqueue };

    ghost view = { λ p. p.kept };

    ghost invariant = { λ p. IfSome p.kept IsEarlierEnqueue };
}

impl Place {
    fn kept(&self) -> Option<&EarlierEnqueue>
        ensures { IfSome result (λ e. IsEarlierEnqueue e.now) }
    {
        self.kept.as_ref()
    }

    // Keeps a line that enqueues, where others may be alike.
    fn keep(
        &mut self,
        alloc: Global,
        line: &[u8],
        session: Name,
        at: usize,
        ask: &Enqueue,
    ) -> Result<(), AllocError>
        requires said { line_of line.now ≡ Some (Asked session (statements.Enqueue ask.now)) }
        requires named { is_name ask.now.queue ≡ true }
    {
        if self.left == 0 {
            return Ok(());
        }
        self.left -= 1;
        let Some(frame) = frame_alike(alloc, line)? else {
            return Ok(());
        };
        let queue = ask.queue.copied()?;
        self.kept = Some(EarlierEnqueue {
            frame,
            session,
            at,
            queue,
            visibility: ask.visibility,
        });
        Ok(())
    }
}

// Where a line is kept, if it is: lines that are the same up to their payload have the same place.
fn place_of(line: &[u8]) -> Option<usize> {
    let (_first, behind) = line.split_first()?;
    let open = memchr(b'{', behind)?;
    Some(sum_of(&behind[..open]) as usize % PLACES)
}

/// Enqueues that were read: the last one of each place.
#[derive(Drop)]
pub struct EarlierEnqueues {
    places: Vec<Place>,
}

impl EarlierEnqueues {
    /// None yet. Where there is no memory for all places there are fewer of them, or none.
    pub fn new(alloc: Global) -> EarlierEnqueues {
        let mut places = Vec::new(alloc);
        let _ = places.reserve(PLACES);
        for _ in 0..PLACES {
            let place = Place {
                kept: None,
                left: LINES,
            };
            if places.push(place).is_err() {
                break;
            }
        }
        EarlierEnqueues { places }
    }

    /// An enqueue of which a line may be the same but for the payload, if one is kept.
    pub fn near(&self, line: &[u8]) -> Option<&EarlierEnqueue>
        ensures { IfSome result (λ e. IsEarlierEnqueue e.now) }
    {
        self.places.get(place_of(line)?)?.kept()
    }

    /// Keeps a line that enqueues, where others may be alike.
    pub fn note(
        &mut self,
        alloc: Global,
        line: &[u8],
        session: Name,
        at: usize,
        ask: &Enqueue,
    ) -> Result<(), AllocError>
        requires said { line_of line.now ≡ Some (Asked session (statements.Enqueue ask.now)) }
        requires named { is_name ask.now.queue ≡ true }
    {
        let Some(number) = place_of(line) else {
            return Ok(());
        };
        match self.places.get_mut(number) {
            Some(place) => place.keep(alloc, line, session, at, ask),
            None => Ok(()),
        }
    }
}

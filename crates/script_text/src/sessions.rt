// The sessions of a script, as its lines make them one after the other.
ghost use Rattle.std.specs.Prelude.{◌≡◌, ◌≤◌, ◌<◌, [], true, is_some, map, length, slice_get, slice_set, IfNone, IfSome, OnOk, OnErr, IsErrOf, Some, None};
ghost use Rattle.std.specs.List.{list_any};
ghost use Rattle.std.specs.Str.{bytes_eq};
ghost use Rattle.queue_rows.specs.Within.{is_session_name, statement_count};
ghost use Rattle.script_text.specs.Line.{line_of};
ghost use Rattle.script_text.specs.Readable.{IsReadable, AreReadable};
ghost use Rattle.script_text.specs.Script.{number_of, with_session, with_statement, with_statement_at, with_statement_of, with_bytes};
ghost use Rattle.script_text.specs.declared.line.Line.TheVariants.{Asked};

use crate::earlier::{Earlier, EarlierLines};
use crate::fault::LineFault;
use crate::line::{Line, read_line};
use aq_base::{DbId, SESSION_LIMIT, STATEMENT_LIMIT};
use indexmap::IndexSet;
use payload_records::{Copied, List, Name, Shared};
use queue_rows::{SessionScript, Statement};
use std::alloc::{AllocError, Global};
use std::marker::Model;

/// The sessions that were declared so far, each with what it asks, their names with the same numbers, how many statements
/// they ask together, the most of them that are to come, and the number of the one that asked last.
pub struct Sessions {
    names: IndexSet<Name>,
    list: Vec<SessionScript>,
    asked: usize,
    most: usize,
    last: usize,
}

impl Drop for Sessions {
    fn drop(self) {
        let Self {
            names: _,
            list: _,
            asked: _,
            most: _,
            last: _,
        } = self;
    }
}

impl Model for Sessions {
    ghost use Rattle.std.specs.Prelude.{◌≡◌, List as Sequence, map};
    ghost use Rattle.queue_rows.specs.Within.{statement_count};
    ghost use Rattle.queue_rows.specs.declared.history.SessionScript.{SessionScript};
    ghost use Rattle.script_text.specs.Readable.{AreReadable};

    ghost Value = { Sequence SessionScript };

    ghost view = { λ s. s.list.items };

    ghost invariant = { λ s. (s.names.keys ≡ map (λ script. script.name) s.list.items)
        × (s.asked ≡ statement_count s.list.items) × AreReadable s.list.items };
}

fn push_statement(
    session: &mut SessionScript,
    statement: Shared<Statement>,
) -> Result<(), AllocError>
    ensures ok { OnOk result (session.new ≡ with_statement statement session.old) }
    ensures err { OnErr result (session.new ≡ session.old) }
{
    let statements = &mut session.statements;
    statements.push(statement)
}

fn push_statement_at(
    sessions: &mut [SessionScript],
    at: usize,
    statement: Shared<Statement>,
) -> Result<(), AllocError>
    requires { at < length sessions.old }
    ensures ok { OnOk result (sessions.new ≡ with_statement_at statement sessions.old at) }
    ensures err { OnErr result (sessions.new ≡ sessions.old) }
{
    push_statement(&mut sessions[at], statement)
}

// Where there is no memory for the room, the list grows as it goes.
fn make_room_at(sessions: &mut [SessionScript], at: usize, statements: usize)
    requires { at < length sessions.old }
    ensures { sessions.new ≡ sessions.old }
{
    let _ = sessions[at].statements.reserve(statements);
}

fn share_room(sessions: &mut [SessionScript], statements: usize)
    ensures { sessions.new ≡ sessions.old }
{
    let count = sessions.len();
    for at in 0..count {
        make_room_at(sessions, at, statements / count);
    }
}

impl Sessions {
    /// No session, before a text of that many statements at most is read.
    pub fn new(alloc: Global, statements: usize) -> Sessions
        ensures { result ≡ [] }
    {
        Sessions {
            names: IndexSet::new(alloc),
            list: Vec::new(alloc),
            asked: 0,
            most: statements,
            last: 0,
        }
    }

    // Before the first statement is read, each session gets room for an equal share of what may come: no list grows then
    // where they ask equally many.
    fn make_room(&mut self)
        ensures { self.new ≡ self.old }
    {
        if self.asked == 0 {
            share_room(&mut self.list, self.most.min(STATEMENT_LIMIT));
        }
    }

    fn number_of(&self, name: &Name) -> Option<usize>
        ensures number { result ≡ number_of name.now self.now }
        ensures new { is_some result ≡ list_any (bytes_eq name.now) (map (λ s. s.name) self.now) }
        ensures within { IfSome result (λ at. at < length self.now) }
    {
        self.names.get_index_of(name)
    }

    fn declare(&mut self, name: Name, at: DbId) -> Result<(), LineFault>
        requires { is_session_name name ≡ true }
        ensures ok { OnOk result (with_session name at self.old ≡ Some self.new) }
        ensures bad { IsErrOf result LineFault.Bad → with_session name at self.old ≡ None }
    {
        if self.list.len() >= SESSION_LIMIT || self.number_of(&name).is_some() {
            return Err(LineFault::Bad);
        }
        let statements = List::new(*self.list.allocator());
        let key = name.copied()?;
        self.list.reserve(1)?;
        self.names.insert(key)?;
        self.list.push(SessionScript {
            name,
            at,
            statements,
        })?;
        Ok(())
    }

    // The number of the session of a name, which is looked for where it is not the guess.
    fn number_near(&self, guess: usize, name: &Name) -> Option<usize>
        ensures number { result ≡ number_of name.now self.now }
        ensures within { IfSome result (λ at. at < length self.now) }
    {
        match self.list.get(guess) {
            Some(session) if session.name == *name => Some(guess),
            _ => self.number_of(name),
        }
    }

    // The number of the session of a name, where the script may have one more statement.
    fn place_for(&self, guess: usize, name: &Name) -> Option<usize>
        ensures place { IfSome result (λ at. number_of name.now self.now ≡ Some at) }
        ensures room { IfSome result (λ _. statement_count self.now < 1000000) }
        ensures within { IfSome result (λ at. at < length self.now) }
        ensures none { IfNone result
            (statement_count self.now < 1000000 → number_of name.now self.now ≡ None) }
    {
        if self.asked >= STATEMENT_LIMIT {
            return None;
        }
        self.number_near(guess, name)
    }

    fn put(&mut self, at: usize, statement: Shared<Statement>) -> Result<(), AllocError>
        requires within { at < length self.old }
        requires room { statement_count self.old < 1000000 }
        requires readable { IsReadable statement }
        ensures ok { OnOk result (self.new ≡ with_statement_at statement self.old at) }
    {
        push_statement_at(&mut self.list, at, statement)?;
        self.asked += 1;
        self.last = at;
        Ok(())
    }

    // One more statement of the session of that name, which is looked for where it is not the guess.
    fn ask_at(
        &mut self,
        guess: usize,
        session: &Name,
        statement: Shared<Statement>,
    ) -> Result<(), LineFault>
        requires { IsReadable statement }
        ensures ok { OnOk result (with_statement_of session.now statement self.old ≡ Some self.new) }
        ensures bad { IsErrOf result LineFault.Bad
            → with_statement_of session.now statement self.old ≡ None }
    {
        let Some(at) = self.place_for(guess, session) else {
            return Err(LineFault::Bad);
        };
        Ok(self.put(at, statement)?)
    }

    // The line says what it asks. It is kept where it may come again.
    fn ask(
        &mut self,
        alloc: Global,
        earlier: &mut EarlierLines,
        line: &[u8],
        session: Name,
        statement: Shared<Statement>,
    ) -> Result<(), LineFault>
        requires said { line_of line.now ≡ Some (Asked session statement) }
        requires readable { IsReadable statement }
        ensures ok { OnOk result (with_statement_of session statement self.old ≡ Some self.new) }
        ensures bad { IsErrOf result LineFault.Bad
            → with_statement_of session statement self.old ≡ None }
    {
        let Some(at) = self.place_for(self.last, &session) else {
            return Err(LineFault::Bad);
        };
        earlier.note(alloc, line, session, at, &statement)?;
        Ok(self.put(at, statement)?)
    }

    fn ask_again(&mut self, earlier: &Earlier) -> Result<(), LineFault>
        requires { IsReadable earlier.now.statement }
        ensures ok { OnOk result
            (with_statement_of earlier.now.session earlier.now.statement self.old ≡ Some self.new) }
        ensures bad { IsErrOf result LineFault.Bad
            → with_statement_of earlier.now.session earlier.now.statement self.old ≡ None }
    {
        let statement = earlier.statement.copied()?;
        self.ask_at(earlier.at, &earlier.session, statement)
    }

    // A line that is not the same as one that is kept.
    fn add_new(
        &mut self,
        alloc: Global,
        earlier: &mut EarlierLines,
        line: &[u8],
    ) -> Result<(), LineFault>
        ensures ok { OnOk result (with_bytes self.old line.now ≡ Some self.new) }
        ensures bad { IsErrOf result LineFault.Bad → with_bytes self.old line.now ≡ None }
    {
        match read_line(alloc, line)? {
            Line::Blank => Ok(()),
            Line::Declared { name, at } => self.declare(name, at),
            Line::Asked { session, statement } => {
                self.make_room();
                self.ask(alloc, earlier, line, session, statement)
            }
        }
    }

    /// Takes one more line in, which is given without its line feed, beside lines that were read before. One that is the same
    /// as an earlier one is not read again, and of an enqueue that is the same but for its payload only the payload is.
    pub fn add_line(
        &mut self,
        alloc: Global,
        earlier: &mut EarlierLines,
        line: &[u8],
    ) -> Result<(), LineFault>
        ensures ok { OnOk result (with_bytes self.old line.now ≡ Some self.new) }
        ensures bad { IsErrOf result LineFault.Bad → with_bytes self.old line.now ≡ None }
    {
        if let Some(near) = earlier.near(line) {
            if let Some(statement) = near.statement(alloc, line)? {
                return self.ask_at(near.at, &near.session, statement);
            }
        }
        if let Some(same) = earlier.same(line) {
            return self.ask_again(same);
        }
        self.add_new(alloc, earlier, line)
    }

    /// The sessions in the order in which they were declared.
    pub fn into_list(self) -> List<SessionScript>
        ensures list { result ≡ self }
        ensures readable { AreReadable self }
    {
        let Self {
            names: _,
            list,
            asked: _,
            most: _,
            last: _,
        } = self;
        List::from_vec(list)
    }
}

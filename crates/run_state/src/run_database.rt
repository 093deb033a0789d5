// One of the two databases in a run.
ghost use Rattle.std.specs.Prelude.{◌≡◌, ◌<◌, ◌^◌, ◌+◌, IfSome, OnOk, OnErr};
ghost use Rattle.message_store.specs.Stored.{IsPreparedFor};
ghost use Rattle.queue_rows.specs.Tables.{empty_tables};
ghost use Rattle.queue_rows.specs.World.{commits_in, committed, opened_database};
ghost use Rattle.queue_rows.specs.Sending.{with_ids};
ghost use Rattle.queue_rows.specs.Turns.{made_durable};
ghost use Rattle.run_state.specs.Commits.{made_by, is_durable_database};

use message_store::PreparedStore;
use payload_records::List;
use queue_rows::{Change, Commit, Tables};
use std::alloc::{AllocError, Global};
use std::marker::Model;

/// A database: its tables as the run began, and now; how many commits were made and how many are durable, how many of its seen pairs
/// are durable, and the next id to give. Contracts see the database of the definitions.
pub struct RunDatabase {
    opening: Tables,
    store: PreparedStore,
    made: u64,
    durable: u64,
    durable_seen: u64,
    next: u64,
}

impl Drop for RunDatabase {
    fn drop(self) {
        let Self {
            opening: _,
            store: _,
            made: _,
            durable: _,
            durable_seen: _,
            next: _,
        } = self;
    }
}

impl Model for RunDatabase {
    ghost use Rattle.std.specs.Coded.{codes};
    ghost use Rattle.rule_conditions.specs.contracts.condition.Cond as cond;
    ghost use Rattle.queue_rows.specs.World.{Database};

    ghost Value = { Database };

    ghost coded = { Prim.hlevel (codes, cond.the_row.coded) };

    ghost view = { λ d. record {
      opening = d.opening;
      tables = d.store.tables;
      made = d.made;
      durable = d.durable;
      durable_seen = d.durable_seen;
      next = d.next;
    } };
}

fn commits_in(changes: &List<Change>) -> u64
    ensures { result ≡ commits_in changes.now }
{
    if changes.is_empty() { 0 } else { 1 }
}

/// Makes a commit that was prepared, if there is one.
fn make(store: &mut PreparedStore, commit: Option<Commit>)
    requires { IfSome commit (λ c. IsPreparedFor store.old c.changes) }
    ensures { store.new.tables ≡ made_by commit store.old.tables }
{
    if let Some(commit) = commit {
        store.apply(commit);
    }
}

/// Makes what is committed at home and at away at that moment; an empty list is no commit. All memory is taken before anything is
/// changed: at want of memory both are as before.
pub fn commit_both(
    home: &mut RunDatabase,
    away: &mut RunDatabase,
    at_home: &List<Change>,
    at_away: &List<Change>,
    moment: u64,
) -> Result<(), AllocError>
    requires home_few { home.old.made + 1 < 2 ^ 64 }
    requires away_few { away.old.made + 1 < 2 ^ 64 }
    ensures home { OnOk result (home.new ≡ committed at_home.now moment home.old) }
    ensures away { OnOk result (away.new ≡ committed at_away.now moment away.old) }
    ensures err_home { OnErr result (home.new ≡ home.old) }
    ensures err_away { OnErr result (away.new ≡ away.old) }
{
    let home_commit = home.store.prepared(at_home, moment)?;
    let away_commit = away.store.prepared(at_away, moment)?;
    make(&mut home.store, home_commit);
    make(&mut away.store, away_commit);
    home.made += commits_in(at_home);
    away.made += commits_in(at_away);
    Ok(())
}

impl RunDatabase {
    /// A database in which nothing was committed yet. It takes no memory.
    pub fn new(alloc: Global) -> RunDatabase
        ensures { result ≡ opened_database empty_tables }
    {
        RunDatabase {
            opening: Tables::new(alloc),
            store: PreparedStore::new(alloc),
            made: 0,
            durable: 0,
            durable_seen: 0,
            next: 1,
        }
    }

    /// The database of a store, in which nothing was committed in this run yet. Its tables are given once more, as those with which the
    /// run begins.
    pub fn resume(opening: Tables, store: PreparedStore) -> RunDatabase
        requires { opening ≡ store.tables }
        ensures { result ≡ opened_database store.tables }
    {
        // What led to the opening was committed before this run.
        let made = 0;
        let durable_seen = opening.seen.len() as u64;
        let next = opening.next;
        RunDatabase {
            opening,
            store,
            made,
            durable: made,
            durable_seen,
            next,
        }
    }

    /// Its tables, by which messages are chosen and due work is found.
    pub fn store(&self) -> &PreparedStore
        ensures { result.now.tables ≡ self.now.tables }
    {
        &self.store
    }

    /// The next id to give.
    pub fn next(&self) -> u64
        ensures { result ≡ self.now.next }
    {
        self.next
    }

    /// How many commits were made in this run.
    pub fn made(&self) -> u64
        ensures { result ≡ self.now.made }
    {
        self.made
    }

    /// How many of its seen pairs are durable.
    pub fn durable_seen(&self) -> u64
        ensures { result ≡ self.now.durable_seen }
    {
        self.durable_seen
    }

    /// Whether each commit is durable.
    pub fn is_durable(&self) -> bool
        ensures { result ≡ is_durable_database self.now }
    {
        self.durable >= self.made
    }

    /// Takes so many ids.
    pub fn take_ids(&mut self, ids: u64)
        requires { self.old.next + ids < 2 ^ 64 }
        ensures { self.new ≡ with_ids ids self.old }
    {
        self.next += ids;
    }

    /// Makes each commit durable.
    pub fn make_durable(&mut self)
        ensures { self.new ≡ made_durable self.old }
    {
        self.durable = self.made;
        self.durable_seen = self.store.tables().seen.len() as u64;
    }

    /// Its tables as the run began.
    pub fn finish(self) -> Tables
        ensures { result ≡ self.opening }
    {
        let Self {
            opening,
            store: _,
            made: _,
            durable: _,
            durable_seen: _,
            next: _,
        } = self;
        opening
    }
}

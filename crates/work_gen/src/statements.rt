// The statements of a generated script.
ghost use Rattle.std.specs.Prelude.{◌≡◌, ◌<◌, true, IfOk, OnOk};
ghost use Rattle.payload_records.specs.Name.{is_name};
ghost use Rattle.queue_rows.specs.declared.statement.Visibility.TheVariants.{OnCommit, Immediate};
ghost use Rattle.queue_rows.specs.declared.statement.Statement.TheVariants.{Commit as Commits};
ghost use Rattle.work_gen.specs.Script.{quantity_field, by_priority, create_table, create_queue, start_queue, payload_of, enqueue, dequeue, dequeue as dequeue_of, drawn_enqueue, drawn};

use crate::draws::Draws;
use payload_records::{
    Copied, Field, Kind, List, Loose, Member, Name, NameFault, Payload, RecordType, Shared, Text,
};
use place_keys::{Column, SortList};
use queue_rows::{Admin, Dequeue, Enqueue, Mode, Navigation, QueueKind, Statement, Visibility};
use std::alloc::{AllocError, Global};

/// The name that a text is.
pub fn name_of(alloc: Global, text: &str) -> Result<Name, AllocError>
    requires { is_name text.now ≡ true }
    ensures { IfOk result (λ name. name ≡ text.now) }
{
    match Name::read(alloc, text) {
        Ok(name) => Ok(name),
        Err(NameFault::Memory) => Err(AllocError),
        Err(NameFault::Bad) => unreachable!(),
    }
}

fn fields(alloc: Global) -> Result<List<Field>, AllocError>
    ensures { IfOk result (λ fields. fields ≡ quantity_field) }
{
    let mut fields = List::new(alloc);
    fields.push(Field {
        name: name_of(alloc, "qty")?,
        kind: Kind::Num,
    })?;
    Ok(fields)
}

fn record_type(alloc: Global) -> Result<RecordType, AllocError>
    ensures { IfOk result (λ kind. kind ≡ quantity_field) }
{
    match RecordType::of(fields(alloc)?)? {
        Some(kind) => Ok(kind),
        None => unreachable!(),
    }
}

fn sort_list(alloc: Global) -> Result<SortList, AllocError>
    ensures { IfOk result (λ list. list ≡ by_priority) }
{
    let mut columns = List::new(alloc);
    columns.push(Column::Priority)?;
    match SortList::of(columns) {
        Some(list) => Ok(list),
        None => unreachable!(),
    }
}

/// Makes the table.
pub fn create_table(alloc: Global) -> Result<Statement, AllocError>
    ensures { IfOk result (λ statement. statement ≡ create_table) }
{
    Ok(Statement::Admin(Admin::CreateTable {
        table: name_of(alloc, "t")?,
        fields: record_type(alloc)?,
        sort: sort_list(alloc)?,
        multi: false,
        grouped: false,
    }))
}

/// Makes the queue.
pub fn create_queue(alloc: Global) -> Result<Statement, AllocError>
    ensures { IfOk result (λ statement. statement ≡ create_queue) }
{
    Ok(Statement::Admin(Admin::CreateQueue {
        queue: name_of(alloc, "q")?,
        table: name_of(alloc, "t")?,
        kind: QueueKind::Normal,
        max_retries: 5,
        retry_delay: 0,
        retention: 0,
    }))
}

/// Starts the queue.
pub fn start_queue(alloc: Global) -> Result<Statement, AllocError>
    ensures { IfOk result (λ statement. statement ≡ start_queue) }
{
    Ok(Statement::Admin(Admin::StartQueue {
        queue: name_of(alloc, "q")?,
        enqueue: None,
        dequeue: true,
    }))
}

fn payload(alloc: Global, qty: u64) -> Result<Payload, AllocError>
    requires { qty < 1000 }
    ensures { IfOk result (λ payload. payload ≡ payload_of qty) }
{
    // Scripts keep their payloads: so there is room for this member, and for no more.
    let mut members = List::from_vec(Vec::with_capacity(alloc, 1)?);
    members.push(Member {
        key: Text::of(alloc, "qty")?,
        value: Loose::Num(qty as i64),
    })?;
    Ok(Payload::Members(members))
}

fn enqueue(alloc: Global, priority: u64, qty: u64) -> Result<Statement, AllocError>
    requires priority { priority < 16 }
    requires qty { qty < 1000 }
    ensures { IfOk result (λ statement. statement ≡ enqueue priority qty) }
{
    Ok(Statement::Enqueue(Enqueue {
        queue: name_of(alloc, "q")?,
        payload: payload(alloc, qty)?,
        priority: priority as i64,
        delay: 0,
        expiration: None,
        corr: None,
        recipients: None,
        exception_queue: None,
        before: None,
        visibility: Visibility::Immediate,
        top: false,
        props: List::new(alloc),
    }))
}

fn dequeue(alloc: Global, visibility: Visibility) -> Result<Statement, AllocError>
    ensures { IfOk result (λ statement. statement ≡ dequeue visibility) }
{
    Ok(Statement::Dequeue(Dequeue {
        queue: name_of(alloc, "q")?,
        consumer: None,
        mode: Mode::Remove,
        navigation: Navigation::Next,
        visibility,
        wait: 0,
        msgid: None,
        corr: None,
        condition: None,
    }))
}

/// The statements that say the same wherever they stand: sessions share them.
#[derive(Drop)]
pub struct SharedStatements {
    dequeue_at_once: Shared<Statement>,
    dequeue: Shared<Statement>,
    commit: Shared<Statement>,
    ghost at_once: { dequeue_at_once ≡ dequeue_of Immediate },
    ghost with_others: { dequeue ≡ dequeue_of OnCommit },
    ghost commits: { commit ≡ Commits },
}

impl SharedStatements {
    /// Makes each once.
    pub fn new(alloc: Global) -> Result<SharedStatements, AllocError> {
        Ok(SharedStatements {
            dequeue_at_once: Shared::new(alloc, dequeue(alloc, Visibility::Immediate)?)?,
            dequeue: Shared::new(alloc, dequeue(alloc, Visibility::OnCommit)?)?,
            commit: Shared::new(alloc, Statement::Commit)?,
        })
    }
}

fn draw_enqueue(alloc: Global, draws: &mut Draws) -> Result<Statement, AllocError>
    ensures statement { IfOk result (λ statement. statement ≡ (drawn_enqueue draws.old.number).statement) }
    ensures after { draws.new.number ≡ (drawn_enqueue draws.old.number).number }
{
    let priority = draws.below(16);
    let qty = draws.below(1000);
    enqueue(alloc, priority, qty)
}

/// The statement that is drawn next.
#[tactic(auto, unfolding(crate::specs::Script::drawn))]
pub fn draw_statement(
    alloc: Global,
    shared: &SharedStatements,
    draws: &mut Draws,
) -> Result<Shared<Statement>, AllocError>
    ensures statement { IfOk result (λ statement. statement ≡ (drawn draws.old.number).statement) }
    ensures after { OnOk result (draws.new.number ≡ (drawn draws.old.number).number) }
{
    match draws.below(8) {
        0..=3 => Shared::new(alloc, draw_enqueue(alloc, draws)?),
        4 | 5 => shared.dequeue_at_once.copied(),
        6 => shared.dequeue.copied(),
        _ => shared.commit.copied(),
    }
}

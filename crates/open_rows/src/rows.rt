// Rows of one kind: put in their place, and taken out.
ghost use Rattle.std.specs.Prelude.{◌≡◌, ◌==◌, ◌&&◌, ◌-◌, Bool, ◌<◌, IfSome, find, is_some, length, not, option_copied, position};
ghost use Rattle.std.specs.Str.{bytes_eq};
ghost use Rattle.queue_rows.specs.Rows.{exception_name, put_by, removed_at, is_same_table, is_same_queue, is_same_sub, is_same_schedule};
ghost use Rattle.named_list.specs.Sought.{HasName};
ghost use Rattle.queue_rows.specs.Sought.{is_of_queue};
ghost use Rattle.open_rows.specs.Rows.{filtered, without_first};

use crate::open_named::OpenNamed;
use crate::open_rows::OpenRows;
use named_list::{Named, NamedList, Sought};
use payload_records::Name;
use queue_rows::{QueueRow, ScheduleRow, SubKey, SubRow, TableRow};

/// A row that is told from its like by its name, and maybe by more.
pub trait Keyed: Named {
    ghost same: { Self → Self → Bool };

    /// Whether the two are the same row, whatever else they say.
    fn is_same(&self, other: &Self) -> bool
        ensures { result ≡ same self.now other.now };

    /// The same row has the same name.
    ghost has_name: { HasName Self.name_of Self.name_of (λ row other. same other row) };
}

impl Keyed for TableRow {
    ghost same = { is_same_table };

    ghost has_name = { λ row other same. same };

    fn is_same(&self, other: &Self) -> bool {
        self.name == other.name
    }
}

impl Keyed for QueueRow {
    ghost same = { is_same_queue };

    ghost has_name = { λ row other same. same };

    fn is_same(&self, other: &Self) -> bool {
        self.name == other.name
    }
}

impl Keyed for SubRow {
    ghost same = { is_same_sub };

    ghost has_name = { λ row other. is_of_queue row.queue row.name other };

    fn is_same(&self, other: &Self) -> bool {
        self.queue == other.queue && self.name == other.name
    }
}

/// The row that is the same one.
#[derive(Drop)]
struct Like<'a, R> {
    row: &'a R,
}

impl<'a, R: Keyed> Sought<R> for Like<'a, R> {
    ghost wanted = { λ like. R.name_of like.row.now };

    ghost is = { λ like other. R.same other like.row.now };

    ghost has_name = { λ like other. R.has_name like.row.now other };

    fn name(&self) -> &Name {
        self.row.name()
    }

    fn is(&self, other: &R) -> bool {
        other.is_same(self.row)
    }
}

/// Replaces the first row that is the same one, or puts the row last. It takes no memory.
pub fn put<R: Keyed + Drop>(rows: &mut OpenNamed<R>, row: R)
    requires { 0 < rows.old.room }
    ensures { rows.new ≡ record { items = put_by R.same row rows.old.items; room = rows.old.room - 1 } }
{
    match rows.rows().position(&Like { row: &row }) {
        Some(at) => rows.set(at, row),
        None => rows.push(row),
    }
}

fn schedule_place(rows: &[ScheduleRow], queue: &Name, to: &Name) -> Option<usize>
    ensures first { result ≡ position (λ s. bytes_eq s.queue queue.now && bytes_eq s.to to.now) rows.now }
    ensures within { IfSome result (λ i. i < length rows.now) }
{
    rows.iter().position(|s| s.queue == *queue && s.to == *to)
}

/// Replaces the first schedule of the same queue and destination, or puts the schedule last. It takes no memory.
pub fn put_schedule(rows: &mut OpenRows<ScheduleRow>, row: ScheduleRow)
    requires { 0 < rows.old.room }
    ensures { rows.new
        ≡ record { items = put_by is_same_schedule row rows.old.items; room = rows.old.room - 1 } }
{
    match schedule_place(rows.as_slice(), &row.queue, &row.to) {
        Some(at) => rows.set(at, row),
        None => rows.push(row),
    }
}

fn remove_at<R: Named + Drop>(rows: &mut OpenNamed<R>, at: Option<usize>)
    requires { IfSome at (λ i. i < length rows.old.items) }
    ensures { rows.new ≡ record rows.old { items = removed_at rows.old.items at } }
{
    if let Some(at) = at {
        rows.remove(at);
    }
}

/// Where the queue of that name stands.
pub fn queue_place(rows: &NamedList<QueueRow>, name: &Name) -> Option<usize>
    ensures first { result ≡ position (λ q. bytes_eq q.name name.now) rows.now }
    ensures within { IfSome result (λ i. i < length rows.now) }
{
    rows.position(name)
}

/// Whether there is a queue of that name.
pub fn has_queue(rows: &NamedList<QueueRow>, name: &Name) -> bool
    ensures { result ≡ is_some (find (λ q. bytes_eq q.name name.now) rows.now) }
{
    match rows.find(name) {
        Some(_) => true,
        None => false,
    }
}

/// The table of that name.
pub fn table_row<'a>(rows: &'a NamedList<TableRow>, name: &Name) -> Option<&'a TableRow>
    ensures { option_copied result ≡ find (λ r. bytes_eq r.name name.now) rows.now }
{
    rows.find(name)
}

/// Whether there is a table of that name.
pub fn has_table(rows: &NamedList<TableRow>, name: &Name) -> bool
    ensures { result ≡ is_some (find (λ r. bytes_eq r.name name.now) rows.now) }
{
    match table_row(rows, name) {
        Some(_) => true,
        None => false,
    }
}

fn is_exception_name(queue: &[u8], table: &[u8]) -> bool
    ensures { result ≡ bytes_eq queue.now (exception_name table.now) }
{
    match queue.len().checked_sub(2) {
        Some(at) => {
            let (stem, suffix) = queue.split_at(at);
            stem == table && suffix == b"_e".as_slice()
        }
        None => false,
    }
}

fn exception_by_walk(rows: &NamedList<QueueRow>, table: &Name) -> Option<usize>
    ensures first { result ≡ position (λ q. bytes_eq q.name (exception_name table.now)) rows.now }
    ensures within { IfSome result (λ i. i < length rows.now) }
{
    let _most = rows.len();
    let table = table.as_str().as_bytes();
    rows.iter()
        .position(|r| is_exception_name(r.name.as_str().as_bytes(), table))
}

// Where the default exception queue of a table stands. All queues are gone over where there is no memory for its name.
fn exception_place(rows: &NamedList<QueueRow>, table: &Name) -> Option<usize>
    ensures first { result ≡ position (λ q. bytes_eq q.name (exception_name table.now)) rows.now }
    ensures within { IfSome result (λ i. i < length rows.now) }
{
    match table.with_suffix("_e") {
        Ok(name) => rows.position(&name),
        Err(_) => exception_by_walk(rows, table),
    }
}

/// Takes the queue table of that name out, if there is one.
pub fn remove_table(rows: &mut OpenNamed<TableRow>, name: &Name)
    ensures { rows.new ≡ without_first (λ r. bytes_eq r.name name.now) rows.old }
{
    let at = rows.rows().position(name);
    remove_at(rows, at);
}

/// Takes the queue of that name out, if there is one.
pub fn remove_queue(rows: &mut OpenNamed<QueueRow>, name: &Name)
    ensures { rows.new ≡ without_first (λ q. bytes_eq q.name name.now) rows.old }
{
    let at = queue_place(rows.rows(), name);
    remove_at(rows, at);
}

/// Takes the default exception queue of that table out, if there is one.
pub fn remove_exception_queue(rows: &mut OpenNamed<QueueRow>, table: &Name)
    ensures { rows.new ≡ without_first (λ q. bytes_eq q.name (exception_name table.now)) rows.old }
{
    let at = exception_place(rows.rows(), table);
    remove_at(rows, at);
}

/// Takes the subscriber of that queue and name out, if there is one.
pub fn remove_sub(rows: &mut OpenNamed<SubRow>, queue: &Name, name: &Name)
    ensures { rows.new
        ≡ without_first (λ s. bytes_eq s.queue queue.now && bytes_eq s.name name.now) rows.old }
{
    let at = rows.rows().position(&SubKey { queue, name });
    remove_at(rows, at);
}

/// Takes the schedule of that queue and destination out, if there is one.
pub fn remove_schedule(rows: &mut OpenRows<ScheduleRow>, queue: &Name, to: &Name)
    ensures { rows.new ≡ without_first (λ s. bytes_eq s.queue queue.now && bytes_eq s.to to.now) rows.old }
{
    if let Some(at) = schedule_place(rows.as_slice(), queue, to) {
        rows.remove(at);
    }
}

/// Takes the rows of that name out, one by one.
pub fn remove_of_queue<R: Named + Drop>(rows: &mut OpenNamed<R>, queue: &Name)
    ensures { rows.new ≡ filtered (λ r. not (bytes_eq (R.name_of r) queue.now)) rows.old }
{
    while let Some(at) = rows.rows().position(queue) {
        rows.remove(at);
    }
}

/// Takes the schedules of that queue out.
pub fn remove_schedules_of(rows: &mut OpenRows<ScheduleRow>, queue: &Name)
    ensures { rows.new ≡ filtered (λ r. not (bytes_eq r.queue queue.now)) rows.old }
{
    rows.retain(|r| r.queue != *queue);
}

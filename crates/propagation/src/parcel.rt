// What is sent of a slot, apart from the tables that it is read from.
use payload_records::{List, Name, Prop, Record, RecordType, Text};

/// What is sent of a slot: all that its destination needs of it, lent.
#[derive(Clone, Copy)]
pub struct ParcelRef<'a> {
    /// The queue that it goes to.
    pub to: &'a Name,
    /// The recipient's name, where it has one.
    pub name: Option<&'a Name>,
    /// The record type of the payload.
    pub fields: &'a RecordType,
    /// The payload.
    pub payload: &'a Record,
    /// The priority.
    pub priority: i64,
    /// The correlation, where it has one.
    pub corr: Option<&'a Text>,
    /// The properties, in byte order of their distinct names.
    pub props: &'a List<Prop>,
    /// The moment at which it expires, where it does.
    pub expires: Option<u64>,
}

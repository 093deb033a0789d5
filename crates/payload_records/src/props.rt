// Properties of a message: names with data.
ghost use Rattle.std.specs.Prelude.{◌≡◌, IfOk, IsErrOf, IsTrue, Some, None, true, false};
ghost use Rattle.serde_json.specs.View.{view};
ghost use Rattle.payload_records.specs.Props.{are_props, is_prop_value, is_prop_member, prop_of, props_of, properties};
ghost use Rattle.payload_records.specs.declared.props.PropFault.TheVariants.{Memory};

use crate::{Copied, Datum, List, Loose, Member, Name, NameFault, PROP_LIMIT, Payload, TEXT_LIMIT};
use serde_json::Value;
use std::alloc::{AllocError, Global};

/// A property of a message.
#[derive(Debug, PartialEq, Eq)]
pub struct Prop {
    /// Its name, which no other property of the message has.
    pub name: Name,
    /// Its value, which is neither null nor an empty text.
    pub value: Datum,
}

impl Drop for Prop {
    fn drop(self) {
        let Self { name: _, value: _ } = self;
    }
}

/// Why a JSON value was not read as properties.
#[derive(Clone, Copy, Debug, PartialEq, Eq)]
pub enum PropFault {
    /// It gives no properties.
    Bad,
    /// There was no memory for them.
    Memory,
}

impl From<AllocError> for PropFault {
    ghost from_gives = { λ _ e. e ≡ Memory };

    fn from(_: AllocError) -> Self {
        PropFault::Memory
    }
}

fn is_prop_value(value: &Loose) -> bool
    ensures { result ≡ is_prop_value value.now }
{
    match value {
        Loose::Null | Loose::Num(_) => true,
        Loose::Text(text) => text.as_str().len() <= TEXT_LIMIT,
        Loose::Other => false,
    }
}

fn prop_of(alloc: Global, member: &Member) -> Result<Option<Prop>, PropFault>
    ensures right { IfOk result (λ _. is_prop_member member.now ≡ true) }
    ensures ok { IfOk result (λ prop. prop ≡ prop_of member.now) }
    ensures bad { IsErrOf result PropFault.Bad → is_prop_member member.now ≡ false }
{
    let name = match Name::read(alloc, member.key.as_str()) {
        Ok(name) => name,
        Err(NameFault::Bad) => return Err(PropFault::Bad),
        Err(NameFault::Memory) => return Err(PropFault::Memory),
    };
    if !is_prop_value(&member.value) {
        return Err(PropFault::Bad);
    }
    match Datum::of(&member.value)? {
        Datum::Null => Ok(None),
        value => Ok(Some(Prop { name, value })),
    }
}

fn props_of(alloc: Global, members: &List<Member>) -> Result<List<Prop>, PropFault>
    ensures ok { IfOk result (λ props. props_of members.now ≡ Some props) }
    ensures bad { IsErrOf result PropFault.Bad → props_of members.now ≡ None }
{
    if members.len() > PROP_LIMIT {
        return Err(PropFault::Bad);
    }
    let mut props = List::new(alloc);
    for member in members {
        if let Some(prop) = prop_of(alloc, member)? {
            props.push(prop)?;
        }
    }
    Ok(props)
}

impl Prop {
    /// The properties that a JSON value gives: the members of an object, without those that are null
    /// or an empty text. `Bad` is told exactly where it gives none: an object of 32 members at most,
    /// each a name with null, a whole number of 64 bits or a text of 4,000 bytes at most.
    pub fn read_all(alloc: Global, value: &Value) -> Result<List<Prop>, PropFault>
        ensures ok { IfOk result (λ props. properties (view value.now) ≡ Some props) }
        ensures in_order { IfOk result (λ props. IsTrue (are_props props)) }
        ensures bad { IsErrOf result PropFault.Bad → properties (view value.now) ≡ None }
    {
        match Payload::of(alloc, value)? {
            Payload::NotObject => Err(PropFault::Bad),
            Payload::Members(members) => props_of(alloc, &members),
        }
    }
}

impl Copied for Prop {
    fn copied(&self) -> Result<Self, AllocError> {
        Ok(Prop {
            name: self.name.copied()?,
            value: self.value.copied()?,
        })
    }
}

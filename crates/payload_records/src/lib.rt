//! Names, texts, lists, record types and records, each as a contract sees it.
//!
//! A record is exactly what the JSON object of a payload says: one datum for each field of its type.
#![tactic(auto)]

ghost use Rattle.std.specs.Prelude.{◌≡◌};

mod boxed;
mod kind;
mod list;
mod name;
mod payload;
mod props;
mod record;
mod shared;
mod small_list;
mod small_text;
mod text;

pub use boxed::Boxed;
pub use kind::{Field, Kind, RecordType, TypeFault};
pub use list::{Copied, Iter, List};
pub use name::{Name, NameFault};
pub use payload::{Loose, Member, Payload};
pub use props::{Prop, PropFault};
pub use record::{Datum, PayloadFault, Record};
pub use shared::Shared;
pub use small_list::{SmallIter, SmallList};
pub use text::Text;

/// The most bytes of a name.
pub const NAME_LIMIT: usize = 128;
/// The most fields of a record type that is read.
pub const FIELD_LIMIT: usize = 32;
/// The most bytes of a text in a payload, and of a property that is a text.
pub const TEXT_LIMIT: usize = 4_000;
/// The most properties of a message.
pub const PROP_LIMIT: usize = 32;

/// The number of each limit, so that none of them can be another one.
pub fn limits_have_their_numbers()
    ensures name { NAME_LIMIT ≡ 128 }
    ensures fields { FIELD_LIMIT ≡ 32 }
    ensures text { TEXT_LIMIT ≡ 4000 }
    ensures props { PROP_LIMIT ≡ 32 }
{}

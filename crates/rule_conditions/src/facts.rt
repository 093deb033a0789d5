// What conditions are judged on.
use payload_records::{Copied, List, Prop, Record, Text};
use std::alloc::AllocError;

/// What a condition may ask of a message.
pub struct Facts {
    /// The message's priority; a smaller number is the more urgent.
    pub priority: i64,
    /// The correlation, where the message has one.
    pub corr: Option<Text>,
    /// The payload.
    pub cells: Record,
    /// The properties, in byte order of their distinct names.
    pub props: List<Prop>,
}

impl Drop for Facts {
    fn drop(self) {
        let Self {
            priority: _,
            corr: _,
            cells: _,
            props: _,
        } = self;
    }
}

impl Copied for Facts {
    fn copied(&self) -> Result<Self, AllocError> {
        Ok(Facts {
            priority: self.priority,
            corr: Copied::copied(&self.corr)?,
            cells: self.cells.copied()?,
            props: self.props.copied()?,
        })
    }
}

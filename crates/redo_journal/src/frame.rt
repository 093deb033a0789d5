// What stands in a journal.
use payload_records::List;

/// One of the two areas of a journal.
#[derive(Clone, Copy, Debug, PartialEq, Eq)]
pub enum Side {
    /// The area whose root stands at offset 8.
    A,
    /// The area whose root stands at offset 16.
    B,
}

/// The area that counts.
#[derive(Clone, Copy, Debug, PartialEq, Eq)]
pub struct Active {
    /// Which it is.
    pub side: Side,
    /// The offset at which it begins.
    pub root: u64,
    /// The offset of the closed gate that ends it.
    pub gate: u64,
}

/// A frame behind an open gate.
#[derive(Drop)]
pub struct FrameAt {
    /// The offset of its gate.
    pub offset: u64,
    /// Its bodies, at least one.
    pub bodies: List<List<u8>>,
}

/// Where a disk is no journal.
#[derive(Drop)]
pub struct Damage {
    /// The offset of what is damaged.
    pub offset: u64,
    /// The version of the area that it is in, in which its bodies are read; none where there is no area.
    pub version: Option<u32>,
    /// The frames in front of it, which stand behind open gates.
    pub frames: List<FrameAt>,
}

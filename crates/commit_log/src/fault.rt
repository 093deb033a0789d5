// Why a log is not mounted.

/// Why a log is not mounted. The disk is given back.
#[derive(Drop)]
pub enum LogFault<D> {
    /// A call on the disk failed.
    Fault(D),
    /// The disk is damaged, first at this offset: it is no journal there, or a commit of the frame whose gate stands there is none or does
    /// not fit.
    Damaged(u64, D),
    /// There was no memory.
    Memory(D),
}

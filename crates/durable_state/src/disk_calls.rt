// How far the disks have come.

/// The numbers of the last calls of both disks.
#[derive(Clone, Copy, Debug, PartialEq, Eq)]
pub(crate) struct DiskCalls {
    /// Of home's disk.
    pub(crate) home: u64,
    /// Of away's disk.
    pub(crate) away: u64,
}

// Which calls a disk in memory is to fail at.
ghost use Rattle.std.specs.Prelude.{◌↔◌, IsTrue};
ghost use Rattle.aq_disk.specs.Plan.{IsSetToFail};

/// Whether a call is listed, or past the fuse.
pub fn is_set_to_fail(failing: &[u64], fuse: Option<u64>, call: u64) -> bool
    ensures { IsTrue result ↔ IsSetToFail failing.now fuse call }
{
    if failing.contains(&call) {
        return true;
    }
    match fuse {
        Some(last) => last < call,
        None => false,
    }
}

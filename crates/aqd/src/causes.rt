// What is said on standard error: databases that begin, and why a call ended as it did. It says nothing that a clause speaks of, and what cannot
// be written there is left out.
use crate::{AWAY_FILE, HOME_FILE};
use aq_disk::{FileAction, FileDisk, FileFault};
use std::io::ErrorKind;

/// Says that a file was not there, and that an empty database begins in it.
pub fn say_begun(rt: &HostRuntime, name: &str, disk: &FileDisk<HostRuntime>) {
    if disk.is_made() {
        let _ = eprintln!(rt; "aqd: {name} was not there: an empty database begins in it");
    }
}

fn verb(action: FileAction) -> &'static str {
    match action {
        FileAction::Open => "opened",
        FileAction::Lock => "locked",
        FileAction::Measure => "measured",
        FileAction::Read => "read",
        FileAction::Write => "written",
        FileAction::Sync => "synced",
    }
}

fn is_held(fault: &FileFault) -> bool {
    fault.action == FileAction::Lock && fault.error.kind() == ErrorKind::WouldBlock
}

/// Says how the file of a disk failed first, if it did.
fn say_fault(rt: &HostRuntime, name: &str, disk: &FileDisk<HostRuntime>) {
    let Some(fault) = disk.first_fault() else {
        return;
    };
    if is_held(&fault) {
        let _ = eprintln!(rt;
            "aqd: {name} could not be locked: another process holds it, or both names lead to one file"
        );
        return;
    }
    let verb = verb(fault.action);
    let error = fault.error;
    let _ = eprintln!(rt; "aqd: {name} could not be {verb}: {error}");
}

/// Says why a call ended with this status, where the output does not.
pub fn say_cause(
    rt: &HostRuntime,
    status: u8,
    home: &FileDisk<HostRuntime>,
    away: &FileDisk<HostRuntime>,
) {
    let text = match status {
        3 => "the input could not be read: nothing was run",
        4 => "out of memory",
        6 =>
            "a database is damaged and was left as it is: put a copy of its file back, or move it away to begin anew",
        7 => "the output could not be written: what stands in it is a prefix",
        _ => {
            say_fault(rt, HOME_FILE, home);
            say_fault(rt, AWAY_FILE, away);
            return;
        }
    };
    let _ = eprintln!(rt; "aqd: {text}");
}

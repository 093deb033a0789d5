// A file as a disk. No clause says what it holds: that a file keeps the contract of a disk is trusted, and so is
// that the system keeps its lock.
ghost use Rattle.std.specs.Prelude.{◌≡◌, ◌≤◌, length, Ok, IfOk};
ghost use Rattle.aq_disk.specs.Causes.{Rose};

use crate::counts::Counts;
use crate::{Disk, Failed, LENGTH_LIMIT};
use std::alloc::{AllocError, Global};
use std::fs::{File, OpenFile, OpenOptions};
use std::io::ErrorKind;
use std::os::unix::fs::FileExt;
use std::path::Path;
use std::rt::Files;
use std::{fs, io};

/// A file that a disk can stand in: read and written at places, and held by one disk at a time.
pub trait DiskFile: FileExt {
    /// Takes the exclusive lock of the file, which the system gives back when the file is closed, however that
    /// comes. Where another open of the file holds it, the error is of the kind `WouldBlock`.
    fn hold(&self) -> io::Result<()>;
}

impl DiskFile for File {
    fn hold(&self) -> io::Result<()> {
        match self.try_lock() {
            Ok(()) => Ok(()),
            Err(error) => Err(io::Error::from(error)),
        }
    }
}

/// What was asked of a file.
#[derive(Clone, Copy, Debug, PartialEq, Eq)]
pub enum FileAction {
    /// To be opened, and made where it was not there.
    Open,
    /// To be locked for this disk alone.
    Lock,
    /// To say how long it is.
    Measure,
    /// To be read.
    Read,
    /// To be written.
    Write,
    /// To be synced to the device.
    Sync,
}

/// How a file failed: at what, and the system's own error.
#[derive(Clone, Copy)]
pub struct FileFault {
    /// What was asked of it.
    pub action: FileAction,
    /// What the system answered.
    pub error: io::Error,
}

/// A file as a disk. At its first call it opens its file, made if absent, and locks it: where another process
/// holds the lock, or another disk over the same file, that call fails. It tells nothing of its content.
#[derive(Drop)]
pub struct FileDisk<R: Files + Drop> {
    host: HostFile<R>,
    counts: Counts,
    first_fault: Option<FileFault>,
}

impl<R: Files + Drop> FileDisk<R>
where
    R::File: DiskFile,
{
    /// The file at a path. Nothing is opened yet.
    pub fn at(files: R, alloc: Global, path: &str) -> Result<FileDisk<R>, AllocError>
        ensures calls { IfOk result (λ disk. ⟦<FileDisk<R> as Disk>⟧.calls disk ≡ 0) }
        ensures faults { IfOk result (λ disk. ⟦<FileDisk<R> as Disk>⟧.faults disk ≡ 0) }
    {
        let host = HostFile {
            files,
            path: String::from_str(alloc, path)?,
            file: None,
            is_made: false,
            is_folder_synced: false,
        };
        Ok(FileDisk {
            host,
            counts: Counts::ZERO,
            first_fault: None,
        })
    }

    /// How the file failed first, if it did.
    pub fn first_fault(&self) -> Option<FileFault> {
        self.first_fault
    }

    /// Whether the file was not there, and was made by this disk.
    pub fn is_made(&self) -> bool {
        self.host.is_made
    }

    // Counts a fault, and keeps the first.
    fn fail(&mut self, fault: FileFault) -> Failed
        ensures number { self.new.counts.calls ≡ self.old.counts.calls }
        ensures later { self.old.counts.faults ≤ self.new.counts.faults }
        ensures rose { Rose self.old.counts.faults self.new.counts.faults }
    {
        if self.first_fault.is_none() {
            self.first_fault = Some(fault);
        }
        self.counts.fail()
    }
}

// The file, opened once it is used.
#[derive(Drop)]
struct HostFile<R: Files + Drop> {
    files: R,
    path: String,
    file: Option<R::File>,
    is_made: bool,
    is_folder_synced: bool,
}

// A call's error, as the fault of this action.
fn at<T: Drop>(action: FileAction, answer: io::Result<T>) -> Result<T, FileFault>
    ensures { IfOk result (λ value. answer ≡ Ok value) }
{
    match answer {
        Ok(value) => Ok(value),
        Err(error) => Err(FileFault { action, error }),
    }
}

impl<R: Files + Drop> HostFile<R>
where
    R::File: DiskFile,
{
    // The file, which is made if it is absent.
    fn opened(&mut self) -> io::Result<R::File> {
        let mut how = OpenOptions::new();
        how.read(true).write(true);
        match how.open(&self.files, self.path.as_str()) {
            Err(error) if error.kind() == ErrorKind::NotFound => {
                how.create(true);
                let file = how.open(&self.files, self.path.as_str())?;
                self.is_made = true;
                Ok(file)
            }
            answer => answer,
        }
    }

    // The open file, which is locked before anything is read or written. What is read and written is told its
    // place with each call, so that no call sets one.
    fn open(&mut self) -> Result<&R::File, FileFault> {
        if self.file.is_none() {
            let file = at(FileAction::Open, self.opened())?;
            at(FileAction::Lock, file.hold())?;
            self.file = Some(file);
        }
        match &self.file {
            Some(file) => Ok(file),
            None => Err(FileFault {
                action: FileAction::Open,
                error: io::Error::from(ErrorKind::NotFound),
            }),
        }
    }

    fn measure(&mut self) -> Result<u64, FileFault> {
        let metadata = at(FileAction::Measure, self.open()?.metadata())?;
        Ok(metadata.len())
    }

    fn read(&mut self, place: u64, into: &mut [u8]) -> Result<usize, FileFault>
        ensures { IfOk result (λ n. n ≤ length into.old) }
    {
        at(FileAction::Read, fill(self.open()?, place, into))
    }

    fn put(&mut self, place: u64, from: &[u8]) -> Result<(), FileFault> {
        at(FileAction::Write, self.open()?.write_all_at(from, place))
    }

    // The file's bytes and length, and once its name in its folder.
    fn flush(&mut self) -> Result<(), FileFault> {
        at(FileAction::Sync, sync_data(self.open()?))?;
        if !self.is_folder_synced {
            at(
                FileAction::Sync,
                sync_folder(&self.files, self.path.as_str()),
            )?;
            self.is_folder_synced = true;
        }
        Ok(())
    }
}

// A file that is longer than a disk may be, or would become so.
fn too_long(action: FileAction) -> FileFault {
    FileFault {
        action,
        error: io::Error::from(ErrorKind::FileTooLarge),
    }
}

// Reads until the buffer is full or the file ends. An interrupted read is made again.
fn fill<F: FileExt>(file: &F, place: u64, into: &mut [u8]) -> io::Result<usize>
    ensures { IfOk result (λ n. n ≤ length into.old) }
{
    let mut filled = 0;
    for _ in 0..u64::MAX {
        match file.read_at(&mut into[filled..], place.wrapping_add(filled as u64)) {
            Ok(0) => return Ok(filled),
            Ok(count) => filled += count,
            Err(error) if error.kind() == ErrorKind::Interrupted => {}
            Err(error) => return Err(error),
        }
    }
    Err(io::Error::from(ErrorKind::Interrupted))
}

// The folder that a path's file stands in. What std answers of a sync, it answers of one that was not interrupted.
fn sync_folder<R: Files>(files: &R, path: &str) -> io::Result<()> {
    let folder = match Path::new(path).parent() {
        Some(folder) if !folder.as_str().is_empty() => folder,
        _ => Path::new("."),
    };
    fs::open(files, folder)?.sync_all()
}

// The bytes of a file and its length, and not when it was changed.
fn sync_data<F: OpenFile>(file: &F) -> io::Result<()> {
    file.sync_data()
}

impl<R: Files + Drop> Disk for FileDisk<R>
where
    R::File: DiskFile,
{
    ghost use Rattle.std.specs.Prelude.{None};
    ghost use Rattle.aq_disk.specs.Disk.{untold};

    ghost seen = { λ _. None };

    ghost is_image = { λ _ _ _. ⊥ };

    ghost calls = { λ d. d.counts.calls };

    ghost faults = { λ d. d.counts.faults };

    ghost reads_an_image = { λ d bytes told. untold bytes told };

    ghost told_limit = { λ d bytes told. absurd (untold bytes told) };

    fn len(&mut self) -> Result<u64, Failed> {
        self.counts.next()?;
        match self.host.measure() {
            Ok(count) if count <= LENGTH_LIMIT => Ok(count),
            Ok(_) => Err(self.fail(too_long(FileAction::Measure))),
            Err(fault) => Err(self.fail(fault)),
        }
    }

    fn read(&mut self, at: u64, into: &mut [u8]) -> Result<usize, Failed> {
        self.counts.next()?;
        match self.host.read(at, into) {
            Ok(count) => Ok(count),
            Err(fault) => Err(self.fail(fault)),
        }
    }

    fn write_at(&mut self, at: u64, from: &[u8]) -> Result<(), Failed> {
        self.counts.next()?;
        if at > LENGTH_LIMIT || from.len() as u64 > LENGTH_LIMIT - at {
            return Err(self.fail(too_long(FileAction::Write)));
        }
        match self.host.put(at, from) {
            Ok(()) => Ok(()),
            Err(fault) => Err(self.fail(fault)),
        }
    }

    fn sync(&mut self) -> Result<(), Failed> {
        self.counts.next()?;
        match self.host.flush() {
            Ok(()) => Ok(()),
            Err(fault) => Err(self.fail(fault)),
        }
    }

    fn calls(&self) -> u64 {
        self.counts.calls
    }

    fn faults(&self) -> u64 {
        self.counts.faults
    }
}

//! The machine's files, where they meet what is proved: no clause can say what a disk holds, so the
//! content of this folder is not known, and its clauses say only how often it failed.
ghost use Rattle.std.specs.Prelude.{◌≡◌, ◌-◌, ◌^◌, ◌≤◌, ◌<◌, Some, None, length, option_map, string_bytes};

use crate::{Folder, FolderFault};
use std::alloc::Global;
use std::fs::{self, File, OpenFile};
use std::io::{self, ErrorKind, Read, Write};
use std::rt::Files;

// How many files of runs that were killed may lie beside before a write fails.
const NAMES_BESIDE: u32 = 1_000;

/// The machine's files. A name is used as a path. A write makes a new file beside, under the first of
/// `NAME.new`, `NAME.1.new`, `NAME.2.new` and so on that is free, and moves it to the name once the
/// disk has all of it. What has such a name already, as a file of another run, a link or a pipe, is
/// neither opened nor changed.
#[derive(Drop)]
pub struct RealFolder<'r, R: Files> {
    rt: &'r R,
    failed_reads: u64,
    failed_writes: u64,
    last_failed: Option<String>,
}

impl<'r, R: Files> RealFolder<'r, R> {
    /// The files that the runtime reaches.
    pub fn new(rt: &'r R) -> RealFolder<'r, R>
        ensures reads { ⟦<RealFolder<'r, R> as Folder>⟧.read_faults result ≡ 0 }
        ensures writes { ⟦<RealFolder<'r, R> as Folder>⟧.write_faults result ≡ 0 }
    {
        RealFolder {
            rt,
            failed_reads: 0,
            failed_writes: 0,
            last_failed: None,
        }
    }
}

impl<'r, R: Files> Folder for RealFolder<'r, R> {
    ghost content = { λ _. None };

    ghost read_faults = { λ folder. folder.failed_reads };

    ghost write_faults = { λ folder. folder.failed_writes };

    ghost last_read_fault = { Some (2 ^ 64 - 1) };

    ghost last_write_fault = { Some (2 ^ 64 - 1) };

    ghost last_failure = { λ folder name. option_map string_bytes folder.last_failed ≡ Some name };

    fn read(
        &mut self,
        alloc: Global,
        name: &str,
        limit: u64,
    ) -> Result<Option<Vec<u8>>, FolderFault> {
        match read_prefix(self.rt, alloc, name, limit) {
            Ok(bytes) => within(bytes, limit),
            Err(error) => match error.kind() {
                ErrorKind::NotFound => Ok(None),
                ErrorKind::OutOfMemory => Err(FolderFault::NoMemory),
                _ => {
                    self.last_failed = Some(String::from_str(alloc, name)?);
                    self.failed_reads = self.failed_reads.saturating_add(1);
                    Err(FolderFault::Failed)
                }
            },
        }
    }

    fn write(&mut self, alloc: Global, name: &str, bytes: &[u8]) -> Result<(), FolderFault> {
        match replace(self.rt, alloc, name, bytes) {
            Ok(()) => Ok(()),
            Err(error) if error.kind() == ErrorKind::OutOfMemory => Err(FolderFault::NoMemory),
            Err(_) => {
                self.last_failed = Some(String::from_str(alloc, name)?);
                self.failed_writes = self.failed_writes.saturating_add(1);
                Err(FolderFault::Failed)
            }
        }
    }
}

// The whole file, or one byte more than the limit of a longer one.
fn read_prefix(rt: &impl Files, alloc: Global, name: &str, limit: u64) -> io::Result<Vec<u8>> {
    let file = fs::open(rt, name)?;
    let mut bytes = Vec::new(alloc);
    file.take(limit.saturating_add(1)).read_to_end(&mut bytes)?;
    Ok(bytes)
}

// What a read answers that found these bytes, which may be a prefix of a longer file.
fn within(bytes: Vec<u8>, limit: u64) -> Result<Option<Vec<u8>>, FolderFault>
    ensures short { length bytes.items ≤ limit → result ≡ Ok (Some bytes) }
    ensures long { limit < length bytes.items → result ≡ Err (FolderFault.TooLong limit) }
{
    if bytes.len() as u64 > limit {
        return Err(FolderFault::TooLong(limit));
    }
    Ok(Some(bytes))
}

// Replaces the file by a whole new one.
fn replace(rt: &impl Files, alloc: Global, name: &str, bytes: &[u8]) -> io::Result<()> {
    let (beside, file) = create_beside(rt, alloc, name)?;
    let moved = match fill(file, bytes) {
        Ok(()) => fs::rename(rt, beside.as_str(), name),
        Err(error) => Err(error),
    };
    if moved.is_err() {
        let _ = fs::remove_file(rt, beside.as_str());
    }
    moved
}

// A new file beside, with its name. It is created, never opened: two runs have two files.
fn create_beside<R: Files>(rt: &R, alloc: Global, name: &str) -> io::Result<(String, R::File)> {
    let mut beside = format!(in alloc; "{name}.new")?;
    for number in 1..NAMES_BESIDE {
        match File::create_new(rt, beside.as_str()) {
            Ok(file) => return Ok((beside, file)),
            Err(error) if error.kind() == ErrorKind::AlreadyExists => {}
            Err(error) => return Err(error),
        }
        beside = format!(in alloc; "{name}.{number}.new")?;
    }
    let file = File::create_new(rt, beside.as_str())?;
    Ok((beside, file))
}

// Writes all bytes through to the disk.
fn fill<F: Write + OpenFile + Drop>(mut file: F, bytes: &[u8]) -> io::Result<()> {
    file.write_all(bytes)?;
    file.flush()?;
    file.sync_all()
}

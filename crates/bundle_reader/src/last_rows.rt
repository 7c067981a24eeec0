//! The file of rows that was read last. Bytes equal to its bytes are not read again, and its rows are not copied: the files of rows
//! that a network's switches have are equal when they are written.
ghost use Rattle.std.specs.Prelude.{◌≡◌, IfErr, IfOk, IfSome, IsTrue, Ok};
ghost use Rattle.json_forms.specs.Reading.{Answered};
ghost use Rattle.net_bundle.specs.BundleNames.{digest_of};
ghost use Rattle.net_bundle.specs.RowsForm.{rows_form};
ghost use Rattle.p4_ir.specs.NetOf.{rows_of};
ghost use Rattle.bundle_reader.specs.Parts.{BytesFault, HoldsRows, IsOfBytes, IsRead, LastIsRead};

use crate::fault::ReadFault;
use crate::files::{compare_digest, form_fault};
use cocoon_num::{NoMemory, Text};
use net_bundle::{BundleFile, read_rows};
use p4_ir::RowsFile;
use std::alloc::Global;

/// A file of rows: its bytes, their digest, and the rows as which they read.
#[derive(Drop)]
pub(crate) struct LastRows {
    pub(crate) bytes: Vec<u8>,
    pub(crate) digest: Text,
    pub(crate) rows: RowsFile,
}

impl LastRows {
    /// What is kept of a file that was read.
    fn of(alloc: Global, bytes: Vec<u8>, digest: &str, rows: RowsFile) -> Result<LastRows, NoMemory>
        requires digest { digest_of bytes.items ≡ digest.now }
        requires rows { Answered rows_form bytes.items (Ok (rows_of rows)) }
        ensures read { IfOk result IsRead }
        ensures holds { IfOk result (HoldsRows bytes.items digest.now) }
    {
        let digest = Text::from(alloc, digest.as_bytes())?;
        Ok(LastRows {
            bytes,
            digest,
            rows,
        })
    }

    /// Whether the file has just these bytes and this digest.
    fn has(&self, bytes: &[u8], kept: &str) -> bool
        requires { IsRead self.now }
        ensures { IsTrue result → HoldsRows bytes.now kept.now self.now }
    {
        if self.digest.bytes() != kept.as_bytes() {
            return false;
        }
        if self.bytes.as_slice() != bytes {
            return false;
        }
        true
    }
}

/// The file that was read last, if it has just these bytes and this digest.
fn known_rows(last: Option<LastRows>, bytes: &[u8], kept: &str) -> Option<LastRows>
    requires { LastIsRead last }
    ensures read { IfSome result IsRead }
    ensures holds { IfSome result (HoldsRows bytes.now kept.now) }
{
    match last {
        Some(known) => {
            if known.has(bytes, kept) {
                return Some(known);
            }
            None
        }
        None => None,
    }
}

/// The rows as which the bytes of this switch's file read, of which this digest is kept: those that were read last, if these have the
/// same bytes.
pub(crate) fn rows_of_bytes(
    alloc: Global,
    bytes: Vec<u8>,
    switch: u16,
    kept: &str,
    last: Option<LastRows>,
) -> Result<LastRows, ReadFault>
    requires { LastIsRead last }
    ensures read { IfOk result IsRead }
    ensures holds { IfOk result (HoldsRows bytes.items kept.now) }
    ensures refused { IfErr result (BytesFault (BundleFile.Rows switch) bytes.items kept.now) }
    ensures about { IfErr result IsOfBytes }
{
    let text = bytes.as_slice();
    if let Some(known) = known_rows(last, text, kept) {
        return Ok(known);
    }
    let file = BundleFile::Rows(switch);
    compare_digest(alloc, file, text, kept)?;
    match read_rows(alloc, text) {
        Ok(rows) => Ok(LastRows::of(alloc, bytes, kept, rows)?),
        Err(fault) => Err(form_fault(file, fault)),
    }
}

//! One file of a bundle.
ghost use Rattle.std.specs.Prelude.{◌≡◌, ◌≤◌, ℕ, IfErr, IfOk, List, OnOk, Option, Some, length};
ghost use Rattle.net_bundle.specs.BundleNames.{digest_of};
ghost use Rattle.net_bundle.specs.Writing.{most_of};
ghost use Rattle.bundle_reader.specs.Alone.{IsOfFile, NotRead};
ghost use Rattle.bundle_reader.specs.FolderCounts.{NamesFailure, ReadFaultRose};
ghost use Rattle.bundle_reader.specs.Parts.{BytesFault, FaultAt, IsOfBytes, OfFiles, formed_at, program_at};
ghost use Rattle.bundle_reader.specs.Readings.{Held};
ghost use Rattle.bundle_reader.specs.Told.{IsTold};

use crate::fault::ReadFault;
use cocoon_io::{Folder, FolderFault};
use cocoon_num::{NoMemory, Text};
use json_forms::FormFault;
use net_bundle::BundleFile;
use p4_read::P4Fault;
use sha2::{Digest, Sha256};
use std::alloc::Global;

/// The SHA-256 digest in lower-case hexadecimal digits.
fn digest_of(alloc: Global, bytes: &[u8]) -> Result<Text, NoMemory>
    ensures { IfOk result (λ text. text ≡ digest_of bytes.now) }
{
    let digest = Sha256::digest(bytes);
    let text = hex::encode(alloc, digest.as_slice())?;
    Text::from(alloc, text.as_bytes())
}

/// The bytes of a file of the bundle `out`.
pub(crate) fn read_file<F: Folder>(
    alloc: Global,
    folder: &mut F,
    out: &str,
    file: BundleFile,
) -> Result<Vec<u8>, ReadFault>
    ensures held { IfOk result (λ bytes. OfFiles (F.content folder.old)
        (λ files. Held files out.now file bytes.items)) }
    ensures fits { IfOk result (λ bytes. length bytes.items ≤ most_of file) }
    ensures refused { IfErr result (λ fault. OfFiles (F.content folder.old)
        (λ files. (kept : Option (List ℕ)) → FaultAt out.now file kept fault files)) }
    ensures unread { IfErr result (NotRead file (F.content folder.old) out.now) }
    ensures about { IfErr result (IsOfFile file) }
    ensures told { IfErr result IsTold }
    ensures same { F.content folder.new ≡ F.content folder.old }
    ensures failed { IfErr result (ReadFaultRose F.last_read_fault
        (F.read_faults folder.old) (F.read_faults folder.new)) }
    ensures counted { IfOk result (λ _. F.read_faults folder.new ≡ F.read_faults folder.old) }
    ensures named { IfErr result (NamesFailure (F.last_failure folder.new) out.now) }
    ensures reads { F.read_faults folder.old ≤ F.read_faults folder.new }
    ensures writes { F.write_faults folder.new ≡ F.write_faults folder.old }
{
    let name = file.whole_name(alloc, out)?;
    let most = file.most();
    match folder.read(alloc, name.as_str(), most) {
        Ok(Some(bytes)) => {
            if bytes.len() as u64 > most {
                return Err(ReadFault::Folder(file, FolderFault::TooLong(most)));
            }
            Ok(bytes)
        }
        Ok(None) => Err(ReadFault::Missing(file)),
        Err(FolderFault::Failed) => Err(ReadFault::Folder(file, FolderFault::Failed)),
        Err(FolderFault::TooLong(_)) => Err(ReadFault::Folder(file, FolderFault::TooLong(most))),
        Err(FolderFault::NoMemory) => Err(ReadFault::NoMemory),
    }
}

/// Tests that the bytes of this file have the digest that is kept of it.
pub(crate) fn compare_digest(
    alloc: Global,
    file: BundleFile,
    bytes: &[u8],
    kept: &str,
) -> Result<(), ReadFault>
    ensures fresh { OnOk result (digest_of bytes.now ≡ kept.now) }
    ensures refused { IfErr result (BytesFault file bytes.now kept.now) }
    ensures about { IfErr result IsOfBytes }
{
    let found = digest_of(alloc, bytes)?;
    if found.bytes() != kept.as_bytes() {
        let kept = Text::from(alloc, kept.as_bytes())?;
        return Err(ReadFault::Stale(file, found, kept));
    }
    Ok(())
}

/// The bytes of a file of which this digest is kept.
pub(crate) fn read_kept<F: Folder>(
    alloc: Global,
    folder: &mut F,
    out: &str,
    file: BundleFile,
    kept: &str,
) -> Result<Vec<u8>, ReadFault>
    ensures held { IfOk result (λ bytes. OfFiles (F.content folder.old)
        (λ files. Held files out.now file bytes.items)) }
    ensures fits { IfOk result (λ bytes. length bytes.items ≤ most_of file) }
    ensures fresh { IfOk result (λ bytes. digest_of bytes.items ≡ kept.now) }
    ensures refused { IfErr result (λ fault. OfFiles (F.content folder.old)
        (FaultAt out.now file (Some kept.now) fault)) }
    ensures told { IfErr result IsTold }
    ensures same { F.content folder.new ≡ F.content folder.old }
    ensures failed { IfErr result (ReadFaultRose F.last_read_fault
        (F.read_faults folder.old) (F.read_faults folder.new)) }
    ensures counted { IfOk result (λ _. F.read_faults folder.new ≡ F.read_faults folder.old) }
    ensures named { IfErr result (NamesFailure (F.last_failure folder.new) out.now) }
    ensures reads { F.read_faults folder.old ≤ F.read_faults folder.new }
    ensures writes { F.write_faults folder.new ≡ F.write_faults folder.old }
{
    let bytes = read_file(alloc, folder, out, file)?;
    compare_digest(alloc, file, &bytes, kept)?;
    Ok(bytes)
}

/// Why the bytes of this file are not of its form.
pub(crate) fn form_fault(file: BundleFile, fault: FormFault) -> ReadFault
    ensures { result ≡ formed_at file fault }
{
    match fault {
        FormFault::NotJson => ReadFault::NotJson(file),
        FormFault::Shape(pointer) => ReadFault::Shape(file, pointer),
        FormFault::NoMemory => ReadFault::NoMemory,
    }
}

/// Why the text of this file is no program.
pub(crate) fn program_fault(file: BundleFile, fault: P4Fault) -> ReadFault
    ensures { result ≡ program_at file fault }
{
    match fault {
        P4Fault::NoMemory => ReadFault::NoMemory,
        told => ReadFault::P4(file, told),
    }
}

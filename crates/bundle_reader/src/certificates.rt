//! The reading of the certificates of a bundle.
ghost use Rattle.std.specs.Prelude.{◌≡◌, ◌≤◌, IfErr, IfOk, length};
ghost use Rattle.bundle_reader.specs.Alone.{NotRead};
ghost use Rattle.bundle_reader.specs.FolderCounts.{NamesFailure, ReadFaultRose};
ghost use Rattle.bundle_reader.specs.Parts.{OfFiles};
ghost use Rattle.bundle_reader.specs.Readings.{Held};
ghost use Rattle.bundle_reader.specs.Told.{IsTold};
ghost use Rattle.net_bundle.specs.Writing.{most_certificate_bytes};

use crate::fault::ReadFault;
use crate::files::read_file;
use cocoon_io::Folder;
use net_bundle::BundleFile;
use std::alloc::Global;

/// The bytes of the file of certificates of the bundle `out`, whatever they are.
pub fn read_certificates<F: Folder>(
    alloc: Global,
    folder: &mut F,
    out: &str,
) -> Result<Vec<u8>, ReadFault>
    ensures held { IfOk result (λ bytes. OfFiles (F.content folder.old)
        (λ files. Held files out.now BundleFile.Certificates bytes.items)) }
    ensures fits { IfOk result (λ bytes. length bytes.items ≤ most_certificate_bytes) }
    ensures refused { IfErr result
        (NotRead BundleFile.Certificates (F.content folder.old) out.now) }
    ensures told { IfErr result IsTold }
    ensures same { F.content folder.new ≡ F.content folder.old }
    ensures failed { IfErr result (ReadFaultRose F.last_read_fault
        (F.read_faults folder.old) (F.read_faults folder.new)) }
    ensures counted { IfOk result (λ bytes. F.read_faults folder.new ≡ F.read_faults folder.old) }
    ensures named { IfErr result (NamesFailure (F.last_failure folder.new) out.now) }
    ensures reads { F.read_faults folder.old ≤ F.read_faults folder.new }
    ensures writes { F.write_faults folder.new ≡ F.write_faults folder.old }
{
    read_file(alloc, folder, out, BundleFile::Certificates)
}

//! The files of a bundle, by what they hold.
ghost use Rattle.std.specs.Prelude.{◌≡◌, IfOk, string_bytes};
ghost use Rattle.net_bundle.specs.Bundle.{name_of, whole_name};
ghost use Rattle.net_bundle.specs.Writing.{most_of};

use cocoon_num::NoMemory;
use p4_ir::MOST_FILE_BYTES;
use std::alloc::Global;

/// The most bytes of the file of certificates.
pub const MOST_CERTIFICATE_BYTES: u64 = 67_108_864;

/// A file of a bundle.
#[derive(Clone, Copy, Debug, Drop, PartialEq, Eq)]
pub enum BundleFile {
    /// The program of the switch of this number.
    Program(u16),
    /// Its rows.
    Rows(u16),
    /// The certificates of what was proved of the design.
    Certificates,
    /// The switches, links and hosts, and the digests of the files of the switches.
    Network,
}

impl BundleFile {
    /// What follows the bundle's name and `.` in the file's name.
    pub fn name(self, alloc: Global) -> Result<String, NoMemory>
        ensures { IfOk result (λ name. string_bytes name ≡ name_of self) }
    {
        let name = match self {
            BundleFile::Program(switch) => format!(in alloc; "s{switch}.p4")?,
            BundleFile::Rows(switch) => format!(in alloc; "s{switch}.rows.json")?,
            BundleFile::Certificates => String::from_str(alloc, "certs.json")?,
            BundleFile::Network => String::from_str(alloc, "net.json")?,
        };
        Ok(name)
    }

    /// The file's name in the bundle of this name.
    pub fn whole_name(self, alloc: Global, out: &str) -> Result<String, NoMemory>
        ensures { IfOk result (λ name. string_bytes name ≡ whole_name out.now self) }
    {
        let name = self.name(alloc)?;
        Ok(format!(in alloc; "{out}.{name}")?)
    }

    /// The number of bytes that it may have.
    pub fn most(self) -> u64
        ensures { result ≡ most_of self }
    {
        match self {
            BundleFile::Certificates => MOST_CERTIFICATE_BYTES,
            _ => MOST_FILE_BYTES,
        }
    }
}

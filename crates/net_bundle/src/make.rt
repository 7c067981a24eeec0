//! The files of a bundle. Each is tested against its limit in its turn, and no other is made after the first that is too long. Those
//! of a switch are let go once their digests are kept, and are made again when they are written. The text of rows that all switches
//! have is not: it is made once, with its digest, and then is that of each switch.
ghost use Rattle.std.specs.Prelude.{◌≡◌, ◌<◌, [], ◌∷◌, ◌++◌, IfErr, IfOk, IsTrue, OnOk, length, map, option_map, string_bytes};
ghost use Rattle.cocoon_num.specs.Lists.{each};
ghost use Rattle.p4_emit.specs.Printed.{printed};
ghost use Rattle.p4_ir.specs.NetFits.{switch_fits};
ghost use Rattle.p4_ir.specs.P4Reads.{P4Reads};
ghost use Rattle.p4_ir.specs.WellKinded.{WellKinded};
ghost use Rattle.net_bundle.specs.Bundle as spec;
ghost use Rattle.net_bundle.specs.BundleNames.{digest_of};
ghost use Rattle.net_bundle.specs.NetFileOf.{file_made, kept_of, made_of, net_file_of, program_made, rows_made};
ghost use Rattle.net_bundle.specs.NetJson.{net_data, rows_data};
ghost use Rattle.json_forms.specs.Values.{IsJson};
ghost use Rattle.net_bundle.specs.Readable.{AllReadable};
ghost use Rattle.net_bundle.specs.SharedRows.{OfSwitch, TextOfAll};
ghost use Rattle.net_bundle.specs.Writing.{AllFit, NotMade};
ghost use Rattle.shared_net.specs.Shared.{switch_program};

use crate::fault::BundleFault;
use crate::file::BundleFile;
use crate::net_json::{KeptDigest, NetFile, net_text};
use crate::row_texts::{RowsText, digest_of, text_at};
use crate::writable::WritableNet;
use cocoon_num::NoMemory;
use p4_emit::emit_switch;
use shared_net::SwitchProgram;
use std::alloc::Global;

/// A file of a bundle, with its bytes.
#[derive(Drop)]
pub struct MadeFile {
    pub file: BundleFile,
    pub bytes: Vec<u8>,
}

/// Refuses a file that has more bytes than it may have.
fn check_length(file: BundleFile, bytes: &[u8]) -> Result<(), BundleFault>
    ensures fit { OnOk result (AllFit (file_made file bytes.now ∷ [])) }
    ensures refused { IfErr result (NotMade (file_made file bytes.now ∷ [])) }
{
    if bytes.len() as u64 > file.most() {
        return Err(BundleFault::Limit(file));
    }
    Ok(())
}

/// Adds a file, where it has at most the bytes that it may have.
fn push_file(files: &mut Vec<MadeFile>, made: MadeFile) -> Result<(), BundleFault>
    ensures files { OnOk result (map made_of files.new.items
        ≡ map made_of files.old.items ++ made_of made ∷ []) }
    ensures fit { OnOk result (AllFit (made_of made ∷ [])) }
    ensures refused { IfErr result (NotMade (made_of made ∷ [])) }
{
    check_length(made.file, &made.bytes)?;
    files.push(made)?;
    Ok(())
}

/// Keeps the digest of a file, behind what is kept, where the file has at most the bytes that it may have.
fn keep_file(
    alloc: Global,
    kept: &mut Vec<KeptDigest>,
    file: BundleFile,
    bytes: &[u8],
    digest: String,
) -> Result<(), BundleFault>
    requires { string_bytes digest ≡ digest_of bytes.now }
    ensures kept { OnOk result (map kept_of kept.new.items
        ≡ map kept_of kept.old.items ++ spec.kept_digest (file_made file bytes.now) ∷ []) }
    ensures fit { OnOk result (AllFit (file_made file bytes.now ∷ [])) }
    ensures refused { IfErr result (NotMade (file_made file bytes.now ∷ [])) }
{
    check_length(file, bytes)?;
    let name = file.name(alloc)?;
    kept.push(KeptDigest { name, digest })?;
    Ok(())
}

/// Keeps the digest of the program of a switch.
fn keep_program(
    alloc: Global,
    kept: &mut Vec<KeptDigest>,
    number: u16,
    program: &SwitchProgram,
) -> Result<(), BundleFault>
    requires { WellKinded (switch_program program.now) }
    ensures kept { OnOk result (map kept_of kept.new.items ≡ map kept_of kept.old.items
        ++ spec.kept_digest (program_made number (switch_program program.now)) ∷ []) }
    ensures fit { OnOk result (AllFit (program_made number (switch_program program.now) ∷ [])) }
    ensures reads { OnOk result
        (P4Reads (printed (switch_program program.now)) (switch_program program.now)) }
    ensures refused { IfErr result (NotMade
        (program_made number (switch_program program.now) ∷ [])) }
{
    let bytes = emit_switch(alloc, program)?;
    let text = bytes.as_slice();
    let digest = digest_of(alloc, text)?;
    keep_file(alloc, kept, BundleFile::Program(number), text, digest)?;
    Ok(())
}

/// Keeps the digest of the rows of the switch of this number, of which this is the text.
fn keep_rows(
    alloc: Global,
    kept: &mut Vec<KeptDigest>,
    number: u16,
    text: &RowsText,
) -> Result<(), BundleFault>
    requires { string_bytes text.now.digest ≡ digest_of text.now.bytes.items }
    ensures kept { OnOk result (map kept_of kept.new.items ≡ map kept_of kept.old.items
        ++ spec.kept_digest (rows_made number text.now.bytes.items) ∷ []) }
    ensures fit { OnOk result (AllFit (rows_made number text.now.bytes.items ∷ [])) }
    ensures refused { IfErr result (NotMade (rows_made number text.now.bytes.items ∷ [])) }
{
    let bytes = text.bytes.as_slice();
    let digest = String::from_str(alloc, text.digest.as_str())?;
    keep_file(alloc, kept, BundleFile::Rows(number), bytes, digest)?;
    Ok(())
}

/// Keeps the digests of the files of the switch at this index. One of them is held at a time, beside the text that is shared.
fn keep_switch<N: WritableNet>(
    alloc: Global,
    kept: &mut Vec<KeptDigest>,
    net: &N,
    index: usize,
    shared: &Option<RowsText>,
) -> Result<(), BundleFault>
    requires within { index < length (N.net net.now).switches }
    requires fits { IsTrue (each switch_fits (N.net net.now).switches) }
    requires shared { TextOfAll shared.now (N.net net.now).switches }
    ensures kept { OnOk result (OfSwitch (N.net net.now).switches index
        (λ s. map kept_of kept.new.items
        ≡ map kept_of kept.old.items ++ map spec.kept_digest (spec.switch_files s))) }
    ensures fit { OnOk result (OfSwitch (N.net net.now).switches index
        (λ s. AllFit (spec.switch_files s))) }
    ensures program { OnOk result (OfSwitch (N.net net.now).switches index
        (λ s. P4Reads (printed s.program) s.program)) }
    ensures rows { OnOk result (OfSwitch (N.net net.now).switches index
        (λ s. IsJson (spec.rows_text s.rows) (rows_data s.rows))) }
    ensures refused { IfErr result (λ fault. OfSwitch (N.net net.now).switches index
        (λ s. NotMade (spec.switch_files s) fault)) }
{
    let number = net.number(index);
    let program = net.program(index);
    keep_program(alloc, kept, number, &program)?;
    let rows = text_at(alloc, net, index, shared)?;
    keep_rows(alloc, kept, number, rows.text())?;
    Ok(())
}

/// What is kept of the files of all switches, in the order of the switches.
pub(crate) fn keep_switches<N: WritableNet>(
    alloc: Global,
    net: &N,
    shared: &Option<RowsText>,
) -> Result<Vec<KeptDigest>, BundleFault>
    requires fits { IsTrue (each switch_fits (N.net net.now).switches) }
    requires shared { TextOfAll shared.now (N.net net.now).switches }
    ensures kept { IfOk result (λ v. map kept_of v.items
        ≡ map spec.kept_digest (spec.all_switch_files (N.net net.now).switches)) }
    ensures fit { OnOk result (AllFit (spec.all_switch_files (N.net net.now).switches)) }
    ensures readable { OnOk result (AllReadable (N.net net.now).switches) }
    ensures refused { IfErr result (NotMade
        (spec.all_switch_files (N.net net.now).switches)) }
{
    let mut kept = Vec::new(alloc);
    for index in 0..net.count() {
        keep_switch(alloc, &mut kept, net, index, shared)?;
    }
    Ok(kept)
}

/// What the file of the network holds, where this is kept of the files of the switches.
fn net_file<N: WritableNet>(
    alloc: Global,
    net: &N,
    design: &[u8],
    kept: Vec<KeptDigest>,
) -> Result<NetFile, NoMemory>
    requires kept { map kept_of kept.items
        ≡ map spec.kept_digest (spec.all_switch_files (N.net net.now).switches) }
    ensures { IfOk result (λ f. net_file_of f ≡ spec.net_file design.now (N.net net.now)) }
{
    Ok(NetFile {
        design: digest_of(alloc, design)?,
        files: kept,
        hosts: net.hosts().to_vec(alloc)?,
        links: net.links().to_vec(alloc)?,
        ports: net.ports(),
        switches: net.numbers(alloc)?,
    })
}

/// Adds the certificates, if there are any.
fn push_certificates(
    alloc: Global,
    files: &mut Vec<MadeFile>,
    certificates: Option<&[u8]>,
) -> Result<(), BundleFault>
    ensures files { OnOk result (map made_of files.new.items
        ≡ map made_of files.old.items
        ++ spec.certificate_files (option_map (λ c. c.now) certificates.entry)) }
    ensures fit { OnOk result (AllFit
        (spec.certificate_files (option_map (λ c. c.now) certificates.entry))) }
    ensures refused { IfErr result (NotMade
        (spec.certificate_files (option_map (λ c. c.now) certificates.entry))) }
{
    if let Some(bytes) = certificates {
        let made = MadeFile {
            file: BundleFile::Certificates,
            bytes: bytes.to_vec(alloc)?,
        };
        push_file(files, made)?;
    }
    Ok(())
}

/// The files that follow those of the switches: the certificates, if there are any, and the network. `Limit` has the first of them that
/// has more bytes than it may.
pub(crate) fn last_files<N: WritableNet>(
    alloc: Global,
    net: &N,
    design: &[u8],
    kept: Vec<KeptDigest>,
    certificates: Option<&[u8]>,
) -> Result<Vec<MadeFile>, BundleFault>
    requires kept { map kept_of kept.items
        ≡ map spec.kept_digest (spec.all_switch_files (N.net net.now).switches) }
    ensures files { IfOk result (λ v. map made_of v.items ≡ spec.last_files
        design.now (N.net net.now) (option_map (λ c. c.now) certificates.entry)) }
    ensures fit { OnOk result (AllFit (spec.last_files
        design.now (N.net net.now) (option_map (λ c. c.now) certificates.entry))) }
    ensures readable { OnOk result (IsJson (spec.net_text design.now (N.net net.now))
        (net_data (spec.net_file design.now (N.net net.now)))) }
    ensures refused { IfErr result (NotMade (spec.last_files
        design.now (N.net net.now) (option_map (λ c. c.now) certificates.entry))) }
{
    let held = net_file(alloc, net, design, kept)?;
    let mut files = Vec::new(alloc);
    push_certificates(alloc, &mut files, certificates)?;
    let network = MadeFile {
        file: BundleFile::Network,
        bytes: net_text(alloc, &held)?,
    };
    push_file(&mut files, network)?;
    Ok(files)
}

//! The texts of the rows of switches. Where all switches have the same rows, one text is made for all, with its digest, and held:
//! to print and to hash the rows of each switch anew would take most of the time of a large network.
ghost use Rattle.std.specs.Prelude.{◌≡◌, ◌<◌, IfOk, length, string_bytes};
ghost use Rattle.p4_ir.specs.NetOf.{rows_of};
ghost use Rattle.net_bundle.specs.BundleNames.{digest_of};
ghost use Rattle.net_bundle.specs.SharedRows.{OfSwitch, TextOf, TextOfAll, text_in};

use crate::rows_json::rows_text;
use crate::writable::WritableNet;
use cocoon_num::NoMemory;
use p4_ir::RowsFile;
use sha2::{Digest, Sha256};
use std::alloc::Global;

/// The text of rows, with its digest.
#[derive(Drop)]
pub struct RowsText {
    pub bytes: Vec<u8>,
    pub digest: String,
}

/// The text of the rows of one switch: that which all share, or one that was made for it.
#[derive(Drop)]
pub enum RowsAt<'t> {
    Shared(&'t RowsText),
    Made(RowsText),
}

impl<'t> RowsAt<'t> {
    /// The text.
    pub(crate) fn text(&self) -> &RowsText
        ensures { result.now ≡ text_in self.now }
    {
        match self {
            RowsAt::Shared(text) => text,
            RowsAt::Made(text) => text,
        }
    }
}

/// The SHA-256 digest in lower-case hexadecimal digits.
pub(crate) fn digest_of(alloc: Global, bytes: &[u8]) -> Result<String, NoMemory>
    ensures { IfOk result (λ text. string_bytes text ≡ digest_of bytes.now) }
{
    let digest = Sha256::digest(bytes);
    Ok(hex::encode(alloc, digest.as_slice())?)
}

/// The text of these rows.
pub(crate) fn text_of(alloc: Global, rows: &RowsFile) -> Result<RowsText, NoMemory>
    ensures { IfOk result (λ text. TextOf text (rows_of rows.now)) }
{
    let bytes = rows_text(alloc, rows)?;
    let text = bytes.as_slice();
    let digest = digest_of(alloc, text)?;
    Ok(RowsText { bytes, digest })
}

/// The text of the rows of all switches, where these are known to have the same.
pub(crate) fn shared_text<N: WritableNet>(
    alloc: Global,
    net: &N,
) -> Result<Option<RowsText>, NoMemory>
    ensures { IfOk result (λ shared. TextOfAll shared (N.net net.now).switches) }
{
    let Some(rows) = net.shared_rows() else {
        return Ok(None);
    };
    let text = text_of(alloc, rows)?;
    Ok(Some(text))
}

/// The text of the rows of the switch at this index: the one that is shared, or else one that is made here.
pub(crate) fn text_at<'t, N: WritableNet>(
    alloc: Global,
    net: &N,
    index: usize,
    shared: &'t Option<RowsText>,
) -> Result<RowsAt<'t>, NoMemory>
    requires within { index < length (N.net net.now).switches }
    requires shared { TextOfAll shared.now (N.net net.now).switches }
    ensures { IfOk result (λ rows. OfSwitch (N.net net.now).switches index
        (λ s. TextOf (text_in rows) s.rows)) }
{
    if let Some(text) = shared {
        return Ok(RowsAt::Shared(text));
    }
    let rows = net.rows(index);
    let text = text_of(alloc, rows)?;
    Ok(RowsAt::Made(text))
}

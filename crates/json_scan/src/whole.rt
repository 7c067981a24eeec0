//! Whole texts.
ghost use Rattle.std.specs.Prelude.{◌≡◌, Err, IfOk, option_map};
ghost use Rattle.serde_json.specs.Data.{Data};
ghost use Rattle.json_forms.specs.Values.{IsJson};
ghost use Rattle.json_scan.specs.Whole.{Stands};
ghost use Rattle.json_scan.specs.declared.fault.ScanFault.TheVariants.{NotJson};

use crate::fault::ScanFault;
use crate::scan::ScanJson;
use json::{Reader, Scratch};
use std::alloc::Global;

/// How deep arrays and objects may nest.
const MAX_DEPTH: usize = 127;

/// What the value of these bytes stands for, where it is of the form; or that they are the JSON text of no value.
pub fn scan_all<Kind, T: ScanJson<Kind> + Drop>(
    alloc: Global,
    bytes: &[u8],
) -> Result<Option<T>, ScanFault>
    ensures ok { IfOk result (λ read. Stands T.form bytes.now (option_map T.meaning read)) }
    ensures err { result ≡ Err NotJson → (d : Data) → ¬ IsJson bytes.now d }
{
    let Ok(text) = simdutf8::basic::from_utf8(bytes) else {
        return Err(ScanFault::NotJson);
    };
    let mut scratch = Scratch::new(alloc);
    let mut reader = Reader::new(text, &mut scratch)?;
    let read = T::scan(alloc, &mut reader, MAX_DEPTH)?;
    if reader.next().is_some() {
        return Err(ScanFault::NotJson);
    }
    Ok(read)
}

//! Cases of the compiler alone: the bundle of the network that it makes of the last level of a design, whatever its blocks owe.
ghost use Rattle.std.specs.Prelude.{◌<◌, ◌^◌, IfSome, IsTrue, length};
ghost use Rattle.p4_ir.specs.NetFits.{net_fits};
ghost use Rattle.shared_net.specs.Shared.{shared_of};

use crate::attempt::{Case, compare, place_all};
use crate::fields::Line;
use crate::lines::report;
use case_files::Printer;
use cocoon_io::MemFolder;
use command_reports::{Bound, bound_texts};
use lower_p4::lower;
use net_bundle::write_bundle;
use shared_net::SharedNet;
use std::alloc::Global;

/// A text has fewer bytes than this.
const TOO_LONG: usize = 0x8000_0000;

/// The network of the last level of a design under definitions, if both keep the rules.
fn network(alloc: Global, design: &[u8], defs: &[u8]) -> Option<SharedNet>
    ensures { IfSome result (λ net. IsTrue (net_fits (shared_of net))) }
{
    if design.len() >= TOO_LONG || defs.len() >= TOO_LONG {
        return None;
    }
    match bound_texts(alloc, design, defs) {
        Ok(Bound { checked, defs }) => match lower(alloc, &checked, &defs) {
            Ok(net) => Some(net),
            Err(_) => None,
        },
        Err(_) => None,
    }
}

/// Writes the bundle of the line's design, definitions and name, and reports which files are not as they are wanted.
pub fn try_lowering(alloc: Global, case: Case<'_>, line: Line<'_>, out: &mut Printer) {
    let mut folder = MemFolder::new(alloc, Vec::new(alloc));
    place_all(case.lines, case.files, &mut folder, out);
    let design = case.files.before.file(line.name).unwrap_or_default();
    let defs = case.files.before.file(line.old).unwrap_or_default();
    match network(alloc, design, defs) {
        Some(net) => {
            if write_bundle(alloc, &mut folder, line.new, &net, design, None).is_err() {
                report(out, "not written: ", line.new);
            }
        }
        None => report(out, "no network of ", line.name),
    }
    compare(case, &folder, out);
}

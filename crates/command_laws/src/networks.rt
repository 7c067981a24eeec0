//! Networks that the files of a folder give.
ghost use Rattle.std.specs.Prelude.{◌≡◌, List, ℕ};
ghost use Rattle.net_bundle.specs.Network.{Network};
ghost use Rattle.cocoon_io.specs.Files.{Files};
ghost use Rattle.p4_ir.specs.NetTree.{NetData};

use crate::programs::one_program;

/// The files of a folder give at most one network under a name.
pub fn one_network()
    ensures { (files : Files) (out : List ℕ) (m n : NetData)
        → Network files out m → Network files out n → m ≡ n }
{
    one_program();
}

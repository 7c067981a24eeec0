//! Laws of bundles that are written and read. The functions do nothing; their contracts are the laws.
ghost use Rattle.std.specs.Prelude.{◌≡◌, ◌⊎◌, List, Option, Some, ℕ};
ghost use Rattle.bundle_reader.specs.Alone.{OneWiring};
ghost use Rattle.bundle_reader.specs.Mixed.{NoTwoAlike, SameNetFile};
ghost use Rattle.bundle_reader.specs.OneReading.{OneReading};
ghost use Rattle.bundle_reader.specs.Readings.{ReadsAs};
ghost use Rattle.cocoon_io.specs.Files.{Files};
ghost use Rattle.net_bundle.specs.Bundle.{bundle};
ghost use Rattle.net_bundle.specs.Network.{Network};
ghost use Rattle.net_bundle.specs.Writing.{AllFit, NotWritten, with_files};
ghost use Rattle.net_bundle.specs.declared.fault.BundleFault.{BundleFault};
ghost use Rattle.p4_ir.specs.NetTree.{NetData};

use net_bundle::form_laws::{net_form_is_exact, rows_form_is_exact};
use p4_read::laws::one_answer;
use p4_run::laws::rows_without_fault_load;

/// What `write_bundle` wrote reads as the network that it wrote: its clauses say that the files were put in, that they fit
/// and that they hold the network.
pub fn written_reads_back()
    ensures { (was is : Files) (out design : List ℕ) (net : NetData)
        (certificates : Option (List ℕ))
        → Some is ≡ with_files out (bundle design net certificates) (Some was)
        → AllFit (bundle design net certificates) → Network is out net → ReadsAs is out net }
{}

/// The files of a folder give, under a name, one network at most, have one first fault at most, and never both. A failed call
/// of the folder and being out of memory are no faults of the files.
pub fn one_reading()
    ensures { (files : Files) (out : List ℕ) → OneReading files out }
{
    one_answer();
    net_form_is_exact();
    rows_form_is_exact();
    rows_without_fault_load();
}

/// The file of the network gives one network of wires at most, and has a first fault or gives one, never both. Where the whole
/// bundle gives a network, it has these wires.
pub fn one_wiring()
    ensures { (files : Files) (out : List ℕ) → OneWiring files out }
{
    one_answer();
    net_form_is_exact();
    rows_form_is_exact();
    rows_without_fault_load();
}

/// Where the file of the network is the same in two folders, both give one network at most, if no two different files of its
/// switches have one digest.
pub fn one_file_one_network()
    ensures { (was is : Files) (out : List ℕ) (old read : NetData)
        → SameNetFile out was is → NoTwoAlike out old.switches was is
        → ReadsAs was out old → ReadsAs is out read → read ≡ old }
{
    one_reading();
}

/// After a write that stopped, over whatever stood there, the file of the network is the one of before, byte for byte, or the
/// new bundle is there whole. So what is read then is the network of the old `net.json`, with the digests that it keeps, or the
/// new one. If that `net.json` gave a network once, with the files that stood beside it then, it is that network, where no
/// two different files of its switches have one digest. A mix of both bundles is refused.
pub fn old_new_or_refused()
    ensures left { (was is : Files) (out design : List ℕ) (new : NetData)
        (certificates : Option (List ℕ)) (fault : BundleFault)
        → NotWritten out (bundle design new certificates) (Some was) (Some is) fault
        → SameNetFile out was is
        ⊎ (Some is ≡ with_files out (bundle design new certificates) (Some was)) }
    ensures read { (once was is : Files) (out design : List ℕ) (old new read : NetData)
        (certificates : Option (List ℕ)) (fault : BundleFault)
        → SameNetFile out once was → NoTwoAlike out old.switches once is → ReadsAs once out old
        → NotWritten out (bundle design new certificates) (Some was) (Some is) fault
        → ReadsAs is out read → (read ≡ old)
        ⊎ (Some is ≡ with_files out (bundle design new certificates) (Some was)) }
{
    one_file_one_network();
}

//! Sinks: bytes that are put one after another.
ghost use Rattle.std.specs.Prelude.{◌≡◌, ◌≢◌, ◌≤◌, ℕ, List, Option, OnOk};
ghost use Rattle.cocoon_io.specs.Calls.{AppendsPrefix, appended, Rose};

use std::alloc::{AllocError, Global};
use thiserror::Error;

/// Why a sink did not take all bytes.
#[derive(Debug, Drop, Error)]
pub enum SinkFault {
    #[error("the sink failed")]
    Failed,
    #[error("there was no memory")]
    NoMemory,
}

impl From<AllocError> for SinkFault {
    ghost use Rattle.std.specs.Prelude.{◌≡◌};
    ghost use Rattle.cocoon_io.specs.declared.sink.SinkFault.TheVariants.{NoMemory};

    ghost from_gives = { λ _ fault. fault ≡ NoMemory };

    fn from(_: AllocError) -> SinkFault {
        SinkFault::NoMemory
    }
}

/// What takes bytes and keeps their order.
pub trait Sink {
    /// The bytes put so far, where they are known.
    ghost output: { Self → Option (List ℕ) };

    /// How many puts failed so far.
    ghost faults: { Self → ℕ };

    /// The value at which the count stays, where there is one.
    ghost last_fault: { Option ℕ };

    /// Puts bytes out. After `Failed` a prefix of them is out, after `NoMemory` none.
    fn put(&mut self, alloc: Global, bytes: &[u8]) -> Result<(), SinkFault>
        ensures ok { OnOk result (output self.new ≡ appended (output self.old) bytes.now) }
        ensures failed { result ≡ Err SinkFault.Failed
            → Rose last_fault (faults self.old) (faults self.new) }
        ensures counted { result ≢ Err SinkFault.Failed → faults self.new ≡ faults self.old }
        ensures prefix { result ≡ Err SinkFault.Failed
            → AppendsPrefix (output self.old) bytes.now (output self.new) }
        ensures no_memory { result ≡ Err SinkFault.NoMemory
            → (output self.new ≡ output self.old) × (faults self.new ≡ faults self.old) }
        ensures counts { faults self.old ≤ faults self.new };
}

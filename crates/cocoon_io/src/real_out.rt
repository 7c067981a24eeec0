//! The standard output, where it meets what is proved: no clause can say what was written there, so
//! the output of this sink is not known, and its clauses say only how often it failed.
ghost use Rattle.std.specs.Prelude.{◌≡◌, ◌-◌, ◌^◌, Some, None};

use crate::{Sink, SinkFault};
use std::alloc::Global;

/// The runtime's output.
#[derive(Drop)]
pub struct RealOut<'r, R: Print> {
    rt: &'r R,
    failed_puts: u64,
}

impl<'r, R: Print> RealOut<'r, R> {
    /// The output of this runtime.
    pub fn new(rt: &'r R) -> RealOut<'r, R>
        ensures { ⟦<RealOut<'r, R> as Sink>⟧.faults result ≡ 0 }
    {
        RealOut { rt, failed_puts: 0 }
    }
}

impl<'r, R: Print> Sink for RealOut<'r, R> {
    ghost output = { λ _. None };

    ghost faults = { λ sink. sink.failed_puts };

    ghost last_fault = { Some (2 ^ 64 - 1) };

    fn put(&mut self, _alloc: Global, bytes: &[u8]) -> Result<(), SinkFault> {
        // what prints has no buffer: a call that succeeds has written all bytes
        if self.rt.write_all(bytes).is_err() {
            self.failed_puts = self.failed_puts.saturating_add(1);
            return Err(SinkFault::Failed);
        }
        Ok(())
    }
}

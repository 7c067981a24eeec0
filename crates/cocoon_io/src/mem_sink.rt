//! A sink in memory that fails the puts that a test chose, so that a caller's answer to each fault
//! can be tried.
ghost use Rattle.std.specs.Prelude.{◌≡◌, ◌↔◌, ◌++◌, [], Some, None, IsTrue, OnOk, OnErr};
ghost use Rattle.cocoon_io.specs.Plans.{fails_next, after_put};

use crate::plan::Plan;
use crate::{Sink, SinkFault};
use std::alloc::Global;
use std::marker::Model;

/// Bytes in memory, and the numbers of the puts that fail. Puts are counted from 1, and none after
/// number 2^64 - 1 fails. A put that fails puts nothing.
#[derive(Drop)]
pub struct MemSink {
    held: Vec<u8>,
    planned: Plan,
    failed_puts: u64,
}

impl Model for MemSink {
    ghost use Rattle.std.specs.Prelude.{◌≤◌};
    ghost use Rattle.cocoon_io.specs.Plans.{PlannedSink};

    ghost Value = { PlannedSink };

    ghost view = { λ a. record {
      output = a.held.items;
      plan = a.planned;
      faults = a.failed_puts;
    } };

    ghost invariant = { λ a. a.failed_puts ≤ a.planned.calls };
}

impl MemSink {
    /// A sink with no bytes and no put so far, whose puts with these numbers fail.
    pub fn new(alloc: Global, fail: Vec<u64>) -> MemSink
        ensures { result ≡ record {
          output = [];
          plan = record { failing = fail.items; calls = 0 };
          faults = 0;
        } }
    {
        MemSink {
            held: Vec::new(alloc),
            planned: Plan::new(fail),
            failed_puts: 0,
        }
    }

    /// The bytes put so far.
    pub fn bytes(&self) -> &[u8]
        ensures { result.now ≡ self.now.output }
    {
        self.held.as_slice()
    }
}

impl Sink for MemSink {
    ghost output = { λ sink. Some sink.output };

    ghost faults = { λ sink. sink.faults };

    ghost last_fault = { None };

    fn put(&mut self, alloc: Global, bytes: &[u8]) -> Result<(), SinkFault>
        ensures ok { OnOk result (self.new ≡ after_put self.old (self.old.output ++ bytes.now)) }
        ensures err { OnErr result (self.new ≡ after_put self.old self.old.output) }
        ensures fails { (result ≡ Err SinkFault.Failed) ↔ IsTrue (fails_next self.old.plan) }
    {
        if self.planned.next_fails() {
            self.failed_puts += 1;
            return Err(SinkFault::Failed);
        }
        self.held.extend_from_slice(bytes)?;
        Ok(())
    }
}

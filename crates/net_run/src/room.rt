//! Memory that visits leave to those after them. No answer depends on it.
ghost use Rattle.std.specs.Prelude.{◌≡◌, [], IfOk};

use crate::departed::Departed;
use crate::standing::Standing;
use cocoon_num::NoMemory;
use std::alloc::Global;
use std::mem;

/// The memory of what departed before, of the copies that were under way, and of their bytes.
#[derive(Drop)]
pub struct Room {
    pub(crate) departed: Vec<Departed>,
    pub(crate) stack: Vec<Standing>,
    pub(crate) bytes: Vec<Vec<u8>>,
}

impl Room {
    /// Before any visit.
    pub fn new(alloc: Global) -> Room {
        Room {
            departed: Vec::new(alloc),
            stack: Vec::new(alloc),
            bytes: Vec::new(alloc),
        }
    }

    /// A list for what departs.
    pub(crate) fn none_departed(&mut self, alloc: Global) -> Vec<Departed>
        ensures { result.items ≡ [] }
    {
        let mut list = mem::replace(&mut self.departed, Vec::new(alloc));
        list.clear();
        list
    }

    /// A stack for copies.
    pub(crate) fn no_copies(&mut self, alloc: Global) -> Vec<Standing>
        ensures { result.items ≡ [] }
    {
        let mut stack = mem::replace(&mut self.stack, Vec::new(alloc));
        stack.clear();
        stack
    }

    /// Keeps the memory of a stack.
    pub(crate) fn keep_stack(&mut self, stack: Vec<Standing>) {
        self.stack = stack;
    }

    /// A list for so many bytes.
    pub(crate) fn no_bytes(&mut self, alloc: Global, size: usize) -> Result<Vec<u8>, NoMemory>
        ensures { IfOk result (λ bytes. bytes.items ≡ []) }
    {
        match self.bytes.pop() {
            Some(mut bytes) => {
                bytes.clear();
                Ok(bytes)
            }
            None => Ok(Vec::with_capacity(alloc, size)?),
        }
    }

    /// A copy of some bytes.
    pub(crate) fn copied(&mut self, alloc: Global, bytes: &[u8]) -> Result<Vec<u8>, NoMemory>
        ensures { IfOk result (λ copy. copy.items ≡ bytes.now) }
    {
        let mut copy = self.no_bytes(alloc, bytes.len())?;
        copy.extend_from_slice(bytes)?;
        Ok(copy)
    }
}

//! The memory that runs work in.
ghost use Rattle.std.specs.Prelude.{◌≡◌, ◌↔◌, IfOk, IsTrue};
ghost use Rattle.p4_run.specs.RegisterStates.{Fit};
ghost use Rattle.p4_run.specs.Frames.{Fits, headers_in};
ghost use Rattle.p4_run.specs.Running.{program_in};
ghost use Rattle.p4_run.specs.Frames as frames;
ghost use Rattle.p4_run.specs.States as spec;

use crate::filling::{numbers_fit, zero_registers};
use crate::loaded::Loaded;
use crate::registers::Registers;
use cocoon_num::NoMemory;
use std::alloc::Global;

/// What a run works in: made once for a program, and used for packet after packet.
#[derive(Drop)]
pub struct Frame {
    /// What the last ingress left.
    pub(crate) left: Registers,
    /// What egress works on.
    pub(crate) current: Registers,
    /// The bytes of the headers of the last run.
    pub(crate) bytes: Vec<u8>,
}

fn registers_fit(loaded: &Loaded, registers: &Registers) -> bool
    ensures { result ≡ spec.registers_fit (program_in loaded.now) registers.now }
{
    numbers_fit(&loaded.widths, &registers.fields) && numbers_fit(&loaded.meta, &registers.meta)
}

/// Numbers that fit, all 0.
fn zeros(alloc: Global, loaded: &Loaded) -> Result<Registers, NoMemory>
    ensures { IfOk result (λ made. Fit (program_in loaded.now) made) }
{
    let fields = loaded.widths.len();
    let meta = loaded.meta.len();
    let made = zero_registers(alloc, fields, meta)?;
    Ok(made)
}

fn frame_fits(loaded: &Loaded, frame: &Frame) -> bool
    ensures { result ≡ frames.frame_fits (program_in loaded.now) frame.now }
{
    frame.bytes.len() == loaded.header_bytes
        && registers_fit(loaded, &frame.left)
        && registers_fit(loaded, &frame.current)
}

impl Frame {
    /// A frame that fits a program.
    pub fn new(alloc: Global, loaded: &Loaded) -> Result<Frame, NoMemory>
        ensures { IfOk result (λ frame. Fits (program_in loaded.now) frame) }
    {
        let left = zeros(alloc, loaded)?;
        let current = zeros(alloc, loaded)?;
        let bytes = vec![in alloc; 0; loaded.header_bytes]?;
        Ok(Frame {
            left,
            current,
            bytes,
        })
    }

    /// Whether the frame can be used with a program. The time is in proportion to its fields.
    pub fn fits(&self, loaded: &Loaded) -> bool
        ensures { IsTrue result ↔ Fits (program_in loaded.now) self.now }
    {
        frame_fits(loaded, self)
    }

    /// The bytes of the headers that the last run left.
    pub fn headers(&self) -> &[u8]
        ensures { result.now ≡ headers_in self.now }
    {
        self.bytes.as_slice()
    }
}

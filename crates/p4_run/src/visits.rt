//! Visits: ingress, and egress for each member of a group.
ghost use Rattle.std.specs.Prelude.{◌≡◌, ◌<◌, ◌≤◌, ◌^◌, false, IfSome, IsTrue, length, None, option_map, Some, true};
ghost use Rattle.cocoon_num.specs.Lists.{ascend};
ghost use Rattle.cocoon_num.specs.Packets.{header_bytes, Layout};
ghost use Rattle.packed_fields.specs.AtOnce.{bytes_in, widths_in};
ghost use Rattle.p4_ir.specs.P4Tree.{RowsFile};
ghost use Rattle.p4_ir.specs.Switch as switch;
ghost use Rattle.p4_ir.specs.Switch.{egress_of, p4_run_all, state_of};
ghost use Rattle.p4_run.specs.Controls.{running_in};
ghost use Rattle.p4_run.specs.RegisterStates.{Fit, state_in};
ghost use Rattle.p4_run.specs.Frames.{Fits, headers_in, left_in};
ghost use Rattle.p4_run.specs.Running.{layout_in, program_in, rows_in};
ghost use Rattle.p4_run.specs.Visits.{after_egress, after_ingress, AreHeaders, ingress_left};

use crate::filling::{copy_from, fill};
use crate::frame::Frame;
use crate::loaded::Loaded;
use crate::registers::Registers;
use crate::running::run_all;
use packed_fields::join_into;

/// What follows a run.
#[derive(Clone, Copy, Debug, Drop, PartialEq, Eq)]
pub enum Next {
    /// Nothing leaves.
    Drop,
    /// The packet leaves at this port: its headers, and then the payload.
    Port(u16),
    /// Egress is run for each member of this group.
    Copies(u16),
}

/// What follows from what ingress left.
fn next_after_ingress(registers: &Registers) -> Next
    ensures { (layout : Layout) → result ≡ after_ingress (Some (state_in layout registers.now)) }
{
    match registers.verdict {
        1 => Next::Port(registers.egress_port),
        2 => Next::Copies(registers.group),
        _ => Next::Drop,
    }
}

/// What follows from what egress left.
fn next_after_egress(registers: &Registers) -> Next
    ensures { (layout : Layout) → result ≡ after_egress (Some (state_in layout registers.now)) }
{
    if registers.verdict != 1 {
        return Next::Drop;
    }
    Next::Port(registers.egress_port)
}

/// Sets the registers to what ingress begins with.
fn enter(loaded: &Loaded, registers: &mut Registers, port: u16, bytes: &[u8])
    requires fit { Fit (program_in loaded.now) registers.old }
    requires long { loaded.now.header_bytes ≤ length bytes.now }
    ensures fit { Fit (program_in loaded.now) registers.new }
    ensures own { registers.new.own ≡ port }
    ensures left { (rows : RowsFile) → ingress_left (program_in loaded.now) rows port bytes.now
        ≡ option_map state_of (p4_run_all (running_in (program_in loaded.now) rows.tables true port)
        (program_in loaded.now).ingress.body (state_in (layout_in loaded.now) registers.new)) }
{
    fill(registers, &loaded.widths, &bytes[..loaded.header_bytes]);
    registers.own = u64::from(port);
}

/// Runs ingress.
fn run_ingress(loaded: &Loaded, registers: &mut Registers)
    requires fit { Fit (program_in loaded.now) registers.old }
    requires own { registers.old.own < 2 ^ 16 }
    ensures fit { Fit (program_in loaded.now) registers.new }
    ensures left { option_map state_of (p4_run_all
        (running_in (program_in loaded.now) (rows_in loaded.now).tables true registers.old.own)
        (program_in loaded.now).ingress.body (state_in (layout_in loaded.now) registers.old))
        ≡ Some (state_in (layout_in loaded.now) registers.new) }
{
    run_all(registers, &loaded.tables, &loaded.ingress);
}

/// Runs egress.
fn run_egress(loaded: &Loaded, registers: &mut Registers)
    requires fit { Fit (program_in loaded.now) registers.old }
    requires own { registers.old.own < 2 ^ 64 }
    ensures fit { Fit (program_in loaded.now) registers.new }
    ensures left { option_map state_of (p4_run_all
        (running_in (program_in loaded.now) (rows_in loaded.now).tables false registers.old.own)
        (program_in loaded.now).egress.body (state_in (layout_in loaded.now) registers.old))
        ≡ Some (state_in (layout_in loaded.now) registers.new) }
{
    run_all(registers, &loaded.tables, &loaded.egress);
}

/// Sets the registers to what egress begins with.
fn start(loaded: &Loaded, registers: &mut Registers, left: &Registers, rid: u64)
    requires fit { Fit (program_in loaded.now) registers.old }
    requires left { Fit (program_in loaded.now) left.now }
    ensures fit { Fit (program_in loaded.now) registers.new }
    ensures own { registers.new.own ≡ rid }
    ensures state { let old = state_in (layout_in loaded.now) left.now in
        state_in (layout_in loaded.now) registers.new
        ≡ record old { verdict = 0; egress_port = 0 } }
{
    copy_from(registers, left);
    registers.verdict = 0;
    registers.egress_port = 0;
    registers.own = rid;
}

/// Sets the bytes to those of the headers.
fn leave(loaded: &Loaded, bytes: &mut Vec<u8>, registers: &Registers)
    requires fit { Fit (program_in loaded.now) registers.now }
    requires many { length bytes.old.items ≡ bytes_in (layout_in loaded.now) }
    ensures many { length bytes.new.items ≡ bytes_in (layout_in loaded.now) }
    ensures bytes { bytes.new.items
        ≡ header_bytes (widths_in (layout_in loaded.now)) registers.now.fields.items }
{
    join_into(bytes, &loaded.widths, &registers.fields);
}

impl Loaded {
    /// Runs ingress for bytes that come in at a port. Bytes that are shorter than the headers are dropped, and leave the frame
    /// as it was.
    pub fn ingress(&self, frame: &mut Frame, port: u16, bytes: &[u8]) -> Next
        requires { Fits (program_in self.now) frame.old }
        ensures fits { Fits (program_in self.now) frame.new }
        ensures next { result
            ≡ after_ingress (ingress_left (program_in self.now) (rows_in self.now) port bytes.now) }
        ensures left { IfSome (ingress_left (program_in self.now) (rows_in self.now) port bytes.now)
            (λ state. left_in self.now frame.new ≡ state) }
        ensures headers { AreHeaders (layout_in self.now)
            (ingress_left (program_in self.now) (rows_in self.now) port bytes.now)
            (headers_in frame.new) }
        ensures kept { ingress_left (program_in self.now) (rows_in self.now) port bytes.now ≡ None
            → frame.new ≡ frame.old }
    {
        if bytes.len() < self.header_bytes {
            return Next::Drop;
        }
        enter(self, &mut frame.left, port, bytes);
        run_ingress(self, &mut frame.left);
        leave(self, &mut frame.bytes, &frame.left);
        next_after_ingress(&frame.left)
    }

    /// Runs egress for a member of a group, from what the last ingress left.
    pub fn egress(&self, frame: &mut Frame, rid: u64) -> Next
        requires { Fits (program_in self.now) frame.old }
        ensures fits { Fits (program_in self.now) frame.new }
        ensures next { result ≡ after_egress
            (egress_of (program_in self.now) (rows_in self.now) rid (left_in self.now frame.old)) }
        ensures left { left_in self.now frame.new ≡ left_in self.now frame.old }
        ensures headers { AreHeaders (layout_in self.now)
            (egress_of (program_in self.now) (rows_in self.now) rid (left_in self.now frame.old))
            (headers_in frame.new) }
    {
        start(self, &mut frame.current, &frame.left, rid);
        run_egress(self, &mut frame.current);
        leave(self, &mut frame.bytes, &frame.current);
        next_after_egress(&frame.current)
    }

    /// The members of a group, ascending; none of a group that is not there. The time grows with the logarithm of the number
    /// of groups.
    pub fn members(&self, group: u16) -> &[u64]
        ensures members { result.now ≡ switch.members (rows_in self.now).groups group }
        ensures ascend { IsTrue (ascend result.now) }
    {
        let place = self.groups.place(u32::from(group));
        match self.all_groups.get(place) {
            Some(known) => known.members.items(),
            None => &[],
        }
    }
}

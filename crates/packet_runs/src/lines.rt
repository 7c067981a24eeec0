//! The lines of what becomes of a packet.
ghost use Rattle.std.specs.Prelude.{◌≡◌, ◌++◌, codes, decimal, map, OnOk, string_bytes};
ghost use Rattle.hex.specs.Hex.{encode_lower};
ghost use Rattle.net_run.specs.Delivering.{delivery_of};
ghost use Rattle.packet_runs.specs.Growing.{outcome_of};
ghost use Rattle.packet_runs.specs.Reports.{bytes_text, delivery_line, delivery_lines, outcome_line, outcome_lines};

use cocoon_num::NoMemory;
use net_run::{Delivery, Outcome};
use std::alloc::Global;

/// Memory for parts of lines, which each line leaves to the next.
#[derive(Drop)]
pub(crate) struct LineRoom {
    text: String,
    digits: Vec<u8>,
}

impl LineRoom {
    pub(crate) fn new(alloc: Global) -> LineRoom {
        LineRoom {
            text: String::new(alloc),
            digits: Vec::new(alloc),
        }
    }
}

/// The line of how many copies are delivered, and how many travel.
fn write_outcome(
    text: &mut String,
    number: u64,
    delivered: u64,
    travelling: u32,
) -> Result<(), NoMemory>
    ensures { OnOk result (string_bytes text.new ≡ outcome_line number delivered travelling) }
{
    text.clear();
    write!(
        text,
        "{number} delivered {delivered} travelling {travelling}\n"
    )?;
    Ok(())
}

/// How the line of a delivery at a host begins.
fn write_front(text: &mut String, host: u64) -> Result<(), NoMemory>
    ensures { OnOk result (string_bytes text.new ≡ codes "> " ++ (decimal host ++ codes " ")) }
{
    text.clear();
    write!(text, "> {host} ")?;
    Ok(())
}

/// The digits of some bytes, in lower case.
fn write_digits(digits: &mut Vec<u8>, bytes: &[u8]) -> Result<(), NoMemory>
    ensures { OnOk result (digits.new.items ≡ encode_lower bytes.now) }
{
    let room = bytes.len().checked_mul(2).ok_or(NoMemory)?;
    digits.resize(room, 0)?;
    hex::encode_to_slice(bytes, digits.as_mut_slice()).unwrap();
    Ok(())
}

/// The digits of some bytes, or `-` for none.
fn push_bytes(digits: &mut Vec<u8>, report: &mut Vec<u8>, bytes: &[u8]) -> Result<(), NoMemory>
    ensures { OnOk result (report.new.items ≡ report.old.items ++ bytes_text bytes.now) }
{
    if bytes.is_empty() {
        report.push(b'-')?;
        return Ok(());
    }
    write_digits(digits, bytes)?;
    report.extend_from_slice(digits)?;
    Ok(())
}

/// The line of a delivery.
fn push_delivery(
    room: &mut LineRoom,
    report: &mut Vec<u8>,
    delivery: &Delivery,
) -> Result<(), NoMemory>
    ensures { OnOk result (report.new.items
        ≡ report.old.items ++ delivery_line (delivery_of delivery.now)) }
{
    write_front(&mut room.text, delivery.host)?;
    report.extend_from_slice(room.text.as_bytes())?;
    push_bytes(&mut room.digits, report, delivery.bytes.bytes())?;
    report.push(b'\n')?;
    Ok(())
}

/// The lines of some deliveries, in their order.
fn push_deliveries(
    room: &mut LineRoom,
    report: &mut Vec<u8>,
    deliveries: &[Delivery],
) -> Result<(), NoMemory>
    ensures { OnOk result (report.new.items
        ≡ report.old.items ++ delivery_lines (map delivery_of deliveries.now)) }
{
    for delivery in deliveries {
        push_delivery(room, report, delivery)?;
    }
    Ok(())
}

/// The lines of the packet of this number, counted from 1.
pub(crate) fn push_outcome(
    room: &mut LineRoom,
    report: &mut Vec<u8>,
    number: u64,
    outcome: &Outcome,
) -> Result<(), NoMemory>
    ensures { OnOk result (report.new.items
        ≡ report.old.items ++ outcome_lines number (outcome_of outcome.now)) }
{
    let delivered = outcome.delivered.items();
    let count = delivered.len() as u64;
    write_outcome(&mut room.text, number, count, outcome.travelling)?;
    report.extend_from_slice(room.text.as_bytes())?;
    push_deliveries(room, report, delivered)?;
    Ok(())
}

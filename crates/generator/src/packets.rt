//! The packets that are sent through the network that is generated.
ghost use Rattle.std.specs.Prelude.{◌≡◌, ◌≤◌, ◌<◌, IfOk};
ghost use Rattle.generator.specs.Packets as spec;

use crate::definitions::address;
use cocoon_num::NoMemory;
use std::alloc::Global;

/// A packet, and the host at which it enters.
#[derive(Drop)]
pub struct Stated {
    /// The address of the host, which is its number in the network.
    pub host: u64,
    /// The addresses of two hosts, high byte first.
    pub bytes: Vec<u8>,
}

/// The packet of this number, counted from 0, in a network of so many hosts, at most 200.
pub fn packet(alloc: Global, hosts: u32, number: u32) -> Result<Stated, NoMemory>
    requires some { 1 ≤ hosts }
    requires few { hosts ≤ 200 }
    ensures host { IfOk result (λ p. p.host ≡ spec.source hosts number) }
    ensures bytes { IfOk result (λ p. p.bytes.items ≡ spec.bytes hosts number) }
{
    let source = address(number % hosts);
    let destination = address(number / hosts % hosts);
    let mut bytes = Vec::new(alloc);
    bytes.extend_from_slice(&source.to_be_bytes())?;
    bytes.extend_from_slice(&destination.to_be_bytes())?;
    Ok(Stated {
        host: u64::from(source),
        bytes,
    })
}

//! A packet of a file, and what may be wrong with the lines.

use cocoon_num::NoMemory;
use std::alloc::AllocFailed;

/// A packet, and the host at which it enters.
#[derive(Drop)]
pub struct Packet {
    pub host: u64,
    pub bytes: Vec<u8>,
}

/// Why some bytes are no file of packets. Lines are judged one after another, and their numbers count empty lines, from 1.
#[derive(Clone, Copy, Debug, Drop, PartialEq, Eq)]
pub enum PacketFault {
    /// The line of this number is not of its form.
    Form(u64),
    /// A packet has this number of bytes, which is more than it may have.
    TooLong(u64),
    /// The line of this number is of its form, and the network has no such host.
    NoSuchHost(u64),
    NoMemory,
}

impl From<NoMemory> for PacketFault {
    ghost use Rattle.std.specs.Prelude.{◌≡◌};
    ghost use Rattle.packet_runs.specs.declared.packet.PacketFault.TheVariants.{NoMemory};

    ghost from_gives = { λ _ fault. fault ≡ NoMemory };

    fn from(_: NoMemory) -> PacketFault {
        PacketFault::NoMemory
    }
}

impl<T: Drop> From<AllocFailed<T>> for PacketFault {
    ghost use Rattle.std.specs.Prelude.{◌≡◌};
    ghost use Rattle.packet_runs.specs.declared.packet.PacketFault.TheVariants.{NoMemory};

    ghost from_gives = { λ _ fault. fault ≡ NoMemory };

    fn from(_: AllocFailed<T>) -> PacketFault {
        PacketFault::NoMemory
    }
}

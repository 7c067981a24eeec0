//! A file of packets, and the report of what becomes of them in a network. Each line that is not empty is a host and the
//! bytes of a packet: [`read_packets`] reads them, for the hosts of a network, and says which line is the first at fault.
//! They are run one after another.
#![tactic(auto)]

mod bytes;
pub mod laws;
mod lines;
pub mod packet;
mod packet_lines;
pub mod running;

pub use net_run::MOST_RUNS;
pub use packet::{Packet, PacketFault};
pub use packet_lines::{MOST_BYTES, read_packets};
pub use running::{PacketsFault, run_packets};

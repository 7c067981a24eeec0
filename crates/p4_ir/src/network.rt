//! Whole networks: switches with their programs and rows, the links between their ports, and where hosts are attached.

use crate::program::Program;
use crate::rows::RowsFile;
use cocoon_num::List;

/// The most bytes of the file of a program, of that of rows, and of that of the whole network.
pub const MOST_FILE_BYTES: u64 = 4_194_304;

/// Where a link ends.
#[derive(Clone, Copy, Debug, Drop, PartialEq, Eq)]
pub enum LinkEnd {
    /// A switch and one of its ports.
    Switch(u16, u16),
    Host(u64),
}

/// What leaves at a port of a switch, and where it arrives.
#[derive(Clone, Copy, Debug, Drop, PartialEq, Eq)]
pub struct Link {
    pub switch: u16,
    pub port: u16,
    pub to: LinkEnd,
}

/// A host, and the switch and the port to which it is attached.
#[derive(Clone, Copy, Debug, Drop, PartialEq, Eq)]
pub struct HostPort {
    pub host: u64,
    pub attach: Option<(u16, u16)>,
}

/// A switch, with the program that it runs and the rows that are loaded into it.
#[derive(Drop)]
pub struct SwitchFiles {
    pub number: u16,
    pub program: Program,
    pub rows: RowsFile,
}

/// A network. Its lists ascend: switches by number, links by switch and port, hosts by number.
#[derive(Drop)]
pub struct NetData {
    /// How many ports each switch has, from 0.
    pub ports: u16,
    pub switches: List<SwitchFiles>,
    pub links: List<Link>,
    pub hosts: List<HostPort>,
}

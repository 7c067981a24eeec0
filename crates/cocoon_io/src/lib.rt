//! Folders of files and sinks of bytes, with what they hold and how often they failed as ghost
//! members, so that a caller over any folder and any sink can say what it wrote and why it stopped.
#![tactic(auto)]

pub mod folder;
pub mod honest_folder;
pub mod mem_folder;
pub mod mem_sink;
mod plan;
pub mod real_folder;
pub mod real_out;
pub mod sink;

pub use folder::{Folder, FolderFault};
pub use honest_folder::HonestFolder;
pub use mem_folder::MemFolder;
pub use mem_sink::MemSink;
pub use real_folder::RealFolder;
pub use real_out::RealOut;
pub use sink::{Sink, SinkFault};

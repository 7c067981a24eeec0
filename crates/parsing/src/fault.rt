//! Why a text has no tree.

/// The first fault of a text, with the index of its token.
#[derive(Clone, Copy, Drop)]
pub enum ParseFault {
    /// The tokens before this one begin some text, and those up to and with it begin none.
    Unexpected(u32),
    /// More brackets are open here, or more operators have come, than may be.
    TooDeep(u32),
    NoMemory,
}

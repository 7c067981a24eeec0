//! What the words ask for.

/// A command with what it is given.
#[derive(Clone, Copy, Debug, Drop)]
pub enum Command<'w> {
    Check(Check<'w>),
    Compile(Compile<'w>),
    Update(Update<'w>),
    Step(Step<'w>),
    Forward(Forward<'w>),
    Gen(Gen),
}

/// What `check` is given.
#[derive(Clone, Copy, Debug, Drop)]
pub struct Check<'w> {
    /// The file of the design.
    pub design: &'w str,
    /// The most conflicts of one search, from 1 to 200,000.
    pub conflicts: u32,
    /// The most rounds of one obligation, from 1 to 4,096.
    pub rounds: u32,
}

/// What `compile` is given.
#[derive(Clone, Copy, Debug, Drop)]
pub struct Compile<'w> {
    /// The file of the design.
    pub design: &'w str,
    /// The file of the definitions.
    pub defs: &'w str,
    /// The name of the bundle, with which the names of its files begin.
    pub out: &'w str,
    /// The most conflicts of one search, from 1 to 200,000.
    pub conflicts: u32,
    /// The most rounds of one obligation, from 1 to 4,096.
    pub rounds: u32,
}

/// What `update` is given.
#[derive(Clone, Copy, Debug, Drop)]
pub struct Update<'w> {
    /// The file of the design.
    pub design: &'w str,
    /// The file of the definitions.
    pub defs: &'w str,
    /// The name of the bundle, with which the names of its files begin.
    pub out: &'w str,
    /// The most conflicts of one search, from 1 to 200,000.
    pub conflicts: u32,
}

/// What `step` is given.
#[derive(Clone, Copy, Debug, Drop)]
pub struct Step<'w> {
    /// The file of the design.
    pub design: &'w str,
    /// The file of the definitions.
    pub defs: &'w str,
    /// The number of the level, from 0 to 16.
    pub level: u32,
    /// The file of the case.
    pub file: &'w str,
}

/// What `forward` is given.
#[derive(Clone, Copy, Debug, Drop)]
pub struct Forward<'w> {
    /// The name of the bundle, with which the names of its files begin.
    pub out: &'w str,
    /// The file of packets.
    pub packets: &'w str,
    /// The most visits of switches that a packet makes, from 1 to 64.
    pub hops: u32,
}

/// What `gen` is given.
#[derive(Clone, Copy, Debug, Drop)]
pub struct Gen {
    /// How many hosts the network has, from 1 to 200.
    pub hosts: u32,
    /// How many packets are sent through it, from 1 to 100,000.
    pub packets: u32,
}

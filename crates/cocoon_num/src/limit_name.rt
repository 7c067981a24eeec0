//! The limits of the language and of what is made of it, by their names in reports.
ghost use Rattle.std.specs.Prelude.{◌≡◌};
ghost use Rattle.cocoon_num.specs.LimitNames.{limit_text};

/// What a limit counts.
#[derive(Clone, Copy, Debug, Drop, PartialEq, Eq)]
pub enum LimitName {
    /// The bytes of one file.
    File,
    /// `refine` blocks.
    Refines,
    /// The number of a `within`.
    Within,
    /// The number of a `ports`.
    Ports,
    /// Distinct roles.
    Roles,
    /// Functions.
    Functions,
    /// Assumptions.
    Assumptions,
    /// The parameters of one list.
    Params,
    /// Headers.
    Headers,
    /// The fields of all headers.
    Fields,
    /// The ways through one body.
    Paths,
    /// The nodes of one body with static functions in place of their calls.
    Expanded,
    /// The leaves of one tree.
    Leaves,
    /// The clauses of one query.
    Clauses,
    /// The `define` rows of a definitions text.
    Rows,
    /// Switches.
    Switches,
    /// Hosts.
    Hosts,
    /// The tables of one program.
    Tables,
    /// The last-level forks of one program.
    Sites,
    /// The members of one group.
    Members,
    /// The number of the level in a step.
    Level,
    /// The runs of one packet.
    Copies,
    /// The bytes of one packet.
    Packet,
}

impl LimitName {
    /// Its name in reports.
    pub fn text(self) -> &'static str
        ensures { result.now ≡ limit_text self }
    {
        match self {
            LimitName::File => "file",
            LimitName::Refines => "refines",
            LimitName::Within => "within",
            LimitName::Ports => "ports",
            LimitName::Roles => "roles",
            LimitName::Functions => "functions",
            LimitName::Assumptions => "assumptions",
            LimitName::Params => "params",
            LimitName::Headers => "headers",
            LimitName::Fields => "fields",
            LimitName::Paths => "paths",
            LimitName::Expanded => "expanded",
            LimitName::Leaves => "leaves",
            LimitName::Clauses => "clauses",
            LimitName::Rows => "rows",
            LimitName::Switches => "switches",
            LimitName::Hosts => "hosts",
            LimitName::Tables => "tables",
            LimitName::Sites => "sites",
            LimitName::Members => "members",
            LimitName::Level => "level",
            LimitName::Copies => "copies",
            LimitName::Packet => "packet",
        }
    }
}

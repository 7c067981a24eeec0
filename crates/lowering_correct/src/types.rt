//! What types give lowering. The functions do nothing; their contracts are the laws.
ghost use Rattle.std.specs.Prelude.{◌≡◌, ◌<◌, ◌^◌, true, List, ℕ, reverse, Some};
ghost use Rattle.cocoon_num.specs.Lists.{is_one_of};
ghost use Rattle.cocoon_num.specs.PacketForms.{PacketFits};
ghost use Rattle.cocoon_num.specs.Packets.{Packet};
ghost use Rattle.cocoon_num.specs.Tree.{DefsText, Design};
ghost use Rattle.cocoon_types.specs.DefsRules.{fork_calls};
ghost use Rattle.cocoon_types.specs.Design.{functions, layout};
ghost use Rattle.cocoon_types.specs.Rules.{WellFormed};
ghost use Rattle.cocoon_types.specs.Runs.{Loc};
ghost use Rattle.cocoon_types.specs.Tables.{defs_of};
ghost use Rattle.lowering.specs.Agrees.{Filling, FunctionsFit};
ghost use Rattle.lowering.specs.LowerBlock.{fork_function};
ghost use Rattle.lowering.specs.Departs.{departs};
ghost use Rattle.lowering.specs.Roles.{NetParts, net_parts};
ghost use Rattle.lowering.specs.Sends.{ExitsOnly, IsExit};
ghost use Rattle.lowering.specs.Fitting.{VisitFits, role_context, role_visit};
ghost use Rattle.lowering.specs.Forks.{AllForks, ForksAre};
ghost use Rattle.sound_types.specs.Defined.{HasDefinitions};
ghost use Rattle.sound_types.specs.Literals.{DesignLiteralsFit};

/// Tables and bodies of functions give what is declared, and calls in bodies pass numbers that fit.
pub fn functions_fit()
    ensures { (d : Design) (es : DefsText) → HasDefinitions d es
        → FunctionsFit d.headers (defs_of d es) (reverse (functions d)) }
{}

/// Along the visit of a packet that fits, at each switch and port, and in each copy, expressions
/// have values of the kinds that their places ask for. What leaves, leaves for the egress role at
/// the own switch.
pub fn roles_fit()
    ensures visits { (d : Design) (es : DefsText) → HasDefinitions d es
        → (parts : NetParts) → net_parts d ≡ Some parts
        → (fill : Filling) → fill.defs ≡ defs_of d es
        → (s port : ℕ) → s < 2 ^ 16 → port < 2 ^ 16
        → (packet : Packet) → PacketFits (layout d) packet
        → VisitFits parts.role fill s port packet }
    ensures exits { (d : Design) (es : DefsText) → HasDefinitions d es
        → (parts : NetParts) → net_parts d ≡ Some parts
        → (fill : Filling) → fill.defs ≡ defs_of d es
        → (s port : ℕ) → s < 2 ^ 16 → port < 2 ^ 16
        → (packet : Packet) → PacketFits (layout d) packet
        → ExitsOnly parts.switches.out.text (layout d) s
        (role_visit parts.role fill s port packet) }
    ensures departures { (d : Design) (es : DefsText) → HasDefinitions d es
        → (parts : NetParts) → net_parts d ≡ Some parts
        → (fill : Filling) → fill.defs ≡ defs_of d es
        → (s port : ℕ) → s < 2 ^ 16 → port < 2 ^ 16
        → (packet : Packet) → PacketFits (layout d) packet
        → (choices : List ℕ) (to : Loc) (sent : Packet)
        → departs (role_context parts.role fill) (role_visit parts.role fill s port packet) choices
        ≡ Some (to, sent)
        → IsExit parts.switches.out.text (layout d) s to sent }
{}

/// A design that keeps the rules has the parts of a network; its forks are of the form that
/// lowering asks for.
pub fn forks_are()
    ensures parts { (d : Design) → WellFormed d
        → (parts : NetParts) × (net_parts d ≡ Some parts) }
    ensures forks { (d : Design) → WellFormed d → DesignLiteralsFit d
        → (parts : NetParts) → net_parts d ≡ Some parts
        → ForksAre parts.role.functions parts.role.body }
    ensures names { (d : Design) → WellFormed d
        → (parts : NetParts) → net_parts d ≡ Some parts
        → AllForks (λ x width e. is_one_of (fork_calls d) (fork_function e) ≡ true)
        parts.role.body }
{}

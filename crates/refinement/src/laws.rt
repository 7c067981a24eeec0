//! What the rules of designs give of levels, and what a refinement that keeps what it owes gives of
//! deliveries. The functions do nothing; their contracts are the laws.
ghost use Rattle.std.specs.Prelude.{[], ◌++◌, ◌≡◌, ◌≤◌, false, List, ℕ, slice_get, Some, suc, true};
ghost use Rattle.cocoon_num.specs.Lists.{no_repeats};
ghost use Rattle.cocoon_num.specs.PacketForms.{PacketFits};
ghost use Rattle.cocoon_num.specs.Packets.{Packet};
ghost use Rattle.cocoon_num.specs.Reads.{Reads};
ghost use Rattle.cocoon_num.specs.Tree.{Block, Design, Refine, Role};
ghost use Rattle.cocoon_resolve.specs.Readers.{assumptions_to};
ghost use Rattle.cocoon_types.specs.Design.{last_level, layout, role_at};
ghost use Rattle.cocoon_types.specs.RuleParts.{has_name};
ghost use Rattle.cocoon_types.specs.Rules.{WellFormed};
ghost use Rattle.cocoon_types.specs.Runs.{Go, IsSink, LastGo, Loc, MayMake, Walk, World, world};
ghost use Rattle.cocoon_types.specs.Tables.{Defs};
ghost use Rattle.cocoon_types.specs.Taken.{go, guard_at, Used};
ghost use Rattle.refinement.specs.Delivering.{MayIn};
ghost use Rattle.refinement.specs.Indices.{block_indices};
ghost use Rattle.refinement.specs.Plain.{plainly};
ghost use Rattle.refinement.specs.Assumptions.{AreDefinitions, Meets};
ghost use Rattle.refinement.specs.Owed.{Contained, Refines, Within};
ghost use Rattle.refinement.specs.Segments.{IsNew, IsOld, IsRefined, Segment};
ghost use Rattle.refinement.specs.Ways.{Arrival, go_by, hops_by, Way};
ghost use Rattle.sound_types.specs.Ends.{LocFits};
ghost use Rattle.sound_types.specs.Literals.{DesignLiteralsFit};

use cocoon_types::runs::runs_are_taken;
use sound_types::laws::{declarations_are_typed, runs_keep_types, starts_fit};

/// In a design that keeps the rules: an old role that a block does not list keeps its declaration,
/// the guard of an old role means the same at both levels, a location is of the sink at each level
/// or at none, and a block allows one body or more.
pub fn levels_keep_roles()
    ensures unlisted { (d : Design) (above : ℕ) (block : Refine) → WellFormed d
        → slice_get d.refines above ≡ Some block → (name : List ℕ) (r : Role)
        → role_at above d name ≡ Some r → has_name name block.roles ≡ false
        → role_at (suc above) d name ≡ Some r }
    ensures guards { (d : Design) (above : ℕ) (block : Refine) → WellFormed d
        → slice_get d.refines above ≡ Some block → (defs : Defs) (at : Loc) → IsOld above d at
        → guard_at (world (suc above) d defs) at ≡ guard_at (world above d defs) at }
    ensures sinks { (d : Design) → WellFormed d → (level other : ℕ) (defs : Defs) (at : Loc)
        → IsSink (world level d defs) at → IsSink (world other d defs) at }
    ensures bounds { (d : Design) (above : ℕ) (block : Refine) → WellFormed d
        → slice_get d.refines above ≡ Some block → 1 ≤ block.within }
{}

/// The body of an old role that the block does not list runs as it runs at the level above, and
/// sends to old roles.
pub fn old_bodies_run_above()
    ensures { (d : Design) (above : ℕ) (block : Refine) → WellFormed d → DesignLiteralsFit d
        → slice_get d.refines above ≡ Some block → (defs : Defs)
        → (from : Loc) (packet : Packet) (choices : List ℕ) (to : Loc) (sent : Packet)
        → IsOld above d from → has_name from.role block.roles ≡ false
        → Go (world (suc above) d defs) from packet choices to sent
        → Go (world above d defs) from packet choices to sent × IsOld above d to }
{
    declarations_are_typed();
}

/// A body that runs on a packet of the design's layout sends such a packet, to a location that fits
/// the level.
pub fn packets_keep_fitting()
    ensures { (d : Design) (defs : Defs) → WellFormed d → DesignLiteralsFit d
        → AreDefinitions d defs → (level : ℕ)
        → (from : Loc) (packet : Packet) (choices : List ℕ) (to : Loc) (sent : Packet)
        → Go (world level d defs) from packet choices to sent → PacketFits (layout d) packet
        → LocFits level d to × PacketFits (layout d) sent }
{
    runs_are_taken();
    runs_keep_types();
}

/// In a design that was read no two statements of a body have one token index: so a choice, which
/// is known by that of its statement, differs from each other choice.
pub fn statements_differ()
    ensures { (text : List ℕ) (d : Design) → Reads text d
        → (level : ℕ) (name : List ℕ) (r : Role) → role_at level d name ≡ Some r
        → (body : Block) → r.body ≡ Some body → no_repeats (block_indices body) ≡ true }
{}

/// Definitions that meet the assumptions of a level meet those of the level above.
pub fn assumptions_of_levels()
    ensures { (d : Design) (above : ℕ) (block : Refine) → slice_get d.refines above ≡ Some block
        → (defs : Defs) → Meets (suc above) d defs → Meets above d defs }
{}

/// What a level delivers from an old location, the level above delivers with at most as many
/// bodies, if the block between them is contained and bounded.
pub fn one_level_down()
    ensures { (d : Design) (above : ℕ) (block : Refine) (defs : Defs)
        → WellFormed d → DesignLiteralsFit d → slice_get d.refines above ≡ Some block
        → Contained above d block → Within above d block
        → AreDefinitions d defs → Meets (suc above) d defs
        → (bodies : ℕ) (from : Loc) (packet : Packet) (choices : List ℕ) (to : Loc) (sent : Packet)
        → PacketFits (layout d) packet → IsOld above d from
        → Walk (world (suc above) d defs) bodies from packet choices to sent
        → MayIn bodies above d defs from packet to sent }
{
    declarations_are_typed();
    runs_are_taken();
    runs_keep_types();
}

/// What a level delivers from a location of level 0, level 0 delivers with at most as many bodies,
/// if every block is contained and bounded. So what the last level delivers of some bytes, the
/// topmost specification may make of them.
pub fn levels_compose()
    ensures walks { (d : Design) (defs : Defs) → WellFormed d → DesignLiteralsFit d → Refines d
        → AreDefinitions d defs → (level : ℕ) → level ≤ last_level d → Meets level d defs
        → (bodies : ℕ) (from : Loc) (packet : Packet) (choices : List ℕ) (to : Loc) (sent : Packet)
        → PacketFits (layout d) packet → IsOld 0 d from
        → Walk (world level d defs) bodies from packet choices to sent
        → MayIn bodies 0 d defs from packet to sent }
    ensures deliveries { (d : Design) (defs : Defs) → WellFormed d → DesignLiteralsFit d
        → Refines d → AreDefinitions d defs → Meets (last_level d) d defs
        → (a : ℕ) (bytes choices : List ℕ) (visits b : ℕ) (out : List ℕ)
        → LastGo d defs a bytes choices visits b out → MayMake d defs a bytes b out }
{
    declarations_are_typed();
    runs_are_taken();
    runs_keep_types();
    starts_fit();
}

/// A design without blocks owes nothing, and definitions meet a level that has no assumptions.
pub fn one_level_owes_nothing()
    ensures refines { (d : Design) → last_level d ≡ 0 → Refines d }
    ensures meets { (d : Design) (level : ℕ) → assumptions_to level d ≡ []
        → (defs : Defs) → Meets level d defs }
{}

/// A body's run with the branches that it takes is its run: it leads where that leads, and leaves
/// the same choices.
pub fn ways_are_runs()
    ensures { (w : World) (from : Loc) (packet : Packet) (choices : List ℕ)
        → plainly (go_by w from packet choices) ≡ go w from packet choices }
{}

/// A segment that has left the new roles, or has as many bodies as are allowed, is what a program
/// computes that notes the branches taken, whatever choices follow. What that computes from a
/// refined role is such a segment, by the choices that it used.
pub fn segments_are_hops()
    ensures computed { (d : Design) (above : ℕ) (block : Refine) (defs : Defs)
        (from : Loc) (packet : Packet) (choices : List ℕ) (bodies : ℕ) (to : Loc) (sent : Packet)
        → Segment above d block defs from packet choices bodies to sent
        → (most : ℕ) → bodies ≤ most → (IsNew above d to → bodies ≡ most)
        → (rest : List ℕ) → (way : Way) × (hops_by above d defs most from packet (choices ++ rest)
        ≡ Some (record { to = to; sent = sent; rest = rest; way = way })) }
    ensures related { (d : Design) (above : ℕ) (block : Refine) (defs : Defs) (others : ℕ)
        (from : Loc) (packet : Packet) (choices : List ℕ) (led : Arrival)
        → IsRefined block from
        → hops_by above d defs (suc others) from packet choices ≡ Some led
        → Used choices led.rest (λ used. (bodies : ℕ) × (bodies ≤ suc others)
        × Segment above d block defs from packet used bodies led.to led.sent
        × (IsNew above d led.to → bodies ≡ suc others)) }
{
    runs_are_taken();
}

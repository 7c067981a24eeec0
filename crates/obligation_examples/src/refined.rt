//! The segments of three designs. The functions do nothing; their contracts are the laws.
ghost use Rattle.std.specs.Prelude.{[], ◌∷◌, ◌≡◌, codes, false, Some, true};
ghost use Rattle.cocoon_types.specs.Runs.{Go, world};
ghost use Rattle.obligation_examples.specs.DesignM.{m_block, m_defs, m_design};
ghost use Rattle.obligation_examples.specs.DesignT.{t_block, t_defs, t_design, t_loop_defs};
ghost use Rattle.obligation_examples.specs.DesignThree.{three_block_1, three_block_2, three_defs, three_design, three_loose_defs};
ghost use Rattle.obligation_examples.specs.Places.{at_role, packet_m, packet_three};
ghost use Rattle.refinement.specs.Assumptions.{Meets};
ghost use Rattle.refinement.specs.Segments.{IsNew, IsOld, Segment};
ghost use Rattle.refinement.specs.Ways.{hops_by};

use cocoon_types::runs::runs_are_taken;

/// In the design m a packet from the first host to the second goes to the switch by one body,
/// through it by two and to the host by three. Its sender's body at level 0 sends the same.
pub fn segments_of_m()
    ensures one { Segment 0 m_design m_block m_defs (at_role (codes "HostOut") (167772161 ∷ []))
        packet_m [] 1 (at_role (codes "SwIn") (1 ∷ 0 ∷ [])) packet_m }
    ensures two { Segment 0 m_design m_block m_defs (at_role (codes "HostOut") (167772161 ∷ []))
        packet_m [] 2 (at_role (codes "SwOut") (1 ∷ 1 ∷ [])) packet_m }
    ensures three { Segment 0 m_design m_block m_defs (at_role (codes "HostOut") (167772161 ∷ []))
        packet_m [] 3 (at_role (codes "HostIn") (167772162 ∷ [])) packet_m }
    ensures new { IsNew 0 m_design (at_role (codes "SwIn") (1 ∷ 0 ∷ [])) }
    ensures old { IsOld 0 m_design (at_role (codes "HostIn") (167772162 ∷ [])) }
    ensures above { Go (world 0 m_design m_defs) (at_role (codes "HostOut") (167772161 ∷ []))
        packet_m [] (at_role (codes "HostIn") (167772162 ∷ [])) packet_m }
{
    runs_are_taken();
}

/// In the design t such a packet goes by the trunk: to the first switch, to the trunk, to the
/// second switch, to the host's port and to the host, in five bodies, by these branches.
pub fn segments_of_t()
    ensures one { Segment 0 t_design t_block t_defs (at_role (codes "HostOut") (167772161 ∷ []))
        packet_m [] 1 (at_role (codes "SwIn") (1 ∷ 0 ∷ [])) packet_m }
    ensures two { Segment 0 t_design t_block t_defs (at_role (codes "HostOut") (167772161 ∷ []))
        packet_m [] 2 (at_role (codes "SwOut") (1 ∷ 3 ∷ [])) packet_m }
    ensures three { Segment 0 t_design t_block t_defs (at_role (codes "HostOut") (167772161 ∷ []))
        packet_m [] 3 (at_role (codes "SwIn") (2 ∷ 3 ∷ [])) packet_m }
    ensures four { Segment 0 t_design t_block t_defs (at_role (codes "HostOut") (167772161 ∷ []))
        packet_m [] 4 (at_role (codes "SwOut") (2 ∷ 0 ∷ [])) packet_m }
    ensures five { Segment 0 t_design t_block t_defs (at_role (codes "HostOut") (167772161 ∷ []))
        packet_m [] 5 (at_role (codes "HostIn") (167772162 ∷ [])) packet_m }
    ensures way { hops_by 0 t_design t_defs 5 (at_role (codes "HostOut") (167772161 ∷ []))
        packet_m [] ≡ Some (record {
          to = at_role (codes "HostIn") (167772162 ∷ []);
          sent = packet_m;
          rest = [];
          way = false ∷ false ∷ true ∷ true ∷ true ∷ false ∷ [];
        }) }
{
    runs_are_taken();
}

/// If the second host's port is taken for a trunk, five bodies of t, as many as its block allows,
/// end at a new role. An assumption fails then, so nothing is owed for these definitions.
pub fn segments_that_stay_new()
    ensures segment { Segment 0 t_design t_block t_loop_defs
        (at_role (codes "HostOut") (167772161 ∷ [])) packet_m [] 5
        (at_role (codes "SwIn") (1 ∷ 3 ∷ [])) packet_m }
    ensures allowed { t_block.within ≡ 5 }
    ensures new { IsNew 0 t_design (at_role (codes "SwIn") (1 ∷ 3 ∷ [])) }
    ensures fails { Meets 1 t_design t_loop_defs → ⊥ }
{
    runs_are_taken();
}

/// In the design of three levels one body leads to the host at level 1, as level 0 may choose, and
/// three do at level 2, as level 1 does in one. An assumption of level 1 fails, if packets may go
/// to what is no host; level 0 has none.
pub fn segments_of_three()
    ensures one { Segment 0 three_design three_block_1 three_defs (at_role (codes "Out") (1 ∷ []))
        packet_three [] 1 (at_role (codes "In") (2 ∷ [])) packet_three }
    ensures top { Go (world 0 three_design three_defs) (at_role (codes "Out") (1 ∷ []))
        packet_three (2 ∷ []) (at_role (codes "In") (2 ∷ [])) packet_three }
    ensures three { Segment 1 three_design three_block_2 three_defs
        (at_role (codes "Out") (1 ∷ [])) packet_three [] 3 (at_role (codes "In") (2 ∷ []))
        packet_three }
    ensures middle { Go (world 1 three_design three_defs) (at_role (codes "Out") (1 ∷ []))
        packet_three [] (at_role (codes "In") (2 ∷ [])) packet_three }
    ensures fails { Meets 1 three_design three_loose_defs → ⊥ }
    ensures nothing { Meets 0 three_design three_loose_defs }
{
    runs_are_taken();
}

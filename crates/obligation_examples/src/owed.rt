//! The obligations of seven designs. The functions do nothing; their contracts are the laws.
ghost use Rattle.std.specs.Prelude.{[], ◌∷◌, ◌≡◌, codes, filter, length, map, true, false};
ghost use Rattle.bv_terms.specs.TermTrees.{not_};
ghost use Rattle.obligation_examples.specs.DesignM.{m_design};
ghost use Rattle.obligation_examples.specs.DesignT.{t_design};
ghost use Rattle.obligation_examples.specs.DesignThree.{three_design};
ghost use Rattle.obligation_examples.specs.DesignR.{r_design};
ghost use Rattle.obligation_examples.specs.DesignWays.{ways_design};
ghost use Rattle.obligation_examples.specs.Seen.{is_inside};
ghost use Rattle.obligation_laws.specs.Obligations.{all_obligations, bounded, contained, obligations_behind, Obligation};
ghost use Rattle.obligation_examples.specs.DesignBoth.{both_design};
ghost use Rattle.obligation_examples.specs.DesignW.{w_design};
ghost use Rattle.obligation_examples.specs.Expected.{goes_by_destination, goes_through_the_switch, m_formula, port, switch_formula, tag_is_1, told};

/// In the design r the body above chooses the port, which stands alone as the second value sent. So
/// each leaf is compared with a body that sends to its own port, and neither can fail.
pub fn formulas_of_r()
    ensures { map (λ (o : Obligation). o.formula) (all_obligations r_design)
        ≡ switch_formula tag_is_1 (port 1) (port 1)
        ∷ switch_formula (not_ tag_is_1) (port 2) (port 2) ∷ [] }
{}

/// In the design w it sends to the first port alone. So the second leaf fails where it is true.
pub fn formulas_of_w()
    ensures { map (λ (o : Obligation). o.formula) (all_obligations w_design)
        ≡ switch_formula tag_is_1 (port 1) (port 1)
        ∷ switch_formula (not_ tag_is_1) (port 1) (port 2) ∷ [] }
{}

/// The one formula of the design m, and those of a design of three levels.
pub fn formulas_of_m_and_three()
    ensures m { map (λ (o : Obligation). o.formula) (all_obligations m_design) ≡ m_formula ∷ [] }
    ensures three { map (λ (o : Obligation). o.formula) (all_obligations three_design)
        ≡ goes_by_destination ∷ goes_through_the_switch ∷ [] }
{}

/// The numbers of inputs run on: behind a role's tree come those of the body above, then those of
/// the next role of the block's list, and then those of the next level.
pub fn numbers_run_on()
    ensures roles { map told (all_obligations both_design)
        ≡ (1, codes "SwOut", 0, contained, 0 ∷ 1 ∷ [], 2 ∷ [], [])
        ∷ (1, codes "SwIn", 0, contained, 6 ∷ 7 ∷ [], 8 ∷ [], [])
        ∷ (1, codes "SwIn", 1, contained, 6 ∷ 7 ∷ [], 8 ∷ [], []) ∷ [] }
    ensures next_role { (obligations_behind 0 both_design 0).1 ≡ 13 }
    ensures levels { map told (all_obligations three_design)
        ≡ (1, codes "Out", 0, contained, 0 ∷ [], 1 ∷ [], [])
        ∷ (2, codes "Out", 0, contained, 5 ∷ [], 6 ∷ [], []) ∷ [] }
    ensures next_level { (obligations_behind 1 three_design 5).1 ≡ 9 }
    ensures choices { map told (all_obligations ways_design)
        ≡ (1, codes "SwIn", 0, contained, 0 ∷ 1 ∷ [], 2 ∷ 3 ∷ [], [])
        ∷ (1, codes "SwIn", 1, contained, 0 ∷ 1 ∷ [], 2 ∷ 3 ∷ [], 4 ∷ [])
        ∷ (1, codes "SwIn", 2, bounded, 0 ∷ 1 ∷ [], 2 ∷ 3 ∷ [], 5 ∷ 6 ∷ [])
        ∷ (1, codes "SwIn", 3, contained, 0 ∷ 1 ∷ [], 2 ∷ 3 ∷ [], 5 ∷ 6 ∷ [])
        ∷ (1, codes "SwIn", 4, contained, 0 ∷ 1 ∷ [], 2 ∷ 3 ∷ [], 5 ∷ 6 ∷ []) ∷ [] }
{}

/// The design t owes 36 obligations, 16 of which are of leaves that end inside.
pub fn obligations_of_t()
    ensures all { length (all_obligations t_design) ≡ 36 }
    ensures insides { length (filter (λ (o : Obligation). is_inside o.leaf.end)
        (all_obligations t_design)) ≡ 16 }
{}

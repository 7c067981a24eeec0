//! The trees of four designs. The functions do nothing; their contracts are the laws.
ghost use Rattle.std.specs.Prelude.{[], ◌∷◌, ◌≡◌, codes, false, filter, length, map, true};
ghost use Rattle.bv_terms.specs.TermTrees.{apply, arg, binary, constant, input, no_args, not_};
ghost use Rattle.bv_terms.specs.declared.node.TermOp.TheVariants as op;
ghost use Rattle.cocoon_types.specs.Design.{role_at};
ghost use Rattle.cocoon_types.specs.Limits.{reported};
ghost use Rattle.obligation_laws.specs.Shown.{functions_by};
ghost use Rattle.refinement.specs.Segments.{is_new};
ghost use Rattle.obligation_examples.specs.DesignM.{m_design};
ghost use Rattle.obligation_examples.specs.DesignT.{t_defs, t_design};
ghost use Rattle.obligation_laws.specs.Counts.{leaf_count};
ghost use Rattle.obligation_laws.specs.Leaves.{body_tree, inlined, Leaf, sent_to};
ghost use Rattle.obligation_examples.specs.DesignR.{r_design};
ghost use Rattle.obligation_examples.specs.DesignWays.{ways_design};
ghost use Rattle.obligation_examples.specs.Seen.{inputs_of, is_inside, told, true_ways};

/// In the design r the body of the first level has one leaf, whose choice is the next input, and
/// the guard of the place sent to stands behind that of the first place.
pub fn leaves_of_r()
    ensures above { body_tree 0 r_design (codes "SwIn") 0 ≡ record {
      args = (record { number = 0; width = 16 }) ∷ (record { number = 1; width = 16 }) ∷ [];
      fields = (record { number = 2; width = 8 }) ∷ [];
      leaves = (record {
        cond = binary op.And
            (binary op.And (apply 1 (arg (input 0 16) no_args) 1)
            (binary op.Less (input 1 16) (constant 16 4)))
            (binary op.And (apply 1 (arg (input 0 16) no_args) 1)
            (binary op.Less (input 3 16) (constant 16 4)));
        choices = (record { number = 3; width = 16 }) ∷ [];
        way = [];
        end = sent_to (codes "SwOut") (input 0 16 ∷ input 3 16 ∷ []) (input 2 8 ∷ []);
      }) ∷ [];
      next = 4;
    } }
    ensures refined { map told (inlined 0 r_design (codes "SwIn") 1 4).leaves
        ≡ (true ∷ [], codes "SwOut", false, []) ∷ (false ∷ [], codes "SwOut", false, []) ∷ [] }
{}

/// Leaves come depth first, the first branch before the second. What falls has none, choices take
/// the next input, and at a new role it goes on, while bodies are allowed.
pub fn leaves_of_ways()
    ensures one { map told (inlined 0 ways_design (codes "SwIn") 1 0).leaves
        ≡ (true ∷ true ∷ [], codes "SwOut", false, [])
        ∷ (true ∷ false ∷ [], codes "SwOut", false, 4 ∷ [])
        ∷ (false ∷ true ∷ [], codes "Mid", true, 5 ∷ 6 ∷ []) ∷ [] }
    ensures three { map told (inlined 0 ways_design (codes "SwIn") 3 0).leaves
        ≡ (true ∷ true ∷ [], codes "SwOut", false, [])
        ∷ (true ∷ false ∷ [], codes "SwOut", false, 4 ∷ [])
        ∷ (false ∷ true ∷ true ∷ true ∷ [], codes "Mid", true, 5 ∷ 6 ∷ [])
        ∷ (false ∷ true ∷ true ∷ false ∷ [], codes "In", false, 5 ∷ 6 ∷ [])
        ∷ (false ∷ true ∷ false ∷ [], codes "In", false, 5 ∷ 6 ∷ []) ∷ [] }
    ensures next { (inlined 0 ways_design (codes "SwIn") 3 0).next ≡ 7 }
{}

/// The design m has one leaf, at the host; with one body less it ends inside.
pub fn leaves_of_m()
    ensures three { map told (inlined 0 m_design (codes "HostOut") 3 0).leaves
        ≡ ([], codes "HostIn", false, []) ∷ [] }
    ensures two { map told (inlined 0 m_design (codes "HostOut") 2 0).leaves
        ≡ ([], codes "SwOut", true, []) ∷ [] }
{}

/// The design t has 36 leaves, 16 of which end inside. For a packet from the first host to the
/// second one of them is true, which is the one whose way its bodies go.
pub fn leaves_of_t()
    ensures leaves { length (inlined 0 t_design (codes "HostOut") 5 0).leaves ≡ 36 }
    ensures insides { length (filter (λ (l : Leaf). is_inside l.end)
        (inlined 0 t_design (codes "HostOut") 5 0).leaves) ≡ 16 }
    ensures way { true_ways (functions_by t_design t_defs)
        (inputs_of (167772161 ∷ 167772161 ∷ 167772162 ∷ []))
        (inlined 0 t_design (codes "HostOut") 5 0).leaves
        ≡ (false ∷ false ∷ true ∷ true ∷ true ∷ false ∷ []) ∷ [] }
{}

/// Leaves of t with more bodies, counted without a tree; and how a count is reported.
pub fn leaves_are_many()
    ensures seven { leaf_count (role_at 1 t_design) (is_new 0 t_design) 7 (codes "HostOut") ≡ 148 }
    ensures eleven { leaf_count (role_at 1 t_design) (is_new 0 t_design) 11 (codes "HostOut")
        ≡ 2388 }
    ensures twelve { leaf_count (role_at 1 t_design) (is_new 0 t_design) 12 (codes "HostOut")
        ≡ 5460 }
    ensures reported { reported 5460 ≡ 5460 }
    ensures most { reported 18446744073709551616 ≡ 18446744073709551615 }
{}

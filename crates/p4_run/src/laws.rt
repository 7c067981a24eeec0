//! Laws of visits: ingress, and egress of a member of the group, are one visit of the definitions. The functions do nothing;
//! their contracts are the laws.
ghost use Rattle.std.specs.Prelude.{[], ◌∷◌, ◌≡◌, ◌↔◌, IsTrue, length, List, None, option_and_then, ℕ};
ghost use Rattle.cocoon_num.specs.PacketForms.{AllWhole, AreBytes};
ghost use Rattle.packed_fields.specs.AtOnce.{bytes_in};
ghost use Rattle.p4_ir.specs.Loading.{rows_load};
ghost use Rattle.p4_ir.specs.P4Tree.{Program, program_layout, RowsFile};
ghost use Rattle.p4_ir.specs.Switch.{egress_of, switch_go};
ghost use Rattle.p4_run.specs.Faults.{load_fault};
ghost use Rattle.p4_run.specs.Visits.{after_egress, after_ingress, AreHeaders, copy_departs, departs, ingress_left};

/// There is no fault exactly where rows load.
pub fn rows_without_fault_load()
    ensures { (p : Program) (rows : RowsFile)
        → (load_fault p rows ≡ None) ↔ IsTrue (rows_load p rows) }
{}

/// Where no copy is chosen, a visit ends as ingress says.
pub fn ingress_is_a_visit()
    ensures { (p : Program) (rows : RowsFile) (tag port : ℕ) (bytes headers : List ℕ)
        → AllWhole (program_layout p) → AreBytes bytes
        → length headers ≡ bytes_in (program_layout p)
        → AreHeaders (program_layout p) (ingress_left p rows port bytes) headers
        → switch_go p rows tag port bytes []
        ≡ departs (after_ingress (ingress_left p rows port bytes)) headers bytes }
{}

/// Where a copy is chosen, it ends as egress says after ingress, if it is one of a member of the group.
pub fn egress_is_a_visit()
    ensures { (p : Program) (rows : RowsFile) (tag port rid : ℕ) (bytes headers : List ℕ)
        → AllWhole (program_layout p) → AreBytes bytes
        → length headers ≡ bytes_in (program_layout p)
        → AreHeaders (program_layout p)
        (option_and_then (egress_of p rows rid) (ingress_left p rows port bytes)) headers
        → switch_go p rows tag port bytes (rid ∷ [])
        ≡ copy_departs rows.groups (after_ingress (ingress_left p rows port bytes)) rid
        (after_egress (option_and_then (egress_of p rows rid) (ingress_left p rows port bytes)))
        headers bytes }
{}

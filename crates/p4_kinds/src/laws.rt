//! A law on the depth of programs: the contract of a function that does nothing.
ghost use Rattle.std.specs.Prelude.{◌≡◌, ◌≤◌, true, ℕ};
ghost use Rattle.cocoon_num.specs.Tokens.{is_shallow};
ghost use Rattle.p4_ir.specs.P4Text.{p4_bounds, program_tokens};
ghost use Rattle.p4_ir.specs.P4Tree.{Program};
ghost use Rattle.p4_kinds.specs.Flat.{FlatBlock};

/// No token of a program's text is deep, where each expression has at most 400 operators and at most
/// 100 blocks stand within one another.
pub fn flat_programs_are_shallow()
    ensures { (p : Program) (n : ℕ) → n ≤ 100
        → FlatBlock n p.ingress.body → FlatBlock n p.egress.body
        → is_shallow p4_bounds (program_tokens p) ≡ true }
{}

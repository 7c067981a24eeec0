//! The laws. The functions do nothing; their contracts are the laws.
ghost use Rattle.std.specs.Prelude.{◌≡◌, ◌+◌, ◌<◌, ◌≤◌, ℕ, ℤ, Bool, false, IsTrue, List, length, map, pos, reverse, slice_index_or, take};
ghost use Rattle.std.specs.List.{All};
ghost use Rattle.cnf_core.specs.Deriving.{Follows, known};
ghost use Rattle.cnf_core.specs.Licensing.{IsNew};
ghost use Rattle.cnf_core.specs.Literals.{has_literal, Names, opposite};
ghost use Rattle.cnf_core.specs.Satisfying.{Satisfies, WellNamed};
ghost use Rattle.cnf_core.specs.Trails.{IsApart};
ghost use Rattle.cnf_core.specs.declared.clauses.Assignment.{Assignment};
ghost use Rattle.cnf_core.specs.declared.clauses.Cnf.{Cnf};
ghost use Rattle.cnf_core.specs.declared.log.Step.{Step};
ghost use Rattle.cdcl.specs.Marks.{count_from, is_marked, marked_literals, Shows};
ghost use Rattle.cdcl.specs.Searching.{IsClosed, IsTotal};

/// The clause that denies marked literals follows by its hints, if these show the conflict.
pub fn learned_clauses_follow()
    ensures { (clauses : List (List ℤ)) (trues : List ℤ) → IsApart trues
        → (vars : ℕ) → All (Names vars) trues
        → (marks : List Bool) (top : ℕ) (hints : List ℕ)
        → ((p : ℕ) → p < length trues → IsTrue (is_marked marks p) → p < top)
        → Shows clauses trues marks top hints
        → Follows vars clauses (map opposite (marked_literals marks trues)) (reverse hints) }
{}

/// It is new, if one literal of the last level is marked and nothing was forced where the earlier
/// ones were all true.
pub fn learned_clauses_are_new()
    ensures { (clauses : List (List ℤ)) (trues : List ℤ) → IsApart trues
        → (vars : ℕ) → All (Names vars) trues
        → (marks : List Bool) (floor second : ℕ) → length marks ≡ length trues
        → count_from floor marks ≡ 1 → second ≤ floor
        → ((p : ℕ) → second ≤ p → p < floor → is_marked marks p ≡ false)
        → (cut : ℕ) → second ≤ cut → cut ≤ floor → IsClosed clauses (take cut trues)
        → IsNew clauses (map opposite (marked_literals marks trues)) }
{}

/// If each variable has a value, nothing is forced and nothing is a conflict, the values satisfy
/// the clauses.
pub fn closed_trails_satisfy()
    ensures { (a : Assignment) (cnf : Cnf) (steps : List Step) (trues : List ℤ) → WellNamed cnf
        → IsTotal cnf.vars trues → IsClosed (known cnf steps) trues
        → ((v : ℕ) → v < cnf.vars
        → slice_index_or a.values v false ≡ has_literal trues (pos (v + 1)))
        → Satisfies a cnf }
{}

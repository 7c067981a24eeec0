//! What the definitions say of walks. The functions do nothing; their contracts are the laws.
ghost use Rattle.std.specs.Prelude.{◌≡◌, List};
ghost use Rattle.bv_terms.specs.TermTrees.{Term};
ghost use Rattle.bv_terms.specs.Walks.{walk};
ghost use Rattle.bv_terms.specs.Seen.{Seen};

/// A walk numbers nothing in a term that it saw with all that the term is made of.
pub fn a_walk_passes_over_what_it_saw()
    ensures { (t : Term) (seen : List Term) → Seen seen t → walk t seen ≡ seen }
{}

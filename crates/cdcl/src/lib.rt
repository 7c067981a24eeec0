//! Search for an assignment that satisfies clauses: conflict-driven clause learning (CDCL) with two watched literals. Each
//! learned clause is a step of a log with the hints that derive it, so an answer can be checked without a search.
//!
//! [`search`] has the state of a search: unit propagation, decisions, and the way back to an earlier level. [`watches`] has the lists of who
//! watches what, with the watch invariant; [`laws`] has laws on clauses and trails: reasons, and clauses that are learned from marked literals.
//!
//! For readers of MiniSat 2.2 (`core/Solver.cc`), what its parts are here:
//!
//! | MiniSat | Here |
//! |---|---|
//! | `trail`, `trail_lim`, `qhead` | `Search`: `trail`, `starts`, `propagated` |
//! | `reason(x)` | `Search::reasons`, by the place on the trail |
//! | `level(x)` | not kept; places on the trail are compared with `starts` |
//! | `c[0]`, `c[1]` of a clause | `Watches::pairs`; the literals of a clause are never exchanged |
//! | `watches[p]`, the clauses that watch `~p` | `Watches::lists`, by the watched literal itself |
//! | the blocker of a watcher | the other literal of the pair, which `Watches::other` reads before the clause |
//! | `addClause_`, `attachClause` | `Search::watch_given`, `Search::watch`; satisfied clauses are kept, too |
//! | `uncheckedEnqueue` | `Search::enqueue`; for a decision the end of `Search::decide` |
//! | `propagate`: the loop over `qhead` | `Search::propagate` |
//! | its loop over the watchers of one literal | `Search::propagate_literal` |
//! | its body for one watcher | `Search::propagate_clause`, by what `Search::visit` says of the clause |
//! | "look for new watch" | `Search::replacement`, which begins where the last look ended (`Pair::resume`), as CaDiCaL's does |
//! | `newDecisionLevel`, `pickBranchLit` | `Search::decide`, `Search::next_decision` |
//! | `analyze`, up to the first unique implication point | `analyze` of `learning`, with `resolve` for one literal |
//! | its `seen`, `pathC` | `Analysis`: `marks`, `count` |
//! | its `out_learnt`; the first two literals of it | `learned`; `asserting_pair` |
//! | its `out_btlevel` | `Search::backtrack_level` |
//! | `cancelUntil` | `Search::backtrack` |
//! | `search`: what it does of a conflict | `learn` |
//! | `simplify` before the first decision: its propagation | `Search::swept`, over all clauses in turn |
//! | `search`: its loop | `decide_and_learn` of `answer`, with `Search::next_conflict` for what is between two conflicts |
//! | `ok` that becomes false | a conflict before any decision, of which `refute` makes the empty clause |
//! | `activity`, `var_inc` | `Scores`, in whole numbers |
//! | `varBumpActivity`, `varDecayActivity` | `Order::bump`, `Order::decay` |
//! | `order_heap`, `polarity`; `insertVarOrder` | `Heap` and `Drawn`, `Order::was_true`; `Order::release` |
//!
//! There are no restarts; no clause is deleted, simplified or minimised, so literals of level 0 stay in learned clauses.
#![tactic(auto)]

mod analysis;
mod answer;
mod backtracking;
mod beginning;
mod deciding;
mod drawn;
mod heap;
pub mod laws;
mod learning;
pub mod order;
mod propagation;
mod scores;
pub mod search;
mod sweeping;
pub mod watches;

pub use answer::{Answer, solve};
pub use order::Order;
pub use search::Search;
pub use watches::{Pair, Watches};

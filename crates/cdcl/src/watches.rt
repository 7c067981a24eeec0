//! Two watched literals in each clause. If a watched literal is false and was propagated, the other is true and was set
//! at the same level or an earlier one. So only a clause that watches a literal can become unit when that literal becomes
//! false, and going back to an earlier level changes no watch. A clause that has one literal to watch, as one of one
//! literal, watches it twice, and it is true at level 0. Clauses with opposite literals need no case: if one of the two
//! is false the other is true.
ghost use Rattle.std.specs.Prelude.{◌≡◌, ◌≢◌, ◌+◌, ◌*◌, ◌<◌, ◌≤◌, ◌^◌, ◌++◌, ◌∷◌, [], ◌⊎◌, IfOk, IfSome, OnOk, ℕ, ℤ, length, slice_get, slice_index, slice_set};
ghost use Rattle.cnf_core.specs.Literals.{index_of};
ghost use Rattle.cdcl.specs.Watching.{IsTakenOut};
ghost use Rattle.cdcl.specs.declared.watches.Pair.{Pair};

use cnf_core::Lit;
use cocoon_num::NoMemory;
use smallvec::SmallVec;
use std::alloc::Global;

/// At most so many numbers move at once in a list.
const MOST_MOVED: usize = 1 << 12;

/// The watched literals of a clause.
#[derive(Clone, Copy)]
pub struct Pair {
    pub first: Lit,
    pub second: Lit,
    /// The place in the clause at which the next look for a literal to watch begins. Any place is right.
    pub resume: u32,
}

/// The numbers of the clauses that watch a literal. Most literals are watched by few.
pub type Numbers = SmallVec<u32, 4>;

/// What each clause watches, and where each literal is watched.
#[derive(Drop)]
pub struct Watches {
    /// By the number of a clause. Clauses are never reordered.
    pub pairs: Vec<Pair>,
    /// By the index of a literal the numbers of the clauses that watch it.
    pub lists: Vec<Numbers>,
}

impl Pair {
    ghost use Rattle.cdcl.specs.Watching.{IsOther};

    /// One literal, watched twice.
    pub fn twice(lit: Lit) -> Pair
        ensures first { result.first.number ≡ lit.number }
        ensures second { result.second.number ≡ lit.number }
    {
        Pair::new(lit, lit, 0)
    }

    /// These two literals. The look for the second ended at this place of the clause.
    pub fn new(first: Lit, second: Lit, place: usize) -> Pair
        ensures first { result.first.number ≡ first.number }
        ensures second { result.second.number ≡ second.number }
    {
        Pair {
            first,
            second,
            resume: u32::try_from(place).unwrap_or(0),
        }
    }

    /// The literal that is watched besides this one, if this one is watched.
    pub fn other(self, lit: Lit) -> Option<Lit>
        ensures { IsOther self lit.number result }
    {
        if self.first.is_same(lit) {
            return Some(self.second);
        }
        if self.second.is_same(lit) {
            return Some(self.first);
        }
        None
    }
}

impl Watches {
    ghost use Rattle.cdcl.specs.Watching.{AreWatched, IsListed, IsTakenOut, list_of, WatchesOther};

    /// No clause is watched yet, over this many variables.
    pub fn new(alloc: Global, vars: u32) -> Result<Watches, NoMemory>
        ensures none { IfOk result (λ w. w.pairs.items ≡ []) }
        ensures rooms { IfOk result (λ w. length w.lists.items ≡ vars * 2 + 2) }
    {
        let mut lists = Vec::new(alloc);
        for _ in 0..vars as usize * 2 + 2 {
            lists.push(Numbers::new(alloc))?;
        }
        Ok(Watches {
            pairs: Vec::new(alloc),
            lists,
        })
    }

    fn pair(&self, number: u32) -> Option<Pair>
        ensures { result ≡ slice_get self.now.pairs.items number }
    {
        self.pairs.get(number as usize).copied()
    }

    /// What the clause of this number watches besides this literal, if it watches it.
    pub fn other(&self, number: u32, lit: Lit) -> Option<Lit>
        ensures { WatchesOther self.now number lit.number result }
    {
        match self.pair(number) {
            Some(pair) => pair.other(lit),
            None => None,
        }
    }

    /// The place in the clause of this number at which the next look for a literal to watch begins.
    pub fn resume(&self, number: u32) -> usize {
        match self.pair(number) {
            Some(pair) => pair.resume as usize,
            None => 0,
        }
    }

    /// The number at this place of the list of a literal.
    pub fn entry(&self, lit: Lit, at: usize) -> Option<u32>
        requires { index_of lit.number < length self.now.lists.items }
        ensures number { result ≡ slice_get (list_of self.now lit.number) at }
        ensures small { IfSome result (λ _. at < 2 ^ 63) }
    {
        self.lists[lit.index()].as_slice().get(at).copied()
    }

    /// Puts a number into the list of a literal.
    fn put(&mut self, lit: Lit, number: u32) -> Result<(), NoMemory>
        requires { index_of lit.number < length self.old.lists.items }
        ensures there { OnOk result (list_of self.new lit.number
            ≡ list_of self.old lit.number ++ number ∷ []) }
        ensures others { (l : ℤ) → l ≢ lit.number → list_of self.new l ≡ list_of self.old l }
        ensures rooms { length self.new.lists.items ≡ length self.old.lists.items }
        ensures pairs { self.new.pairs.items ≡ self.old.pairs.items }
    {
        self.lists[lit.index()].push(number)?;
        Ok(())
    }

    /// Takes the number at this place out of the list of a literal.
    fn take_out(&mut self, lit: Lit, at: usize) -> u32
        requires room { index_of lit.number < length self.old.lists.items }
        requires within { at < length (list_of self.old lit.number) }
        ensures number { slice_index (list_of self.old lit.number) at ≡ result }
        ensures there { IsTakenOut (list_of self.old lit.number) at (list_of self.new lit.number) }
        ensures others { (l : ℤ) → l ≢ lit.number → list_of self.new l ≡ list_of self.old l }
        ensures rooms { length self.new.lists.items ≡ length self.old.lists.items }
        ensures pairs { self.new.pairs.items ≡ self.old.pairs.items }
    {
        take_number(&mut self.lists[lit.index()], at)
    }

    /// Attaches the next clause: it watches these literals.
    pub fn add(&mut self, pair: Pair) -> Result<(), NoMemory>
        requires numbered { length self.old.pairs.items < 2 ^ 32 }
        requires first { index_of pair.first.number < length self.old.lists.items }
        requires second { index_of pair.second.number < length self.old.lists.items }
        ensures pairs { OnOk result (self.new.pairs.items ≡ self.old.pairs.items ++ pair ∷ []) }
        ensures kept { OnOk result ((l : ℤ) (first k : ℕ) → IsListed (list_of self.old l) first k
            → IsListed (list_of self.new l) first k) }
        ensures listed { OnOk result ((a b : ℤ) → AreWatched pair a b
            → IsListed (list_of self.new a) 0 (length self.old.pairs.items)) }
        ensures rooms { length self.new.lists.items ≡ length self.old.lists.items }
    {
        let number = self.pairs.len() as u32;
        self.put(pair.first, number)?;
        self.put(pair.second, number)?;
        self.pairs.push(pair)?;
        Ok(())
    }

    /// The clause at this place of the list of a literal watches this pair from now on, with the second literal of the
    /// pair in place of that one.
    pub fn change(&mut self, from: Lit, at: usize, pair: Pair) -> Result<(), NoMemory>
        requires other { pair.second.number ≢ from.number }
        requires room { index_of from.number < length self.old.lists.items }
        requires second { index_of pair.second.number < length self.old.lists.items }
        requires within { at < length (list_of self.old from.number) }
        requires known { slice_index (list_of self.old from.number) at
            < length self.old.pairs.items }
        ensures pairs { OnOk result (self.new.pairs.items ≡ slice_set self.old.pairs.items
            (slice_index (list_of self.old from.number) at) pair) }
        ensures kept { OnOk result ((l : ℤ) (first k : ℕ) → first ≤ at
            → (l ≢ from.number) ⊎ (k ≢ slice_index (list_of self.old from.number) at)
            → IsListed (list_of self.old l) first k → IsListed (list_of self.new l) first k) }
        ensures listed { OnOk result (IsListed (list_of self.new pair.second.number) 0
            (slice_index (list_of self.old from.number) at)) }
        ensures fewer { OnOk result (length (list_of self.new from.number) + 1
            ≡ length (list_of self.old from.number)) }
        ensures rooms { length self.new.lists.items ≡ length self.old.lists.items }
    {
        let number = self.take_out(from, at);
        let to = pair.second;
        self.put(to, number)?;
        self.pairs[number as usize] = pair;
        Ok(())
    }
}

/// Takes the number at this place out of a list. Those after it stay in their order, so that the clauses that were there
/// first are visited first; where they are very many the last one takes its place, so that this takes constant time.
fn take_number(list: &mut Numbers, at: usize) -> u32
    requires { at < length list.old.items }
    ensures number { slice_index list.old.items at ≡ result }
    ensures there { IsTakenOut list.old.items at list.new.items }
{
    if list.len() - at > MOST_MOVED {
        list.swap_remove(at)
    } else {
        list.remove(at)
    }
}

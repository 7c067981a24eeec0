//! The tuples of terms at which an assumption is taken.
ghost use Rattle.std.specs.Prelude.{◌≡◌, ◌<◌, [], ℕ, All, IfOk, List, OnOk, filter_map, fold};
ghost use Rattle.std.specs.Prelude.{length, option_map, take};
ghost use Rattle.std.specs.List.{AllByRecursion};
ghost use Rattle.query_laws.specs.Tuples.{most_instances};
ghost use Rattle.pattern_instances.specs.Found.{HasPlaces, HasTuples, HavePlaces, all_found};
ghost use Rattle.pattern_instances.specs.Found.{args_at, distinct_ids, found_pattern};
ghost use Rattle.pattern_instances.specs.Found.{found_patterns, tuple_found, tuple_ids, with_ids};

use crate::patterns::Pattern;
use bv_terms::{Node, TermId, Terms};
use cocoon_num::NoMemory;
use numbering::key_table::KeyTable;
use std::alloc::Global;

/// More instances of a goal are left out.
pub(crate) const MOST_INSTANCES: usize = 4096;

/// Different tuples, in the order in which they came.
#[derive(Drop)]
pub(crate) struct Tuples {
    pub(crate) tuples: Vec<Vec<TermId>>,
    pub(crate) keys: KeyTable,
}

/// A tuple as a key.
fn key_of(alloc: Global, tuple: &[TermId]) -> Result<Vec<u64>, NoMemory>
    ensures { IfOk result (λ key. key.items ≡ tuple.now) }
{
    let mut key = Vec::new(alloc);
    for id in tuple {
        key.push(u64::from(*id))?;
    }
    Ok(key)
}

impl Tuples {
    /// None so far.
    fn new(alloc: Global) -> Tuples
        ensures { HasTuples result [] }
    {
        Tuples {
            tuples: Vec::new(alloc),
            keys: KeyTable::new(alloc),
        }
    }

    /// One more tuple, if it is another than those so far.
    fn add(&mut self, alloc: Global, tuple: Vec<TermId>) -> Result<(), NoMemory>
        ensures { (tuples : List (List ℕ)) → HasTuples self.old tuples
            → OnOk result (HasTuples self.new (with_ids tuples tuple.items)) }
    {
        let key = key_of(alloc, &tuple)?;
        if self.keys.place(&key).is_none() {
            self.keys.append(alloc, &key)?;
            self.tuples.push(tuple)?;
        }
        Ok(())
    }

    /// What an application gives by patterns, in their order.
    fn add_all(
        &mut self,
        alloc: Global,
        terms: &Terms,
        application: TermId,
        patterns: &[Pattern],
    ) -> Result<(), NoMemory>
        requires there { application < length terms.now }
        requires places { HavePlaces terms.now (found_patterns patterns.now) application }
        ensures { (tuples : List (List ℕ)) → HasTuples self.old tuples
            → OnOk result (HasTuples self.new (fold with_ids tuples
            (filter_map (tuple_found terms.now application) (found_patterns patterns.now)))) }
    {
        for pattern in patterns {
            if let Some(tuple) = tuple_of(alloc, terms, application, pattern)? {
                self.add(alloc, tuple)?;
            }
        }
        Ok(())
    }
}

/// Arguments at places.
fn args_at(alloc: Global, args: &[TermId], places: &[usize]) -> Result<Vec<TermId>, NoMemory>
    requires { AllByRecursion (λ k. k < length args.now) places.now }
    ensures { IfOk result (λ tuple. tuple.items ≡ args_at args.now places.now) }
{
    let mut tuple = Vec::new(alloc);
    for place in places {
        tuple.push(args[*place])?;
    }
    Ok(tuple)
}

/// What a term gives by a pattern.
fn tuple_of(
    alloc: Global,
    terms: &Terms,
    term: TermId,
    pattern: &Pattern,
) -> Result<Option<Vec<TermId>>, NoMemory>
    requires there { term < length terms.now }
    requires places { HasPlaces terms.now term (found_pattern pattern.now) }
    ensures { IfOk result (λ found. option_map (λ v. v.items) found
        ≡ tuple_found terms.now term (found_pattern pattern.now)) }
{
    match terms.node(term) {
        Node::Apply(function, args, _) if *function == pattern.function => {
            Ok(Some(args_at(alloc, args.items(), &pattern.places)?))
        }
        _ => Ok(None),
    }
}

/// What applications give by patterns, each tuple once: the first 4,096 of them.
pub(crate) fn first_tuples(
    alloc: Global,
    terms: &Terms,
    applications: &[TermId],
    patterns: &[Pattern],
) -> Result<Vec<Vec<TermId>>, NoMemory>
    requires there { All (λ id. id < length terms.now) applications.now }
    requires places { AllByRecursion (HavePlaces terms.now (found_patterns patterns.now))
        applications.now }
    ensures { IfOk result (λ tuples. tuple_ids tuples.items
        ≡ take most_instances (distinct_ids
        (all_found terms.now (found_patterns patterns.now) applications.now))) }
{
    let mut found = Tuples::new(alloc);
    let mut at = 0;
    while at < applications.len() && found.tuples.len() < MOST_INSTANCES {
        found.add_all(alloc, terms, applications[at], patterns)?;
        at += 1;
    }
    let mut tuples = found.tuples;
    tuples.truncate(MOST_INSTANCES);
    Ok(tuples)
}

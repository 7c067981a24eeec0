//! Variables in a binary heap, the first in the order at the top. What it holds decides how fast a search is, and no more.
ghost use Rattle.std.specs.Prelude.{◌≡◌, ◌<◌, IfSome};

use crate::scores::Scores;
use cocoon_num::NoMemory;
use std::alloc::Global;

/// The place of a variable that is not in the heap.
const NOWHERE: usize = usize::MAX;

#[derive(Drop)]
pub(crate) struct Heap {
    /// The variables, each before those at twice its place and one or two more. There is room for all.
    variables: Vec<u32>,
    /// How many are there.
    count: usize,
    /// By the number of a variable its place.
    places: Vec<usize>,
}

impl Heap {
    /// All variables up to this one.
    pub(crate) fn new(alloc: Global, scores: &Scores, vars: u32) -> Result<Heap, NoMemory> {
        let mut heap = Heap {
            variables: vec![in alloc; 0; vars as usize]?,
            count: vars as usize,
            places: vec![in alloc; NOWHERE; vars as usize + 1]?,
        };
        for place in 0..vars {
            heap.put(place as usize, vars - place);
        }
        heap.arrange(scores);
        Ok(heap)
    }

    /// None, and no room for any.
    pub(crate) fn none(alloc: Global) -> Heap {
        Heap {
            variables: Vec::new(alloc),
            count: 0,
            places: Vec::new(alloc),
        }
    }

    /// Makes a heap of variables that stand in any order: each moves down, those at the greatest places first.
    fn arrange(&mut self, scores: &Scores) {
        for place in (0..self.count / 2).rev() {
            self.move_down(scores, place, self.variable(place));
        }
    }

    /// The variable at a place; 0 where there is none.
    fn variable(&self, place: usize) -> u32 {
        match self.variables.get(place) {
            Some(variable) => *variable,
            None => 0,
        }
    }

    fn place(&self, variable: u32) -> usize {
        match self.places.get(variable as usize) {
            Some(place) => *place,
            None => NOWHERE,
        }
    }

    fn put(&mut self, place: usize, variable: u32)
        ensures { self.new.count ≡ self.old.count }
    {
        if let Some(slot) = self.variables.get_mut(place) {
            *slot = variable;
        }
        self.note_place(variable, place);
    }

    fn note_place(&mut self, variable: u32, place: usize)
        ensures { self.new.count ≡ self.old.count }
    {
        if let Some(slot) = self.places.get_mut(variable as usize) {
            *slot = place;
        }
    }

    /// Moves a variable up from this place, below the first that comes before it.
    fn move_up(&mut self, scores: &Scores, from: usize, variable: u32)
        ensures { self.new.count ≡ self.old.count }
    {
        let mut place = from;
        while place > 0 {
            let above = (place - 1) / 2;
            let other = self.variable(above);
            if !scores.is_before(variable, other) {
                break;
            }
            self.put(place, other);
            place = above;
        }
        self.put(place, variable);
    }

    /// The place of the first of the two below a place, if one is there.
    fn below(&self, scores: &Scores, place: usize) -> Option<usize>
        ensures { IfSome result (λ next. (place < next) × (next < self.now.count)) }
    {
        if place >= self.count / 2 {
            return None;
        }
        let left = place * 2 + 1;
        let right = left + 1;
        if right < self.count && scores.is_before(self.variable(right), self.variable(left)) {
            Some(right)
        } else {
            Some(left)
        }
    }

    /// Moves a variable down from this place, above the first that it comes before.
    fn move_down(&mut self, scores: &Scores, from: usize, variable: u32)
        ensures { self.new.count ≡ self.old.count }
    {
        let mut place = from;
        while let Some(next) = self.below(scores, place) {
            let other = self.variable(next);
            if !scores.is_before(other, variable) {
                break;
            }
            self.put(place, other);
            place = next;
        }
        self.put(place, variable);
    }

    /// Whether the first variable comes before this one.
    pub(crate) fn comes_before(&self, scores: &Scores, variable: u32) -> bool {
        self.count > 0 && scores.is_before(self.variable(0), variable)
    }

    /// Takes out the first variable.
    pub(crate) fn pop(&mut self, scores: &Scores) -> Option<u32>
        ensures { IfSome result (λ variable. self.new.count < self.old.count) }
    {
        if self.count == 0 {
            return None;
        }
        let first = self.variable(0);
        self.count -= 1;
        let last = self.variable(self.count);
        self.move_down(scores, 0, last);
        self.note_place(first, NOWHERE);
        Some(first)
    }

    /// Puts in a variable, if it is not there.
    pub(crate) fn insert(&mut self, scores: &Scores, variable: u32) {
        if self.place(variable) != NOWHERE || self.count >= self.variables.len() {
            return;
        }
        let place = self.count;
        self.count += 1;
        self.move_up(scores, place, variable);
    }

    /// A variable comes before more of the others than it did.
    pub(crate) fn raise(&mut self, scores: &Scores, variable: u32) {
        let place = self.place(variable);
        if place < self.count {
            self.move_up(scores, place, variable);
        }
    }
}

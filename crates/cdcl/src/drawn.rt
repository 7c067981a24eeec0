//! Variables in the order in which they were taken out of the heap for the first time. Most variables of a goal have nothing to do with
//! any conflict, so their order stays: when they lose their values, the place to go on from moves back, and nothing moves in the heap.
ghost use Rattle.std.specs.Prelude.{◌≡◌, ◌+◌, ◌-◌, ◌<◌, ◌≤◌, IfSome};

use cocoon_num::NoMemory;
use std::alloc::Global;

/// The place of a variable that was not drawn yet.
const NOWHERE: usize = usize::MAX;
/// That of a variable that had to do with a conflict: its order changes, and the heap has it.
const TAKEN_OUT: usize = usize::MAX - 1;

#[derive(Drop)]
pub(crate) struct Drawn {
    /// The variables. There is room for all.
    variables: Vec<u32>,
    /// How many are there.
    count: usize,
    /// The place of the first that waits.
    next: usize,
    /// By the number of a variable its place.
    places: Vec<usize>,
}

impl Drawn {
    /// None yet, with room for so many variables.
    pub(crate) fn new(alloc: Global, vars: u32) -> Result<Drawn, NoMemory> {
        Ok(Drawn {
            variables: vec![in alloc; 0; vars as usize]?,
            count: 0,
            next: 0,
            places: vec![in alloc; NOWHERE; vars as usize + 1]?,
        })
    }

    /// None, and no room for any.
    pub(crate) fn none(alloc: Global) -> Drawn {
        Drawn {
            variables: Vec::new(alloc),
            count: 0,
            next: 0,
            places: Vec::new(alloc),
        }
    }

    fn place(&self, variable: u32) -> usize {
        match self.places.get(variable as usize) {
            Some(place) => *place,
            None => TAKEN_OUT,
        }
    }

    fn note_place(&mut self, variable: u32, place: usize)
        ensures { (self.new.count ≡ self.old.count) × (self.new.next ≡ self.old.next) }
    {
        if let Some(slot) = self.places.get_mut(variable as usize) {
            *slot = place;
        }
    }

    /// The first variable that waits.
    pub(crate) fn first(&self) -> Option<u32>
        ensures { IfSome result (λ _. self.now.next < self.now.count) }
    {
        if self.next < self.count {
            self.variables.get(self.next).copied()
        } else {
            None
        }
    }

    /// The first variable waits no more.
    pub(crate) fn advance(&mut self)
        requires { self.old.next < self.old.count }
        ensures { self.new.count - self.new.next < self.old.count - self.old.next }
    {
        self.next += 1;
    }

    /// Notes a variable that was taken out of the heap, if no other waits: it comes next where it loses its value.
    pub(crate) fn draw(&mut self, variable: u32)
        ensures { self.new.count - self.new.next ≤ self.old.count - self.old.next }
    {
        if self.next < self.count || self.place(variable) != NOWHERE {
            return;
        }
        if let Some(slot) = self.variables.get_mut(self.count) {
            *slot = variable;
            self.note_place(variable, self.count);
            self.count += 1;
            self.next = self.count;
        }
    }

    /// A variable waits again. False if it is not among these.
    pub(crate) fn put_back(&mut self, variable: u32) -> bool {
        let place = self.place(variable);
        if place >= self.count {
            return false;
        }
        self.next = self.next.min(place);
        true
    }

    /// The order of a variable changes, so it is not among these any more.
    pub(crate) fn take_out(&mut self, variable: u32) {
        self.note_place(variable, TAKEN_OUT);
    }
}

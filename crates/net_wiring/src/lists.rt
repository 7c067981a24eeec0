//! Lists compared item by item.
ghost use Rattle.std.specs.Prelude.{◌≡◌, ◌↔◌, IfSome, IsTrue, None, map};
ghost use Rattle.net_wiring.specs.Differences.{DiffersAt, FirstDiffers, reported};

/// A type whose values are compared by this part of what they stand for.
pub(crate) trait Compared<Part> {
    ghost Meaning: { Type 0 };

    ghost meaning: { Self → Meaning };

    /// Whether both stand for the same.
    fn is_same(&self, other: &Self) -> bool
        ensures { IsTrue result ↔ (meaning self.now ≡ meaning other.now) };
}

/// The first index at which the lists do not stand for the same, if there is one.
fn first_difference<Part, T: Compared<Part>>(old: &[T], new: &[T]) -> Option<usize>
    ensures first { IfSome result (FirstDiffers (map T.meaning old.now) (map T.meaning new.now)) }
    ensures same { result ≡ None → map T.meaning old.now ≡ map T.meaning new.now }
{
    for index in 0..old.len() {
        if index == new.len() {
            return Some(index);
        }
        if !old[index].is_same(&new[index]) {
            return Some(index);
        }
    }
    if old.len() < new.len() {
        Some(old.len())
    } else {
        None
    }
}

/// The number that tells an index.
fn report(index: usize) -> u32
    ensures { result ≡ reported index }
{
    if index < u32::MAX as usize {
        index as u32
    } else {
        u32::MAX
    }
}

/// Where the lists first differ, as it is told.
pub(crate) fn differ_at<Part, T: Compared<Part>>(old: &[T], new: &[T]) -> Option<u32>
    ensures first { IfSome result (DiffersAt (map T.meaning old.now) (map T.meaning new.now)) }
    ensures same { result ≡ None → map T.meaning old.now ≡ map T.meaning new.now }
{
    match first_difference::<Part, T>(old, new) {
        Some(index) => Some(report(index)),
        None => None,
    }
}

/// Whether the lists stand for the same.
#[tactic(auto, using(crate::proofs::Differing::lists_apart))]
pub(crate) fn are_same<Part, T: Compared<Part>>(old: &[T], new: &[T]) -> bool
    ensures { IsTrue result ↔ (map T.meaning old.now ≡ map T.meaning new.now) }
{
    first_difference::<Part, T>(old, new).is_none()
}

//! Searches in a list.

ghost use Rattle.std.specs.Prelude.{◌≡◌, ℕ, ◌<◌, length, position};
ghost use Rattle.std.specs.List.{list_all};
ghost use Rattle.packed.specs.Lists.{LeastAt};

use crate::test::Test;
use rules::Place;

/// The index of the first place that passes, if there is one.
pub fn first_of<P, Q: Test<P>>(list: &[Place<P>], test: &Q) -> Option<usize>
    ensures { result ≡ position (Q.Test.passes test.now) list.now }
{
    list.iter().position(|place| test.passes_at(place))
}

/// Whether every place passes.
pub fn all_of<P, Q: Test<P>>(list: &[Place<P>], test: &Q) -> bool
    ensures { result ≡ list_all (Q.Test.passes test.now) list.now }
{
    list.iter().all(|place| test.passes_at(place))
}

/// The index of the first place with the least arrival, in a list that is not empty.
pub fn least_of<P>(list: &[Place<P>]) -> usize
    requires { 0 < length list.now }
    ensures { LeastAt list.now result }
{
    let mut least = 0;
    // A loop: over enumerate and min_by_key the proof did not close.
    for (i, place) in list.iter().enumerate() {
        if place.arrival < list[least].arrival {
            least = i;
        }
    }
    least
}

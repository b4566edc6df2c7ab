//! What stays of a list.

ghost use Rattle.std.specs.Prelude.{◌≡◌, ℕ, ◌+◌, ◌<◌, ◌≤◌, map, length, take, filter};
ghost use Rattle.std.specs.List.{remove};
ghost use Rattle.packed.specs.Lists.{picked};

use crate::search::all_of;
use crate::test::Test;
use rules::Place;

/// Which places of a list of at most 64 pass a test.
pub fn marks<P, Q: Test<P>>(list: &[Place<P>], test: &Q) -> [bool; 64]
    requires { length list.now ≤ 64 }
    ensures { take (length list.now) result ≡ map (Q.Test.passes test.now) list.now }
{
    // An array, since nothing here allocates.
    let mut marks = [false; 64];
    for (i, place) in list.iter().enumerate() {
        marks[i] = test.passes_at(place);
    }
    marks
}

/// Moves what is marked to the front of a list of at most 64, in order, and says how many that are.
pub fn pack<P: Copy>(list: &mut [Place<P>], marks: &[bool; 64]) -> usize
    requires { length list.old ≤ 64 }
    ensures packed { take result list.new ≡ picked marks.now list.old }
    ensures within { result ≤ length list.old }
{
    let mut count = 0;
    // An index loop: it writes to the list that it reads.
    for i in 0..list.len() {
        if marks[i] {
            list[count] = list[i];
            count += 1;
        }
    }
    count
}

/// Keeps what passes a test of a list of at most 64, in order at its front, and says how many that are.
pub fn keep<P: Copy, Q: Test<P>>(list: &mut [Place<P>], test: &Q) -> usize
    requires { length list.old ≤ 64 }
    ensures kept { take result list.new ≡ filter (Q.Test.passes test.now) list.old }
    ensures within { result ≤ length list.old }
{
    // Nearly always all of them do.
    if all_of(list, test) {
        return list.len();
    }
    let stay = marks(list, test);
    pack(list, &stay)
}

/// Removes the place at `i` from a list, and says how many are left.
pub fn remove<P: Copy>(list: &mut [Place<P>], i: usize) -> usize
    requires { i < length list.old }
    ensures removed { take result list.new ≡ remove list.old i }
    ensures fewer { result + 1 ≡ length list.old }
{
    list.copy_within(i + 1.., i);
    list.len() - 1
}

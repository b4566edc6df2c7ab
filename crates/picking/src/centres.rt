//! The centres of a pick, farthest-first.

ghost use Rattle.std.specs.Prelude.{◌≡◌, ◌≤◌, map, length};
ghost use Rattle.cover.specs.Choices.{greatest, greatest_at};
ghost use Rattle.picking.specs.Centres.{Chosen, lowered};
ghost use Rattle.rules.specs.Picking.{apart};
ghost use Rattle.tape.specs.Limits.{limit};

use rules::Place;
use tape::Tape;

/// The greatest of some distances with its index, the earliest if several are as great.
pub fn farthest(distances: &[u32]) -> (usize, u32)
    ensures at { result.0 ≡ greatest_at (λ d. d) distances.now }
    ensures distance { result.1 ≡ greatest (λ d. d) distances.now }
{
    let mut at = 0;
    let mut most = 0;
    for (i, &distance) in distances.iter().enumerate() {
        if distance > most {
            at = i;
            most = distance;
        }
    }
    (at, most)
}

/// Writes the distance of each of a list from its first centre.
fn measure_from<P, T: Tape<P>>(tape: &T, list: &[Place<P>], centre: &Place<P>, work: &mut [u32])
    requires { length work.old ≡ length list.now }
    ensures { work.new ≡ map (apart (T.Tape.dist tape.now) centre.now) list.now }
{
    // By the index: of what a loop over `work.iter_mut().zip(list)` has written, a proof knows nothing.
    for (i, place) in list.iter().enumerate() {
        work[i] = tape.measure(&centre.piece, &place.piece);
    }
}

/// Lowers the distance of each of a list to that from one more centre, where that is smaller.
fn lower<P, T: Tape<P>>(tape: &T, list: &[Place<P>], centre: &Place<P>, work: &mut [u32])
    requires { length work.old ≡ length list.now }
    ensures { work.new ≡ lowered (apart (T.Tape.dist tape.now) centre.now) list.now work.old }
{
    // By the index, as in `measure_from`.
    for (i, place) in list.iter().enumerate() {
        work[i] = work[i].min(tape.measure(&centre.piece, &place.piece));
    }
}

/// Chooses at most k centres of a list that is not empty, farthest-first: the first of the list, and then, as long
/// as one is not at 0 from its nearest centre, the earliest of those that are farthest from theirs. Writes the
/// centres' arrivals to the front of the answers. Says how many there are, and how far they reach over the list.
pub fn choose_centres<P, T: Tape<P>>(
    tape: &T,
    list: &[Place<P>],
    k: usize,
    answers: &mut [u32],
    work: &mut [u32],
) -> (usize, u32)
    requires some { 1 ≤ k }
    requires room { k ≤ length answers.old }
    requires full { 1 ≤ length list.now }
    requires long { length list.now ≤ length work.old }
    ensures chosen { Chosen (apart (T.Tape.dist tape.now)) (λ x. x.arrival) k list.now answers.old answers.new result.0 result.1 }
    ensures small { result.1 ≤ limit }
{
    // How far each of the list is from its nearest centre so far.
    let near = &mut work[..list.len()];
    let first = &list[0];
    answers[0] = first.arrival;
    measure_from(tape, list, first, near);
    let (mut at, mut distance) = farthest(near);
    // Counted, since the count is answered.
    for count in 1..k {
        if distance == 0 {
            return (count, distance);
        }
        let centre = &list[at];
        answers[count] = centre.arrival;
        lower(tape, list, centre, near);
        (at, distance) = farthest(near);
    }
    (k, distance)
}

//! The search for a piece by its arrival.

ghost use Rattle.std.specs.Prelude.{◌≡◌, ◌+◌, ◌<◌, ◌^◌, length, nat_eq};
ghost use Rattle.picking.specs.Seen.{seen};
ghost use Rattle.row.specs.Seen.{judged};
ghost use Rattle.rules.specs.Calls.{lying, lying_from, place_of};
ghost use Rattle.rules.specs.Words.{first_of};

use crate::walk::first_answer;
use picking::Radii;
use rules::Place;

/// The first place with an arrival in a list that begins at `start`.
fn find_in<P>(start: usize, list: &[Place<P>], arrival: u32) -> Option<usize>
    requires { start + length list.now < 2 ^ 64 }
    ensures { result ≡ place_of (first_of (λ x. nat_eq x.1.arrival arrival) (lying start list.now)) }
{
    let i = list.iter().position(|place| place.arrival == arrival)?;
    Some(start + i)
}

/// The lowest place of the piece of an arrival among the attractors, the coarse representatives and the latest
/// pieces of all radii.
pub fn find_place<P>(radii: &Radii<'_, P>, arrival: u32) -> Option<usize>
    ensures { result ≡ place_of (first_of (λ x. nat_eq x.1.arrival arrival) (lying_from (judged radii.now.settings) 0 (seen radii.now))) }
{
    first_answer(radii, |start, list| find_in(start, list, arrival))
}

//! The piece at a place.

ghost use Rattle.std.specs.Prelude.{◌≡◌, nat_eq};
ghost use Rattle.picking.specs.Seen.{seen};
ghost use Rattle.row.specs.Seen.{judged};
ghost use Rattle.rules.specs.Calls.{lying, lying_from, piece_of};
ghost use Rattle.rules.specs.Words.{first_of};

use crate::walk::first_answer;
use picking::Radii;
use rules::Place;

/// The piece at a place if that is one of a list that begins at `start`.
fn piece_in<P: Copy>(start: usize, list: &[Place<P>], at: usize) -> Option<P>
    ensures { result ≡ piece_of (first_of (λ x. nat_eq x.0 at) (lying start list.now)) }
{
    let place = list.get(at.checked_sub(start)?)?;
    Some(place.piece)
}

/// The piece at a place that the attractors, the coarse representatives or the latest pieces of a radius use.
pub fn piece_at<P: Copy>(radii: &Radii<'_, P>, at: usize) -> Option<P>
    ensures { result ≡ piece_of (first_of (λ x. nat_eq x.0 at) (lying_from (judged radii.now.settings) 0 (seen radii.now))) }
{
    first_answer(radii, |start, list| piece_in(start, list, at))
}

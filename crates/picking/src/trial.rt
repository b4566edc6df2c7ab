//! The trial over the radii.

ghost use Rattle.std.specs.Prelude.{◌≡◌, ℕ, ◌<◌, ◌≤◌, length, All, IfSome, nat_le, slice_index_or};
ghost use Rattle.picking.specs.Seen.{seen};
ghost use Rattle.picking.specs.Trials.{first_passing, gathered, no_row};
ghost use Rattle.rules.specs.Limits.{greatest_radius};
ghost use Rattle.rules.specs.Picking.{any_within};

use crate::radii::Radii;
use rules::Place;
use tape::Tape;

/// Whether one of the chosen, which are given by their indices in the list, is within a radius of a place.
fn any_within<P, T: Tape<P>>(
    list: &[Place<P>],
    chosen: &[usize],
    place: &Place<P>,
    radius: u32,
    tape: &T,
) -> bool
    requires { All (λ i. i < length list.now) chosen.now }
    ensures { result ≡ any_within (T.Tape.dist tape.now) radius (gathered chosen.now list.now) place.now }
{
    chosen.iter().any(
        |at|
            requires { at.now < length list.now }
            ensures { result ≡ nat_le (T.Tape.dist tape.entry.now (slice_index_or list.entry.now at.now place.entry.now).piece place.entry.now.piece) radius }
        { tape.measure(&list[*at].piece, &place.piece) <= radius },
    )
}

/// The index of the first radius that passes: it has at most k attractors, and of its representatives, gone
/// through in order, at most k are farther than twice the radius from all that were chosen before them.
pub fn first_passing<P, T: Tape<P>>(radii: &Radii<'_, P>, tape: &T) -> Option<usize>
    requires { (j : ℕ) → j < length radii.now.rows.now → (slice_index_or radii.now.rows.now j no_row).radius ≤ greatest_radius }
    ensures first { result ≡ first_passing (T.Tape.dist tape.now) radii.now.settings.k (seen radii.now) }
    ensures inside { IfSome result (λ j. j < length radii.now.rows.now) }
{
    let k = radii.settings.k;
    'radii: for (j, row) in radii.rows.iter().enumerate() {
        if row.attractors > k {
            continue;
        }
        let list = radii.lists(j).representatives();
        // No heap: the indices of the chosen, of which `count` are used.
        let mut chosen = [0; 12];
        let mut count = 0;
        for (i, place) in list.iter().enumerate() {
            if any_within(list, &chosen[..count], place, 2 * row.radius, tape) {
                continue;
            }
            if count == k {
                continue 'radii;
            }
            chosen[count] = i;
            count += 1;
        }
        return Some(j);
    }
    None
}

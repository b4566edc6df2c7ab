//! The walk through the lists whose pieces can be found.

ghost use Rattle.std.specs.Prelude.{◌≡◌, ℕ, ◌+◌, ◌<◌, ◌^◌, Bool, List, length, None, Some, Option};
ghost use Rattle.finding.specs.Asked.{Tells};
ghost use Rattle.picking.specs.Seen.{listed, seen};
ghost use Rattle.row.specs.Seen.{judged};
ghost use Rattle.rules.specs.Calls.{lying_from, lying_in};
ghost use Rattle.rules.specs.Limits.{part_size};
ghost use Rattle.rules.specs.Words.{first_of};
ghost use Rattle.rules.specs.declared.place.Place.{Place};

use picking::{Lists, Radii};
use rules::Place;

/// The first answer that a question gets at the lists of a radius, whose part of the shelf begins at `start`: it is
/// asked of where each begins, and of what it holds.
fn first_answer_at<P, R, F: Fn(usize, &[Place<P>]) -> Option<R>>(
    start: usize,
    lists: &Lists<'_, P>,
    ask: &F,
) -> Option<R>
    requires room { start + part_size (judged lists.now.settings) < 2 ^ 64 }
    requires callable { (start : ℕ) (list : _) → start + length list.now < 2 ^ 64 → F.pre ask.now start list }
    ensures { (tell : Option (ℕ × Place P) → Option R) (test : ℕ × Place P → Bool) → Tells tell test (λ start xs r. (list : _) × (list.now ≡ xs) × F.post ask.now start list r) → result ≡ tell (first_of test (lying_in (judged lists.now.settings) start (listed lists.now))) }
{
    if let Some(answer) = ask(start, lists.attractors()) {
        return Some(answer);
    }
    let coarse = start + lists.settings.representatives_at();
    if let Some(answer) = ask(coarse, lists.representatives()) {
        return Some(answer);
    }
    let fine = start + lists.settings.latests_at();
    ask(fine, lists.latests())
}

/// The first answer that a question gets at a list of the radii: of each in turn, its attractors, its coarse
/// representatives, and the latest pieces of its fine entries. It is asked of where a list begins, and of the list.
pub(crate) fn first_answer<P, R, F: Fn(usize, &[Place<P>]) -> Option<R>>(
    radii: &Radii<'_, P>,
    ask: F,
) -> Option<R>
    requires { (start : ℕ) (list : _) → start + length list.now < 2 ^ 64 → F.pre ask start list }
    ensures { (tell : Option (ℕ × Place P) → Option R) (test : ℕ × Place P → Bool) → Tells tell test (λ start xs r. (list : _) × (list.now ≡ xs) × F.post ask start list r) → result ≡ tell (first_of test (lying_from (judged radii.now.settings) 0 (seen radii.now))) }
{
    // By the index: the lists of a radius are asked for by it.
    for j in 0..radii.rows.len() {
        if let Some(answer) = first_answer_at(radii.start(j), &radii.lists(j), &ask) {
            return Some(answer);
        }
    }
    None
}

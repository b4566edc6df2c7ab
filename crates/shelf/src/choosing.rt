//! The pick at a radius.

ghost use Rattle.std.specs.Prelude.{◌≡◌, ◌*◌, ◌<◌, ◌≤◌, length, Some, slice_index_or};
ghost use Rattle.picking.specs.Seen.{listed};
ghost use Rattle.picking.specs.Trials.{floor_at, no_row, taken_at};
ghost use Rattle.row.specs.Seen.{Within, judged};
ghost use Rattle.rules.specs.Limits.{greatest_radius, part_size, work_needed};
ghost use Rattle.rules.specs.Picking as rule;
ghost use Rattle.shelf.specs.Picks.{Among, standing};

use crate::lent::Shelf;
use picking::{Lists, choose_centres};
use refusal::Refusal;
use row::{Row, Settings};
use rules::{Grain, Picked, Place};
use tape::Tape;
use term::{Clock, Stamp, Term};

/// Which list a pick uses: fine if there is no lost mark, or the marked piece no longer counts.
fn grain_of<W: Term>(lost: Option<Stamp>, clock: Clock, term: &W) -> Grain
    ensures { result ≡ rule.grain_by (W.Term.counts term.now) clock.posts clock.day lost }
{
    match lost {
        Some(stamp) if term.still(stamp, clock) => Grain::Coarse,
        _ => Grain::Fine,
    }
}

/// The list of a radius that a pick uses.
fn used<'a, P>(lists: &Lists<'a, P>, grain: Grain) -> &'a [Place<P>]
    ensures list { result.now ≡ rule.used grain (listed lists.now) }
    ensures long { length result.now ≤ work_needed (judged lists.now.settings) }
{
    match grain {
        Grain::Fine => lists.latests(),
        Grain::Coarse => lists.representatives(),
    }
}

/// How far a piece can be from the one that stands for it in that list.
fn slack<P>(lists: &Lists<'_, P>, grain: Grain) -> u32
    requires { lists.now.row.now.radius ≤ greatest_radius }
    ensures far { result ≡ rule.slack grain lists.now.settings.fineness (listed lists.now) }
    ensures small { result ≤ 4000000 }
{
    let radius = lists.row.radius;
    match grain {
        Grain::Fine => 2 * (radius / lists.settings.fineness),
        Grain::Coarse => 4 * radius,
    }
}

/// The radius before the one at `j`.
fn floor_of(rows: &[Row], j: usize) -> Option<u32>
    requires { j < length rows.now }
    ensures { result ≡ floor_at rows.now j }
{
    rows[..j].last().map(|row| row.radius)
}

impl<P> Shelf<'_, P> {
    /// The pick at the radius `j`, which passes: from the latest pieces of its fine entries, or from its coarse
    /// representatives.
    pub fn pick_at<T: Tape<P>, W: Term>(
        &self,
        rows: &[Row],
        j: usize,
        settings: Settings,
        clock: Clock,
        tape: &T,
        term: &W,
        answers: &mut [u32],
        work: &mut [u32],
    ) -> Result<Picked, Refusal>
        requires there { j < length rows.now }
        requires within { Within settings (slice_index_or rows.now j no_row) }
        requires bounded { (slice_index_or rows.now j no_row).radius ≤ greatest_radius }
        requires long { length rows.now * part_size (judged settings) ≤ length self.now.places.now }
        requires answers { settings.k ≤ length answers.old }
        requires work { work_needed (judged settings) ≤ length work.old }
        ensures { Among (rule.pick_from (T.Tape.dist tape.now) (W.Term.counts term.now) (standing settings rows.now clock.posts clock.day self.now.places.now) (taken_at settings rows.now self.now.places.now (Some j))) answers.old work.old result answers.new work.new }
    {
        // One radius alone: nothing is asked of the others.
        let size = settings.part_size();
        let lists = Lists {
            row: &rows[j],
            part: &self.places[j * size..][..size],
            settings,
        };
        let grain = grain_of(lists.row.lost, clock, term);
        let list = used(&lists, grain);
        if list.is_empty() {
            return Err(Refusal::NothingCounts);
        }
        let (count, reach) = choose_centres(tape, list, settings.k, answers, work);
        Ok(Picked {
            count,
            radius: reach + slack(&lists, grain),
            floor: floor_of(rows, j),
            grain,
        })
    }
}

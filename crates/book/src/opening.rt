//! From three numbers to an open book.

ghost use Rattle.std.specs.Prelude.{◌≡◌, ℕ, ◌≤◌, false, ◌&&◌, List, [], ◌∷◌, length, is_ok, nat_le, Ok};
ghost use Rattle.cover.specs.Distances.{Distance};
ghost use Rattle.refusal.specs.Makes.{MadeIf};
ghost use Rattle.refusal.specs.declared.Refusal.TheVariants.{SettingOutOfRange};
ghost use Rattle.row.specs.Seen.{judged};
ghost use Rattle.rules.specs.Calls.{BeginRule, OpenRule, RadiusRule, why_not_radius};
ghost use Rattle.rules.specs.Limits.{Judged, allowed, greatest_radius};
ghost use Rattle.rules.specs.Runs.{Begin, Event, Open, Opened, Radius, Reached, SettingUp};
ghost use Rattle.rules.specs.Words.{after};
ghost use Rattle.rules.specs.declared.place.Place.{Place};
ghost use Rattle.term.specs.Formulas.{Rule};
ghost use Rattle.book.specs.Rows.{empty_row};
ghost use Rattle.book.specs.Seen.{seen, setting_up};

use crate::open::Book;
use crate::setup::Setup;
use refusal::Refusal;
use row::{Row, Settings};
use std::marker::PhantomData;

/// Judges three numbers together: k from 1 to 12, the fineness from 2 to 64, and the fine limit from 1 to 64.
pub fn judge(k: u32, fineness: u32, limit: u32) -> Result<Settings, Refusal>
    ensures { MadeIf (Judged (record { k = k; f = fineness; fine_limit = limit })) (λ s. judged s ≡ record { k = k; f = fineness; fine_limit = limit }) SettingOutOfRange result }
{
    if k < 1 || k > 12 || fineness < 2 || fineness > 64 || limit < 1 || limit > 64 {
        return Err(Refusal::SettingOutOfRange);
    }
    // Casts, which are proved to lose nothing: a conversion would answer an error that cannot come.
    Ok(Settings {
        k: k as usize,
        fineness,
        limit: limit as usize,
    })
}

impl<P> Setup<P> {
    /// Begins a book. Its radius list holds 0 alone.
    pub fn begin(settings: Settings) -> Setup<P>
        ensures rule { BeginRule (judged settings) (setting_up result) }
        ensures run { (dist : Distance P) (counts : Rule) → Reached dist counts (Begin (judged settings) ∷ []) (SettingUp (setting_up result)) }
    {
        Setup {
            settings,
            radii: [0; 24],
            count: 1,
            kind: PhantomData,
        }
    }

    /// Enters a further radius: it must exceed the last, and be at most the larger of the last plus 1 and twice the
    /// last, and at most 1,000,000. There are at most 24.
    pub fn enter(&mut self, radius: u32) -> Result<(), Refusal>
        ensures rule { RadiusRule (setting_up self.old) radius result (setting_up self.new) }
        ensures same { is_ok result ≡ false → self.new ≡ self.old }
        ensures run { (dist : Distance P) (counts : Rule) (es : List (Event P)) → Reached dist counts es (SettingUp (setting_up self.old)) → Reached dist counts (Radius radius result ∷ es) (SettingUp (setting_up self.new)) }
    {
        self.may_enter(radius)?;
        self.radii[self.count] = radius;
        self.count += 1;
        Ok(())
    }

    /// Refuses what the entry of a radius is refused for.
    fn may_enter(&self, radius: u32) -> Result<(), Refusal>
        ensures { result ≡ after (why_not_radius (setting_up self.now) radius) (Ok tt) }
    {
        if self.count >= 24 {
            return Err(Refusal::RadiusListFull);
        }
        let last = self.radii[self.count - 1];
        if !may_follow(last, radius) {
            return Err(Refusal::RadiusNotAllowed);
        }
        Ok(())
    }

    /// Opens the book, with no post made and on day 0. Its shelf may have any places and hold anything.
    pub fn open(self) -> Book<P>
        ensures rule { (places : List (Place P)) → OpenRule (setting_up self) (length places) (seen result places) }
        ensures run { (dist : Distance P) (counts : Rule) (es : List (Event P)) (places : List (Place P)) → Reached dist counts es (SettingUp (setting_up self)) → Reached dist counts (Open (length places) ∷ es) (Opened (seen result places)) }
    {
        let Setup {
            settings,
            radii,
            count,
            kind,
        } = self;
        Book {
            settings,
            rows: radii.map(empty_row),
            count,
            posts: 0,
            day: 0,
            kind,
        }
    }
}

/// Whether a radius may follow another.
fn may_follow(last: u32, radius: u32) -> bool
    requires { last ≤ 1000000 }
    ensures { result ≡ (allowed last radius && nat_le radius greatest_radius) }
{
    radius > last && radius <= (last + 1).max(2 * last) && radius <= 1_000_000
}

/// The row of a radius with nothing in it.
fn empty_row(radius: u32) -> Row
    ensures { result ≡ empty_row radius }
{
    Row {
        radius,
        attractors: 0,
        representatives: 0,
        entries: 0,
        lost: None,
    }
}

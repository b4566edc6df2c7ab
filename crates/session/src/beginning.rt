//! Sessions from settings.

ghost use Rattle.std.specs.Prelude.{◌≡◌, true, false, List, is_ok, Some, None, MatchResult};
ghost use Rattle.refusal.specs.declared.Refusal.TheVariants.{SettingOutOfRange};
ghost use Rattle.rules.specs.declared.place.Place.{Place};
ghost use Rattle.row.specs.Seen.{judged};
ghost use Rattle.tape.specs.declared.hull.Panel.{Panel};
ghost use Rattle.tape.specs.declared.joinery.Part.{Part};
ghost use Rattle.session.specs.Halls.{Idle, idle_after, idle_answer, settings_for, window_for};
ghost use Rattle.session.specs.Seen.{hall_by, hall_of, window_of};

use crate::session::{Hall, Session};
use book::judge;
use desk::Desk;
use label::Label;
use order::Order;
use refusal::Refusal;
use row::Settings;
use term::{ByDays, ByNumber, Span};

/// Settings from the bytes of a command.
fn settings_of(k: u8, f: u8, limit: u8) -> Result<Settings, Refusal>
    ensures { MatchResult result (λ s. settings_for k f limit ≡ Some (judged s)) (λ e. (settings_for k f limit ≡ None) × (e ≡ SettingOutOfRange)) }
{
    judge(u32::from(k), u32::from(f), u32::from(limit))
}

/// A term from its byte and its number.
// No TryFrom: it would be one of a pair of numbers, which says no more.
fn span_of(term: u8, n: u32) -> Result<Span, Refusal>
    ensures { MatchResult result (λ s. window_for term n ≡ Some (window_of s)) (λ e. (window_for term n ≡ None) × (e ≡ SettingOutOfRange)) }
{
    match term {
        0 => Ok(Span::Pieces(ByNumber::new(n)?)),
        1 => Ok(Span::Days(ByDays::new(n)?)),
        _ => Err(Refusal::SettingOutOfRange),
    }
}

/// Takes a first order: settings begin a book, and all else is out of place.
// Apart from `take`: written there, the room of a new book would be cleared for every command.
pub(crate) fn begin(hall: &mut Hall, order: Order) -> Result<Option<Label>, Refusal>
    ensures answer { result ≡ idle_answer order }
    ensures begun { (panels : List (Place Panel)) (parts : List (Place Part)) → is_ok result ≡ true → hall_by hall.new panels parts ≡ idle_after order }
    ensures refused { is_ok result ≡ false → (hall.new ≡ hall.old) × (idle_after order ≡ Idle) }
{
    let Order::Settings(raw) = order else {
        return Err(Refusal::OutOfPlace);
    };
    let settings = settings_of(raw.k, raw.f, raw.limit)?;
    let span = span_of(raw.term, raw.n)?;
    *hall = match raw.kind {
        0 => Hall::OfPanels(Desk::begin(settings, span)),
        1 => Hall::OfParts(Desk::begin(settings, span)),
        _ => return Err(Refusal::SettingOutOfRange),
    };
    Ok(None)
}

impl Session {
    /// A session that has taken nothing yet.
    pub fn new() -> Session
        ensures { (panels : List (Place Panel)) (parts : List (Place Part)) → hall_of result panels parts ≡ Idle }
    {
        Session { hall: Hall::Idle }
    }
}

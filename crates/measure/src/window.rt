//! The terms that a line can name.

ghost use Rattle.measure.specs.Windows.{windowed};
ghost use Rattle.std.proofs.Common.{rules};

use crate::words::{Expected, Trouble, Words};
use term::{Both, ByDays, ByNumber, Clock, Either, Span, Stamp, Term};

/// By number or by days, or two such terms together.
#[derive(Drop)]
pub enum Window {
    One(Span),
    Both(Both<Span, Span>),
    Either(Either<Span, Span>),
}

impl Term for Window {
    ghost counts = { λ t a d posts day. windowed t a d posts day };

    ghost newest = { Prim.search rules };

    ghost expired = { Prim.search rules };

    ghost newer = { Prim.search rules };

    fn still(&self, stamp: Stamp, clock: Clock) -> bool {
        match self {
            Window::One(term) => term.still(stamp, clock),
            Window::Both(term) => term.still(stamp, clock),
            Window::Either(term) => term.still(stamp, clock),
        }
    }
}

impl Window {
    pub fn read(words: &mut Words<'_>) -> Result<Window, Trouble> {
        match words.next() {
            Some("by") => Ok(Window::One(span(words)?)),
            Some("both") => {
                let (first, second) = two(words, Expected::And)?;
                Ok(Window::Both(Both { first, second }))
            }
            Some("either") => {
                let (first, second) = two(words, Expected::Or)?;
                Ok(Window::Either(Either { first, second }))
            }
            _ => Err(Expected::Term.into()),
        }
    }
}

/// What follows `by`.
fn span(words: &mut Words<'_>) -> Result<Span, Trouble> {
    match words.next() {
        Some("number") => Ok(Span::Pieces(ByNumber::new(words.number()?)?)),
        Some("days") => Ok(Span::Days(ByDays::new(words.number()?)?)),
        _ => Err(Expected::Unit.into()),
    }
}

fn two(words: &mut Words<'_>, join: Expected) -> Result<(Span, Span), Trouble> {
    words.word(Expected::By)?;
    let first = span(words)?;
    words.word(join)?;
    words.word(Expected::By)?;
    let second = span(words)?;
    Ok((first, second))
}

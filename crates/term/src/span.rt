//! A term that is chosen at run time.

ghost use Rattle.term.specs.Spans.{spanned};
ghost use Rattle.std.proofs.Common.{rules};

use crate::last::{ByDays, ByNumber};
use crate::window::{Clock, Stamp, Term};

/// The last pieces, or the pieces of the last days.
#[derive(Clone, Copy)]
pub enum Span {
    Pieces(ByNumber),
    Days(ByDays),
}

impl Term for Span {
    ghost counts = { λ t a d posts day. spanned t a d posts day };

    ghost newest = { Prim.search rules };

    ghost expired = { Prim.search rules };

    ghost newer = { Prim.search rules };

    fn still(&self, stamp: Stamp, clock: Clock) -> bool {
        match self {
            Span::Pieces(term) => term.still(stamp, clock),
            Span::Days(term) => term.still(stamp, clock),
        }
    }
}

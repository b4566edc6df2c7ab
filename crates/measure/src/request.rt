//! Requests: each reads its words and asks the libraries.

use crate::answer::Reply;
use crate::piece::Read;
use crate::window::Window;
use crate::words::{Expected, Trouble, Words, number_in};
use grade::{CheckedTable, GradeTape};
use reach::{Posted, reach};
use std::alloc::Global;
use std::str::from_utf8;
use tape::{HullTape, JoinedTape, JoineryTape, Tape, lay};
use term::{Clock, Stamp, Term};

/// Answers one line; a blank line and a remark get no answer.
pub fn answer_line<'t>(
    heap: Global,
    line: &[u8],
    table: &'t mut CheckedTable,
) -> Result<Option<Reply<'t>>, Trouble> {
    let text = from_utf8(line).map_err(|_| Expected::Text)?;
    let mut words = Words::new(text);
    let Some(first) = words.next().filter(|word| !word.starts_with("#")) else {
        return Ok(None);
    };
    let reply = match first {
        "table" => check(heap, words, table)?,
        "counts" => counts(&mut words)?,
        "reach" => radius(heap, &mut words)?,
        "cut" => {
            let cap = words.number()?;
            distance(words.next(), Some(cap), &mut words, table)?
        }
        "hull" | "joinery" | "sheet" | "board" => distance(Some(first), None, &mut words, table)?,
        _ => return Err(Expected::Request.into()),
    };
    Ok(Some(reply))
}

/// The distance of two pieces of a kind.
fn distance(
    kind: Option<&str>,
    cut: Option<u32>,
    words: &mut Words<'_>,
    table: &CheckedTable,
) -> Result<Reply<'static>, Trouble> {
    let grades = GradeTape { table: *table };
    match kind {
        Some("hull") => between(HullTape, cut, words),
        Some("joinery") => between(JoineryTape, cut, words),
        Some("sheet") => between(grades, cut, words),
        Some("board") => between(
            JoinedTape {
                left: HullTape,
                right: grades,
            },
            cut,
            words,
        ),
        _ => Err(Expected::Kind.into()),
    }
}

fn between<P: Read + Drop, T: Tape<P> + Drop>(
    tape: T,
    cut: Option<u32>,
    words: &mut Words<'_>,
) -> Result<Reply<'static>, Trouble> {
    let a = P::read(words)?;
    words.word(Expected::To)?;
    let b = P::read(words)?;
    words.end()?;
    let distance = lay(tape, cut, &a, &b)?;
    Ok(Reply::Distance(distance))
}

/// Checks a table, which serves from then on if it is accepted.
fn check<'t>(
    heap: Global,
    words: Words<'_>,
    table: &'t mut CheckedTable,
) -> Result<Reply<'t>, Trouble> {
    let numbers: Vec<u32> = words.map(number_in).try_collect(heap)?;
    table.check(numbers.as_slice())?;
    Ok(Reply::Table(table))
}

fn clock(words: &mut Words<'_>) -> Result<Clock, Trouble> {
    words.word(Expected::At)?;
    let posts = words.number_after(Expected::Posts)?;
    let day = words.number_after(Expected::Day)?;
    Ok(Clock { posts, day })
}

/// Whether a piece still counts.
fn counts(words: &mut Words<'_>) -> Result<Reply<'static>, Trouble> {
    let term = Window::read(words)?;
    let arrival = words.number_after(Expected::Arrival)?;
    let day = words.number_after(Expected::Day)?;
    let clock = clock(words)?;
    words.end()?;
    Ok(Reply::Counts(term.still(Stamp { arrival, day }, clock)))
}

/// The radius that a board of a kind needs.
fn radius(heap: Global, words: &mut Words<'_>) -> Result<Reply<'static>, Trouble> {
    match words.next() {
        Some("hull") => radius_by(heap, &HullTape, words),
        Some("joinery") => radius_by(heap, &JoineryTape, words),
        _ => Err(Expected::Board.into()),
    }
}

fn radius_by<P: Read + Drop, T: Tape<P>>(
    heap: Global,
    tape: &T,
    words: &mut Words<'_>,
) -> Result<Reply<'static>, Trouble> {
    let board = P::read(words)?;
    let term = Window::read(words)?;
    let clock = clock(words)?;
    words.word(Expected::Over)?;
    let mut posted = Vec::new(heap);
    while let Some(word) = words.next() {
        let arrival = number_in(word)?;
        let day = words.number()?;
        let piece = P::read(words)?;
        posted.push(Posted {
            piece,
            stamp: Stamp { arrival, day },
        })?;
    }
    Ok(Reply::Reach(reach(tape, &term, &board, posted.as_slice(), clock)))
}

//! The worked feed: hull panels, one centre, the last three panels count.

use crate::calls::{Call, follow_new, no_pick, open, pick};
use crate::panels::{all, stray};
use book::{Book, Shelf};
use refusal::Refusal;
use rules::Grain;
use std::test::Fail;
use tape::{HullTape, Panel};
use term::ByNumber;

#[test]
fn the_worked_feed_is_picked_as_written(rt: HostRuntime) -> Result<(), Fail> {
    let mut places = [stray(); 56];
    let calls = [
        Call::Post(all(0), 1, Ok(())),
        Call::Post(all(3), 1, Ok(())),
        pick(Grain::Fine, 1, 5, Some(1), [1, 0, 0]),
        Call::Post(all(10), 1, Ok(())),
        no_pick(Refusal::NoRadiusPasses),
        Call::Post(all(4), 1, Ok(())),
        pick(Grain::Fine, 1, 10, Some(2), [4, 0, 0]),
        Call::Post(all(0), 0, Err(Refusal::DayNotAllowed)),
        Call::Find(4, Ok(1)),
        Call::HandOut(1, Ok(all(4))),
    ];
    follow_new(
        &rt,
        (1, 2, 4),
        &[1, 2, 4],
        &mut places,
        &HullTape,
        &ByNumber::new(3)?,
        &calls,
    )
}

/// The one centre of a pick.
fn centre(book: &Book<Panel>, shelf: &Shelf<'_, Panel>, term: &ByNumber) -> Result<Panel, Refusal> {
    let mut answers = [0; 1];
    book.pick(shelf, &HullTape, term, &mut answers, &mut [0; 4])?;
    let at = book.find(shelf, answers[0])?;
    book.hand_out(shelf, at)
}

#[test]
fn the_centre_of_a_pick_is_found_and_handed_out(rt: HostRuntime) -> Result<(), Fail> {
    let offsets = [0, -1, 500_000, -500_000, 10, -9, 7, 3];
    let term = ByNumber::new(3)?;
    let mut book = open((1, 2, 1), &[])?;
    let mut places = [stray(); 8];
    let mut shelf = Shelf {
        places: &mut places,
    };
    book.post(&mut shelf, &HullTape, &term, Panel { offsets }, 1)?;
    assert!(rt; centre(&book, &shelf, &term)?.offsets == offsets);
    Ok(())
}

#[test]
fn what_the_lists_do_not_use_is_not_handed_out(rt: HostRuntime) -> Result<(), Fail> {
    let mut places = [stray(); 56];
    let gone = Refusal::ArrivalNotKept;
    let calls = [
        Call::Post(all(0), 1, Ok(())),
        Call::Post(all(3), 1, Ok(())),
        Call::Post(all(10), 1, Ok(())),
        Call::Post(all(4), 1, Ok(())),
        Call::Find(0, Err(gone)),
        Call::Find(1, Err(gone)),
        Call::Find(2, Ok(14)),
        Call::Find(3, Ok(0)),
        Call::Find(5, Err(gone)),
        // the last attractor of the first radius, and the place behind its last representative
        Call::HandOut(1, Ok(all(4))),
        Call::HandOut(4, Err(gone)),
        // its first pieces, its latest pieces, and the place behind them
        Call::HandOut(6, Err(gone)),
        Call::HandOut(7, Err(gone)),
        Call::HandOut(10, Ok(all(10))),
        Call::HandOut(11, Ok(all(4))),
        Call::HandOut(12, Err(gone)),
        // the last radius: behind its attractor, its latest pieces, the last place, and past the shelf
        Call::HandOut(43, Err(gone)),
        Call::HandOut(53, Ok(all(10))),
        Call::HandOut(54, Err(gone)),
        Call::HandOut(55, Err(gone)),
        Call::HandOut(56, Err(gone)),
        Call::HandOut(usize::MAX, Err(gone)),
    ];
    follow_new(
        &rt,
        (1, 2, 4),
        &[1, 2, 4],
        &mut places,
        &HullTape,
        &ByNumber::new(3)?,
        &calls,
    )
}

#[test]
fn with_one_fine_entry_it_is_coarse_until_the_lost_panel_no_longer_counts(
    rt: HostRuntime,
) -> Result<(), Fail> {
    let mut places = [stray(); 32];
    let calls = [
        Call::Post(all(0), 1, Ok(())),
        Call::Post(all(3), 1, Ok(())),
        pick(Grain::Coarse, 1, 8, Some(1), [2, 0, 0]),
        Call::Post(all(3), 1, Ok(())),
        Call::Post(all(3), 1, Ok(())),
        pick(Grain::Fine, 1, 0, None, [4, 0, 0]),
    ];
    follow_new(
        &rt,
        (1, 2, 1),
        &[1, 2, 4],
        &mut places,
        &HullTape,
        &ByNumber::new(3)?,
        &calls,
    )
}

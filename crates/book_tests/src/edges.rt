//! What an open book refuses, and that it serves what is just within the edge.

use crate::calls::{Call, follow, follow_new, no_pick, open, pick};
use crate::panels::{all, stray};
use book::Shelf;
use refusal::Refusal;
use rules::{Grain, Place};
use std::test::Fail;
use tape::{HullTape, JoineryTape, Part};
use term::{ByDays, ByNumber};

#[test]
fn a_shelf_one_place_short_is_refused_and_one_with_all_places_served(
    rt: HostRuntime,
) -> Result<(), Fail> {
    let mut book = open((2, 2, 3), &[1])?;
    let term = ByDays::new(2)?;
    let mut few = [stray(); 29];
    let mut enough = [stray(); 30];
    let short = Refusal::ShelfTooShort;
    // the smallest number is tested first
    let refused = [
        Call::Post(all(0), 1_000_001, Err(short)),
        Call::Turn(1_000_001, Err(short)),
        no_pick(short),
        Call::Find(1, Err(short)),
        Call::HandOut(0, Err(short)),
    ];
    let served = [
        Call::Post(all(0), 1, Ok(())),
        Call::Turn(2, Ok(())),
        pick(Grain::Fine, 1, 0, None, [1, 0, 0]),
        Call::Find(1, Ok(0)),
        Call::HandOut(0, Ok(all(0))),
    ];
    follow(&rt, &mut book, &mut enough, &HullTape, &term, &served)?;
    follow(&rt, &mut book, &mut few, &HullTape, &term, &refused)?;
    follow(&rt, &mut book, &mut enough, &HullTape, &term, &served[2..5])
}

#[test]
fn days_go_on_up_to_a_million_and_an_empty_window_is_not_picked(
    rt: HostRuntime,
) -> Result<(), Fail> {
    let mut places = [stray(); 8];
    let bad = Err(Refusal::DayNotAllowed);
    let calls = [
        no_pick(Refusal::NothingCounts),
        Call::Post(all(0), 5, Ok(())),
        pick(Grain::Fine, 1, 0, None, [1, 0, 0]),
        Call::Post(all(0), 4, bad),
        Call::Turn(4, bad),
        Call::Turn(5, Ok(())),
        pick(Grain::Fine, 1, 0, None, [1, 0, 0]),
        Call::Turn(6, Ok(())),
        no_pick(Refusal::NothingCounts),
        Call::Find(1, Err(Refusal::ArrivalNotKept)),
        Call::Turn(1_000_001, bad),
        Call::Post(all(1), 1_000_001, bad),
        Call::Turn(1_000_000, Ok(())),
        Call::Post(all(1), 999_999, bad),
        Call::Post(all(1), 1_000_000, Ok(())),
        pick(Grain::Fine, 1, 0, None, [2, 0, 0]),
        Call::Turn(999_999, bad),
        Call::Turn(1_000_001, bad),
    ];
    follow_new(
        &rt,
        (1, 2, 1),
        &[],
        &mut places,
        &HullTape,
        &ByDays::new(1)?,
        &calls,
    )
}

#[test]
fn a_pick_takes_k_answers_and_work_for_the_longer_list(rt: HostRuntime) -> Result<(), Fail> {
    let term = ByDays::new(1)?;
    let mut places = [stray(); 38];
    let short = Some(Refusal::ListTooShort);
    let calls = [
        // the smaller number is tested first
        Call::PickWithin(1, 6, short),
        Call::Post(all(0), 1, Ok(())),
        Call::PickWithin(1, 6, short),
        Call::PickWithin(2, 5, short),
        Call::PickWithin(2, 6, None),
    ];
    follow_new(&rt, (2, 2, 5), &[1], &mut places, &HullTape, &term, &calls)?;
    let calls = [
        Call::Post(all(0), 1, Ok(())),
        Call::PickWithin(0, 5, short),
        Call::PickWithin(1, 4, short),
        Call::PickWithin(1, 5, None),
    ];
    follow_new(&rt, (1, 2, 5), &[1], &mut places, &HullTape, &term, &calls)
}

#[test]
fn refused_calls_leave_book_and_shelf_and_served_ones_the_surplus(
    rt: HostRuntime,
) -> Result<(), Fail> {
    let mut book = open((2, 2, 3), &[1])?;
    let term = ByDays::new(2)?;
    let mut places = [stray(); 35];
    let picked = pick(Grain::Fine, 2, 0, None, [1, 2, 0]);
    let served = [
        Call::Post(all(0), 1, Ok(())),
        Call::Post(all(9), 2, Ok(())),
        picked,
    ];
    let refused = [
        Call::Post(all(1), 1, Err(Refusal::DayNotAllowed)),
        Call::Post(all(1), 1_000_001, Err(Refusal::DayNotAllowed)),
        Call::Turn(1, Err(Refusal::DayNotAllowed)),
        Call::Turn(1_000_001, Err(Refusal::DayNotAllowed)),
        Call::Find(3, Err(Refusal::ArrivalNotKept)),
        Call::HandOut(30, Err(Refusal::ArrivalNotKept)),
        picked,
    ];
    follow(&rt, &mut book, &mut places, &HullTape, &term, &served)?;
    let before = places;
    follow(&rt, &mut book, &mut places, &HullTape, &term, &refused)?;
    assert!(rt; places == before);
    assert!(rt; places[30..35] == [stray(); 5][..]);
    Ok(())
}

#[test]
fn after_a_million_posts_there_is_no_other(rt: HostRuntime) -> Result<(), Fail> {
    let mut book = open((1, 2, 1), &[])?;
    let term = ByNumber::new(2)?;
    let piece = Part { word: 5 };
    let mut places = [Place {
        piece,
        arrival: 0,
        day: 0,
        attractor: 0,
    }; 8];
    {
        let mut shelf = Shelf {
            places: &mut places,
        };
        for _ in 0..999_999u32 {
            book.post(&mut shelf, &JoineryTape, &term, piece, 1)?;
        }
    }
    let calls = [
        Call::Post(Part { word: 7 }, 1, Ok(())),
        Call::Post(piece, 1, Err(Refusal::PostsUsedUp)),
        // the smaller number is tested first
        Call::Post(piece, 0, Err(Refusal::PostsUsedUp)),
        Call::Turn(0, Err(Refusal::DayNotAllowed)),
        Call::Turn(2, Ok(())),
        Call::Find(1_000_000, Ok(1)),
        Call::HandOut(1, Ok(Part { word: 7 })),
    ];
    follow(&rt, &mut book, &mut places, &JoineryTape, &term, &calls)
}

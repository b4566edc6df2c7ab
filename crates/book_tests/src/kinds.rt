//! The same calls for other kinds of pieces, tapes and terms.

use crate::calls::{Call, follow_new, no_pick, pick};
use crate::panels::all;
use grade::{CheckedTable, Grade, GradeTape};
use refusal::Refusal;
use rules::{Grain, Place};
use std::array;
use std::process::Abort;
use std::test::Fail;
use tape::{Cut, HullTape, Joined, JoinedTape, Panel};
use term::{Both, ByDays, ByNumber, Either, Term};

/// A table in which grades are `step` apart for each step of the grade.
fn table_of(step: u32) -> [u32; 256] {
    array::from_fn(|at| {
        let (row, column) = (at / 16 % 16, at % 16);
        (row.abs_diff(column) as u32).saturating_mul(step)
    })
}

fn grade_tape(step: u32) -> Result<GradeTape, Refusal> {
    let mut table = CheckedTable::new();
    table.check(&table_of(step))?;
    Ok(GradeTape { table })
}

/// A board told by shape and grade together.
type Board = Joined<Panel, Grade>;

fn board(offset: i32, grade: u8) -> Board {
    Joined {
        left: all(offset),
        right: Grade { number: grade },
    }
}

/// Shape and a grade's steps of 7 together, cut off at 8.
fn board_tape() -> Result<Cut<JoinedTape<HullTape, GradeTape>>, Refusal> {
    let joined = JoinedTape {
        left: HullTape,
        right: grade_tape(7)?,
    };
    Cut::new(joined, 8)
}

/// Makes the calls of a book of boards with two centres.
fn follow_boards<W: Term>(rt: &impl Abort, term: &W, calls: &[Call<Board>]) -> Result<(), Fail> {
    let mut places = [Place {
        piece: board(7, 7),
        arrival: 1,
        day: 1,
        attractor: 1,
    }; 68];
    follow_new(
        rt,
        (2, 2, 4),
        &[1, 2, 4],
        &mut places,
        &board_tape()?,
        term,
        calls,
    )
}

#[test]
fn boards_count_by_number_and_days_both(rt: HostRuntime) -> Result<(), Fail> {
    let term = Both {
        first: ByNumber::new(3)?,
        second: ByDays::new(2)?,
    };
    let gone = Refusal::ArrivalNotKept;
    let calls = [
        Call::Post(board(0, 0), 1, Ok(())),
        Call::Post(board(1, 0), 1, Ok(())),
        Call::Post(board(0, 1), 1, Ok(())),
        pick(Grain::Fine, 2, 1, Some(0), [1, 3, 0]),
        Call::Post(board(40, 5), 2, Ok(())),
        pick(Grain::Fine, 2, 12, Some(2), [2, 3, 0]),
        Call::Find(1, Err(gone)),
        Call::Find(3, Ok(1)),
        Call::HandOut(1, Ok(board(0, 1))),
        Call::HandOut(66, Ok(board(40, 5))),
        Call::Turn(3, Ok(())),
        pick(Grain::Fine, 1, 0, None, [4, 0, 0]),
        Call::Find(3, Err(gone)),
        Call::HandOut(0, Ok(board(40, 5))),
        Call::HandOut(1, Err(gone)),
        Call::Post(board(2, 1), 3, Ok(())),
        pick(Grain::Fine, 2, 0, None, [4, 5, 0]),
        Call::Post(board(3, 1), 3, Ok(())),
        Call::Post(board(4, 1), 3, Ok(())),
        pick(Grain::Fine, 2, 1, Some(0), [5, 7, 0]),
        Call::Find(4, Err(gone)),
        Call::HandOut(20, Ok(board(4, 1))),
        Call::Turn(4, Ok(())),
        pick(Grain::Fine, 2, 1, Some(0), [5, 7, 0]),
        Call::Turn(5, Ok(())),
        no_pick(Refusal::NothingCounts),
    ];
    follow_boards(&rt, &term, &calls)
}

#[test]
fn boards_count_by_number_or_days_either(rt: HostRuntime) -> Result<(), Fail> {
    let term = Either {
        first: ByNumber::new(2)?,
        second: ByDays::new(2)?,
    };
    let gone = Refusal::ArrivalNotKept;
    let calls = [
        Call::Post(board(0, 0), 1, Ok(())),
        Call::Post(board(1, 0), 1, Ok(())),
        Call::Post(board(0, 1), 1, Ok(())),
        pick(Grain::Fine, 2, 1, Some(0), [1, 3, 0]),
        Call::Post(board(40, 5), 2, Ok(())),
        pick(Grain::Fine, 2, 12, Some(2), [2, 3, 0]),
        Call::Find(1, Ok(17)),
        Call::HandOut(17, Ok(board(0, 0))),
        Call::Turn(3, Ok(())),
        pick(Grain::Fine, 2, 0, None, [3, 4, 0]),
        Call::Find(1, Err(gone)),
        Call::Post(board(2, 1), 3, Ok(())),
        pick(Grain::Fine, 2, 0, None, [4, 5, 0]),
        Call::Post(board(3, 1), 3, Ok(())),
        Call::Post(board(4, 1), 3, Ok(())),
        pick(Grain::Fine, 2, 2, Some(0), [4, 5, 0]),
        Call::Find(4, Ok(17)),
        Call::HandOut(17, Ok(board(40, 5))),
        Call::Turn(4, Ok(())),
        pick(Grain::Fine, 2, 1, Some(0), [5, 7, 0]),
        Call::Turn(5, Ok(())),
        pick(Grain::Fine, 2, 0, None, [6, 7, 0]),
        Call::Find(6, Ok(0)),
        Call::HandOut(0, Ok(board(3, 1))),
    ];
    follow_boards(&rt, &term, &calls)
}

#[test]
fn sheets_are_picked_by_a_checked_table(rt: HostRuntime) -> Result<(), Fail> {
    let mut places = [Place {
        piece: Grade { number: 15 },
        arrival: 1,
        day: 1,
        attractor: 1,
    }; 40];
    let calls = [
        Call::Post(Grade { number: 3 }, 1, Ok(())),
        Call::Post(Grade { number: 4 }, 1, Ok(())),
        pick(Grain::Fine, 1, 2, Some(0), [1, 0, 0]),
        Call::Post(Grade { number: 6 }, 2, Ok(())),
        pick(Grain::Fine, 1, 8, Some(2), [2, 0, 0]),
        Call::Find(2, Ok(0)),
        Call::HandOut(0, Ok(Grade { number: 4 })),
        Call::Turn(3, Ok(())),
        pick(Grain::Fine, 1, 0, None, [3, 0, 0]),
        Call::Post(Grade { number: 15 }, 3, Ok(())),
        no_pick(Refusal::NoRadiusPasses),
        Call::Turn(4, Ok(())),
        pick(Grain::Fine, 1, 0, None, [4, 0, 0]),
        Call::Find(4, Ok(0)),
        Call::HandOut(0, Ok(Grade { number: 15 })),
    ];
    follow_new(
        &rt,
        (1, 2, 2),
        &[1, 2, 4],
        &mut places,
        &grade_tape(2)?,
        &ByDays::new(2)?,
        &calls,
    )
}

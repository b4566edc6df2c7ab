//! Calls as data, each with the answer that it must give.

use book::{Book, Setup, Shelf, judge};
use refusal::Refusal;
use rules::{Grain, Picked, Place};
use std::fmt::Debug;
use std::process::Abort;
use std::test::Fail;
use tape::Tape;
use term::Term;

/// A call of an open book, with the answer that it must give.
///
/// `Pick` has the pick, and the numbers that it leaves in an answer list of three zeros. `PickWithin` has an answer list
/// and a work list of the lengths given, at most 3 and 64.
#[derive(Clone, Copy, PartialEq, Eq, Debug)]
pub enum Call<P> {
    Post(P, u32, Result<(), Refusal>),
    Turn(u32, Result<(), Refusal>),
    Pick(Result<Picked, Refusal>, [u32; 3]),
    PickWithin(usize, usize, Option<Refusal>),
    Find(u32, Result<usize, Refusal>),
    HandOut(usize, Result<P, Refusal>),
}

/// A pick that is answered, with the centres' arrivals at the front of the answer list.
pub fn pick<P>(
    grain: Grain,
    count: usize,
    radius: u32,
    floor: Option<u32>,
    centres: [u32; 3],
) -> Call<P> {
    let picked = Picked {
        count,
        radius,
        floor,
        grain,
    };
    Call::Pick(Ok(picked), centres)
}

/// A pick that is refused, and leaves the answer list as it was.
pub fn no_pick<P>(why: Refusal) -> Call<P> {
    Call::Pick(Err(why), [0; 3])
}

/// An open book with these settings, k, the fineness and the fine limit, and these radii after 0.
pub fn open<P>(settings: (u32, u32, u32), radii: &[u32]) -> Result<Book<P>, Refusal> {
    let (k, fineness, limit) = settings;
    let mut setup = Setup::begin(judge(k, fineness, limit)?);
    for radius in radii {
        setup.enter(*radius)?;
    }
    Ok(setup.open())
}

/// Makes a call. It comes back with the answer that it got in place of the one that it must give.
// No struct of book, shelf, tape and term: it was tried, and of a `&mut` in its field the borrow is not proved.
fn made<P: Copy, T: Tape<P>, W: Term>(
    book: &mut Book<P>,
    shelf: &mut Shelf<'_, P>,
    tape: &T,
    term: &W,
    call: Call<P>,
) -> Call<P> {
    match call {
        Call::Post(piece, day, _) => {
            Call::Post(piece, day, book.post(shelf, tape, term, piece, day))
        }
        Call::Turn(day, _) => Call::Turn(day, book.turn(shelf, term, day)),
        Call::Pick(..) => {
            let mut answers = [0; 3];
            let picked = book.pick(shelf, tape, term, &mut answers, &mut [0; 64]);
            Call::Pick(picked, answers)
        }
        Call::PickWithin(answers, work, _) => {
            let mut answer_list = [0; 3];
            let mut work_list = [0; 64];
            let answer_list = &mut answer_list[..answers.min(3)];
            let work_list = &mut work_list[..work.min(64)];
            let picked = book.pick(shelf, tape, term, answer_list, work_list);
            Call::PickWithin(answers, work, picked.err())
        }
        Call::Find(arrival, _) => Call::Find(arrival, book.find(shelf, arrival)),
        Call::HandOut(at, _) => Call::HandOut(at, book.hand_out(shelf, at)),
    }
}

/// Makes the calls in order, with these places for a shelf, and checks each answer.
pub fn follow<P: Copy + PartialEq + Debug, T: Tape<P>, W: Term>(
    rt: &impl Abort,
    book: &mut Book<P>,
    places: &mut [Place<P>],
    tape: &T,
    term: &W,
    calls: &[Call<P>],
) -> Result<(), Fail> {
    let mut shelf = Shelf { places };
    for (number, call) in calls.iter().enumerate() {
        let answered = made(book, &mut shelf, tape, term, *call);
        assert_eq!(rt; answered, *call, "call {number}, counting from 0");
    }
    Ok(())
}

/// The same from the opening of a book on.
pub fn follow_new<P: Copy + PartialEq + Debug, T: Tape<P>, W: Term>(
    rt: &impl Abort,
    settings: (u32, u32, u32),
    radii: &[u32],
    places: &mut [Place<P>],
    tape: &T,
    term: &W,
    calls: &[Call<P>],
) -> Result<(), Fail> {
    let mut book = open(settings, radii)?;
    follow(rt, &mut book, places, tape, term, calls)
}

//! Pieces and the distances between them.

use grade::{CheckedTable, Grade, GradeTape};
use refusal::Refusal;
use std::array;
use std::test::Fail;
use tape::{Cut, HullTape, Joined, JoinedTape, JoineryTape, Panel, Part, Tape};

/// The tape of a table in which different grades are 1 apart.
fn one_apart() -> Result<GradeTape, Refusal> {
    let mut table = CheckedTable::new();
    table.check(&ones())?;
    Ok(GradeTape { table })
}

fn ones() -> [u32; 256] {
    array::from_fn(|at| if at / 16 == at % 16 { 0 } else { 1 })
}

#[test]
fn words_differ_in_three_bits(rt: HostRuntime) {
    assert_eq!(rt;
        JoineryTape.measure(&Part { word: 0x0F }, &Part { word: 0x01 }),
        3
    );
}

#[test]
fn panels_at_both_ends_are_a_million_apart(rt: HostRuntime) -> Result<(), Fail> {
    let high = Panel::new([500_000; 8])?;
    let low = Panel::new([-500_000; 8])?;
    assert_eq!(rt; HullTape.measure(&high, &low), 1_000_000);
    assert_eq!(rt; HullTape.measure(&high, &high), 0);
    Ok(())
}

#[test]
fn joined_with_one_more_they_are_still_a_million_apart(rt: HostRuntime) -> Result<(), Fail> {
    let tape = JoinedTape {
        left: HullTape,
        right: one_apart()?,
    };
    let a = Joined {
        left: Panel::new([500_000; 8])?,
        right: Grade::new(0)?,
    };
    let b = Joined {
        left: Panel::new([-500_000; 8])?,
        right: Grade::new(1)?,
    };
    let c = Joined {
        left: Panel::new([500_000; 8])?,
        right: Grade::new(1)?,
    };
    assert_eq!(rt; tape.measure(&a, &b), 1_000_000);
    assert_eq!(rt; tape.measure(&a, &c), 1);
    Ok(())
}

#[test]
fn an_offset_one_too_far_is_refused(rt: HostRuntime) {
    assert_eq!(rt;
        Panel::new([0, 0, 0, 500_001, 0, 0, 0, 0]).err(),
        Some(Refusal::PieceOutOfRange)
    );
    assert_eq!(rt;
        Panel::new([0, 0, 0, 0, 0, 0, 0, -500_001]).err(),
        Some(Refusal::PieceOutOfRange)
    );
    assert_eq!(rt;
        Panel::new([i32::MIN; 8]).err(),
        Some(Refusal::PieceOutOfRange)
    );
}

#[test]
fn unchecked_numbers_keep_the_range(rt: HostRuntime) {
    let wild = Panel {
        offsets: [i32::MIN, i32::MAX, 0, 0, 0, 0, 0, 0],
    };
    assert_eq!(rt;
        HullTape.measure(&wild, &Panel { offsets: [0; 8] }),
        1_000_000
    );
}

#[test]
fn a_grade_above_fifteen_is_refused(rt: HostRuntime) -> Result<(), Fail> {
    assert_eq!(rt; Grade::new(16).err(), Some(Refusal::PieceOutOfRange));
    assert_eq!(rt; Grade::new(15)?.number, 15);
    Ok(())
}

#[test]
fn a_cut_is_from_one_to_a_million(rt: HostRuntime) -> Result<(), Fail> {
    assert_eq!(rt;
        Cut::new(JoineryTape, 0).err(),
        Some(Refusal::SettingOutOfRange)
    );
    assert_eq!(rt;
        Cut::new(JoineryTape, 1_000_001).err(),
        Some(Refusal::SettingOutOfRange)
    );
    let tape = Cut::new(JoineryTape, 2)?;
    assert_eq!(rt; tape.measure(&Part { word: 0x0F }, &Part { word: 0x01 }), 2);
    assert_eq!(rt; tape.measure(&Part { word: 0x0F }, &Part { word: 0x0E }), 1);
    Ok(())
}

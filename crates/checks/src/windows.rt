//! Terms, and what holds over any tape and any term.

use reach::{Posted, reach};
use refusal::Refusal;
use std::test::Fail;
use tape::{HullTape, JoineryTape, Panel, Part};
use term::{Both, ByDays, ByNumber, Clock, Either, Stamp, Term};

#[test]
fn by_number_three_the_first_of_four_is_over(rt: HostRuntime) -> Result<(), Fail> {
    let term = ByNumber::new(3)?;
    let clock = Clock { posts: 4, day: 1 };
    assert_eq!(rt; term.still(Stamp { arrival: 1, day: 1 }, clock), false);
    assert_eq!(rt; term.still(Stamp { arrival: 2, day: 1 }, clock), true);
    Ok(())
}

#[test]
fn by_days_one_a_piece_counts_on_its_own_day(rt: HostRuntime) -> Result<(), Fail> {
    let term = ByDays::new(1)?;
    let stamp = Stamp { arrival: 1, day: 5 };
    assert_eq!(rt; term.still(stamp, Clock { posts: 1, day: 5 }), true);
    assert_eq!(rt; term.still(stamp, Clock { posts: 1, day: 6 }), false);
    Ok(())
}

#[test]
fn differences_stop_at_zero(rt: HostRuntime) -> Result<(), Fail> {
    assert_eq!(rt;
        ByNumber::new(1)?.still(Stamp { arrival: 9, day: 9 }, Clock { posts: 1, day: 1 }),
        true
    );
    assert_eq!(rt;
        ByDays::new(1)?.still(Stamp { arrival: 9, day: 9 }, Clock { posts: 1, day: 1 }),
        true
    );
    Ok(())
}

#[test]
fn a_term_is_from_one_to_a_million(rt: HostRuntime) {
    assert_eq!(rt; ByNumber::new(0).err(), Some(Refusal::SettingOutOfRange));
    assert_eq!(rt;
        ByNumber::new(1_000_001).err(),
        Some(Refusal::SettingOutOfRange)
    );
    assert_eq!(rt; ByDays::new(0).err(), Some(Refusal::SettingOutOfRange));
    assert_eq!(rt;
        ByDays::new(1_000_001).err(),
        Some(Refusal::SettingOutOfRange)
    );
    assert!(rt; ByNumber::new(1_000_000).is_ok());
    assert!(rt; ByDays::new(1_000_000).is_ok());
}

#[test]
fn both_and_either_join_two_terms(rt: HostRuntime) -> Result<(), Fail> {
    let stamp = Stamp { arrival: 1, day: 5 };
    let clock = Clock { posts: 2, day: 6 };
    let both = Both {
        first: ByNumber::new(3)?,
        second: ByDays::new(1)?,
    };
    assert_eq!(rt; both.still(stamp, clock), false);
    let either = Either {
        first: ByNumber::new(3)?,
        second: ByDays::new(1)?,
    };
    assert_eq!(rt; either.still(stamp, clock), true);
    Ok(())
}

#[test]
fn the_reach_is_over_what_counts_for_panels_and_for_parts(rt: HostRuntime) -> Result<(), Fail> {
    let clock = Clock { posts: 3, day: 1 };
    let panels = [
        Posted {
            piece: Panel::new([500_000; 8])?,
            stamp: Stamp { arrival: 1, day: 1 },
        },
        Posted {
            piece: Panel::new([0, 3, 0, 0, 0, 0, 0, 0])?,
            stamp: Stamp { arrival: 2, day: 1 },
        },
        Posted {
            piece: Panel::new([0, 0, 0, 0, 0, 0, 0, -7])?,
            stamp: Stamp { arrival: 3, day: 1 },
        },
    ];
    assert_eq!(rt;
        reach(
            &HullTape,
            &ByNumber::new(2)?,
            &Panel::new([0; 8])?,
            &panels,
            clock,
        ),
        7
    );
    assert_eq!(rt;
        reach(
            &HullTape,
            &ByDays::new(1)?,
            &Panel::new([0; 8])?,
            &panels,
            clock,
        ),
        500_000
    );
    let parts = [
        Posted {
            piece: Part { word: 0xFF },
            stamp: Stamp { arrival: 1, day: 1 },
        },
        Posted {
            piece: Part { word: 0x3F },
            stamp: Stamp { arrival: 2, day: 1 },
        },
        Posted {
            piece: Part { word: 0x0F },
            stamp: Stamp { arrival: 3, day: 1 },
        },
    ];
    assert_eq!(rt;
        reach(
            &JoineryTape,
            &ByNumber::new(2)?,
            &Part { word: 0x0F },
            &parts,
            clock,
        ),
        2
    );
    Ok(())
}

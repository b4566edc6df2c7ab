//! Settings, terms, cuts and radii at their ends.

use book::{Setup, judge};
use refusal::Refusal;
use std::process::Abort;
use std::test::Fail;
use tape::{Cut, HullTape, Panel};
use term::{ByDays, ByNumber};

#[test]
fn settings_are_judged_at_their_ends(rt: HostRuntime) {
    let refused = Some(Refusal::SettingOutOfRange);
    for (k, fineness, limit, wanted) in [
        (1, 2, 1, None),
        (12, 64, 64, None),
        (0, 2, 1, refused),
        (13, 2, 1, refused),
        (1, 1, 1, refused),
        (1, 65, 1, refused),
        (1, 2, 0, refused),
        (1, 2, 65, refused),
    ] {
        assert_eq!(rt; judge(k, fineness, limit).err(), wanted);
    }
}

#[test]
fn terms_and_cuts_are_judged_at_their_ends(rt: HostRuntime) {
    let refused = Some(Refusal::SettingOutOfRange);
    for (n, wanted) in [
        (0, refused),
        (1, None),
        (1_000_000, None),
        (1_000_001, refused),
    ] {
        assert_eq!(rt; ByNumber::new(n).err(), wanted);
        assert_eq!(rt; ByDays::new(n).err(), wanted);
        assert_eq!(rt; Cut::new(HullTape, n).err(), wanted);
    }
}

/// Enters the first radii, and then others with the answers given.
fn check_radii(
    rt: &impl Abort,
    entered: &[u32],
    others: &[(u32, Result<(), Refusal>)],
) -> Result<(), Fail> {
    let mut setup: Setup<Panel> = Setup::begin(judge(1, 2, 4)?);
    for radius in entered {
        setup.enter(*radius)?;
    }
    for (radius, wanted) in others {
        assert_eq!(rt; setup.enter(*radius), *wanted, "radius {radius}");
    }
    Ok(())
}

#[test]
fn a_radius_follows_the_last(rt: HostRuntime) -> Result<(), Fail> {
    let no = Err(Refusal::RadiusNotAllowed);
    check_radii(
        &rt,
        &[],
        &[(0, no), (2, no), (1, Ok(())), (3, no), (2, Ok(()))],
    )?;
    check_radii(&rt, &[1, 2, 4], &[(4, no), (3, no), (9, no), (8, Ok(()))])?;
    check_radii(&rt, &[1, 2, 4], &[(5, Ok(())), (11, no), (10, Ok(()))])
}

#[test]
fn the_greatest_radius_is_a_million(rt: HostRuntime) -> Result<(), Fail> {
    let no = Err(Refusal::RadiusNotAllowed);
    check_radii(
        &rt,
        &[
            1, 2, 4, 8, 16, 32, 64, 128, 256, 512, 1024, 2048, 4096, 8192, 16_384, 32_768, 65_536,
            131_072, 262_144, 524_288,
        ],
        &[
            (1_048_576, no),
            (1_000_001, no),
            (1_000_000, Ok(())),
            (1_000_001, no),
        ],
    )
}

#[test]
fn a_book_has_at_most_24_radii(rt: HostRuntime) -> Result<(), Fail> {
    let full = Err(Refusal::RadiusListFull);
    check_radii(
        &rt,
        &[
            1, 2, 3, 4, 5, 6, 7, 8, 9, 10, 11, 12, 13, 14, 15, 16, 17, 18, 19, 20, 21, 22,
        ],
        &[(23, Ok(())), (24, full), (23, full)],
    )
}

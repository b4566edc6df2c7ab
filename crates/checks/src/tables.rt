//! Grade tables.

use grade::CheckedTable;
use refusal::{Breach, Refusal};
use std::array;
use std::test::Fail;

/// A lawful table: grades are 7 apart for each step.
fn lawful() -> [u32; 256] {
    array::from_fn(|at| {
        let (row, column) = (at / 16 % 16, at % 16);
        7 * row.abs_diff(column) as u32
    })
}

/// What a new table says to the numbers.
fn verdict(numbers: &[u32]) -> Option<Refusal> {
    CheckedTable::new().check(numbers).err()
}

fn broken(row: u8, column: u8, through: Option<u8>) -> Option<Refusal> {
    Some(Refusal::LawBroken(Breach {
        row,
        column,
        through,
    }))
}

#[test]
fn a_new_table_is_zero_throughout(rt: HostRuntime) {
    assert!(rt; *CheckedTable::new().numbers() == [0; 256]);
}

#[test]
fn a_table_has_256_numbers(rt: HostRuntime) {
    assert_eq!(rt; verdict(&[0; 255]), Some(Refusal::TableLength));
    assert_eq!(rt; verdict(&[1; 257]), Some(Refusal::TableLength));
}

#[test]
fn the_first_bad_entry_is_named(rt: HostRuntime) {
    let mut diagonal = lawful();
    diagonal[0] = 1;
    assert_eq!(rt; verdict(&diagonal), broken(0, 0, None));
    let mut large = lawful();
    large[4 * 16 + 7] = 1_000_001;
    assert_eq!(rt; verdict(&large), broken(4, 7, None));
    let mut uneven = lawful();
    uneven[9 * 16 + 3] = 41;
    assert_eq!(rt; verdict(&uneven), broken(3, 9, None));
}

#[test]
fn one_pass_in_row_order_names_the_first_of_several(rt: HostRuntime) {
    let mut numbers = [0; 256];
    numbers[1] = 5;
    numbers[16] = 6;
    numbers[3 * 16 + 3] = 1;
    assert_eq!(rt; verdict(&numbers), broken(0, 1, None));
}

#[test]
fn a_way_round_that_is_shorter_is_named(rt: HostRuntime) {
    let mut numbers = lawful();
    numbers[2 * 16 + 8] = 50;
    numbers[8 * 16 + 2] = 50;
    assert_eq!(rt; verdict(&numbers), broken(2, 8, Some(3)));
}

#[test]
fn an_accepted_table_is_taken_over_and_a_refusal_keeps_it(rt: HostRuntime) -> Result<(), Fail> {
    let mut table = CheckedTable::new();
    table.check(&lawful())?;
    assert!(rt; *table.numbers() == lawful());
    assert_eq!(rt; table.check(&[1; 256]).err(), broken(0, 0, None));
    assert!(rt; *table.numbers() == lawful());
    Ok(())
}

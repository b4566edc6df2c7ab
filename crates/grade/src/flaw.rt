//! The first flaw of a table.

ghost use Rattle.std.specs.Prelude.{◌≡◌, Some, None, MatchOption};
ghost use Rattle.grade.specs.Tables.{Lawful};
ghost use Rattle.grade.specs.Verdicts.{EntriesHold, FirstEntry, FirstWay, Named, WaysHold};

use crate::table::entry_at;
use refusal::Breach;

/// The first flaw: of an entry, and where all entries hold, of a way round.
pub fn first_flaw(numbers: &[u32; 256]) -> Option<Breach>
    ensures { MatchOption result (Lawful numbers.now) (Named numbers.now) }
{
    first_entry(numbers).or_else(|| first_way(numbers))
}

/// The first entry in row order that is above 1,000,000, or on the diagonal and not 0, or unequal to its
/// mirror entry.
fn first_entry(numbers: &[u32; 256]) -> Option<Breach>
    ensures { MatchOption result (EntriesHold numbers.now 256) (λ b. (b.through ≡ None) × FirstEntry numbers.now b.row b.column) }
{
    // Counted loops: the numbers that they count are what is answered.
    for row in 0..16u8 {
        for column in 0..16u8 {
            let here = entry_at(numbers, row, column);
            let mirror = entry_at(numbers, column, row);
            if here > 1_000_000 || (row == column && here != 0) || here != mirror {
                return Some(Breach {
                    row,
                    column,
                    through: None,
                });
            }
        }
    }
    None
}

/// The first (row, column, through) whose entry exceeds the way round through the third grade.
fn first_way(numbers: &[u32; 256]) -> Option<Breach>
    ensures { MatchOption result (WaysHold numbers.now 4096) (λ b. MatchOption b.through ⊥ (λ m. FirstWay numbers.now b.row b.column m)) }
{
    // Counted loops, as above.
    for row in 0..16u8 {
        for column in 0..16u8 {
            let here = entry_at(numbers, row, column);
            for through in 0..16u8 {
                let there = entry_at(numbers, row, through);
                let onward = entry_at(numbers, through, column);
                if u64::from(here) > u64::from(there) + u64::from(onward) {
                    return Some(Breach {
                        row,
                        column,
                        through: Some(through),
                    });
                }
            }
        }
    }
    None
}

//! What a request is answered with.

use grade::CheckedTable;
use std::fmt;

/// The answer to a line. The table is lent, as a copy of it would make every answer a kibibyte long.
#[derive(Drop)]
pub enum Reply<'t> {
    Distance(u32),
    Reach(u32),
    Counts(bool),
    Table(&'t CheckedTable),
}

impl fmt::Display for Reply<'_> {
    fn fmt<W: fmt::Write>(&self, f: &mut fmt::Formatter<W>) -> fmt::Result {
        match self {
            Reply::Distance(distance) => write!(f, "distance {distance}"),
            Reply::Reach(radius) => write!(f, "reach {radius}"),
            Reply::Counts(true) => write!(f, "yes"),
            Reply::Counts(false) => write!(f, "no"),
            Reply::Table(table) => {
                write!(f, "table")?;
                for n in table.numbers() {
                    write!(f, " {n}")?;
                }
                Ok(())
            }
        }
    }
}

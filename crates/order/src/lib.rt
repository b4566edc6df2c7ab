//! Commands whose pieces are made.

#![tactic(auto)]

ghost use Rattle.std.specs.Prelude.{◌≡◌};
ghost use Rattle.fault.specs.Faults.{located_at};
ghost use Rattle.order.specs.Orders.{order_of, panel_of};

use command::{Command, RawSettings};
use fault::{Fault, located};
use tape::{Panel, Part};

/// A command with its piece made, if it brings one. What else it says is judged above.
// An enum of its own: one generic in its pieces would have every definition of a command name two more types.
#[derive(Clone, Copy)]
pub enum Order {
    Settings(RawSettings),
    Radius(u32),
    Open,
    Hull { day: u32, panel: Panel },
    Joinery { day: u32, part: Part },
    Day(u32),
    Pick,
}

impl Order {
    /// The command that begins at `offset`, with its piece made. A panel with an offset out of range is
    /// refused at the command's place.
    pub fn of(command: Command, offset: usize) -> Result<Order, Fault>
        ensures { result ≡ order_of offset command }
    {
        match command {
            Command::Settings(settings) => Ok(Order::Settings(settings)),
            Command::Radius(radius) => Ok(Order::Radius(radius)),
            Command::Open => Ok(Order::Open),
            Command::Hull { day, offsets } => {
                let panel = panel_at(offsets, offset)?;
                Ok(Order::Hull { day, panel })
            }
            Command::Joinery { day, word } => Ok(Order::Joinery {
                day,
                part: Part { word },
            }),
            Command::Day(day) => Ok(Order::Day(day)),
            Command::Pick => Ok(Order::Pick),
        }
    }
}

/// The panel of a command that begins at `offset`.
fn panel_at(offsets: [i32; 8], offset: usize) -> Result<Panel, Fault>
    ensures { result ≡ located_at offset (panel_of offsets) }
{
    located(Panel::new(offsets), offset)
}

//! Panels for the tests.

use rules::Place;
use tape::Panel;

/// A panel that has the same offset at every station.
pub fn all(offset: i32) -> Panel {
    Panel {
        offsets: [offset; 8],
    }
}

/// What lies at the places of a shelf at first. It does not matter.
pub fn stray() -> Place<Panel> {
    Place {
        piece: all(7),
        arrival: 1,
        day: 1,
        attractor: 1,
    }
}

//! What lies at one place of the shelf.

ghost use Rattle.std.specs.Prelude.{◌≡◌};

use term::Stamp;

/// A posted piece with its arrival, which is its number among the posts, and its day. Where it stands for
/// pieces that an attractor took, `attractor` is that attractor's arrival; elsewhere it is 0.
#[derive(Clone, Copy, PartialEq, Eq, Debug)]
pub struct Place<P> {
    pub piece: P,
    pub arrival: u32,
    pub day: u32,
    // A number and no Option: any numbers may lie on a shelf, and the rules are worded by this one.
    pub attractor: u32,
}

impl<P> Place<P> {
    /// When its piece was posted.
    pub fn stamp(&self) -> Stamp
        ensures { result ≡ record { arrival = self.now.arrival; day = self.now.day } }
    {
        Stamp {
            arrival: self.arrival,
            day: self.day,
        }
    }
}

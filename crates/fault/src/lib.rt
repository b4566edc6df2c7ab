//! A refusal together with the place in a feed that it belongs to.

#![tactic(auto)]

ghost use Rattle.std.specs.Prelude.{◌≡◌, Some};
ghost use Rattle.refusal.specs.Codes.{code};
ghost use Rattle.fault.specs.Faults.{refused_at, located_at, fault_text};

use refusal::{Layer, Refusal};
use std::error::Error;
use std::fmt;

/// Why a command of a feed was refused, and the offset of the command's first byte. It keeps the refusal
/// itself, so that number and layer are the refusal's own wherever the fault is carried.
#[derive(Clone, Copy, PartialEq, Eq, Debug)]
pub struct Fault {
    pub refusal: Refusal,
    pub offset: usize,
}

impl Fault {
    /// A refusal, of the command that begins at `offset`.
    pub fn at(refusal: Refusal, offset: usize) -> Fault
        ensures { result ≡ refused_at refusal offset }
    {
        Fault { refusal, offset }
    }

    /// The refusal's number, 1 to 16.
    pub fn number(self) -> u8
        ensures { result ≡ (code self.refusal).number }
    {
        self.refusal.number()
    }

    /// The refusal's layer.
    pub fn layer(self) -> Layer
        ensures { result ≡ (code self.refusal).layer }
    {
        self.refusal.layer()
    }
}

/// What a call answered on behalf of the command that begins at `offset`: a refusal becomes its fault.
pub fn located<X>(answer: Result<X, Refusal>, offset: usize) -> Result<X, Fault>
    ensures { result ≡ located_at offset answer }
{
    answer.map_err(|refusal| Fault::at(refusal, offset))
}

/// As users see it: `refused 15 layer 1 at 26`.
impl fmt::Display for Fault {
    ghost output = { λ fault. Some (fault_text fault) };

    fn fmt<W: fmt::Write>(&self, f: &mut fmt::Formatter<W>) -> fmt::Result {
        let number = self.number();
        let layer = self.layer().number();
        let offset = self.offset;
        write!(f, "refused {number} layer {layer} at {offset}")
    }
}

impl Error for Fault {}

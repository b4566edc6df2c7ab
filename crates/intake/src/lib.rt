//! A feed that arrives bit by bit: what stands at the front of the bytes that have come so far.

#![tactic(auto)]

ghost use Rattle.intake.specs.Arrivals.{Arrives};

use command::Command;
use fault::Fault;
use refusal::Refusal;
use wire::read;

/// What stands at the front: a command and how many bytes it has, the beginning of one, or nothing more.
#[derive(Clone, Copy, PartialEq, Eq, Debug)]
pub enum Arrived {
    Command(Command, usize),
    Part,
    End,
}

/// Looks at the bytes that have come and are not used yet. The first of them has this offset in the feed, and `ended`
/// says that no more will come. What begins no command is a fault, and so is a command that the end cuts short.
// A flag and no enum: no value goes with it, and nobody but the caller knows it.
pub fn look(bytes: &[u8], offset: usize, ended: bool) -> Result<Arrived, Fault>
    ensures { Arrives bytes.now offset ended result }
{
    match read(bytes, 0) {
        Ok((command, size)) => Ok(Arrived::Command(command, size)),
        Err(fault) => match fault.refusal {
            Refusal::CutShort if !ended => Ok(Arrived::Part),
            Refusal::CutShort if bytes.is_empty() => Ok(Arrived::End),
            refusal => Err(Fault::at(refusal, offset)),
        },
    }
}

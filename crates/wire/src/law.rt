//! Writing and reading undo one another.

ghost use Rattle.std.specs.Prelude.{◌≡◌};
ghost use Rattle.command.specs.Commands.{size_of};
ghost use Rattle.wire.specs.Wire.{room_for, if_room, Copied};

use crate::reading::read;
use crate::writing::write;
use command::Command;
use fault::Fault;

/// A command written reads back as itself.
pub fn written_reads_back(command: &Command, out: &mut [u8]) -> Result<(Command, usize), Fault>
    ensures { result ≡ if_room (room_for command.now out.old) (command.now, size_of command.now) }
{
    command.carried();
    write(command, out)?;
    read(out, 0)
}

/// Bytes that read as a command are those that writing it gives: no command has two encodings.
pub fn read_writes_back(bytes: &[u8], at: usize, out: &mut [u8]) -> Result<usize, Fault>
    ensures { Copied bytes.now at out.old out.new result }
{
    let (command, _) = read(bytes, at)?;
    write(&command, out)
}

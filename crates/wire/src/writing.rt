//! Commands into bytes.

ghost use Rattle.std.specs.Prelude.{◌≡◌, ◌≤◌, length, IfOk, if◌then◌else◌};
ghost use Rattle.command.specs.Commands.{bytes_of, size_of};
ghost use Rattle.wire.specs.Wire.{room_for, if_room, with_front};

use command::Command;
use fault::Fault;
use refusal::Refusal;

/// Puts the command's bytes at the front of `out` and answers how many they are. The rest of the list stays.
/// A list that is too short for them is refused and left as it was.
pub fn write(command: &Command, out: &mut [u8]) -> Result<usize, Fault>
    ensures answer { result ≡ if_room (room_for command.now out.old) (size_of command.now) }
    ensures list { out.new ≡ (if room_for command.now out.old then with_front command.now out.old else out.old) }
    ensures inside { IfOk result (λ n. n ≤ length out.new) }
{
    let size = command.size();
    if out.len() < size {
        return Err(Fault::at(Refusal::CutShort, 0));
    }
    put_command(&mut out[..size], command);
    Ok(size)
}

/// Fills `out` with the command's bytes.
#[tactic(auto, using(crate::proofs::Parts::filled_none))]
fn put_command(out: &mut [u8], command: &Command)
    requires { length out.old ≡ size_of command.now }
    ensures { out.new ≡ bytes_of command.now }
{
    command.carried();
    out[0] = command.verb().into();
    match command {
        Command::Settings(settings) => {
            out[1..6].copy_from_slice(&[
                settings.kind,
                settings.k,
                settings.f,
                settings.limit,
                settings.term,
            ]);
            out[6..].copy_from_slice(&settings.n.to_be_bytes());
        }
        Command::Radius(number) | Command::Day(number) => {
            out[1..].copy_from_slice(&number.to_be_bytes());
        }
        Command::Hull { day, offsets } => {
            out[1..5].copy_from_slice(&day.to_be_bytes());
            out[5..].copy_from_slice(offsets.map(i32::to_be_bytes).as_flattened());
        }
        Command::Joinery { day, word } => {
            out[1..5].copy_from_slice(&day.to_be_bytes());
            out[5..].copy_from_slice(&word.to_be_bytes());
        }
        Command::Open | Command::Pick => {}
    }
}

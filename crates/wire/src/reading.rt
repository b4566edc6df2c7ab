//! Commands from bytes.

ghost use Rattle.std.specs.Prelude.{◌≡◌, ◌+◌, ◌<◌, ◌≤◌, length, take, drop, IfOk};
ghost use Rattle.command.specs.Bytes.{be32zs};
ghost use Rattle.command.specs.Verbs.{width};
ghost use Rattle.command.specs.Commands.{operands_of, verb_of};
ghost use Rattle.wire.specs.Wire.{Reads, Answers};

use command::{Command, RawSettings, Verb};
use fault::{Fault, located};
use refusal::Refusal;

/// The command whose bytes stand at `at`, and how many they are. A byte that begins no command is refused as
/// unknown; no byte at all, and a command that the list ends within, as cut short. The fault is at `at`.
// With an offset and not a slice: the fault is at it.
pub fn read(bytes: &[u8], at: usize) -> Result<(Command, usize), Fault>
    ensures answer { Reads bytes.now at result }
    ensures exact { Answers bytes.now at result }
    ensures inside { IfOk result (λ p. (0 < p.1) × (at + p.1 ≤ length bytes.now)) }
{
    let cut_short = Fault::at(Refusal::CutShort, at);
    let rest = bytes.get(at..).ok_or(cut_short)?;
    let (first, operands) = rest.split_first().ok_or(cut_short)?;
    let verb = located(Verb::try_from(*first), at)?;
    let size = verb.width();
    let operands = operands.get(..size - 1).ok_or(cut_short)?;
    let command = command_of(verb, operands);
    command.carried();
    Ok((command, size))
}

/// The command with this verb and these operands.
fn command_of(verb: Verb, operands: &[u8]) -> Command
    requires { 1 + length operands.now ≡ width verb }
    ensures kind { verb_of result ≡ verb }
    ensures stands { operands_of result ≡ operands.now }
{
    match verb {
        Verb::Settings => Command::Settings(RawSettings {
            kind: operands[0],
            k: operands[1],
            f: operands[2],
            limit: operands[3],
            term: operands[4],
            n: u32::from_be_bytes(array_at(operands, 5)),
        }),
        Verb::Radius => Command::Radius(u32::from_be_bytes(array_at(operands, 0))),
        Verb::Open => Command::Open,
        Verb::Hull => Command::Hull {
            day: u32::from_be_bytes(array_at(operands, 0)),
            offsets: offsets_of(&operands[4..]),
        },
        Verb::Joinery => Command::Joinery {
            day: u32::from_be_bytes(array_at(operands, 0)),
            word: u64::from_be_bytes(array_at(operands, 4)),
        },
        Verb::Day => Command::Day(u32::from_be_bytes(array_at(operands, 0))),
        Verb::Pick => Command::Pick,
    }
}

/// The offsets that have these bytes.
fn offsets_of(bytes: &[u8]) -> [i32; 8]
    requires { length bytes.now ≡ 32 }
    ensures { be32zs result ≡ bytes.now }
{
    let (offsets, _) = bytes.as_chunks();
    array_at(offsets, 0).map(i32::from_be_bytes)
}

/// The items from `at` on, as many as the array has.
fn array_at<T: Copy, const N: usize>(items: &[T], at: usize) -> [T; N]
    requires { at + N ≤ length items.now }
    ensures { result ≡ take N (drop at items.now) }
{
    *items[at..].first_chunk().unwrap()
}

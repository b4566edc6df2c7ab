//! Makes feeds from text, and text from feeds.

#![tactic(auto)]

ghost use Rattle.std.specs.Prelude.{◌≡◌, MatchOption};
ghost use Rattle.feed.specs.Jobs.{plain_job, option_job};

use anyhow::anyhow;
use command::LONGEST;
use listing::{Line, write_text};
use script::{Lines, parse};
use std::io::{BufWriter, Read, Write};
use std::{env, io};

/// What the arguments ask for.
#[derive(Clone, Copy)]
enum Job {
    Write,
    Read { offsets: bool },
    Help,
}

fn main(rt: HostRuntime) -> anyhow::Result<()> {
    run(&rt)
}

fn run(rt: &HostRuntime) -> anyhow::Result<()> {
    match asked(rt)? {
        Some(Job::Write) => {
            let input = input(rt)?;
            match write_feed(rt, input.as_slice())? {
                0 => Ok(()),
                _ => Err(anyhow!("a line was not written")),
            }
        }
        Some(Job::Read { offsets }) => {
            let input = input(rt)?;
            read_feed(rt, input.as_slice(), offsets)?;
            Ok(())
        }
        Some(Job::Help) => {
            help(rt)?;
            Ok(())
        }
        None => Err(anyhow!("usage: feed write | feed read [--offsets] | feed --help")),
    }
}

fn asked(rt: &HostRuntime) -> io::Result<Option<Job>> {
    let mut args = env::args(rt)?;
    let _program = args.next();
    let Some(first) = args.next() else {
        return Ok(None);
    };
    let second = args.next();
    if args.next().is_some() {
        return Ok(None);
    }
    Ok(job_of(first.as_str(), second.as_deref()))
}

fn job_of(word: &str, option: Option<&str>) -> Option<Job>
    ensures { MatchOption option.entry (result ≡ plain_job word.now) (λ it. result ≡ option_job word.now it.now) }
{
    match (word, option) {
        ("write", None) => Some(Job::Write),
        ("read", None) => Some(Job::Read { offsets: false }),
        ("read", Some("--offsets")) => Some(Job::Read { offsets: true }),
        ("--help", None) => Some(Job::Help),
        _ => None,
    }
}

fn input(rt: &HostRuntime) -> io::Result<Vec<u8>> {
    let mut bytes = Vec::new(rt.alloc());
    rt.stdin().read_to_end(&mut bytes)?;
    Ok(bytes)
}

fn help(rt: &HostRuntime) -> io::Result<()> {
    println!(rt; "feed write              text on standard input to a feed on standard output")?;
    println!(rt; "feed read [--offsets]   a feed on standard input to text on standard output")?;
    println!(rt; "feed --help             this text")?;
    println!(rt; "One command to a line; # begins a comment:")?;
    println!(rt; "settings hull k 1 f 2 F 4 by number 3    joinery for hull, days for number")?;
    println!(rt; "settings kind 7 k 1 f 2 F 4 term 9 n 3   any byte for kind and term")?;
    println!(rt; "radius 4")?;
    println!(rt; "open")?;
    println!(rt; "hull 1 0 0 0 0 0 0 0 0                   a day and eight offsets")?;
    println!(rt; "joinery 2 0x0F                           a day and a word")?;
    println!(rt; "day 3")?;
    println!(rt; "pick")
}

/// Writes the commands of the text, names each line that is none, and answers how many those are.
fn write_feed(rt: &HostRuntime, text: &[u8]) -> anyhow::Result<usize> {
    let mut out = BufWriter::new(rt.alloc(), rt.stdout())?;
    let mut bytes = [0; LONGEST];
    let mut bad = 0usize;
    for (index, line) in Lines::of(text).enumerate() {
        match parse(line) {
            Ok(Some(command)) => {
                let size = wire::write(&command, &mut bytes)?;
                out.write_all(&bytes[..size])?;
            }
            Ok(None) => {}
            Err(mistake) => {
                eprintln!(rt; "line {}: {mistake}", index + 1)?;
                bad += 1;
            }
        }
    }
    out.flush()?;
    Ok(bad)
}

/// Prints the commands of the feed, one to a line, and last the fault that ends them, if one does.
fn read_feed(rt: &HostRuntime, bytes: &[u8], offsets: bool) -> io::Result<()> {
    let mut out = BufWriter::new(rt.alloc(), rt.stdout())?;
    let mut line = Line::new();
    // A count by hand: the next command begins where this one ends, and an iterator for this one loop would be longer.
    let mut at = 0;
    while at < bytes.len() {
        match wire::read(bytes, at) {
            Ok((command, size)) => {
                if offsets {
                    write!(out, "{at} ")?;
                }
                write_text(&command, &mut line);
                line.put(b"\n");
                out.write_all(line.as_slice())?;
                at += size;
            }
            Err(fault) => {
                writeln!(out, "{fault}")?;
                break;
            }
        }
    }
    out.flush()
}

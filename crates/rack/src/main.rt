//! Runs a feed through a book: takes commands from standard input as they arrive, and prints a line for each pick and
//! each refusal.

#![tactic(auto)]

ghost use Rattle.std.specs.Prelude.{◌<◌, length, IfOk, IsTrue};
ghost use Rattle.rack.specs.Waiting.{EndOf};

mod inflow;

use anyhow::anyhow;
use command::{Command, LONGEST};
use inflow::Inflow;
use intake::{Arrived, look};
use label::label_text;
use rules::Place;
use session::Session;
use std::io::{BufWriter, Stdout, Write};
use std::{env, io};
use tape::{Panel, Part};

/// How many places each kind of piece has.
const PLACES: usize = 800;

fn main(rt: HostRuntime) -> anyhow::Result<()> {
    run(&rt)
}

fn run(rt: &HostRuntime) -> anyhow::Result<()> {
    let mut args = env::args(rt)?;
    let _program = args.next();
    let Some(first) = args.next() else {
        follow(rt)?;
        return Ok(());
    };
    if first.as_str() == "--help" && args.next().is_none() {
        help(rt)?;
        return Ok(());
    }
    Err(anyhow!("usage: rack [--help], with a feed on standard input"))
}

fn help(rt: &HostRuntime) -> io::Result<()> {
    println!(rt; "rack          runs a feed on standard input through a book")?;
    println!(rt; "rack --help   this text")?;
    println!(rt; "It prints a line for each pick and each refusal:")?;
    println!(rt;
        "pick COUNT radius R floor G fine|coarse ARRIVALS   G is - where there is no floor"
    )?;
    println!(rt; "refused NUMBER layer LAYER at OFFSET               of the command's first byte")?;
    println!(rt; "'feed write' makes a feed from text, and 'feed read' prints one.")
}

/// Follows the feed to its end. What was answered goes out before more is waited for.
fn follow(rt: &HostRuntime) -> io::Result<()> {
    let mut rack = Rack {
        session: Session::new(),
        panels: places_with(Panel { offsets: [0; 8] }),
        parts: places_with(Part { word: 0 }),
        out: BufWriter::new(rt.alloc(), rt.stdout())?,
    };
    let mut inflow = Inflow::new(rt.stdin());
    // A counted loop: nobody knows where the feed ends.
    for _ in 0..u64::MAX {
        let ended = inflow.fill()? == 0;
        let goes_on = rack.take_all(&mut inflow, ended)?;
        rack.out.flush()?;
        if !goes_on {
            break;
        }
    }
    Ok(())
}

/// Places with this piece on each of them.
fn places_with<P: Copy>(piece: P) -> [Place<P>; PLACES] {
    [Place {
        piece,
        arrival: 0,
        day: 0,
        attractor: 0,
    }; PLACES]
}

/// A session with the places of its shelves, and where its answers go.
#[derive(Drop)]
struct Rack {
    session: Session,
    panels: [Place<Panel>; PLACES],
    parts: [Place<Part>; PLACES],
    out: BufWriter<Stdout>,
}

impl Rack {
    /// Takes every command that has arrived, and answers whether the feed goes on. What then waits is the end of what
    /// waited, and less than the longest command.
    fn take_all(&mut self, inflow: &mut Inflow, ended: bool) -> io::Result<bool>
        ensures left { EndOf inflow.old.bytes inflow.new.bytes }
        ensures short { IfOk result (λ on. IsTrue on → length inflow.new.bytes < LONGEST) }
    {
        loop {
            match look(inflow.waiting(), inflow.offset(), ended) {
                Ok(Arrived::Command(command, size)) => {
                    self.take(command, inflow.offset())?;
                    inflow.consume(size);
                }
                Ok(Arrived::Part) => return Ok(true),
                Ok(Arrived::End) => return Ok(false),
                Err(fault) => {
                    writeln!(self.out, "{fault}")?;
                    return Ok(false);
                }
            }
        }
    }

    /// Takes one command, and prints its label or its refusal.
    fn take(&mut self, command: Command, offset: usize) -> io::Result<()> {
        match self
            .session
            .handle(command, offset, &mut self.panels, &mut self.parts)
        {
            Ok(None) => Ok(()),
            Ok(Some(label)) => {
                let mut line = label_text(&label);
                line.put(b"\n");
                self.out.write_all(line.as_slice())
            }
            Err(fault) => writeln!(self.out, "{fault}"),
        }
    }
}

//! Answers requests about pieces, tapes and terms, one to a line.

#![tactic(auto)]

use anyhow::anyhow;
use grade::CheckedTable;
use std::env;
use std::io::{BufRead, BufReader, Write};

mod answer;
mod piece;
mod request;
mod window;
mod words;

use request::answer_line;
use words::Trouble;

const HELP: &str =
    "measure [--echo]: reads requests from standard input, one to a line, and answers each with one line

  hull O1 .. O8 to O1 .. O8         the distance of two hull panels of eight offsets, -500000 to 500000
  joinery W to W                    the distance of two joinery parts, words such as 15 or 0x0F
  sheet G to G                      the distance of two sheets, grades 0 to 15, by the table
  board O1 .. O8 G to O1 .. O8 G    the distance of two boards told by shape and grade together
  cut C REQUEST                     one of the four above, cut off at C, 1 to 1000000
  table N1 .. N256                  checks a table, row by row; an accepted one serves from then on
  counts TERM arrival A day D at posts A day D
                                    whether a piece still counts
  reach hull O1 .. O8 TERM at posts A day D over A D O1 .. O8 A D O1 .. O8 ..
  reach joinery W TERM at posts A day D over A D W A D W ..
                                    the radius that a board needs for the pieces that count, each given
                                    by its arrival, its day and itself

A TERM is 'by number N', 'by days N', 'both TERM and TERM' or 'either TERM or TERM', where the inner terms
are by number or by days, and N is 1 to 1000000. The table is 0 throughout at first.

Answers: 'distance N', 'reach N', 'yes', 'no', 'table N1 .. N256' for an accepted table,
'refused NUMBER: REASON', and 'line N: ..' for a line that is not understood.
Blank lines, and lines that begin with #, get no answer. With --echo each line is printed before its answer.
";

/// Answers every line of standard input; `echo` prints each line before its answer.
fn answer_all(rt: &HostRuntime, echo: bool) -> anyhow::Result<()> {
    let mut input = BufReader::new(rt.alloc(), rt.stdin())?;
    let mut table = CheckedTable::new();
    let mut line = Vec::new(rt.alloc());
    // A counted loop: nobody knows where the input ends.
    for number in 1..u64::MAX {
        line.clear();
        if input.read_until(b'\n', &mut line)? == 0 {
            break;
        }
        if echo {
            rt.stdout().write_all(line.as_slice())?;
        }
        match answer_line(rt.alloc(), line.as_slice(), &mut table) {
            Ok(None) => {}
            Ok(Some(reply)) => println!(rt; "{reply}")?,
            Err(Trouble::Refused(refusal)) => {
                let code = refusal.number();
                println!(rt; "refused {code}: {refusal}")?;
            }
            Err(trouble) => println!(rt; "line {number}: {trouble}")?,
        }
    }
    Ok(())
}

fn run(rt: &HostRuntime) -> anyhow::Result<()> {
    let mut args = env::args(rt)?;
    let _program = args.next();
    let word = args.next();
    match word.as_deref() {
        None => answer_all(rt, false),
        Some("--echo") => answer_all(rt, true),
        Some("--help") => {
            print!(rt; "{HELP}")?;
            Ok(())
        }
        Some(_) => Err(anyhow!("measure takes no argument but --echo or --help")),
    }
}

fn main(rt: HostRuntime) -> anyhow::Result<()> {
    run(&rt)
}

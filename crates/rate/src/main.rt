// Tells which rate a head gets: `rate CHIP BAUD [CLK [TOLERANCE]]`, or one such query to a line from standard input.
#![tactic(auto)]

use anyhow::ensure;
use rate_answer::line::Line;
use rate_query::ask::{Asked, ask, read_line};
use std::fmt::Display;
use std::io::{BufRead, BufReader, BufWriter, Write};
use std::rt::Env;
use std::{env, io};

// Answers what was asked by a line that `print` takes, or tells the mistake that stands at `place`; tells whether the query could be read.
fn tell<F: FnOnce(Line) -> io::Result<()>>(
    rt: &impl Eprint,
    place: &impl Display,
    asked: Asked,
    print: F,
) -> io::Result<bool>
    requires { F.IsAlwaysCallable print }
{
    match asked {
        Ok(None) => Ok(true),
        Ok(Some(query)) => {
            print(Line::new(query))?;
            Ok(true)
        }
        Err(mistake) => {
            eprintln!(rt; "{place}: {mistake}")?;
            Ok(false)
        }
    }
}

// Answers the query that the arguments are; tells whether it could be read.
fn answer_arguments(
    rt: &(impl AllocGlobal + Eprint + Print),
    arguments: &[String],
) -> io::Result<bool> {
    let words: Vec<&[u8]> = arguments
        .iter()
        .map(|argument| argument.as_bytes())
        .collect(rt.alloc())?;
    // `println!` writes the line at once.
    tell(rt, &"arguments", ask(&words), |line| println!(rt; "{line}"))
}

// Answers every line of standard input; tells whether all could be read.
fn answer_input(rt: &(impl AllocGlobal + Eprint + Input + Print)) -> io::Result<bool> {
    let mut input = BufReader::new(rt.alloc(), rt.reader())?;
    let mut out = BufWriter::new(rt.alloc(), io::writer(rt))?;
    let mut line: Vec<u8> = Vec::new(rt.alloc());
    let mut all_read = true;
    // An iterator over lines would be no plainer: each line is read into the one buffer, and its number is told with a mistake.
    for number in 1..u64::MAX {
        // Before the program waits for input it writes its answers, so whoever types queries sees each answer at once; a file's answers are written in blocks.
        if !input.buffer().contains(&b'\n') {
            out.flush()?;
        }
        line.clear();
        if input.read_until(b'\n', &mut line)? == 0 {
            break;
        }
        let asked = read_line(rt.alloc(), &line)?;
        all_read &= tell(
            rt,
            &format_args!("line {number}"),
            asked,
            |line| writeln!(out, "{line}"),
        )?;
    }
    out.flush()?;
    Ok(all_read)
}

// Does what the arguments ask; tells whether every query could be read.
fn run(rt: &(impl AllocGlobal + Env + Eprint + Input + Print)) -> io::Result<bool> {
    let arguments: Vec<String> = env::args(rt)?.skip(1).collect(rt.alloc())?;
    match arguments.as_slice() {
        [] => answer_input(rt),
        [argument] if argument.as_str() == "--help" => {
            println!(rt;
                "usage: rate CHIP BAUD [CLK [TOLERANCE]], or queries on standard input, one to a line"
            )?;
            Ok(true)
        }
        arguments => answer_arguments(rt, arguments),
    }
}

fn main(rt: HostRuntime) -> anyhow::Result<()> {
    ensure!(run(&rt)?, "a query could not be read");
    Ok(())
}

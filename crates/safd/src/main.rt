// safd: stuck-at fault dictionaries.
#![tactic(auto)]

mod commands;

use commands::{Command, USAGE, parse};
use console::{CARD, bench, check, report, unknown_command};
use std::env;

// Prints a built-in card's netlist and what is read of it.
fn tour(rt: &(impl Print + Eprint + AllocGlobal)) -> anyhow::Result<()> {
    println!(rt; "# the card's netlist:")?;
    rt.print(CARD)?;
    println!(rt; "# what was read:")?;
    report(rt, "tour", CARD.as_bytes()).map(drop)
}

fn main(rt: HostRuntime) -> anyhow::Result<()> {
    let words: Vec<String> = env::args(&rt)?.skip(1).collect(rt.alloc())?;
    match parse(words.as_slice()) {
        Command::Help => {
            rt.println(USAGE)?;
            Ok(())
        }
        Command::Check(file) => check(&rt, file).map(drop),
        Command::Bench(file) => bench(&rt, file).map(drop),
        Command::Tour => tour(&rt),
        Command::Unknown => unknown_command(&rt, USAGE),
    }
}

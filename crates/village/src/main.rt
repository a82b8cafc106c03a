//! Plays scripts of events over a fleet, and prints what comes of each.
#![tactic(auto)]

mod plays;
mod scripts;
mod tells;
mod words;

use anyhow::anyhow;
use plays::play;
use std::process::ExitCode;
use std::{env, fs};

/// A machine starts with p and q, and a judge accepts that it did.
const SCRIPT: &str = "fleet 1 1 b
file p
file q
list l p q
start 0 l
read 0
chip 0 0
good 0 first p q
rows 0 1 first p q
ask 0 0 n1
sign 0 n1 as s
answer 0 0 n1 1 s
";

fn play_file(rt: &HostRuntime, path: &str) -> anyhow::Result<()> {
    match fs::read_to_string(rt, path) {
        Ok(text) => {
            println!(rt; "== {path}")?;
            play(rt, text.as_str())?;
            Ok(())
        }
        Err(why) => Err(anyhow!(format!(in rt.alloc(); "cannot read {path}: {why}")?)),
    }
}

fn run(rt: &HostRuntime) -> anyhow::Result<()> {
    // A flag: that there was no path is known only when they are through.
    let mut alone = true;
    for path in env::args(rt)?.skip(1) {
        alone = false;
        play_file(rt, path.as_str())?;
    }
    if alone {
        play(rt, SCRIPT)?;
    }
    Ok(())
}

fn main(rt: HostRuntime) -> ExitCode {
    match run(&rt) {
        Ok(()) => ExitCode::SUCCESS,
        Err(why) => {
            let _ = eprintln!(rt; "village: {why}");
            ExitCode::FAILURE
        }
    }
}

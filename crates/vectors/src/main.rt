//! Runs the published vectors of SHA-256, HMAC-SHA-256 and ChaCha20, and prints what came of each beside what should.

#![tactic(auto)]

mod codes;
mod digests;
mod rows;
mod streams;

use anyhow::ensure;
use rows::Report;

fn run(rt: &HostRuntime) -> anyhow::Result<()> {
    let mut report = Report::new(rt);
    digests::run(&mut report)?;
    codes::run(&mut report)?;
    streams::run_blocks(&mut report)?;
    streams::run_streams(&mut report)?;
    ensure!(report.tally.all_agree(), "some differ");
    let agreeing = report.tally.agreeing;
    println!(rt; "all {agreeing} agree")?;
    Ok(())
}

fn main(rt: HostRuntime) -> anyhow::Result<()> {
    run(&rt)
}

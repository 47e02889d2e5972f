// `rehearse_cases F SCRIPT F SCRIPT ..` plays scripts one after the other, each with a committee of its own, and prints the name of each before
// what it prints. Its stored run holds the cases of the protocol.
#![tactic(auto)]

use anyhow::{anyhow, bail};
use rehearsal::{faults_of, play};
use std::env;
use std::fs::File;

const USAGE: &str = "usage: rehearse_cases F SCRIPT F SCRIPT ..";

fn run(rt: &HostRuntime) -> anyhow::Result<()> {
    let mut args = env::args(rt)?;
    let _program = args.next();
    while let Some(first) = args.next() {
        let Some(script) = args.next() else {
            bail!(USAGE);
        };
        let faults = faults_of(first.as_str()).map_err(|_| anyhow!(USAGE))?;
        println!(rt; "# {script}")?;
        play(rt, faults, File::open(rt, script.as_str())?)?;
    }
    Ok(())
}

fn main(rt: HostRuntime) -> anyhow::Result<()> {
    run(&rt)
}

// `rehearse F SCRIPT` plays a whole committee from a script.
#![tactic(auto)]

use anyhow::{anyhow, bail};
use rehearsal::{faults_of, play};
use std::env;
use std::fs::File;

const USAGE: &str =
    "usage: rehearse F SCRIPT, where F, 0 to 4, is how many members may be bad, and SCRIPT is a file, or - for standard input";

const HELP: &str = "usage: rehearse F SCRIPT

Plays a committee of 3 F + 1 members, 0 to 3 F, of which at most F are bad (F is 0 to 4), as the lines of SCRIPT say; - is standard input.

  bad M                                   member M is bad; before all other lines, for at most F members
  block NAME AUTHOR ROUND LOAD PARENTS..  NAME stands for this block; LOAD is hexadecimal, or - for none; parents are names
  makes M NAME                            good member M makes its block
  signs M NAME                            good member M signs a block
  takes M NAME                            good member M takes a certified block into its web
  forges M NAME                           bad member M signs a block, whatever it is
  order M                                 prints the names of the blocks that member M has ordered, on one line

A line that may not happen, or that is none of these, prints no and changes nothing. Empty lines are passed over.
";

fn run(rt: &HostRuntime) -> anyhow::Result<()> {
    let mut args = env::args(rt)?;
    let _program = args.next();
    let Some(first) = args.next() else {
        rt.print(HELP)?;
        return Ok(());
    };
    let Some(script) = args.next() else {
        if first.as_str() == "--help" {
            rt.print(HELP)?;
            return Ok(());
        }
        bail!(USAGE);
    };
    if args.next().is_some() {
        bail!(USAGE);
    }
    let faults = faults_of(first.as_str()).map_err(|_| anyhow!(USAGE))?;
    if script.as_str() == "-" {
        play(rt, faults, rt.stdin())?;
        return Ok(());
    }
    let file = File::open(rt, script.as_str()).map_err(|_| anyhow!(
        "the script {script} can't be read"
    ))?;
    play(rt, faults, file)?;
    Ok(())
}

fn main(rt: HostRuntime) -> anyhow::Result<()> {
    run(&rt)
}

#![tactic(auto)]

ghost use Rattle.arrivals.specs.Ranges.{InRange};
ghost use Rattle.std.specs.Prelude.{IfOk};

use anyhow::anyhow;
use std::env;
use std::io::{Read, Write};
use std::process::ExitCode;

mod distance;
mod report;
mod takings;

use distance::parse_distance;
use report::list_arrivals;

// The distance that the argument asks for, or 1 without one.
fn asked_distance(rt: &HostRuntime) -> anyhow::Result<u32>
    ensures { IfOk result InRange }
{
    let Some(text) = env::args(rt)?.nth(1) else {
        return Ok(1);
    };
    parse_distance(&text).ok_or_else(|| anyhow!("the distance is a number from 1 to 1000000"))
}

// Reads a list on standard input, and prints what comes of it through a gate of the distance asked for.
fn run(rt: &HostRuntime) -> anyhow::Result<()> {
    let distance = asked_distance(rt)?;
    let mut bytes = Vec::new(rt.alloc());
    rt.stdin().read_to_end(&mut bytes)?;
    let text = list_arrivals(rt.alloc(), &bytes, distance)?;
    rt.stdout().write_all(text.as_bytes())?;
    Ok(())
}

// Tells a failure on standard error, and ends with status 1 then.
fn main(rt: HostRuntime) -> ExitCode {
    match run(&rt) {
        Ok(()) => ExitCode::SUCCESS,
        Err(fault) => {
            let _ = eprintln!(rt; "arrivals: {fault}");
            ExitCode::FAILURE
        }
    }
}

// Reads a day's input from standard input, and prints what book is in it, or why there is none.
#![tactic(auto)]

use std::io::{Read, Write};

fn main(rt: HostRuntime) -> anyhow::Result<()> {
    let mut input = Vec::new(rt.alloc());
    rt.stdin().read_to_end(&mut input)?;
    let output = listing::answer(rt.alloc(), &input)?;
    rt.stdout().write_all(output.as_bytes())?;
    Ok(())
}

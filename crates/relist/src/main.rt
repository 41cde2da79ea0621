// relist: reads a listing from standard input, records it, writes the recording back, and says how that went.
#![tactic(auto)]

use relisting::{relist, summary};
use std::io::{Read, Write};

fn run(rt: &HostRuntime) -> anyhow::Result<()> {
    let mut text = Vec::new(rt.alloc());
    rt.stdin().read_to_end(&mut text)?;
    let relisted = relist(rt.alloc(), text.as_slice())?;
    let line = summary(rt.alloc(), relisted.outcome)?;
    let mut out = rt.stdout();
    out.write_all(relisted.text.as_slice())?;
    out.write_all(line.as_bytes())?;
    Ok(())
}

fn main(rt: HostRuntime) -> anyhow::Result<()> {
    run(&rt)
}

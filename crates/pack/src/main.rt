// pack: reads a listing from standard input and writes it as an image of 65,536 bytes; where the listing has a fault, only the
// line that says so.
#![tactic(auto)]

use packing::{PackFault, pack};
use relisting::summary;
use std::alloc::AllocError;
use std::io::{Read, Write};

fn run(rt: &HostRuntime) -> anyhow::Result<()> {
    let mut text = Vec::new(rt.alloc());
    rt.stdin().read_to_end(&mut text)?;
    match pack(rt.alloc(), &text) {
        Ok(bytes) => rt.stdout().write_all(&bytes)?,
        Err(PackFault::Listing(fault)) => {
            let line = summary(rt.alloc(), Err(fault))?;
            print!(rt; "{line}")?;
        }
        Err(PackFault::NoMemory) => return Err(AllocError.into()),
    }
    Ok(())
}

fn main(rt: HostRuntime) -> anyhow::Result<()> {
    run(&rt)
}

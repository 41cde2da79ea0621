// unpack: reads an image from standard input and writes its listing; where it is refused, only the line that says so.
#![tactic(auto)]

use packing::{UnpackFault, refusal_line, unpack};
use std::alloc::AllocError;
use std::io::{Read, Write};

fn run(rt: &HostRuntime) -> anyhow::Result<()> {
    let mut bytes = Vec::new(rt.alloc());
    rt.stdin().read_to_end(&mut bytes)?;
    match unpack(rt.alloc(), bytes) {
        Ok(text) => rt.stdout().write_all(&text)?,
        Err(UnpackFault::NoMemory) => return Err(AllocError.into()),
        Err(fault) => {
            let line = refusal_line(rt.alloc(), fault)?;
            print!(rt; "{line}")?;
        }
    }
    Ok(())
}

fn main(rt: HostRuntime) -> anyhow::Result<()> {
    run(&rt)
}

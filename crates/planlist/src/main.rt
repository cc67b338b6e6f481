// Lists the plans of a card: reads network.txt and commands.txt in the folder that it runs in, and prints the transcript.
#![tactic(auto)]

use script::run::run;
use std::fs;
use std::io::{self, ErrorKind};

// The bytes of a file. One that cannot be read counts as empty, but want of memory is an error.
fn contents(rt: &HostRuntime, path: &str) -> io::Result<Vec<u8>> {
    match fs::read(rt, path) {
        Err(error) if error.kind() != ErrorKind::OutOfMemory => Ok(Vec::new(rt.alloc())),
        read => read,
    }
}

fn main(rt: HostRuntime) -> io::Result<()> {
    let card = contents(&rt, "network.txt")?;
    let commands = contents(&rt, "commands.txt")?;
    let text = run(rt.alloc(), &card, &commands)?;
    rt.print(text)
}

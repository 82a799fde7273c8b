// The trials: each list of event lines that an argument names is answered, from an empty plant, after a line with its name.
#![tactic(auto)]

use run::answer_lines;
use std::fs::File;
use std::{env, io};

// One list: its name, LF, and the answers. A list that can't be opened, and a failed read or write of its answers, is told on standard error.
fn trial(rt: &HostRuntime, name: &str) -> io::Result<()> {
    println!(rt; "{name}")?;
    match File::open(rt, name) {
        Ok(mut list) => match answer_lines(&mut list, &mut rt.stdout()) {
            Ok(()) => Ok(()),
            Err(failure) => eprintln!(rt; "druvisha: {failure}"),
        },
        Err(error) => eprintln!(rt; "{name}: {error}"),
    }
}

fn main(rt: HostRuntime) -> io::Result<()> {
    for name in env::args(&rt)?.skip(1) {
        trial(&rt, name.as_str())?;
    }
    Ok(())
}

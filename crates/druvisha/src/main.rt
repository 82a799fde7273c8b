// The run program: event lines on standard input, answer lines on standard output.
#![tactic(auto)]

use run::answer_lines;
use std::process::ExitCode;

// A failed read or write ends the run, is told in one line on standard error, and ends the program with status 1.
fn main(rt: HostRuntime) -> ExitCode {
    match answer_lines(&mut rt.stdin(), &mut rt.stdout()) {
        Ok(()) => ExitCode::SUCCESS,
        Err(failure) => {
            let _ = eprintln!(rt; "druvisha: {failure}");
            ExitCode::FAILURE
        }
    }
}

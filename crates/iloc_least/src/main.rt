//! Prints a bound for each block: no lawful schedule takes fewer cycles.
#![tactic(auto)]

use iloc_bound::least;
use iloc_text::read_file_from;
use iloc_timed::Latencies;
use std::process::ExitCode;

fn main(rt: HostRuntime) -> ExitCode {
    let file = match read_file_from(rt.alloc(), &mut rt.stdin()) {
        Ok(file) => file,
        Err(fault) => {
            let _ = eprintln!(rt; "{fault:?}");
            return ExitCode::FAILURE;
        }
    };
    for block in file.blocks.as_slice() {
        match least(rt.alloc(), block, &Latencies::usual()) {
            Ok(cycles) if println!(rt; "{cycles}").is_ok() => {}
            _ => return ExitCode::FAILURE,
        }
    }
    ExitCode::SUCCESS
}

//! The program: a file of basic blocks on standard input, what comes of it on standard output.
#![tactic(auto)]

use iloc_driver::{Streams, Texts};
use iloc_farm::{Terminals, Watched, run_talking};
use std::env;
use std::fs::{self, File};
use std::io::{self, IsTerminal};
use std::process::ExitCode;

/// The files of the system. What is in them isn't known.
#[derive(Drop)]
struct Files<'a> {
    rt: &'a HostRuntime,
}

impl<'a> Texts for Files<'a> {
    ghost use Rattle.std.specs.Prelude.{None};

    type Text = File;

    ghost held = { λ _ _. None };

    fn open_text(&self, name: &str) -> io::Result<File> {
        fs::open(self.rt, name)
    }
}

fn main(rt: HostRuntime) -> ExitCode {
    let stdin = rt.stdin();
    let terminals = Terminals {
        input: stdin.is_terminal(),
        faults: rt.stderr().is_terminal(),
    };
    let ending = run_talking(
        &rt,
        rt.alloc(),
        env::args(&rt),
        &Files { rt: &rt },
        &mut Streams {
            reader: Watched::new(stdin),
            writer: rt.stdout(),
            faults: rt.stderr(),
        },
        terminals,
    );
    ExitCode::from(ending.status)
}

//! Prints the tables of the language as JSON, for scripts: operations, verdicts, usual latencies, limits.
#![tactic(auto)]

use iloc_meaning::WORDS;
use iloc_ops::{
    LONGEST_OPERATION, MAX_BLOCKS, MAX_INPUT, MAX_NUMBER, MAX_OPS, OPCODES, defines, op_of,
    write_op,
};
use iloc_timed::{Kind, LONGEST_LATENCY, Latencies};
use iloc_verdict::Checked;
use iloc_verdict::VerdictKind::{self, *};
use std::io::{self, Write};

/// All verdicts.
const VERDICTS: [VerdictKind; 9] = [
    Unread, Units, Lawful, Undecided, Void, Same, Prints, Differs, Agrees,
];

/// Prints each operation with 1, 2 and 3 for its numbers, which of them is the register that it defines, and its kind.
fn print_operations(rt: &HostRuntime) -> io::Result<()> {
    let mut before = "{\"operations\": [";
    for opcode in OPCODES {
        let op = op_of(opcode, &[1, 2, 3]);
        let mut line = [0; LONGEST_OPERATION];
        let start = write_op(&mut line, LONGEST_OPERATION, &op);
        print!(rt; "{before}\n  {{\"written\": \"")?;
        rt.stdout().write_all(&line[start..])?;
        let defined = defines(&op).map_or(0, |register| register.0);
        print!(rt;
            "\", \"defines\": {defined}, \"kind\": \"{:?}\"}}",
            Kind::of(&op)
        )?;
        before = ",";
    }
    Ok(())
}

/// Prints each verdict, and whether rows with it pass where no option asks for more.
fn print_verdicts(rt: &HostRuntime) -> io::Result<()> {
    let mut before = "\n], \"verdicts\": {";
    for kind in VERDICTS {
        let checked = Checked {
            kind,
            keeps_operations: true,
            cycles: 0,
            ours: 0,
            sought: None,
            least: 0,
            claimed: None,
        };
        let passes = checked.passes(false);
        print!(rt; "{before}\n  \"{}\": {passes}", kind.word())?;
        before = ",";
    }
    Ok(())
}

fn main(rt: HostRuntime) -> io::Result<()> {
    print_operations(&rt)?;
    print_verdicts(&rt)?;
    let usual = Latencies::usual();
    println!(rt;
        "\n}}, \"latencies\": {{\"load\": {}, \"store\": {}, \"mult\": {}}}, \"limits\": {{",
        usual.load, usual.store, usual.mult
    )?;
    println!(rt; "  \"bytes\": {MAX_INPUT}, \"blocks\": {MAX_BLOCKS}, \"operations\": {MAX_OPS},")?;
    println!(rt; "  \"number\": {MAX_NUMBER}, \"words\": {WORDS}, \"latency\": {LONGEST_LATENCY}")?;
    println!(rt; "}}}}")
}

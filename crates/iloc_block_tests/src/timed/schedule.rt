use crate::asserted::assert_list;
use crate::written::{Issue, build, rows_of};
use iloc_ops::{Op, Reg};
use iloc_timed::BuildFault::{self, BadRow, NoMemory, NotOnce};
use std::test::Fail;

const LOAD: Op = Op::Load {
    addr: Reg(0),
    dest: Reg(1),
};

const MULT: Op = Op::MultI {
    left: Reg(0),
    value: 3,
    dest: Reg(1),
};

const OPS: &[Op] = &[MULT, LOAD];

const ISSUES: &[Issue] = &[(1, Some(1), Some(0)), (2, None, None)];

#[test]
fn takes_what_keeps_the_rules(rt: HostRuntime) -> Result<(), Fail> {
    let schedule = build(rt.alloc(), OPS, ISSUES)?;
    assert_list(&rt, schedule.ops(), OPS);
    assert_list(&rt, schedule.rows(), &rows_of(rt.alloc(), ISSUES)?);
    Ok(())
}

const SAID: &[(BuildFault, &str)] = &[
    (
        BadRow(3),
        "row 3: an operation that isn't there, or that can't be issued there",
    ),
    (NotOnce(7), "operation 7: not in exactly one slot"),
    (NoMemory, "out of memory"),
];

#[test]
fn says_what_is_wrong(rt: HostRuntime) -> Result<(), Fail> {
    for (fault, text) in SAID {
        assert!(rt; fault.to_string(rt.alloc())?.as_str() == *text, "{fault:?}");
    }
    Ok(())
}

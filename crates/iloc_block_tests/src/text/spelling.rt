use crate::asserted::assert_list;
use iloc_ops::{NoMemory, Op, push_number, push_op};
use std::process::Abort;
use std::test::Fail;

const OUTPUT: Op = Op::Output { addr: 1024 };

const BEFORE: &[u8] = b"before";

const WITH_OPERATION: &[u8] = b"beforeoutput 1024";

const WITH_NUMBER: &[u8] = b"beforeoutput 1024-9223372036854775808";

/// Appends the operation, by a second try where the first is refused, and answers how the first ended.
fn append_op(rt: &impl Abort, text: &mut Vec<u8>) -> Result<Result<(), NoMemory>, NoMemory> {
    let first = push_op(text, &OUTPUT);
    if first.is_err() {
        assert_list(rt, text, BEFORE);
        push_op(text, &OUTPUT)?;
    }
    Ok(first)
}

/// The same with the least number.
fn append_number(rt: &impl Abort, text: &mut Vec<u8>) -> Result<Result<(), NoMemory>, NoMemory> {
    let first = push_number(text, i64::MIN);
    if first.is_err() {
        assert_list(rt, text, WITH_OPERATION);
        push_number(text, i64::MIN)?;
    }
    Ok(first)
}

/// To be run with each growth refused in turn: it ends with the refusal.
#[test]
fn leaves_the_text_as_it_was_where_it_is_refused(rt: HostRuntime) -> Result<(), Fail> {
    let mut text = Vec::from_slice(rt.alloc(), BEFORE)?;
    let first = append_op(&rt, &mut text)?;
    let second = append_number(&rt, &mut text)?;
    assert_list(&rt, &text, WITH_NUMBER);
    Ok(first.and(second)?)
}

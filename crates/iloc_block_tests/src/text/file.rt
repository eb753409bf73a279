use crate::asserted::assert_list;
use iloc_ops::{Block, Blocks, Name, Op, Ops};
use iloc_text::read_file;
use std::test::Fail;

#[test]
fn lends_the_text_of_a_name(rt: HostRuntime) -> Result<(), Fail> {
    for text in [
        "L",
        "exactly_16_bytes",
        "seventeen_bytes_a",
        "a_name_that_is_far_longer_than_most_are",
    ] {
        let copy = Name::from_str(rt.alloc(), text)?;
        let name = Name::new(String::from_str(rt.alloc(), text)?);
        assert!(rt; copy.as_str() == text && name.as_str() == text);
    }
    Ok(())
}

#[test]
fn gives_operations_back(rt: HostRuntime) -> Result<(), Fail> {
    let mut ops = Ops::new(Vec::new(rt.alloc()));
    assert!(rt; ops.is_empty());
    ops.push(Op::Output { addr: 0 })?;
    ops.clear();
    ops.push(Op::Nop)?;
    let block = Block { name: None, ops };
    let mut blocks = Blocks::new(vec![in rt.alloc(); block]?).into_vec();
    let last = blocks.pop().ok_or("no block")?;
    assert_list(&rt, last.ops.as_slice(), &[Op::Nop]);
    Ok(())
}

#[test]
fn adds_to_shared_operations_alone(rt: HostRuntime) -> Result<(), Fail> {
    let file = read_file(rt.alloc(), b"A: nop\nB: nop\nC: nop")?;
    let mut blocks = file.blocks.into_vec();
    let mut last = blocks.pop().ok_or("no block")?;
    last.ops.push(Op::Output { addr: 4 })?;
    assert_list(&rt, last.ops.as_slice(), &[Op::Nop, Op::Output { addr: 4 }]);
    let mut second = blocks.pop().ok_or("one block")?;
    assert_list(&rt, second.ops.as_slice(), &[Op::Nop]);
    second.ops.clear();
    assert!(rt; second.ops.is_empty());
    let first = blocks.pop().ok_or("two blocks")?;
    assert_list(&rt, first.ops.as_slice(), &[Op::Nop]);
    Ok(())
}

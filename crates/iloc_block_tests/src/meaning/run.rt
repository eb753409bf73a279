use crate::asserted::assert_list;
use iloc_meaning::{Memory, Outcome, run_block};
use iloc_ops::{Block, NoMemory, Op, Ops, Reg};
use std::alloc::Global;
use std::test::Fail;

/// What comes of `ops` on zero memory.
fn outcome_of(alloc: Global, ops: &[Op]) -> Result<Outcome, NoMemory> {
    let block = Block {
        name: None,
        ops: Ops::new(Vec::from_slice(alloc, ops)?),
    };
    run_block(alloc, &block, Memory::zero(alloc)?)
}

const ZERO: Reg = Reg(0);

const ONE: Reg = Reg(1);

const EIGHT: Op = Op::LoadI {
    value: 8,
    dest: Reg(8),
};

/// The pattern of -4.
const BACK: u32 = 4_294_967_292;

/// Puts a register's value at 0.
const PUT: Op = Op::Store {
    value: ONE,
    addr: ZERO,
};

const SHOW: Op = Op::Output { addr: 0 };

const MINUS_FOUR: Op = Op::LoadI {
    value: BACK,
    dest: ONE,
};

const FOUR_LESS: Op = Op::AddI {
    left: Reg(8),
    value: BACK,
    dest: ONE,
};

const PUT_BEFORE: Op = Op::StoreAI {
    value: Reg(8),
    addr: Reg(8),
    offset: BACK,
};

const GET_BEFORE: Op = Op::LoadAI {
    addr: Reg(8),
    offset: BACK,
    dest: ONE,
};

const SHOW_BEFORE: Op = Op::Output { addr: 4 };

const SHOW_BACK: Op = Op::Output { addr: BACK };

/// Operations with constants that no text has, since they are above 2147483647, and what they emit, if they don't fault.
const CASES: &[(&[Op], Option<&[i32]>)] = &[
    (&[MINUS_FOUR, PUT, SHOW], Some(&[-4])),
    (&[EIGHT, FOUR_LESS, PUT, SHOW], Some(&[4])),
    (
        &[EIGHT, PUT_BEFORE, SHOW_BEFORE, GET_BEFORE, PUT, SHOW],
        Some(&[8, 8]),
    ),
    (&[SHOW, SHOW_BACK], None),
];

#[test]
fn takes_constants_for_their_patterns(rt: HostRuntime) -> Result<(), Fail> {
    for (ops, expected) in CASES {
        let outcome = outcome_of(rt.alloc(), ops)?;
        assert!(rt; outcome.outputs() == *expected, "{ops:?}");
    }
    Ok(())
}

#[test]
fn keeps_a_copy_apart(rt: HostRuntime) -> Result<(), Fail> {
    let zero = Memory::zero(rt.alloc())?;
    let mut memory = zero.copy()?;
    memory.set(65_532, -5);
    let words = [memory.get(65_532), memory.get(65_528), zero.get(65_532)];
    assert_list(&rt, &words, &[-5, 0, 0]);
    assert!(rt; memory.word_count() == 16_384);
    Ok(())
}

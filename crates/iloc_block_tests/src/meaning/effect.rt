use iloc_meaning::{Effect, Memory, Registers};
use iloc_ops::{Op, Reg};
use std::test::Fail;

const ADDRESS: Reg = Reg(1);

const LOAD: Op = Op::Load {
    addr: ADDRESS,
    dest: Reg(2),
};

#[test]
fn reads_registers_and_memory(rt: HostRuntime) -> Result<(), Fail> {
    let mut memory = Memory::zero(rt.alloc())?;
    memory.set(8, -5);
    let mut registers = Registers::new(rt.alloc())?;
    registers.set(ADDRESS, 8)?;
    assert!(rt; registers.get(ADDRESS) == 8);
    assert!(rt; Effect::of(&LOAD, &registers, &memory) == Effect::Gives(-5));
    Ok(())
}

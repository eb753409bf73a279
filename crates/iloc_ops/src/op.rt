//! The operations of a basic block (Cooper and Torczon, Engineering a Compiler, appendix on ILOC).

/// A virtual register, by its number: `Reg(3)` is `r3`.
#[derive(Clone, Copy, Debug, Default, PartialEq, Eq, PartialOrd, Ord, Hash)]
pub struct Reg(pub u32);

/// One operation. A constant stands for its 32-bit pattern.
#[derive(Clone, Copy, Debug, PartialEq, Eq, PartialOrd, Ord)]
pub enum Op {
    /// `load addr => dest`: `dest` becomes the word at the address in `addr`.
    Load { addr: Reg, dest: Reg },
    /// `loadI value => dest`: `dest` becomes the constant.
    LoadI { value: u32, dest: Reg },
    /// `store value => addr`: the word at the address in `addr` becomes `value`.
    Store { value: Reg, addr: Reg },
    /// `add left, right => dest`: `dest` becomes the sum, wrapped to 32 bits.
    Add { left: Reg, right: Reg, dest: Reg },
    /// `sub left, right => dest`: `dest` becomes `left` less `right`, wrapped to 32 bits.
    Sub { left: Reg, right: Reg, dest: Reg },
    /// `mult left, right => dest`: `dest` becomes the product, wrapped to 32 bits.
    Mult { left: Reg, right: Reg, dest: Reg },
    /// `lshift left, right => dest`: `dest` becomes `left` shifted left by `right` modulo 32.
    Lshift { left: Reg, right: Reg, dest: Reg },
    /// `rshift left, right => dest`: `dest` becomes `left` shifted right by `right` modulo 32, the sign kept.
    Rshift { left: Reg, right: Reg, dest: Reg },
    /// `output addr`: the word at the address is emitted.
    Output { addr: u32 },
    /// `nop`: nothing is done.
    Nop,
    /// `addI left, value => dest`: as `add`, with a constant.
    AddI { left: Reg, value: u32, dest: Reg },
    /// `subI left, value => dest`: as `sub`, with a constant.
    SubI { left: Reg, value: u32, dest: Reg },
    /// `multI left, value => dest`: as `mult`, with a constant.
    MultI { left: Reg, value: u32, dest: Reg },
    /// `lshiftI left, value => dest`: as `lshift`, with a constant.
    LshiftI { left: Reg, value: u32, dest: Reg },
    /// `rshiftI left, value => dest`: as `rshift`, with a constant.
    RshiftI { left: Reg, value: u32, dest: Reg },
    /// `loadAI addr, offset => dest`: as `load`, at the sum of `addr` and the constant, wrapped to 32 bits.
    LoadAI { addr: Reg, offset: u32, dest: Reg },
    /// `storeAI value => addr, offset`: as `store`, at the sum of `addr` and the constant, wrapped to 32 bits.
    StoreAI { value: Reg, addr: Reg, offset: u32 },
}

// A block's operations lie in one list, which the size of an operation decides.
const _: () = prove!(size_of::<Op>() == 16);

use crate::asserted::assert_list;
use crate::text::diary::Diary;
use iloc_text::{ReadFault, read_blocks, read_file};
use std::test::Fail;

const MIXED: &[u8] = b"output 0\noutput 4\nlonger: nop\nb:\nc: output 8 // last";

const BAD_AT_ITS_END: &[u8] = b"output 0\nA: output 4\nB: output 8\noutput";

/// How much room a diary has, what it is given, why that is refused, which block it was asked to take last, and what it
/// has written down.
type Case<'a> = (usize, &'a [u8], ReadFault, usize, &'a [u8]);

const CASES: &[Case] = &[
    (0, MIXED, ReadFault::NoMemory, 1, b""),
    (
        1,
        MIXED,
        ReadFault::NoMemory,
        2,
        b"1 -; output 0; output 4\n",
    ),
    (
        2,
        MIXED,
        ReadFault::NoMemory,
        3,
        b"1 -; output 0; output 4\n2 longer; nop\n",
    ),
    (
        3,
        MIXED,
        ReadFault::NoMemory,
        4,
        b"1 -; output 0; output 4\n2 longer; nop\n3 b\n",
    ),
    // What stands before a fault is handed over.
    (
        9,
        BAD_AT_ITS_END,
        ReadFault::BadLine(4),
        2,
        b"1 -; output 0\n2 A; output 4\n",
    ),
];

#[test]
fn hands_nothing_over_behind_a_refusal(rt: HostRuntime) {
    for (room, text, fault, asked, lines) in CASES {
        let mut diary = Diary::new(rt.alloc(), *room);
        assert!(rt; read_blocks(rt.alloc(), text, &mut diary) == Err(*fault));
        assert!(rt; diary.asked == *asked);
        assert_list(&rt, &diary.lines, lines);
    }
}

const LINES: &[u8] = b"1 -; output 0; output 4\n2 longer; nop\n3 b\n4 c; output 8\n";

#[test]
fn hands_each_block_over_once(rt: HostRuntime) -> Result<(), Fail> {
    let mut diary = Diary::new(rt.alloc(), 4);
    read_blocks(rt.alloc(), MIXED, &mut diary)?;
    assert!(rt; diary.asked == 4);
    assert_list(&rt, &diary.lines, LINES);
    Ok(())
}

#[test]
fn reads_blocks_into_a_file(rt: HostRuntime) -> Result<(), Fail> {
    let text = b"// c\r\n\tloadI\t7=>r01//x\r\nL1: nop\nL2:";
    let file = read_file(rt.alloc(), text)?;
    let mut diary = Diary::new(rt.alloc(), 3);
    diary.write_all(file.blocks.as_slice())?;
    assert_list(&rt, &diary.lines, b"-; loadI 7 => r1\nL1; nop\nL2\n");
    Ok(())
}

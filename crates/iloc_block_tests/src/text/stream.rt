use crate::asserted::assert_list;
use crate::text::diary::Diary;
use iloc_text::{read_file_from, read_text_from};
use std::io::{Read, Result as IoResult};
use std::test::Fail;

/// Gives its bytes, at most `at_once` a turn.
#[derive(Drop)]
pub(super) struct Source<'a> {
    bytes: &'a [u8],
    at_once: usize,
}

impl<'a> Read for Source<'a> {
    fn read(&mut self, buf: &mut [u8]) -> IoResult<usize> {
        let room = self.at_once.min(buf.len());
        let count = room.min(self.bytes.len());
        let (taken, left) = self.bytes.split_at(count);
        buf[..count].copy_from_slice(taken);
        self.bytes = left;
        Ok(count)
    }
}

/// Gives `bytes`, at most `at_once` a turn.
pub(super) fn giving(bytes: &[u8], at_once: usize) -> Source<'_> {
    Source { bytes, at_once }
}

const TEXT: &[u8] = b"output 0\noutput 4\n\nlonger: nop\nb:\nc: output 8 // last";

#[test]
fn reads_a_stream_into_a_file(rt: HostRuntime) -> Result<(), Fail> {
    let file = read_file_from(rt.alloc(), &mut giving(TEXT, 7))?;
    let mut diary = Diary::new(rt.alloc(), 4);
    diary.write_all(file.blocks.as_slice())?;
    assert_list(
        &rt,
        &diary.lines,
        b"-; output 0; output 4\nlonger; nop\nb\nc; output 8\n",
    );
    Ok(())
}

#[test]
fn reads_a_text_as_it_comes(rt: HostRuntime) -> Result<(), Fail> {
    let text = read_text_from(rt.alloc(), &mut giving(TEXT, 7))?;
    assert_list(&rt, &text, TEXT);
    Ok(())
}

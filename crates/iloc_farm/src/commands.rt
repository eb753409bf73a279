//! The commands: what each task asks for.
ghost use Rattle.iloc_farm.specs.Commands.{IsReceiptFor, command_of};

use crate::receipt::CommandReceipt;
use iloc_args::{Request, Task};
use iloc_block_commands::{
    CompareLister, CountLister, OptimizeLister, RunLister, ScheduleLister, SimulateLister, linted,
};
use iloc_driver::{
    Commands, Listed, RunFault, Texts, alone, of_file_or_rows, of_rows, shared, shared_or_rows,
};
use iloc_row_commands::{CheckLister, RowsExplainer, RowsTracer};
use iloc_view_commands::{ExplainLister, GraphLister, TraceLister};
use std::alloc::Global;
use std::io::Read;
use std::sync::Wait;
use std::thread::Threads;

/// Those of this program.
pub(crate) struct AllCommands;

impl Commands for AllCommands {
    type Receipt = CommandReceipt;

    ghost command_of = { command_of };

    ghost is_receipt = { IsReceiptFor };

    fn list<H: Threads + Wait + Sync, T: Texts, R: Read>(
        rt: &H,
        alloc: Global,
        texts: &T,
        reader: &mut R,
        request: &Request,
    ) -> Result<(Listed, Option<CommandReceipt>), RunFault> {
        match request.task {
            Task::Run => alone::<RunLister, H, T, R, _>(rt, alloc, texts, reader, request),
            Task::Simulate => alone::<SimulateLister, H, T, R, _>(
                rt, alloc, texts, reader, request,
            ),
            Task::Trace => of_file_or_rows::<TraceLister, RowsTracer, H, T, R, _>(
                rt, alloc, texts, reader, request,
            ),
            Task::Schedule => shared::<ScheduleLister, H, T, R, _>(
                rt, alloc, texts, reader, request,
            ),
            Task::Counts => shared::<CountLister, H, T, R, _>(rt, alloc, texts, reader, request),
            Task::Compare => shared::<CompareLister, H, T, R, _>(rt, alloc, texts, reader, request),
            Task::Optimize => shared::<OptimizeLister, H, T, R, _>(
                rt, alloc, texts, reader, request,
            ),
            Task::Explain => shared_or_rows::<ExplainLister, RowsExplainer, H, T, R, _>(
                rt, alloc, texts, reader, request,
            ),
            Task::Graph => alone::<GraphLister, H, T, R, _>(rt, alloc, texts, reader, request),
            Task::Check => of_rows::<CheckLister, T, R, _>(alloc, texts, reader, request),
            Task::Lint => Ok((linted(alloc, reader)?, None)),
        }
    }
}

//! Laws of traces, as contracts of functions that do nothing.
ghost use Rattle.iloc_trace.specs.Laws.{LawfulSchedulesReadOnTime, TracesEmitTheOutcome};

/// Promise: The words that a trace without a fault emits are the ones of the outcome, in order.
pub fn traces_emit_the_outcome()
    ensures { TracesEmitTheOutcome }
{}

/// Promise: A lawful schedule reads nothing for which a result is under way: no line of its trace says `until`.
pub fn lawful_schedules_read_on_time()
    ensures { LawfulSchedulesReadOnTime }
{}

//! Threads that run routines, one each.
ghost use Rattle.std.specs.Prelude.{◌≡◌, IfOk, map};
ghost use Rattle.std.specs.List.{All, AllZip};

use crate::fault::FarmFault;
use std::alloc::Global;
use std::snapshot::Snapshot;
use std::sync::Wait;
use std::thread;
use std::thread::{Promise, PromisedHandle, Scope, Threads};

/// Something that is run once and gives an output.
pub trait Routine {
    /// What a run gives.
    type Output: Drop;

    // The routine may be run.
    ghost can_run: { Self → Type 0 };

    // A run may give this output.
    ghost run_gives: { Self → Self.Output → Type 0 };

    /// Runs the routine.
    fn run(self) -> Self::Output
        requires { can_run self }
        ensures { run_gives self result };
}

// A thread's promise: its result is what its routine gives.
#[derive(Drop)]
pub struct Gives<T: Routine>(pub Snapshot<T>);

impl<T: Routine> Promise<T::Output> for Gives<T> {
    ghost kept_by = { λ p r. T.run_gives p.0.value r };
}

/// Starts a thread for each routine.
fn start_all<'s, E, T: Routine + Send + Drop + 's>(
    alloc: Global,
    scope: &Scope<'s, E>,
    routines: Vec<T>,
) -> Result<Vec<PromisedHandle<T::Output, Gives<T>>>, FarmFault>
where
    T::Output: Send + 's,
    requires { All T.can_run routines.items }
    ensures { IfOk result (λ handles. map (λ h. h.promise.0.value) handles.items ≡ routines.items) }
{
    let mut handles = Vec::with_capacity(alloc, routines.len())?;
    for routine in routines {
        let promise = Gives(Snapshot::of(&routine));
        let Ok(handle) = scope.spawn_with(
            promise,
            move || -> T::Output
                requires { T.can_run routine }
                ensures { T.run_gives routine result }
            { routine.run() },
        ) else {
            return Err(FarmFault::NoThread);
        };
        handles.push(handle)?;
    }
    Ok(handles)
}

/// Runs the routines, each on a thread of its own: what each gave, in order.
pub fn crew<R: Threads + Wait + Sync, T: Routine + Send + Drop>(
    rt: &R,
    alloc: Global,
    routines: Vec<T>,
) -> Result<Vec<T::Output>, FarmFault>
where
    T::Output: Send,
    requires { All T.can_run routines.items }
    ensures { IfOk result (λ given. AllZip T.run_gives routines.items given.items) }
{
    thread::scope(
        thread::scope_env(),
        rt,
        |scope| -> Result<Vec<T::Output>, FarmFault>
            requires { All T.can_run routines.items }
            ensures { IfOk result (λ given. AllZip T.run_gives routines.items given.items) }
        {
            let handles = start_all(alloc, scope, routines)?;
            Ok(thread::join_promised(rt, handles)?)
        },
    )
}

// A task in this thread beside a closure in another, so that what the task does to what it is lent is known. `join`
// says nothing of a `&mut` that a closure holds; so its closure holds a value of a type parameter.
ghost use Rattle.std.specs.Prelude.{◌≡◌};

use std::thread::{Threads, join};

/// Work that is done once.
pub(crate) trait Task: Drop {
    type Output;

    ghost can_run: { Self → Type 0 };

    ghost gives: { Self → Self.Output → Type 0 };

    fn run(self) -> Self::Output
        requires { can_run self }
        ensures { gives self result };
}

/// Calls `f` in a new thread, or last where none can be made, and runs the task in this one.
pub(crate) fn beside<R: Threads, F: FnOnce() -> A + Send, A: Send, T: Task<Output = B>, B>(
    rt: &R,
    f: F,
    task: T,
) -> (A, B)
    requires { F.pre f × T.can_run task }
    ensures { F.post f result.0 × T.gives task result.1 }
{
    join(
        rt,
        f,
        move || -> B
            requires { T.can_run task }
            ensures { T.gives task result }
        { task.run() },
    )
}

/// Does nothing, but this use of a reference that came back ties it to the one that was lent.
pub(crate) fn take_back<T>(x: &mut T)
    ensures { x.new ≡ x.old }
{}

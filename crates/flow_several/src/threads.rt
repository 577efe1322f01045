//! Threads that ask.

ghost use Rattle.std.specs.Prelude.{◌<◌, ◌≤◌, IfOk};
ghost use Rattle.std.specs.List.{All, AllZip};

use crate::asked::Asking;
use std::alloc::AllocError;
use std::thread;
use std::thread::Threads;

/// The most that are asked at once.
const MOST_AT_ONCE: usize = 64;

/// How many are asked at once: as many as there are processors that the program may use, up to 64.
pub fn at_once<R: Threads>(rt: &R) -> usize
    ensures some { 0 < result }
    ensures most { result ≤ 64 }
{
    match thread::available_parallelism(rt) {
        Ok(count) => count.get().min(MOST_AT_ONCE),
        Err(_) => 1,
    }
}

/// The answers of all these, in their order: each is asked in a thread of its own where one can be made, and all have
/// ended.
pub(crate) fn ask_all<J: Send + Drop, X: Send + Drop, R: Threads + Sync, A: Asking<J, X> + Sync>(
    rt: &R,
    asking: &A,
    all: Vec<J>,
) -> Result<Vec<X>, AllocError>
    requires { All (A.may_ask asking.now) all.items }
    ensures { IfOk result (λ answers. AllZip (A.answers asking.now) all.items answers.items) }
{
    let one = |whom: J| -> X
        requires { A.may_ask asking.now whom }
        ensures { A.answers asking.entry.now whom result }
    { asking.ask(whom) };
    thread::map_vec(rt, all, &one)
}

//! Threads that the caller starts, each by itself.

ghost use Rattle.std.specs.Fork.{AcceptsAt, AcceptsEach, ChangesAt, ChangesEach};
ghost use Rattle.std.specs.Thread.{IsSend, IsSync};

use std::thread::{Threads, join_mut};

/// Calls `f(i, &mut s[i])` at each place, each but the first in a new thread where one can be made.
/// The caller's thread starts all of them, where std's `for_each_mut` lets each start some: Linux
/// may leave a thread that a new one has started on the processor of that one.
#[cycle(starting)]
pub fn in_threads<R: Threads + Sync, T: Send, F: Fn(usize, &mut T) + Sync>(
    rt: &R,
    f: &F,
    s: &mut [T],
)
    requires accepts { AcceptsEach F.Fn f.now s.old }
    ensures { ChangesEach F.Fn f.now s.old s.new }
{
    let Some((last, rest)) = s.split_last_mut() else {
        return;
    };
    if rest.is_empty() {
        at_place(f, 0, last);
    } else {
        last_and_rest(rt, f, rest.len(), last, rest);
    }
}

/// Calls `f` at one place.
fn at_place<T, F: Fn(usize, &mut T)>(f: &F, at: usize, place: &mut T)
    requires { AcceptsAt F.Fn f.now at place.old }
    ensures { ChangesAt F.Fn f.now at place.old place.new }
{
    f(at, place);
}

/// Calls `f` at the last place, `at`, in a new thread, and at the rest.
#[cycle(starting)]
fn last_and_rest<R: Threads + Sync, T: Send, F: Fn(usize, &mut T) + Sync>(
    rt: &R,
    f: &F,
    at: usize,
    last: &mut T,
    rest: &mut [T],
)
    requires last { AcceptsAt F.Fn f.now at last.old }
    requires rest { AcceptsEach F.Fn f.now rest.old }
    ensures last { ChangesAt F.Fn f.now at last.old last.new }
    ensures rest { ChangesEach F.Fn f.now rest.old rest.new }
{
    let mut theirs = ||
        requires { IsSync F.row × IsSend T.row × AcceptsAt F.Fn f.now at last.now }
        ensures { ChangesAt F.Fn f.entry.now at last.entry.now last.exit.now }
    { at_place(f, at, last) };
    let mut ours = ||
        requires { IsSync R.row × IsSync F.row × IsSend T.row × AcceptsEach F.Fn f.now rest.now }
        ensures { ChangesEach F.Fn f.entry.now rest.entry.now rest.exit.now }
    { in_threads(rt, f, rest) };
    join_mut(rt, &mut theirs, &mut ours);
}

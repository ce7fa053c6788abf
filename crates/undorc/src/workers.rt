//! A hint with the number of workers that can be started, after not all workers of a command could
//! be.

use log::info;
use rc_launch::frontend::ToldErrors;
use rc_streams::messages::{HINT, Messages};
use std::sync::{Condvar, Mutex, Wait};
use std::thread;
use std::thread::{Scope, Threads};

/// The most workers that a command has.
const MOST: u8 = 64;

/// What holds the threads that are counted: whether they may end.
#[derive(Drop)]
struct Held {
    is_over: Mutex<bool>,
    changed: Condvar,
}

/// Prints how many workers can be started, if a fault says that not all of a command could be.
pub fn tell_workers<T: Threads + Wait + Sync>(rt: &HostRuntime, threads: &T, told: &ToldErrors) {
    match told.fault() {
        Ok(Some((word, _))) if word == "NoThread" => {
            match startable(threads) {
                1 => info!(Messages(rt); target: HINT, "one worker can be started now (-w 1)"),
                n => info!(Messages(rt); target: HINT, "{n} workers can be started now (-w {n})"),
            }
        }
        _ => {}
    }
}

/// Returns the number of workers that can be started now. The caller is one of them.
fn startable<T: Threads + Wait + Sync>(rt: &T) -> u8 {
    let held = Held {
        is_over: Mutex::new(false),
        changed: Condvar::new(),
    };
    let shared = &held;
    thread::scope(thread::scope_env(), rt, move |scope| -> u8 {
        let count = start_all(scope, rt, shared);
        let mut guard = shared.is_over.lock(rt);
        *guard = true;
        drop(guard);
        shared.changed.notify_all();
        count
    })
}

/// Starts threads that wait until the count is over, and returns their number, with the caller.
fn start_all<'s, E, T: Threads + Wait + Sync>(
    scope: &'s Scope<'s, E>,
    rt: &'s T,
    held: &'s Held,
) -> u8 {
    for count in 1..MOST {
        if scope.spawn(move || await_end(rt, held)).is_err() {
            return count;
        }
    }
    MOST
}

/// Waits until the count is over.
fn await_end<T: Wait>(rt: &T, held: &Held) {
    let guard = held
        .changed
        .wait_while(rt, held.is_over.lock(rt), |is_over| !*is_over);
    drop(guard);
}

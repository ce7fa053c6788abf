//! Messages that report what happens to services, while it happens, as records of a log.

use crate::progress::{Event, line_of};
use crate::task::word_towards;
use log::{Log, log};
use rc_graph::Way;
use rc_streams::messages::MESSAGE;
use std::alloc::Global;

/// Logs an event of a service at a moment, in milliseconds. If memory runs out for the text of
/// `line_of`, the log formats the same text.
pub(crate) fn tell<L: Log>(
    log: &L,
    alloc: Global,
    moment: u64,
    way: Way,
    name: &str,
    event: Event<'_>,
) {
    let level = event.level();
    match line_of(alloc, moment, way, name, event) {
        Ok(line) => {
            log!(log; target: MESSAGE, level, "{line}");
            drop(line);
        }
        Err(_) => {
            let seconds = moment / 1000;
            let rest = moment % 1000;
            let way = word_towards(way);
            log!(log; target: MESSAGE, level, "{seconds:>4}.{rest:03} s  {way} {name}: {event}");
        }
    }
}

//! How far a long search is, on standard error.
use closure::Watcher;
use std::io::Write;
use std::rt::Clock;
use std::time::Instant;

/// Reports, at most once a second, how many states and alerts were found.
#[derive(Drop)]
pub struct Progress<'a, R, E> {
    clock: &'a R,
    err: &'a mut E,
    /// When it last reported; none if it does not report.
    last: Option<Instant>,
}

impl<'a, R: Clock, E: Write> Progress<'a, R, E> {
    /// Reports a search, or nothing.
    ///
    /// Source: project rule.
    pub(crate) fn new(clock: &'a R, err: &'a mut E, is_on: bool) -> Progress<'a, R, E> {
        let last = if is_on {
            match Instant::now(clock) {
                Ok(now) => Some(now),
                Err(_) => None,
            }
        } else {
            None
        };
        Progress { clock, err, last }
    }
}

impl<R: Clock, E: Write> Watcher for Progress<'_, R, E> {
    fn report(&mut self, states: usize, alerts: usize) {
        let Some(last) = self.last else {
            return;
        };
        let Ok(since) = last.elapsed(self.clock) else {
            return;
        };
        if since.as_secs() == 0 {
            return;
        }
        let Ok(now) = Instant::now(self.clock) else {
            return;
        };
        self.last = Some(now);
        let _ = writeln!(
            self.err,
            "execexplore: {states} states so far, {alerts} alerts"
        );
    }
}

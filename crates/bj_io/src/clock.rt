ghost use Rattle.std.specs.Prelude.{◌≡◌};

use crate::Clock;
use std::time::{Clock as SystemClock, Instant};

/// The milliseconds since it was made, by the system's monotonic clock. Where that clock fails, or runs past the range of
/// the answer, the answer stays.
#[derive(Drop)]
pub struct WallClock<R: SystemClock + Drop> {
    system: R,
    start: Option<Instant>,
    last: u64,
}

impl<R: SystemClock + Drop> WallClock<R> {
    /// A clock that begins at 0.
    pub fn new(system: R) -> WallClock<R>
        ensures { result.last ≡ 0 }
    {
        let start = Instant::now(&system).ok();
        WallClock {
            system,
            start,
            last: 0,
        }
    }

    fn elapsed(&self) -> Option<u64> {
        let start = self.start?;
        let elapsed = start.elapsed(&self.system).ok()?;
        u64::try_from(elapsed.as_millis()).ok()
    }
}

impl<R: SystemClock + Drop> Clock for WallClock<R> {
    ghost last = { λ c. c.last };

    fn now(&mut self) -> u64 {
        if let Some(moment) = self.elapsed() {
            self.last = self.last.max(moment);
        }
        self.last
    }
}

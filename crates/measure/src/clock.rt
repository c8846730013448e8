// What each step takes.
use std::io;
use std::time::Instant;

/// A clock that tells, after each step, how long it took; one that is silent tells nothing.
#[derive(Drop)]
pub struct Clock {
    since: Option<Instant>,
}

impl Clock {
    pub fn silent() -> Clock {
        Clock { since: None }
    }

    pub fn started(rt: &HostRuntime) -> io::Result<Clock> {
        let now = Instant::now(rt)?;
        Ok(Clock { since: Some(now) })
    }

    /// Tells the microseconds since the last step, and begins the next one.
    pub fn tell(&mut self, rt: &HostRuntime, step: &str) -> io::Result<()> {
        if let Some(since) = self.since {
            let micros = since.elapsed(rt)?.as_micros();
            println!(rt; "{step} {micros}")?;
            self.since = Some(Instant::now(rt)?);
        }
        Ok(())
    }
}

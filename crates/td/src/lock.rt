//! Waiting for the file of a disk that another process has locked.

use crate::file_cause::is_locked;
use std::fs::File;
use std::rt::Files;
use std::sync::Wait;
use std::thread::Parker;
use std::time::Duration;
use td_disk::MakeError;

/// How many milliseconds pass before a lock is asked for again, and how often that is in a second.
const PAUSE: u64 = 100;

const TURNS: u64 = 10;

/// What `make` makes of the file at `path`. Where another process has locked it, that is asked for again and again, for `wait` seconds at
/// most. std has no call that waits so long for a lock and no longer.
pub(crate) fn opened<T: Drop, R: Files<File = File> + Wait, F: Fn() -> Result<T, MakeError>>(
    rt: &R,
    path: &str,
    wait: u32,
    make: F,
) -> Result<T, MakeError>
    requires { F.IsAlwaysCallable make }
{
    let parker = Parker::new();
    for _ in 0..u64::from(wait) * TURNS {
        match make() {
            Err(MakeError::File) if is_locked(rt, path) => {
                parker.park_timeout(rt, Duration::from_millis(PAUSE));
            }
            // (the lock may have been let go since)
            Err(MakeError::File) => return make(),
            answer => return answer,
        }
    }
    make()
}

//! How much a command that goes through a tree may come to.

use crate::failure::{Failure, report_about};
use clap::ArgMatches;
use p9_client::LISTING_MAX;

/// The limits of a command that goes through a tree.
#[derive(Clone, Copy)]
pub struct Limits {
    /// How many directories one in another.
    pub depth: usize,
    /// How many files and directories.
    pub files: usize,
    /// How many bytes of files.
    pub bytes: usize,
}

/// The limits where none is given, which no honest tree meets.
pub const LIMITS: Limits = Limits {
    depth: 64,
    files: 10_000_000,
    bytes: 1 << 40,
};

// More bytes than an honest server reports of a file in a listing.
const STAT_BYTES: usize = 2048;

// A listing may have so many bytes whatever the limits are.
const LISTING_MIN: usize = 1 << 20;

impl Limits {
    /// The limits that words give.
    pub fn of(words: &ArgMatches<'_>) -> Limits {
        Limits {
            depth: words.get_one::<usize>("max-depth").unwrap_or(LIMITS.depth),
            files: words.get_one::<usize>("max-files").unwrap_or(LIMITS.files),
            bytes: words.get_one::<usize>("max-bytes").unwrap_or(LIMITS.bytes),
        }
    }
}

/// How much a command still may come to.
#[derive(Clone, Copy)]
pub struct Left {
    limits: Limits,
    files: usize,
    bytes: usize,
}

impl Left {
    /// All of the limits is left.
    pub fn all(limits: Limits) -> Left {
        Left {
            limits,
            files: limits.files,
            bytes: limits.bytes,
        }
    }

    /// Counts a file or directory of a path, in so many directories. The error is that a limit is met,
    /// which is reported.
    pub fn count(&mut self, rt: &HostRuntime, path: &str, depth: usize) -> Result<(), Failure> {
        let Limits {
            depth: most,
            files,
            ..
        } = self.limits;
        if depth > most {
            return Err(met(rt, path, "directories one in another (--max-depth)", most));
        }
        let Some(left) = self.files.checked_sub(1) else {
            return Err(met(rt, path, "files and directories (--max-files)", files));
        };
        self.files = left;
        Ok(())
    }

    /// How many bytes the listing of a directory may have.
    pub fn listing(&self) -> u32 {
        let most = self.files.saturating_mul(STAT_BYTES).max(LISTING_MIN);
        u32::try_from(most).unwrap_or(LISTING_MAX).min(LISTING_MAX)
    }

    /// How many bytes are left.
    pub fn bytes(&self) -> usize {
        self.bytes
    }

    /// Counts bytes of a file of a path. The error is that a limit is met, which is reported.
    pub fn take_bytes(&mut self, rt: &HostRuntime, path: &str, count: u64) -> Result<(), Failure> {
        let left = usize::try_from(count)
            .ok()
            .and_then(|count| self.bytes.checked_sub(count));
        let Some(left) = left else {
            let most = self.limits.bytes;
            return Err(met(rt, path, "bytes (--max-bytes)", most));
        };
        self.bytes = left;
        Ok(())
    }
}

// Reports that there is more than a limit.
fn met(rt: &HostRuntime, path: &str, what: &'static str, most: usize) -> Failure {
    match format!(in rt.alloc(); "more than {most} {what}") {
        Ok(text) => report_about(rt, path, &text.as_str(), Failure::Limit),
        Err(_) => Failure::NoMemory,
    }
}

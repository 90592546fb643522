//! How much of a long input was read.

use crate::excerpt::Style;
use std::alloc::AllocError;
use std::cell::Cell;
use std::fmt::Write;
use std::io;
use std::io::Read;
use std::time::Instant;

// The number of bytes between two reports.
const STEP: u64 = 1 << 24;

// Bytes in a MiB, as a power of two.
const MIB: u32 = 20;

// Line wrapping is off while a report is written, so that it takes one line of a narrow terminal.
const WRAP_OFF: &str = "\x1b[?7l";

const WRAP_ON: &str = "\x1b[?7h";

// Erases the rest of the line.
const ERASE: &str = "\x1b[K";

/// Shows on a terminal how much was read of a file, and how fast.
#[derive(Drop)]
pub struct Meter<'a> {
    rt: &'a HostRuntime,
    shows: bool,

    // Whether a report is on the line of the cursor.
    is_shown: &'a Cell<bool>,

    // The file, its length if it is known, and when it was opened.
    name: &'a str,
    len: Option<u64>,
    start: Option<Instant>,

    // The bytes that were read of it, and how many there will be at the next report.
    read: u64,
    next: u64,
}

impl<'a> Meter<'a> {
    /// It shows reports on standard error, or nothing.
    pub fn new(rt: &'a HostRuntime, shows: bool, is_shown: &'a Cell<bool>) -> Meter<'a> {
        Meter {
            rt,
            shows,
            is_shown,
            name: "",
            len: None,
            start: None,
            read: 0,
            next: STEP,
        }
    }

    /// Begins a file.
    pub fn begin(&mut self, name: &'a str, len: Option<u64>) {
        if self.shows {
            self.start = Instant::now(self.rt).ok();
        }
        self.name = name;
        self.len = len;
        self.read = 0;
        self.next = STEP;
    }

    // `NAME: 144 of 605 MiB, 52 MB/s`, without what is not known. It is one text, so that it is written at once.
    fn report(&self) -> Result<String, AllocError> {
        let mut report = String::new(self.rt.alloc());
        report.push_str(WRAP_OFF)?;
        for c in self.name.chars() {
            Style::Clean.append_char(c, &mut report)?;
        }
        write!(report, ": {}", self.read >> MIB).map_err(|_| AllocError)?;
        if let Some(len) = self.len {
            write!(report, " of {}", len >> MIB).map_err(|_| AllocError)?;
        }
        report.push_str(" MiB")?;
        // 1,000 bytes per millisecond are 1 MB/s, which is meant here: 1,000,000 bytes per second.
        let elapsed = self.start.and_then(|start| start.elapsed(self.rt).ok());
        if let Some(elapsed) = elapsed
            && let Ok(millis) = u64::try_from(elapsed.as_millis())
            && let Some(speed) = (self.read / 1000).checked_div(millis)
        {
            write!(report, ", {speed} MB/s").map_err(|_| AllocError)?;
        }
        report.push_str(ERASE)?;
        report.push_str(WRAP_ON)?;
        report.push('\r')?;
        Ok(report)
    }

    // The next output overwrites the report.
    fn count(&mut self, count: usize) {
        self.read = self.read.saturating_add(count as u64);
        if self.shows && self.read >= self.next {
            self.next = self.read.saturating_add(STEP);
            if let Ok(report) = self.report() {
                let _ = eprint!(self.rt; "{report}");
                self.is_shown.set(true);
            }
        }
    }

    /// Removes the report from the screen.
    pub fn clear(&self) {
        if self.is_shown.replace(false) {
            let _ = eprint!(self.rt; "{ERASE}");
        }
    }
}

/// A reader of which a meter shows how much was read.
#[derive(Drop)]
pub struct Metered<'m, 'a, R> {
    pub reader: R,
    pub meter: &'m mut Meter<'a>,
}

impl<R: Read> Read for Metered<'_, '_, R> {
    ghost remaining = { λ p. R.remaining p.reader };

    fn read(&mut self, buf: &mut [u8]) -> io::Result<usize> {
        let count = self.reader.read(buf)?;
        self.meter.count(count);
        Ok(count)
    }
}

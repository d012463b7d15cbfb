//! Runs that end at the first report.

ghost use Rattle.std.specs.Prelude.{◌≡◌};
ghost use Rattle.script_lines.specs.Strictness.{is_over, looked, noted, status_after, watch_of};

use std::cell::Cell;
use std::io::{self, BufRead, Error, ErrorKind, Read, Write};

/// The exit status of a run that ended at the first report.
const REPORTED: u8 = 1;

/// Whether a run ends once something is reported while its script is read, and how far it is. [`WatchedErrors`] notes what is reported,
/// and [`WatchedInput`] ends the script.
#[derive(Clone, Copy)]
pub enum Watch {
    /// It doesn't end so.
    Off,
    /// Nothing has been reported yet.
    Silent,
    /// Something has been reported.
    Reported,
    /// The next line was to be read after that, which ended the run.
    Over,
}

impl Watch {
    /// At the beginning of a run.
    pub fn of(is_strict: bool) -> Watch
        ensures { result ≡ watch_of is_strict }
    {
        if is_strict {
            return Watch::Silent;
        }
        Watch::Off
    }

    /// Once something is reported.
    fn noted(self) -> Watch
        ensures { result ≡ noted self }
    {
        match self {
            Watch::Silent => Watch::Reported,
            Watch::Off | Watch::Reported | Watch::Over => self,
        }
    }

    /// Once more is to be read.
    fn looked(self) -> Watch
        ensures { result ≡ looked self }
    {
        match self {
            Watch::Reported => Watch::Over,
            Watch::Off | Watch::Silent | Watch::Over => self,
        }
    }

    /// Whether nothing is read any more.
    fn is_over(self) -> bool
        ensures { result ≡ is_over self }
    {
        match self {
            Watch::Over => true,
            Watch::Off | Watch::Silent | Watch::Reported => false,
        }
    }

    /// The exit status of a run that is left so by a program with this status.
    pub fn status_after(self, status: u8) -> u8
        ensures { result ≡ status_after self status }
    {
        match self {
            Watch::Over => REPORTED,
            Watch::Off | Watch::Silent | Watch::Reported => status,
        }
    }
}

/// An output for reports, whose writes are noted.
#[derive(Drop)]
pub struct WatchedErrors<'a, E> {
    pub errors: E,
    pub watch: &'a Cell<Watch>,
}

impl<'a, E: Write> Write for WatchedErrors<'a, E> {
    ghost contents = { λ self. E.contents self.errors };

    fn write(&mut self, bytes: &[u8]) -> io::Result<usize> {
        self.watch.set(self.watch.get().noted());
        self.errors.write(bytes)
    }

    fn flush(&mut self) -> io::Result<()> {
        self.errors.flush()
    }

    fn write_all(&mut self, bytes: &[u8]) -> io::Result<()> {
        self.watch.set(self.watch.get().noted());
        self.errors.write_all(bytes)
    }
}

/// An input that gives an error once the run is over.
#[derive(Drop)]
pub struct WatchedInput<'a, R> {
    pub input: R,
    pub watch: &'a Cell<Watch>,
}

impl<'a, R> WatchedInput<'a, R> {
    /// Notes that more is to be read, and returns whether the run is over.
    fn is_over(&self) -> bool {
        let watch = self.watch.get().looked();
        self.watch.set(watch);
        watch.is_over()
    }
}

impl<'a, R: BufRead> Read for WatchedInput<'a, R> {
    ghost remaining = { λ self. R.remaining self.input };

    fn read(&mut self, bytes: &mut [u8]) -> io::Result<usize> {
        if self.is_over() {
            return Err(over());
        }
        self.input.read(bytes)
    }
}

impl<'a, R: BufRead> BufRead for WatchedInput<'a, R> {
    ghost consumable_len = { λ self. R.consumable_len self.input };

    fn fill_buf(&mut self) -> io::Result<&[u8]> {
        if self.is_over() {
            return Err(over());
        }
        self.input.fill_buf()
    }

    fn consume(&mut self, amount: usize) {
        self.input.consume(amount)
    }
}

/// The error of an input of which nothing more is read.
fn over() -> Error {
    Error::from(ErrorKind::Other)
}

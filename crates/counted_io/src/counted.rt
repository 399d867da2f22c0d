//! A reader or writer whose failures are counted.
ghost use Rattle.std.specs.Prelude.{◌≡◌, if◌then◌else◌, is_err};
ghost use Rattle.std.specs.Io.{ReadsAtMost, WritesAtMost};
ghost use Rattle.std.specs.Io.KnownBytes.{Keeps, ReadConsumes, WriteAppends};
ghost use Rattle.counted_io.specs.Failures.{breaks_read, breaks_write, is_failed_write, is_lasting, one_more, one_more_if, row_after};

use std::io::{Error, ErrorKind, Read, Result, Write};
use std::marker::Model;

/// A reader or a writer, with the number of its failures, of its breaks, and of the last interruptions in a row. In contracts these
/// are `inner`, `failures`, `breaks` and `in_row`.
///
/// A failure is an error of `read` or `write` of any kind, including an interruption, or a `write` of one byte or more that takes
/// nothing. A failure other than an interruption is a break; retrying doesn't help. Clauses relate the counts to what this type's
/// `read` and `write` return. That these pass on what the inner ones return is only tested.
#[derive(Debug, Drop)]
pub struct Counted<T> {
    inner: T,
    failures: u64,
    breaks: u64,
    in_row: u64,
}

/// Returns whether an error isn't an interruption.
pub(crate) fn lasts(e: &Error) -> bool
    ensures { result ≡ is_lasting e.now }
{
    e.kind() != ErrorKind::Interrupted
}

impl<T> Model for Counted<T> {
    ghost use Rattle.counted_io.specs.Tally.{Tally};

    ghost Value = { Tally T };

    ghost view = { λ c. record { inner = c.inner; failures = c.failures; breaks = c.breaks; in_row = c.in_row } };
}

impl<T> Counted<T> {
    /// Wraps `inner`, with no failure so far.
    pub fn new(inner: T) -> Self
        ensures inner { result.inner ≡ inner }
        ensures none { result.failures ≡ 0 }
        ensures whole { result.breaks ≡ 0 }
        ensures row { result.in_row ≡ 0 }
    {
        Counted {
            inner,
            failures: 0,
            breaks: 0,
            in_row: 0,
        }
    }

    /// Returns the number of failures so far. At `u64::MAX` the count stays, and clauses treat it as grown.
    pub fn failures(&self) -> u64
        ensures { result ≡ self.now.failures }
    {
        self.failures
    }

    /// Returns the number of failures so far, without interruptions. At `u64::MAX` the count stays.
    pub fn breaks(&self) -> u64
        ensures { result ≡ self.now.breaks }
    {
        self.breaks
    }

    fn count_one(&mut self, lasts: bool)
        ensures inner { self.new.inner ≡ self.old.inner }
        ensures count { self.new.failures ≡ one_more self.old.failures }
        ensures breaks { self.new.breaks ≡ one_more_if lasts self.old.breaks }
        ensures row { self.new.in_row ≡ (if lasts then 0 else one_more self.old.in_row) }
    {
        if lasts {
            self.breaks = self.breaks.saturating_add(1);
            self.in_row = 0;
        } else {
            self.in_row = self.in_row.saturating_add(1);
        }
        if self.failures < u64::MAX {
            self.failures += 1;
        }
    }
}

impl<R: Read> Read for Counted<R> {
    ghost remaining = { λ c. R.remaining c.inner };

    fn read(&mut self, buf: &mut [u8]) -> Result<usize>
        ensures bound { ReadsAtMost result buf.new }
        ensures bytes { ReadConsumes (R.remaining self.old.inner) (R.remaining self.new.inner) result buf.new }
        ensures count { self.new.failures ≡ (if is_err result then one_more self.old.failures else self.old.failures) }
        ensures breaks { self.new.breaks ≡ one_more_if (breaks_read result) self.old.breaks }
        ensures row { self.new.in_row ≡ row_after result self.old.in_row }
    {
        let answer = self.inner.read(buf);
        match &answer {
            Ok(_) => self.in_row = 0,
            Err(e) => self.count_one(lasts(e)),
        }
        answer
    }
}

impl<W: Write> Write for Counted<W> {
    ghost contents = { λ c. W.contents c.inner };

    fn write(&mut self, buf: &[u8]) -> Result<usize>
        ensures bound { WritesAtMost result buf.now }
        ensures bytes { WriteAppends (W.contents self.old.inner) (W.contents self.new.inner) result buf.now }
        ensures count { self.new.failures
            ≡ (if is_failed_write result buf.now then one_more self.old.failures else self.old.failures) }
        ensures breaks { self.new.breaks ≡ one_more_if (breaks_write result buf.now) self.old.breaks }
        ensures row { self.new.in_row ≡ row_after result self.old.in_row }
    {
        let answer = self.inner.write(buf);
        match &answer {
            Ok(taken) => {
                self.in_row = 0;
                if *taken == 0 && !buf.is_empty() {
                    self.count_one(true);
                }
            }
            Err(e) => self.count_one(lasts(e)),
        }
        answer
    }

    /// Flushes the inner writer. This isn't counted, since it is neither a read nor a write.
    fn flush(&mut self) -> Result<()>
        ensures bytes { Keeps (W.contents self.old.inner) (W.contents self.new.inner) }
        ensures count { self.new.failures ≡ self.old.failures }
        ensures breaks { self.new.breaks ≡ self.old.breaks }
        ensures row { self.new.in_row ≡ self.old.in_row }
    {
        self.inner.flush()
    }
}

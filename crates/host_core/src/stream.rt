//! What `serve` reads from and writes to.
//!
//! Contracts require that fewer than 2^64 - 1 calls have failed before: `Counted` counts them in 64 bits.

ghost use Rattle.std.specs.Prelude.{◌≡◌, ℕ, ◌+◌, ◌-◌, ◌<◌, ◌^◌, Bool, true, List, None, Option, OnOk};
ghost use Rattle.std.specs.Io.{ReadsAtMost, WritesAtMost};
ghost use Rattle.std.specs.Io.KnownBytes.{Keeps, ReadConsumes, WriteAppends};
ghost use Rattle.host_core.specs.Stream.{read_failures, write_failures, flush_failures};

use std::io::{self, Read, Write};

/// A reader of frames. Contracts see the bytes that come, if they are known, and how many calls failed.
pub trait Source {
    // The bytes that are still to be read, if they are known; by default they are not (`None`).
    ghost remaining: { Self → Option (List ℕ) } = { λ _. None };

    // How many calls failed so far.
    ghost failures: { Self → ℕ };

    /// Reads bytes into the front of `buffer` and returns how many, at most its length (`bound`). It returns 0 only at the end of the
    /// input, or if `buffer` is empty. A call that returns an error takes no bytes, and adds 1 to the failed calls (`failures`). If the
    /// bytes that are still to be read are known, the bytes read were the first of them (`bytes`). Fewer than 2^64 - 1 calls have failed
    /// before, so the count fits in 64 bits.
    fn read(&mut self, buffer: &mut [u8]) -> io::Result<usize>
        requires { failures self.old < 2 ^ 64 - 1 }
        ensures bound { ReadsAtMost result buffer.new }
        ensures bytes { ReadConsumes (remaining self.old) (remaining self.new) result buffer.new }
        ensures failures { failures self.new ≡ failures self.old + read_failures result };
}

/// A writer of replies. Contracts see the bytes that were written, if they are known, whether they are flushed, and how many
/// calls failed; a write that takes no byte, although it is given some, counts as failed.
pub trait Sink {
    // The bytes written so far, if they are known; by default they are not (`None`).
    ghost contents: { Self → Option (List ℕ) } = { λ _. None };

    // Whether all that was written is flushed.
    ghost is_flushed: { Self → Bool };

    // How many calls failed so far.
    ghost failures: { Self → ℕ };

    /// Writes bytes from the front of `bytes`, and returns how many, at most all (`bound`). `contents` has the bytes written so far, if
    /// contracts know them, as those of a vector, and else is `None`. If it has them, those of this call are appended to them; a call that
    /// returns an error writes none (`bytes`). The call counts as failed if it returns an error, or 0 although `bytes` is not empty
    /// (`failures`). Fewer than 2^64 - 1 calls have failed before, so that `Counted`, which wraps a writer, can count them in 64 bits.
    fn write(&mut self, bytes: &[u8]) -> io::Result<usize>
        requires { failures self.old < 2 ^ 64 - 1 }
        ensures bound { WritesAtMost result bytes.now }
        ensures bytes { WriteAppends (contents self.old) (contents self.new) result bytes.now }
        ensures failures { failures self.new
            ≡ failures self.old + write_failures result bytes.now };

    /// Flushes what was written; no bytes are added (`bytes`). If the call succeeds, everything is flushed (`flushed`). If it fails,
    /// contracts do not say whether everything is flushed, and the number of failed calls increases by 1 (`failures`). So that this number
    /// fits in 64 bits, it is required to be below 2^64 - 1 before.
    fn flush(&mut self) -> io::Result<()>
        requires { failures self.old < 2 ^ 64 - 1 }
        ensures bytes { Keeps (contents self.old) (contents self.new) }
        ensures flushed { OnOk result (is_flushed self.new ≡ true) }
        ensures failures { failures self.new ≡ failures self.old + flush_failures result };
}

/// A reader or a writer of std, with a count of its calls that failed.
#[derive(Drop)]
pub struct Counted<T> {
    inner: T,
    failures: u64,
    /// Of a writer: true at first and after each flush that succeeds, false from the next write on. Of a reader it has no meaning.
    is_flushed: bool,
}

impl<T> Counted<T> {
    /// Wraps `inner`, a reader or a writer of std. The count of failed calls begins at 0 (`failures`). A writer counts as flushed at first
    /// (`flushed`); bytes that were written to it before are not flushed here. `serve` promises flushed replies at its end only for a
    /// writer that counts as flushed at the call, as a new one does. Of a reader, `is_flushed` means nothing.
    pub fn new(inner: T) -> Counted<T>
        ensures inner { result.inner ≡ inner }
        ensures failures { result.failures ≡ 0 }
        ensures flushed { result.is_flushed ≡ true }
    {
        Counted {
            inner,
            failures: 0,
            is_flushed: true,
        }
    }

    /// How many calls of the reader or the writer failed since `new` wrapped it: each read, write or flush that returned an error, and each
    /// write that took no byte although it was given some. The tests with failing readers and writers (`failing_io`) compare this number.
    pub fn failures(&self) -> u64
        ensures { result ≡ self.now.failures }
    {
        self.failures
    }

    /// Returns the wrapped reader or writer; the count of failed calls is lost. The tests call it to see what was written.
    pub fn into_inner(self) -> T
        ensures { result ≡ self.inner }
    {
        let Counted {
            inner,
            failures: _,
            is_flushed: _,
        } = self;
        inner
    }
}

impl<R: Read> Source for Counted<R> {
    ghost remaining = { λ c. R.Read.remaining c.inner };

    ghost failures = { λ c. c.failures };

    /// Reads bytes from the wrapped reader of std (`inner`) into the front of `buffer`. Returns how many, or the reader's error, which adds
    /// 1 to `failures`. By this count the contract of `serve` says whether a call failed. The sum does not overflow, since the trait
    /// `Source` requires that fewer than 2^64 - 1 calls have failed before.
    fn read(&mut self, buffer: &mut [u8]) -> io::Result<usize> {
        let outcome = self.inner.read(buffer);
        if outcome.is_err() {
            self.failures += 1;
        }
        outcome
    }
}

impl<W: Write> Sink for Counted<W> {
    ghost contents = { λ c. W.Write.contents c.inner };

    ghost is_flushed = { λ c. c.is_flushed };

    ghost failures = { λ c. c.failures };

    /// Writes to the writer of std and returns its outcome. The call counts as failed if the outcome is an error, or 0 although `bytes` is
    /// not empty: after either, `write_whole` writes no more and fails. The count does not overflow, since the trait `Sink` requires that
    /// fewer than 2^64 - 1 calls have failed before. Each call, a failed one too, clears `is_flushed`, which only contracts read. A flush
    /// that succeeds sets it again, since the writer of std may keep bytes in a buffer until then.
    fn write(&mut self, bytes: &[u8]) -> io::Result<usize> {
        self.is_flushed = false;
        let outcome = self.inner.write(bytes);
        match outcome {
            Ok(0) if !bytes.is_empty() => self.failures += 1,
            Ok(_) => {}
            Err(_) => self.failures += 1,
        }
        outcome
    }

    /// Flushes the writer of std and returns its outcome. After a success the output counts as flushed (`is_flushed`). Only contracts read
    /// this: by it `serve` promises flushed replies, unless a call of the writer failed. An error counts as a failed call. The count does
    /// not overflow, since the trait `Sink` requires that fewer than 2^64 - 1 calls have failed before.
    fn flush(&mut self) -> io::Result<()> {
        let outcome = self.inner.flush();
        match outcome {
            Ok(()) => self.is_flushed = true,
            Err(_) => self.failures += 1,
        }
        outcome
    }
}

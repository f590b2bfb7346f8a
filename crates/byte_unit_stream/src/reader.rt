//! A reader that records a failure.

ghost use Rattle.std.specs.Prelude.{◌≡◌, ◌+◌, ◌-◌, ◌^◌, ◌≤◌, ◌<◌, ◌↔◌, false, take, length};
ghost use Rattle.std.specs.Prelude.{IsTrue, IsNone, IfNone, IfSome, OnSome};
ghost use Rattle.byte_unit_stream.specs.Streams.{HasRead, HasReadAll, HasReadNothing};
ghost use Rattle.byte_unit_stream.specs.Streams.{reader_of, reading_failed, reads_left};

use std::io::Read;

/// A reader that records whether a read has failed. After a failure it does not call the reader again.
///
/// It also counts its reads. The bound of 2^64 - 1 on that count is what proves that a loop of reads ends.
///
/// # Examples
/// ```rust
/// use byte_unit_stream::Reading;
/// use byte_unit_stream::paced::{MemoryReader, Pace, Then};
/// let inner = MemoryReader { rest: b"1 KiB\n", pace: Pace::new(4, 1, Then::Fail) };
/// let mut reader = Reading::new(inner);
/// let mut buffer = [0; 16];
/// assert_eq!(rt; reader.read(&mut buffer), Some(4));
/// assert_eq!(rt; (reader.read(&mut buffer), reader.failed()), (None, true));
/// assert_eq!(rt; reader.into_inner().rest, b"B\n".as_slice());
/// ```
#[derive(Drop)]
pub struct Reading<R> {
    /// The reader.
    inner: R,
    /// Whether a read has returned `None`.
    failed: bool,
    /// The number of calls of the reader.
    count: u64,
}

impl<R: Read> Reading<R> {
    /// Creates a `Reading` over a reader, with no read made and no failure recorded.
    pub fn new(inner: R) -> Reading<R>
        ensures inner { reader_of result ≡ inner }
        ensures failed { reading_failed result ≡ false }
        ensures left { reads_left result ≡ 2 ^ 64 - 1 }
    {
        Reading {
            inner,
            failed: false,
            count: 0,
        }
    }

    /// Returns `true` if a read has returned `None`.
    pub fn failed(&self) -> bool
        ensures { result ≡ reading_failed self.now }
    {
        self.failed
    }

    /// Returns the reader inside, with the bytes that it has left.
    pub fn into_inner(self) -> R
        ensures { result ≡ reader_of self }
    {
        let Reading {
            inner,
            failed: _,
            count: _,
        } = self;
        inner
    }

    /// Reads once into the beginning of `buf`, and returns the number of bytes read. If `buf` is not empty, 0 means
    /// the end of the input.
    ///
    /// Returns `None` if the reader returns an error of any kind. After that, and after 2^64 - 1 reads, returns `None`
    /// without calling the reader. Each other call counts as a read, also if it returns `None`.
    ///
    /// No contract of std says when a reader returns an error: that `None` is returned for no other reason is tested,
    /// not proved.
    pub fn read(&mut self, buf: &mut [u8]) -> Option<usize>
        ensures bound { IfSome result (λ n. n ≤ length buf.new) }
        ensures came { IfSome result (λ n. HasRead R.remaining self.old self.new (take n buf.new)) }
        ensures end { IfSome result
            (λ n. n ≡ 0 → 0 < length buf.new → HasReadAll R.remaining self.new) }
        ensures none { IfNone result (HasReadNothing R.remaining self.old self.new) }
        ensures failed { IsTrue (reading_failed self.new) ↔ IsNone result }
        ensures stays { IsTrue (reading_failed self.old)
            → IsNone result × (reader_of self.new ≡ reader_of self.old) }
        ensures spent { reads_left self.old ≡ 0
            → IsNone result × (reader_of self.new ≡ reader_of self.old) }
        ensures counted { OnSome result (reads_left self.new + 1 ≡ reads_left self.old) }
        ensures called { reading_failed self.old ≡ false → 0 < reads_left self.old
            → reads_left self.new + 1 ≡ reads_left self.old }
    {
        if self.failed || self.count == u64::MAX {
            // `failed` is not set yet if the number of reads has just reached its bound.
            self.failed = true;
            return None;
        }
        self.count += 1;
        match self.inner.read(buf) {
            Ok(n) => Some(n),
            Err(_) => {
                self.failed = true;
                None
            }
        }
    }
}

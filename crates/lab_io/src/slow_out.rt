//! A writer to a lent slice that moves few bytes per call and fails after a number of them.
ghost use Rattle.std.specs.Prelude.{◌≡◌, ◌≤◌, ◌-◌, ◌↔◌, ◌++◌, [], Some, min, length, take, drop, IfOk, IsErr, IsOk, OnErr};
ghost use Rattle.std.specs.Io.{WritesAtMost};
ghost use Rattle.std.specs.Io.KnownBytes.{WriteAppends, Keeps};

use std::io;
use std::io::{ErrorKind, Write};
use std::marker::Model;

/// A writer to the front of a slice, for tests: it moves few bytes in a call, and fails after a number of them. What
/// stands in the slice after the bytes written stays as it was.
#[derive(Debug, Drop)]
pub struct SlowOut<'a> {
    bytes: &'a mut [u8],
    written: usize,
    per_call: usize,
    before_failure: usize,
}

impl<'a> Model for SlowOut<'a> {
    ghost use Rattle.std.specs.Prelude.{◌≤◌, length, take, drop};
    ghost use Rattle.lab_io.specs.Slow.{SlowWriter};

    ghost Value = { SlowWriter };

    ghost view = { λ s. record {
      written = take s.written s.bytes.now;
      rest = drop s.written s.bytes.now;
      per_call = s.per_call;
      before_failure = s.before_failure;
    } };

    ghost invariant = { λ s. (1 ≤ s.per_call) × (s.written ≤ length s.bytes.now) };
}

impl<'a> SlowOut<'a> {
    /// A writer to the front of `bytes` that moves at most `per_call` of them in a call and `before_failure` in all,
    /// and fails at each call after that.
    pub fn new(bytes: &'a mut [u8], per_call: usize, before_failure: usize) -> SlowOut<'a>
        requires moves { 1 ≤ per_call }
        ensures start { result
            ≡ record {
              written = [];
              rest = bytes.old;
              per_call = per_call;
              before_failure = before_failure;
            } }
    {
        SlowOut {
            bytes,
            written: 0,
            per_call,
            before_failure,
        }
    }
}

impl Write for SlowOut<'_> {
    ghost contents = { λ s. Some s.written };

    fn write(&mut self, buf: &[u8]) -> io::Result<usize>
        ensures bound { WritesAtMost result buf.now }
        ensures bytes { WriteAppends (Some self.old.written) (Some self.new.written)
            result buf.now }
        ensures fails { IsErr result ↔ (self.old.before_failure ≡ 0) }
        ensures count { IfOk result
            (λ n. n
            ≡ min (min (length buf.now) (length self.old.rest))
            (min self.old.per_call self.old.before_failure)) }
        ensures ok { IfOk result
            (λ n. self.new
            ≡ record self.old {
              written = self.old.written ++ take n buf.now;
              rest = drop n self.old.rest;
              before_failure = self.old.before_failure - n;
            }) }
        ensures err { OnErr result (self.new ≡ self.old) }
    {
        if self.before_failure == 0 {
            return Err(io::Error::from(ErrorKind::Other));
        }
        let room = buf.len().min(self.bytes.len() - self.written);
        let count = room.min(self.per_call.min(self.before_failure));
        let end = self.written + count;
        self.bytes[self.written..end].copy_from_slice(&buf[..count]);
        self.written = end;
        self.before_failure -= count;
        Ok(count)
    }

    fn flush(&mut self) -> io::Result<()>
        ensures bytes { Keeps (Some self.old.written) (Some self.new.written) }
        ensures ok { IsOk result }
        ensures same { self.new ≡ self.old }
    {
        Ok(())
    }
}

//! A reader of a lent slice that moves few bytes per call and fails after a number of them.
ghost use Rattle.std.specs.Prelude.{◌≡◌, ◌≤◌, ◌-◌, ◌↔◌, Some, min, length, drop, IfOk, IsErr, OnErr};
ghost use Rattle.std.specs.Io.{ReadsAtMost};
ghost use Rattle.std.specs.Io.KnownBytes.{ReadConsumes};

use std::io;
use std::io::{ErrorKind, Read};
use std::marker::Model;

/// A reader of a slice, for tests: it moves few bytes in a call, and fails after a number of them.
#[derive(Debug, Drop)]
pub struct SlowIn<'a> {
    bytes: &'a [u8],
    per_call: usize,
    before_failure: usize,
}

impl<'a> Model for SlowIn<'a> {
    ghost use Rattle.std.specs.Prelude.{◌≤◌};
    ghost use Rattle.lab_io.specs.Slow.{SlowReader};

    ghost Value = { SlowReader };

    ghost view = { λ s. record {
      bytes = s.bytes.now;
      per_call = s.per_call;
      before_failure = s.before_failure;
    } };

    ghost invariant = { λ s. 1 ≤ s.per_call };
}

impl<'a> SlowIn<'a> {
    /// A reader of `bytes` that moves at most `per_call` of them in a call and `before_failure` in all, and fails at
    /// each call after that.
    pub fn new(bytes: &'a [u8], per_call: usize, before_failure: usize) -> SlowIn<'a>
        requires moves { 1 ≤ per_call }
        ensures start { result
            ≡ record { bytes = bytes.now; per_call = per_call; before_failure = before_failure } }
    {
        SlowIn {
            bytes,
            per_call,
            before_failure,
        }
    }
}

impl Read for SlowIn<'_> {
    ghost remaining = { λ s. Some s.bytes };

    fn read(&mut self, buf: &mut [u8]) -> io::Result<usize>
        ensures bound { ReadsAtMost result buf.new }
        ensures bytes { ReadConsumes (Some self.old.bytes) (Some self.new.bytes) result buf.new }
        ensures fails { IsErr result ↔ (self.old.before_failure ≡ 0) }
        ensures count { IfOk result
            (λ n. n
            ≡ min (min (length buf.old) (length self.old.bytes))
            (min self.old.per_call self.old.before_failure)) }
        ensures ok { IfOk result
            (λ n. self.new
            ≡ record self.old {
              bytes = drop n self.old.bytes;
              before_failure = self.old.before_failure - n;
            }) }
        ensures err { OnErr result (self.new ≡ self.old) }
    {
        if self.before_failure == 0 {
            return Err(io::Error::from(ErrorKind::Other));
        }
        let room = buf.len().min(self.bytes.len());
        let count = room.min(self.per_call.min(self.before_failure));
        let bytes = self.bytes;
        buf[..count].copy_from_slice(&bytes[..count]);
        self.bytes = &bytes[count..];
        self.before_failure -= count;
        Ok(count)
    }
}

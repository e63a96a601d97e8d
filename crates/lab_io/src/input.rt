//! A reader that keeps whether it failed.
ghost use Rattle.std.specs.Prelude.{◌≡◌, false, OnOk, OnErr, IsTrue};
ghost use Rattle.std.specs.Io.{ReadsAtMost};
ghost use Rattle.std.specs.Io.KnownBytes.{ReadConsumes};

use crate::Failed;
use std::io::Read;
use std::marker::Model;

/// A reader that keeps whether it failed.
#[derive(Debug, Drop)]
pub struct Input<R> {
    device: R,
    failed: bool,
}

impl<R> Model for Input<R> {
    ghost use Rattle.lab_io.specs.Device.{Device, device_code};

    ghost Value = { Device R };

    ghost coded = { device_code R.code };

    ghost view = { λ i. record { device = i.device; failed = i.failed } };
}

impl<R: Read> Input<R> {
    /// An input that has not failed.
    pub fn new(device: R) -> Input<R>
        ensures healthy { result ≡ record { device = device; failed = false } }
    {
        Input {
            device,
            failed: false,
        }
    }

    /// Reads some of the bytes that are left: none only at their end or into an empty buffer.
    /// A read that fails takes none.
    pub fn read(&mut self, buf: &mut [u8]) -> Result<usize, Failed>
        ensures bound { ReadsAtMost result buf.new }
        ensures bytes { ReadConsumes (R.remaining self.old.device) (R.remaining self.new.device)
            result buf.new }
        ensures ok { OnOk result (self.new.failed ≡ self.old.failed) }
        ensures err { OnErr result (IsTrue self.new.failed) }
    {
        match self.device.read(buf) {
            Ok(count) => Ok(count),
            Err(_) => {
                self.failed = true;
                Err(Failed)
            }
        }
    }

    /// Whether a read ever answered `Failed`.
    pub fn failed(&self) -> bool
        ensures value { result ≡ self.now.failed }
    {
        self.failed
    }
}

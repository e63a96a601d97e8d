//! A writer that keeps whether it failed.
ghost use Rattle.std.specs.Prelude.{◌≡◌, ◌<◌, false, length, IfOk, OnOk, OnErr, IsTrue};
ghost use Rattle.std.specs.Io.{WritesAtMost};
ghost use Rattle.std.specs.Io.KnownBytes.{Appends, WriteAppends};
ghost use Rattle.lab_io.specs.Device.{AppendsPrefix};

use crate::Failed;
use std::io::Write;
use std::marker::Model;

/// A writer that keeps whether it failed.
#[derive(Debug, Drop)]
pub struct Output<W> {
    device: W,
    failed: bool,
}

impl<W> Model for Output<W> {
    ghost use Rattle.lab_io.specs.Device.{Device, device_code};

    ghost Value = { Device W };

    ghost coded = { device_code W.code };

    ghost view = { λ o. record { device = o.device; failed = o.failed } };
}

impl<W: Write> Output<W> {
    /// An output that has not failed.
    pub fn new(device: W) -> Output<W>
        ensures healthy { result ≡ record { device = device; failed = false } }
    {
        Output {
            device,
            failed: false,
        }
    }

    /// Writes a beginning of the bytes, of one or more bytes at least one. A write that fails adds none.
    pub fn write(&mut self, buf: &[u8]) -> Result<usize, Failed>
        ensures bound { WritesAtMost result buf.now }
        ensures progress { IfOk result (λ count. 0 < length buf.now → 0 < count) }
        ensures bytes { WriteAppends (W.contents self.old.device) (W.contents self.new.device)
            result buf.now }
        ensures ok { OnOk result (self.new.failed ≡ self.old.failed) }
        ensures err { OnErr result (IsTrue self.new.failed) }
    {
        match self.device.write(buf) {
            Ok(count) if count > 0 || buf.is_empty() => Ok(count),
            _ => {
                self.failed = true;
                Err(Failed)
            }
        }
    }

    /// Writes all the bytes, or where it fails a beginning of them.
    pub fn write_all(&mut self, bytes: &[u8]) -> Result<(), Failed>
        ensures bytes { OnOk result
            (Appends (W.contents self.old.device) (W.contents self.new.device) bytes.now) }
        ensures prefix { OnErr result
            (AppendsPrefix (W.contents self.old.device) (W.contents self.new.device) bytes.now) }
        ensures ok { OnOk result (self.new.failed ≡ self.old.failed) }
        ensures err { OnErr result (IsTrue self.new.failed) }
    {
        let mut done = 0;
        while done < bytes.len() {
            done += self.write(&bytes[done..])?;
        }
        Ok(())
    }

    /// Whether a write ever answered `Failed`.
    pub fn failed(&self) -> bool
        ensures value { result ≡ self.now.failed }
    {
        self.failed
    }
}

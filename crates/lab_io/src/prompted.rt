//! A reader for a terminal, which says what it waits for.
ghost use Rattle.std.specs.Prelude.{◌≡◌, false};
ghost use Rattle.std.specs.Io.{ReadsAtMost};
ghost use Rattle.std.specs.Io.KnownBytes.{Appends, ReadConsumes};
ghost use Rattle.lab_io.specs.Device.{AppendsPrefix};
ghost use Rattle.lab_io.specs.Prompts.{prompt_text, next_prompt};

use crate::Output;
use std::io;
use std::io::{Read, Write};

/// What a reader for a terminal says before it reads.
#[derive(Clone, Copy, Debug, PartialEq, Eq)]
pub enum Prompt {
    /// It says nothing.
    Never,
    /// It says this text before its first read.
    Once(&'static str),
    /// It says this text before each read.
    Always(&'static str),
}

/// A reader that writes a prompt to a writer of its own before it reads. What is read doesn't depend on the prompt, nor
/// on whether it could be written; as long as that writer doesn't fail, it has the prompt of each read.
#[derive(Debug, Drop)]
pub struct Prompted<R, W> {
    device: R,
    screen: Output<W>,
    prompt: Prompt,
}

impl<R: Read, W: Write> Prompted<R, W> {
    /// A reader of what `device` gives, with its prompt on `screen`.
    pub fn new(device: R, screen: W, prompt: Prompt) -> Prompted<R, W>
        ensures device { result.device ≡ device }
        ensures screen { result.screen ≡ record { device = screen; failed = false } }
        ensures prompt { result.prompt ≡ prompt }
    {
        Prompted {
            device,
            screen: Output::new(screen),
            prompt,
        }
    }

    /// The text to write before a read; one for the first read is given once.
    fn take_prompt(&mut self) -> &'static str
        ensures device { self.new.device ≡ self.old.device }
        ensures screen { self.new.screen ≡ self.old.screen }
        ensures text { result.now ≡ prompt_text self.old.prompt }
        ensures next { self.new.prompt ≡ next_prompt self.old.prompt }
    {
        match self.prompt {
            Prompt::Never => "",
            Prompt::Once(text) => {
                self.prompt = Prompt::Never;
                text
            }
            Prompt::Always(text) => text,
        }
    }
}

impl<R: Read, W: Write> Read for Prompted<R, W> {
    ghost remaining = { λ p. R.remaining p.device };

    fn read(&mut self, buf: &mut [u8]) -> io::Result<usize>
        ensures bound { ReadsAtMost result buf.new }
        ensures bytes { ReadConsumes (R.remaining self.old.device) (R.remaining self.new.device)
            result buf.new }
        ensures next { self.new.prompt ≡ next_prompt self.old.prompt }
        ensures shown { self.new.screen.failed ≡ false
            → Appends (W.contents self.old.screen.device) (W.contents self.new.screen.device)
            (prompt_text self.old.prompt) }
        ensures part { AppendsPrefix (W.contents self.old.screen.device)
            (W.contents self.new.screen.device) (prompt_text self.old.prompt) }
    {
        let text = self.take_prompt();
        let _ = self.screen.write_all(text.as_bytes());
        self.device.read(buf)
    }
}

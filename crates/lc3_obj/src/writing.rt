//! Images as object files.
ghost use Rattle.std.specs.Prelude.{◌≡◌, false, IsTrue, IfErr, OnOk, OnErr};
ghost use Rattle.std.specs.Io.KnownBytes.{Appends};
ghost use Rattle.lab_io.specs.Device.{AppendsPrefix};
ghost use Rattle.lc3_obj.specs.Object.{word_bytes, object_bytes};

use crate::ObjFault;
use byteorder::{BigEndian, ByteOrder};
use lab_io::{Failed, Output};
use lc3_word::Image;
use std::io::Write;

/// Writes the object file of an image. The one fault is `Write`, where the output failed: then a beginning of the
/// file's bytes was written.
pub fn write_image<W: Write>(image: &Image, output: &mut Output<W>) -> Result<(), ObjFault>
    requires healthy { output.old.failed ≡ false }
    ensures ok { OnOk result
        (Appends (W.contents output.old.device) (W.contents output.new.device)
        (object_bytes image.now)) }
    ensures still_healthy { OnOk result (output.new.failed ≡ false) }
    ensures fault { IfErr result (λ e. e ≡ ObjFault.Write) }
    ensures failed { OnErr result (IsTrue output.new.failed) }
    ensures prefix { OnErr result
        (AppendsPrefix (W.contents output.old.device) (W.contents output.new.device)
        (object_bytes image.now)) }
{
    write_word(image.origin(), output)?;
    for word in image.words() {
        write_word(*word, output)?;
    }
    Ok(())
}

/// Writes a word, or where that fails a beginning of its bytes.
fn write_word<W: Write>(word: u16, output: &mut Output<W>) -> Result<(), Failed>
    ensures ok { OnOk result
        (Appends (W.contents output.old.device) (W.contents output.new.device) (word_bytes word)) }
    ensures same { OnOk result (output.new.failed ≡ output.old.failed) }
    ensures failed { OnErr result (IsTrue output.new.failed) }
    ensures prefix { OnErr result
        (AppendsPrefix (W.contents output.old.device) (W.contents output.new.device)
        (word_bytes word)) }
{
    let mut bytes = [0u8; 2];
    BigEndian::write_u16(&mut bytes, word);
    output.write_all(&bytes)
}

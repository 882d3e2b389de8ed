//! What is told of wrong words, over any sink.
ghost use Rattle.std.specs.Prelude.{◌≢◌, ◌++◌, ◌∷◌, [], OnErr, OnOk};
ghost use Rattle.std.specs.Io.KnownBytes.{Appends};

use text_base::{DeviceFault, Sink, write_all};

/// Writes this text with an LF behind it.
pub fn say_line<W: Sink>(sink: &mut W, text: &[u8]) -> Result<(), DeviceFault>
    ensures told { OnOk result (Appends (W.written sink.old) (W.written sink.new) (text.now ++ 10 ∷ [])) }
    ensures failed { OnErr result (W.failures sink.new ≢ W.failures sink.old) }
{
    write_all(sink, text)?;
    write_all(sink, b"\n")
}

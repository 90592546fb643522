//! Why writing the output of a stream stopped.
ghost use Rattle.std.specs.Prelude.{◌≡◌, OnOk, IfErr, string_bytes};
ghost use Rattle.souper_records.specs.Prelude.{stream, IsGiven, has_failed};
ghost use Rattle.souper_errors.specs.Errors.{fault_of};
ghost use Rattle.souper_records.specs.Stops.{input_stop, IsNoInput, UnlessOutput};
ghost use Rattle.souper_records.specs.declared.stop.Stop.TheVariants.{Memory};

use souper_ir::parse::ParseError;
use souper_stream::NotUtf8;
use souper_watched::Watched;
use std::alloc::AllocError;
use std::io;
use std::io::Write;

/// Why reading a stream failed.
#[derive(Drop)]
pub enum ReadFault {
    /// Bytes are not UTF-8.
    Utf8(NotUtf8),

    /// A read failed.
    Io(io::Error),
}

/// Why the output of a stream was not all written.
#[derive(Drop)]
pub enum Stop {
    /// Reading the stream failed.
    Input(ReadFault),

    /// Writing failed.
    Output(io::Error),

    /// Memory ran out.
    Memory,
}

impl From<AllocError> for Stop {
    ghost from_gives = { λ _ stop. stop ≡ Memory };

    fn from(_refused: AllocError) -> Stop {
        Stop::Memory
    }
}

/// Why reading stopped with an error that is no parse error. `not_utf8` says of an I/O error which bytes are not UTF-8, if it is of bytes.
pub fn stop_of(error: &ParseError, not_utf8: Option<NotUtf8>) -> Stop
    ensures { result ≡ input_stop (fault_of error.now) not_utf8 }
{
    match (error.io_error(), not_utf8) {
        (Some(_), Some(fault)) => Stop::Input(ReadFault::Utf8(fault)),
        (Some(fault), None) => Stop::Input(ReadFault::Io(*fault)),
        (None, _) => Stop::Memory,
    }
}

/// Writes the text to `out`. The error is of the output.
pub fn write_text<W: Write>(text: &String, out: &mut Watched<W>) -> Result<(), Stop>
    ensures written { OnOk result (IsGiven (stream W.contents out.old out.new) (string_bytes text.now)) }
    ensures failed { IfErr result (λ stop. IsNoInput stop × UnlessOutput stop (has_failed out.new) ⊥) }
{
    out.write_all(text.as_bytes()).map_err(Stop::Output)
}

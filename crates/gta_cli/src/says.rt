//! Lines on the error output.

ghost use Rattle.std.specs.Prelude.{◌≡◌, ◌≤◌};
ghost use Rattle.gta_cli.specs.Endings.{Says, stream};
ghost use Rattle.gta_cli.specs.Lines.{out_of_memory_line};
ghost use Rattle.gta_cli.specs.declared.status.Status.TheVariants.{NoMemory};

use crate::status::Status;
use gta_port::{Sink, write_all_of};

const OUT_OF_MEMORY_LINE: &[u8] = b"out of memory\n";

/// Writes a line as far as it goes: whole where no write failed.
pub(crate) fn say<E: Sink>(err: &mut E, line: &[u8])
    ensures says { Says (stream (E.gone err.old) (E.gone err.new) (E.faults err.old) (E.faults err.new)
        (err.new ≡ err.old)) line.now }
    ensures counts { E.faults err.old ≤ E.faults err.new }
{
    let _ = write_all_of(err, line);
}

/// Says that memory was wanting, and gives the status of it. It takes no memory.
pub(crate) fn out_of_memory<E: Sink>(err: &mut E) -> Status
    ensures status { result ≡ NoMemory }
    ensures says { Says (stream (E.gone err.old) (E.gone err.new) (E.faults err.old) (E.faults err.new)
        (err.new ≡ err.old)) out_of_memory_line }
    ensures counts { E.faults err.old ≤ E.faults err.new }
{
    say(err, OUT_OF_MEMORY_LINE);
    Status::NoMemory
}

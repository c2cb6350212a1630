//! The top call. Its clauses are what the program promises; how a call ends, by its status, is in specs/Endings.antt.
//! The command of words is in gta_words, and what a command comes to on bytes, its text or its first refusal, in
//! gta_job, each in its specs/; the lines are in specs/Lines.antt.

ghost use Rattle.std.specs.Prelude.{◌≡◌, map, string_bytes, IfSome};
ghost use Rattle.gta_words.specs.Words.{command_of};
ghost use Rattle.gta_cli.specs.declared.status.Status.{Status};
ghost use Rattle.gta_cli.specs.Endings.{Ends, IsDrill, number_of, stream};
ghost use Rattle.gta_cli.specs.Complete.{IsComplete};

use crate::ending::{Ending, answer};
use crate::says::{out_of_memory, say};
use crate::status::Status;
use gta_port::{Sink, Source, write_all_of};
use report_text::fault_line;
use std::alloc::Global;
use std::thread::Threads;

const USAGE_LINE: &[u8] = b"usage: gta run|show|list|drill [--workers N] [--leaf N] [SEED ROWS]\n";

const READ_FAULT_LINE: &[u8] = b"read fault\n";

const WRITE_FAULT_LINE: &[u8] = b"write fault\n";

/// Does what the words ask for with the source's bytes: writes the text to `out`, or says on `err` why
/// there is none. The words leave the program's name out. It gives the exit status.
pub fn gta_main<R: Threads + Sync, S: Source, O: Sink, E: Sink>(
    rt: &R,
    alloc: Global,
    words: &[String],
    source: &mut S,
    out: &mut O,
    err: &mut E,
) -> u8
    // How the call ends, by its status; and so, with no fault, what was asked for is answered or refused.
    ensures ends { let asked = command_of (map string_bytes words.now) in
        let read = stream (S.left source.old) (S.left source.new) (S.faults source.old) (S.faults source.new)
        (source.new ≡ source.old) in
        let gone = stream (O.gone out.old) (O.gone out.new) (O.faults out.old) (O.faults out.new) (out.new ≡ out.old) in
        let said = stream (E.gone err.old) (E.gone err.new) (E.faults err.old) (E.faults err.new) (err.new ≡ err.old) in
        (status : Status) × (result ≡ number_of status) × Ends asked read gone said status
        × IsComplete asked read gone said status }
    // A drill reads nothing, whatever the status.
    ensures drill { IfSome (command_of (map string_bytes words.now)) (λ command.
        IsDrill command → source.new ≡ source.old) }
{
    ended(rt, alloc, words, source, out, err).number()
}

/// The same, as a status by its name.
fn ended<R: Threads + Sync, S: Source, O: Sink, E: Sink>(
    rt: &R,
    alloc: Global,
    words: &[String],
    source: &mut S,
    out: &mut O,
    err: &mut E,
) -> Status
    ensures ends { let asked = command_of (map string_bytes words.now) in
        let read = stream (S.left source.old) (S.left source.new) (S.faults source.old) (S.faults source.new)
        (source.new ≡ source.old) in
        let gone = stream (O.gone out.old) (O.gone out.new) (O.faults out.old) (O.faults out.new) (out.new ≡ out.old) in
        let said = stream (E.gone err.old) (E.gone err.new) (E.faults err.old) (E.faults err.new) (err.new ≡ err.old) in
        Ends asked read gone said result }
    ensures drill { IfSome (command_of (map string_bytes words.now)) (λ command.
        IsDrill command → source.new ≡ source.old) }
{
    match answer(rt, alloc, words, source) {
        Ok(text) => match write_all_of(out, text.as_slice()) {
            Ok(()) => Status::Answered,
            Err(_) => {
                say(err, WRITE_FAULT_LINE);
                Status::WriteFault
            }
        },
        Err(Ending::Usage) => match write_all_of(err, USAGE_LINE) {
            Ok(()) => Status::Usage,
            Err(_) => Status::WriteFault,
        },
        Err(Ending::Refused(refusal)) => match fault_line(alloc, &refusal) {
            Ok(line) => match write_all_of(err, line.as_slice()) {
                Ok(()) => Status::Refused,
                Err(_) => Status::WriteFault,
            },
            Err(_) => out_of_memory(err),
        },
        Err(Ending::ReadFault) => {
            say(err, READ_FAULT_LINE);
            Status::ReadFault
        }
        Err(Ending::Memory) => out_of_memory(err),
    }
}

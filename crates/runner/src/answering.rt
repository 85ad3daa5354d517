//! One line of a trace by itself.
ghost use Rattle.std.specs.Prelude.{◌≡◌, ◌≤◌, take};
ghost use Rattle.machine.specs.Machine.{IsSoundMachine};
ghost use Rattle.runner.specs.Session.{Answers};
ghost use Rattle.trace_lang.specs.Texts.{bad_line_text};

use disk_model::{SectorDisk, WriteZeros};
use machine::Machine;
use trace_lang::{answer_text, bad_line_text, history_text, parse_line};

/// Runs one line of a trace, without its newline, as `run` does each, and writes its reply to the front of `text`, newline included: the text of the
/// reply to the command that the line stands for, or `bad line` where it stands for none. Returns how many bytes that is, at most 1,024.
pub fn answer_line<D: WriteZeros, E: SectorDisk>(
    line: &[u8],
    machine: &mut Machine<D, E>,
    text: &mut [u8; 1024],
) -> usize
    requires { IsSoundMachine D.SectorDisk E.SectorDisk machine.old }
    ensures sound { IsSoundMachine D.SectorDisk E.SectorDisk machine.new }
    ensures room { result ≤ 1024 }
    ensures answers { Answers D.SectorDisk E.SectorDisk machine.old line.now (take result text.new) machine.new }
{
    match parse_line(line) {
        Ok(command) => match machine.carry_out(command) {
            Some(answer) => answer_text(&answer, text),
            None => history_text(&machine.history(), text),
        },
        Err(_) => copy_bad_line(text),
    }
}

// Writes the reply to a line in no form.
fn copy_bad_line(text: &mut [u8; 1024]) -> usize
    ensures room { result ≤ 1024 }
    ensures text { take result text.new ≡ bad_line_text }
{
    let bad = bad_line_text();
    text[..bad.len()].copy_from_slice(bad);
    bad.len()
}

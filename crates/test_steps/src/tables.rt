//! Tables of steps that are carried out.
use crate::endings::{Ending, ends, fails, refuses};
use crate::files::{remove, with_file, with_files};
use crate::looks::repeated;
use crate::names::start_of;
use crate::steps::{Program, ProgramCall, Step};
use std::test::Fail;

/// Carries out the steps of that test, where `@` stands for how the paths of its files begin, and fails at the first that does not come out so.
pub fn carry_out(rt: &HostRuntime, test: &str, steps: &[Step<'_>]) -> Result<(), Fail> {
    let start = start_of(rt, test)?;
    carry_out_with(rt, start.as_str(), steps)
}

/// Carries out these steps, where `@` stands for that text.
fn carry_out_with(rt: &HostRuntime, start: &str, steps: &[Step<'_>]) -> Result<(), Fail> {
    for step in steps {
        carry_out_one(rt, start, *step)?;
    }
    Ok(())
}

/// Carries out the steps of each of these tests.
pub fn carry_out_all(rt: &HostRuntime, tests: &[(&str, &[Step<'_>])]) -> Result<(), Fail> {
    for (test, steps) in tests {
        carry_out(rt, test, steps)?;
    }
    Ok(())
}

/// Carries out these steps with each of these texts in the place of `@`.
pub fn carry_out_for_each(
    rt: &HostRuntime,
    texts: &[&str],
    steps: &[Step<'_>],
) -> Result<(), Fail> {
    for text in texts {
        carry_out_with(rt, text, steps)?;
    }
    Ok(())
}

fn carry_out_one(rt: &HostRuntime, start: &str, step: Step<'_>) -> Result<(), Fail> {
    match step {
        Step::Does(program, words, input, output) => {
            let ending = Ending {
                status: 0,
                output,
                errors: b"",
            };
            ends(rt, start, ProgramCall { program, words }, input, ending)
        }
        Step::Shows(words, parts) => {
            let wanted = repeated(rt, parts)?;
            let ending = Ending {
                status: 0,
                output: wanted.as_slice(),
                errors: b"",
            };
            let program = Program::Cat;
            ends(rt, start, ProgramCall { program, words }, b"", ending)
        }
        Step::Fails(program, words, line) => fails(rt, start, ProgramCall { program, words }, line),
        Step::Refuses(program, words) => refuses(rt, start, ProgramCall { program, words }),
        Step::File(file, step) => with_file(rt, start, file, step),
        Step::Files(step, first, second) => with_files(rt, start, step, first, second),
        Step::Removes(files) => remove(rt, start, files),
    }
}

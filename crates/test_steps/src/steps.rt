//! What a test does and sees, step by step.

/// A program that a step runs.
#[derive(Clone, Copy)]
pub enum Program {
    Format,
    Run,
    Look,
    Cat,
    Stops,
}

/// A program, and the words that it is called with.
#[derive(Clone, Copy)]
pub struct ProgramCall<'a> {
    pub program: Program,
    pub words: &'a [&'a str],
}

/// What a test does next, or sees.
#[derive(Clone, Copy)]
pub enum Step<'a> {
    /// The program, on these words and this standard input, is done, and writes these bytes.
    Does(Program, &'a [&'a str], &'a [u8], &'a [u8]),
    /// `pagecat` is done on these words, and writes these bytes, each so many times over, one after the other.
    Shows(&'a [&'a str], &'a [(&'a [u8], usize)]),
    /// The program, on these words and a trace of one line, fails, and writes that to standard error and nothing else.
    Fails(Program, &'a [&'a str], &'a str),
    /// The program does not take these words, and says how it is called.
    Refuses(Program, &'a [&'a str]),
    /// This is done to a file, or seen of it.
    File(&'a str, FileStep<'a>),
    /// This is done with two files, or seen of them.
    Files(TwoFiles, &'a str, &'a str),
    /// These files are removed.
    Removes(&'a [&'a str]),
}

/// What is seen of a file, or done to it.
#[derive(Clone, Copy)]
pub enum FileStep<'a> {
    /// It has these bytes.
    Has(&'a [u8]),
    /// It has these bytes from that byte on.
    HasAt(usize, &'a [u8]),
    /// It has these bytes, so many times over, from that byte on.
    IsFilledAt(usize, &'a [u8], usize),
    /// It has this length, in bytes.
    IsLong(u64),
    /// There is no such file.
    IsMissing,
    /// It is made anew, of these bytes.
    Write(&'a [u8]),
    /// These bytes are written over those from that byte on.
    WriteAt(u64, &'a [u8]),
    /// The same, with these bytes so many times over.
    FillAt(u64, &'a [u8], usize),
    /// It is made so long, or cut.
    SetLength(u64),
    /// It gets these permissions.
    SetMode(u32),
}

/// What is done with two files, or seen of them.
#[derive(Clone, Copy)]
pub enum TwoFiles {
    /// The second becomes a copy of the first.
    Copy,
    /// Both have the same bytes.
    Alike,
    /// The first becomes a link to the second.
    Link,
}

/// An image of one page of zeros is made.
pub const NEW: Step<'static> = Step::Does(
    Program::Format,
    &["new", "@image", "zero:4096"],
    b"",
    b"",
);

/// A file that no test makes.
pub const UNMADE: &str = "/tmp/kefsdalv-unmade";

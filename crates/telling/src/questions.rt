//! What a line that begins with `?` asks.
ghost use Rattle.std.specs.Prelude.{◌≡◌, codes, IfSome};
ghost use Rattle.telling.specs.Questions.{AreTwoNumbers, AsksInForm, AsksAlone, AsksFrames, AsksWatch, IsOneNumber, name_of};

use std::fmt::{self, Display, Formatter};
use trace_lang::parse_number;

/// A question about what the machine holds.
#[derive(Clone, Copy)]
pub enum Question {
    /// The way of an address through the tables of a process.
    Walk { pid: u64, addr: u64 },
    /// All tables of a process.
    Tables { pid: u64 },
    /// The runs of pages of a process.
    Maps { pid: u64 },
    /// The bytes at an address of a process.
    Bytes { pid: u64, addr: u64 },
    /// The frames of these numbers.
    Frames { first: u32, last: u32 },
    /// The slots that hold something.
    Slots,
    /// The files.
    Files,
    /// The lines of the buffer of translations.
    Buffer,
    /// What was counted.
    Counts,
    /// To tell after each reply what the command did, or no longer.
    Watch(bool),
}

/// Why a line is no question. `Display` says in one line what may be asked.
#[derive(Clone, Copy)]
pub enum Misasked {
    /// The first word is none of those that ask.
    Unknown,
    /// The question of this form has other words behind the first.
    Words(Form),
}

/// A question's form.
#[derive(Clone, Copy)]
pub enum Form {
    Walk,
    Tables,
    Maps,
    Bytes,
    Frames,
    Slots,
    Files,
    Buffer,
    Counts,
    Watch,
}

impl Display for Form {
    fn fmt<W: fmt::Write>(&self, f: &mut Formatter<W>) -> fmt::Result {
        f.write_str(match self {
            Form::Walk => "?walk P ADDR",
            Form::Tables => "?tables P",
            Form::Maps => "?maps P",
            Form::Bytes => "?bytes P ADDR",
            Form::Frames => "?frames [FIRST LAST]",
            Form::Slots => "?slots",
            Form::Files => "?files",
            Form::Buffer => "?tlb",
            Form::Counts => "?counts",
            Form::Watch => "?watch on|off",
        })
    }
}

impl Display for Misasked {
    fn fmt<W: fmt::Write>(&self, f: &mut Formatter<W>) -> fmt::Result {
        match self {
            Misasked::Words(form) => write!(f, "the form is {form}"),
            Misasked::Unknown => write!(
                f,
                "one may ask {}, {}, {}, {}, {}, {}, {}, {}, {}, {}",
                Form::Walk,
                Form::Tables,
                Form::Maps,
                Form::Bytes,
                Form::Frames,
                Form::Slots,
                Form::Files,
                Form::Buffer,
                Form::Counts,
                Form::Watch
            ),
        }
    }
}

/// The words behind a question's first.
#[derive(Clone, Copy)]
enum Words<'a> {
    None,
    One(&'a [u8]),
    Two(&'a [u8], &'a [u8]),
    More,
}

/// The question that stands behind the `?` of a line. Its words are parted by one space each, and its numbers are written as those of a command.
///
/// # Errors
/// `Unknown` where the first word is none of those that ask, `Words` where the question of that name has other words behind it.
pub fn question_in(text: &[u8]) -> Result<Question, Misasked> {
    let (name, words) = parted(text);
    let Some(form) = form_named(name) else {
        return Err(Misasked::Unknown);
    };
    question_of(form, words).ok_or(Misasked::Words(form))
}

/// The form whose first word that is.
fn form_named(name: &[u8]) -> Option<Form>
    ensures { IfSome result (λ form. name.now ≡ name_of form) }
{
    match name.len() {
        3 if name == b"tlb".as_slice() => Some(Form::Buffer),
        4 => if name == b"walk".as_slice() {
            Some(Form::Walk)
        } else if name == b"maps".as_slice() {
            Some(Form::Maps)
        } else {
            None
        },
        5 => if name == b"bytes".as_slice() {
            Some(Form::Bytes)
        } else if name == b"slots".as_slice() {
            Some(Form::Slots)
        } else if name == b"files".as_slice() {
            Some(Form::Files)
        } else if name == b"watch".as_slice() {
            Some(Form::Watch)
        } else {
            None
        },
        6 => if name == b"tables".as_slice() {
            Some(Form::Tables)
        } else if name == b"frames".as_slice() {
            Some(Form::Frames)
        } else if name == b"counts".as_slice() {
            Some(Form::Counts)
        } else {
            None
        },
        _ => None,
    }
}

/// The question of that form with these words.
fn question_of(form: Form, words: Words<'_>) -> Option<Question>
    ensures { IfSome result (AsksInForm form words.entry) }
{
    match form {
        Form::Walk => walk_of(words),
        Form::Tables => Some(Question::Tables {
            pid: process_of(words)?,
        }),
        Form::Maps => Some(Question::Maps {
            pid: process_of(words)?,
        }),
        Form::Bytes => bytes_of(words),
        Form::Frames => frames_of(words),
        Form::Slots => alone(words, Question::Slots),
        Form::Files => alone(words, Question::Files),
        Form::Buffer => alone(words, Question::Buffer),
        Form::Counts => alone(words, Question::Counts),
        Form::Watch => watch_of(words),
    }
}

/// The first word of a text and those behind it.
fn parted(text: &[u8]) -> (&[u8], Words<'_>) {
    let mut words = text.split(|byte| *byte == b' ');
    let name = words.next().unwrap_or(text);
    let rest = match (words.next(), words.next(), words.next()) {
        (None, _, _) => Words::None,
        (Some(first), None, _) => Words::One(first),
        (Some(first), Some(second), None) => Words::Two(first, second),
        (Some(_), Some(_), Some(_)) => Words::More,
    };
    (name, rest)
}

fn walk_of(words: Words<'_>) -> Option<Question>
    ensures { IfSome result (AsksInForm Form.Walk words.entry) }
{
    let (pid, addr) = place_of(words)?;
    Some(Question::Walk { pid, addr })
}

fn bytes_of(words: Words<'_>) -> Option<Question>
    ensures { IfSome result (AsksInForm Form.Bytes words.entry) }
{
    let (pid, addr) = place_of(words)?;
    Some(Question::Bytes { pid, addr })
}

/// A process and an address.
fn place_of(words: Words<'_>) -> Option<(u64, u64)>
    ensures { IfSome result (λ place. AreTwoNumbers words.entry place.0 place.1) }
{
    let Words::Two(process, address) = words else {
        return None;
    };
    Some((parse_number(process)?, parse_number(address)?))
}

fn process_of(words: Words<'_>) -> Option<u64>
    ensures { IfSome result (IsOneNumber words.entry) }
{
    match words {
        Words::One(process) => parse_number(process),
        _ => None,
    }
}

fn frames_of(words: Words<'_>) -> Option<Question>
    ensures { IfSome result (AsksFrames words.entry) }
{
    match words {
        Words::None => Some(Question::Frames {
            first: 0,
            last: u32::MAX,
        }),
        Words::Two(first, last) => {
            let first = u32::try_from(parse_number(first)?).ok()?;
            let last = u32::try_from(parse_number(last)?).ok()?;
            Some(Question::Frames { first, last })
        }
        _ => None,
    }
}

fn alone(words: Words<'_>, question: Question) -> Option<Question>
    ensures { IfSome result (AsksAlone words.entry question) }
{
    match words {
        Words::None => Some(question),
        _ => None,
    }
}

fn watch_of(words: Words<'_>) -> Option<Question>
    ensures { IfSome result (AsksWatch words.entry) }
{
    let Words::One(word) = words else {
        return None;
    };
    if word == b"on".as_slice() {
        Some(Question::Watch(true))
    } else if word == b"off".as_slice() {
        Some(Question::Watch(false))
    } else {
        None
    }
}

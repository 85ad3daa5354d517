//! What a client asks of `pagesync`, a line a request.
use std::io::{ErrorKind, Read};
use vm_types::FilePage;

/// No line of a request is longer, in bytes.
const LINE: usize = 32;

/// A request.
#[derive(Clone, Copy, Debug, PartialEq, Eq)]
pub(crate) enum Request {
    /// The page is added to the batch. Its 4,096 bytes follow.
    Page(FilePage),
    /// The batch becomes durable, and the next one begins.
    Commit,
    /// The page is to be read.
    Read(FilePage),
    /// There is none: the input is at its end.
    End,
    /// The line is in no form, or longer than any.
    Bad,
    /// The input failed, or ended within the line.
    Fault,
}

/// The next request of the input.
pub(crate) fn next_request<I: Read>(input: &mut I) -> Request {
    let mut line = [0; LINE];
    for i in 0..LINE {
        let mut byte = [0];
        match input.read_exact(&mut byte) {
            Ok(()) => {}
            Err(error) if i == 0 && error.kind() == ErrorKind::UnexpectedEof => {
                return Request::End;
            }
            Err(_) => return Request::Fault,
        }
        if byte[0] == b'\n' {
            return parse(&line[..i]);
        }
        line[i] = byte[0];
    }
    Request::Bad
}

/// What a line asks for.
fn parse(line: &[u8]) -> Request {
    let Ok(text) = str::from_utf8(line) else {
        return Request::Bad;
    };
    if text == "commit" {
        return Request::Commit;
    }
    let Some((name, place)) = text.split_once(' ') else {
        return Request::Bad;
    };
    match (name, page_named(place)) {
        ("page", Some(page)) => Request::Page(page),
        ("read", Some(page)) => Request::Read(page),
        _ => Request::Bad,
    }
}

/// The page of two decimal numbers, a file's and a page's.
fn page_named(place: &str) -> Option<FilePage> {
    let (file, page) = place.split_once(' ')?;
    Some(FilePage {
        file: file.parse().ok()?,
        page: page.parse().ok()?,
    })
}

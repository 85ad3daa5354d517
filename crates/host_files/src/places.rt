//! The numbers of the standard streams.
use std::fs::{File, Files};
use std::io;
use std::os::fd::AsRawFd;

/// The path of the file that has no bytes and takes none where it is opened to be read.
pub const NOTHING: &str = "/dev/null";

/// The number of the last standard stream.
const LAST_STREAM: i32 = 2;

/// Gives the numbers of the standard streams that the program was started without to a file that has no bytes and takes
/// none, so that no file opened before the result is dropped gets one of them: else its bytes would be taken for input, or
/// replies written over them. A closed input is empty so, and a closed output fails.
///
/// # Errors
///
/// The host's, where `/dev/null` can't be opened.
pub fn held_places<R: Files<File = File>>(rt: &R) -> io::Result<[Option<File>; 3]> {
    let mut places = [None, None, None];
    for place in &mut places {
        let file = File::open(rt, NOTHING)?;
        if file.as_raw_fd() > LAST_STREAM {
            break;
        }
        *place = Some(file);
    }
    Ok(places)
}

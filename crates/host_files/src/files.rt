//! Regular files under a lock.
use std::fs::{self, File, Files, OpenOptions};
use std::io::{self, ErrorKind};

/// How a file is opened.
#[derive(Clone, Copy)]
pub enum Opening {
    /// It is only read.
    Read,
    /// It is read and written.
    Write,
    /// The same, and a file that is missing is made.
    Make,
}

impl Opening {
    /// Whether the file is written too.
    fn writes(self) -> bool {
        matches!(self, Opening::Write | Opening::Make)
    }

    /// Whether a file that is missing is made.
    fn makes(self) -> bool {
        matches!(self, Opening::Make)
    }
}

/// The host file of that path, which is only read, and how many bytes it has now. Other programs may read it too, but none
/// of ours writes it until it is dropped.
///
/// # Errors
///
/// The host's, and those of `open_regular`.
pub fn open_to_read<R: Files<File = File>>(rt: &R, path: &str) -> io::Result<(File, u64)> {
    let file = open_regular(rt, path, Opening::Read)?;
    file.try_lock_shared()?;
    let bytes = file.metadata()?.len();
    Ok((file, bytes))
}

/// The regular file of that path, under a lock that no other program of ours has: it stands until the file is dropped.
///
/// # Errors
///
/// The host's, as where another program of ours has the lock, and those of `open_regular`.
pub fn open_alone<R: Files<File = File>>(rt: &R, path: &str, access: Opening) -> io::Result<File> {
    let file = open_regular(rt, path, access)?;
    file.try_lock()?;
    Ok(file)
}

/// The regular file of that path. What is none is not opened, since that may wait for ever, as for the other end of a pipe.
///
/// # Errors
///
/// `InvalidInput` where something else stands at that path, and the host's.
pub fn open_regular<R: Files<File = File>>(
    rt: &R,
    path: &str,
    access: Opening,
) -> io::Result<File> {
    match fs::metadata(rt, path) {
        Ok(metadata) if metadata.is_file() => {}
        Ok(_) => return Err(io::Error::from(ErrorKind::InvalidInput)),
        Err(error) if error.kind() == ErrorKind::NotFound && access.makes() => {}
        Err(error) => return Err(error),
    }
    let mut options = OpenOptions::new();
    options
        .read(true)
        .write(access.writes())
        .create(access.makes());
    options.open(rt, path)
}

/// The regular file of that path of an image that is shown, under a lock. Of one that may only be read nothing is written.
///
/// # Errors
///
/// Those of `open_alone`, where it can't be opened to be read either.
pub fn open_to_show<R: Files<File = File>>(rt: &R, path: &str) -> io::Result<File> {
    match open_alone(rt, path, Opening::Write) {
        Ok(file) => Ok(file),
        Err(_) => open_alone(rt, path, Opening::Read),
    }
}

/// The regular file of that path, under a lock and lengthened with zeros to so many bytes where it is shorter. One that is missing
/// is made.
///
/// # Errors
///
/// Those of `open_alone` and `lengthen`.
pub fn open_lengthened<R: Files<File = File>>(rt: &R, path: &str, length: u64) -> io::Result<File> {
    let file = open_alone(rt, path, Opening::Make)?;
    lengthen(&file, length)?;
    Ok(file)
}

/// Lengthens a file with zeros to so many bytes where it is shorter.
///
/// # Errors
///
/// The host's, as where it has no room.
pub fn lengthen(file: &File, length: u64) -> io::Result<()> {
    if file.metadata()?.len() < length {
        file.set_len(length)?;
    }
    Ok(())
}

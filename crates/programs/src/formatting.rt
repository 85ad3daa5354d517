//! The program that makes images.
ghost use Rattle.std.specs.Prelude.{◌≤◌, IfOk};
ghost use Rattle.programs.specs.Disks.{IsJustOpened};
ghost use Rattle.stores.specs.NewStores.{IsSizedNew};

use crate::faults::{ProgramFault, report};
use crate::files::{disk_in, has_mark};
use crate::places::held_places;
use crate::sources::open_sources;
use crate::upgrading::upgrade_image;
use command_words::{FormatWords, NewWords, format_words};
use disk_model::{FileContents, FileDisk, SectorDisk, Unknown};
use file_store::{FileSource, FormatFault};
use host_files::{Opening, lengthen, open_alone, open_regular};
use pool_store::NEW_FILES;
use std::fs::{self, File, Files, TryLockError};
use std::io::{self, ErrorKind, Read, Write};
use stores::{NewStore, format, image_bytes};

/// `pagefmt new IMAGE SPEC...`: makes IMAGE where it is missing, lengthens it to `512 * (8195 + 8 H)` bytes for the `H`
/// home pages of the specs, and formats it. The files get numbers and homes in the order of the specs. SPEC is `zero:LEN`,
/// a writable file of LEN zero bytes, or `rw:PATH` or `ro:PATH`, a writable or a read-only file of the bytes of a host
/// file, which is read a page at a time. All specs are looked at, and their host files opened, before IMAGE is made; over
/// 64 specs, and an IMAGE that is an image already, are reported before it is lengthened. Until something is written to it,
/// every fault leaves IMAGE with its bytes and its length, or unmakes it again; only a file that another program locks first
/// is left to it.
///
/// `pagefmt new4 [--pool PAGES] IMAGE SPEC...` does the same with a store that has a pool of PAGES slots at least, 4,032 where none is given: they are made in steps
/// of 1,008, each with `512 * 8080` bytes of the image, which has 24,576 more, and a page for each home page.
///
/// `pagefmt upgrade OLD NEW`: makes NEW where it is missing, lengthens it so that it has as many home pages as OLD, an image of
/// layout 1, and makes a store on it that stands for what OLD stands for. OLD is only read. Until something is written to NEW,
/// every fault leaves it as it was, or unmakes it again. `pagefmt upgrade4 [--pool PAGES] OLD NEW` does the same with an OLD of layout 2
/// or 3 and a NEW with a pool as `new4` makes it.
///
/// An image that can't be had is not opened, and one that can't be synced is the fault of its device, which comes where the
/// image is looked at: OLD and NEW are both opened before OLD is, and NEW is looked at once OLD is found good.
///
/// Returns the exit status: 0 done; 1 a fault; 2 other words. For 1 and 2 one line on `errors` says why.
pub fn pagefmt<R: Files<File = File> + AllocGlobal, I: Read, O: Write, X: Write>(
    rt: &R,
    words: &[String],
    _reader: &mut I,
    _writer: &mut O,
    errors: &mut X,
) -> u8
    ensures statuses { result ≤ 2 }
{
    let made = format_or_upgrade::<Unknown, Unknown, R>(rt, words);
    report("pagefmt", made.map(|()| 0), errors)
}

fn format_or_upgrade<'a, C: FileContents, K: FileContents, R: Files<File = File> + AllocGlobal>(
    rt: &R,
    words: &'a [String],
) -> Result<(), ProgramFault<'a>> {
    match format_words(rt.alloc(), words)? {
        FormatWords::New(words) => format_image::<C, R>(rt, words),
        FormatWords::Upgrade(words) => upgrade_image::<C, K, R>(rt, words),
    }
}

fn format_image<'a, C: FileContents, R: Files<File = File> + AllocGlobal>(
    rt: &R,
    words: NewWords<'a>,
) -> Result<(), ProgramFault<'a>>
    requires { IsSizedNew words.store }
{
    let _places = held_places(rt)?;
    let mut sources = open_sources(rt.alloc(), rt, words.specs.as_slice())?;
    let (file, former) = match image_file(rt, words.image) {
        Ok(opened) => opened,
        Err(_) => return Err(ProgramFault::CannotOpen(words.image)),
    };
    let mut disk = match unmarked_disk::<C>(words.image, &file, words.store, sources.as_slice()) {
        Ok(disk) => disk,
        Err(fault) => {
            set_back(rt, words.image, &file, former);
            return Err(fault);
        }
    };
    match format(&mut disk, words.store, sources.as_mut_slice()) {
        Ok(()) => Ok(()),
        Err(fault) => {
            if !disk.is_written() {
                set_back(rt, words.image, &file, former);
            }
            Err(ProgramFault::Format(fault))
        }
    }
}

/// What stood at the path of IMAGE before this run.
#[derive(Clone, Copy)]
pub(crate) enum Former {
    /// Nothing: what is there now was made by this run.
    Missing,
    /// A file of so many bytes.
    Bytes(u64),
}

/// The file of that path under a lock that no other program of ours has, and what stood there before. One that is missing is
/// made, as is one that a link leads to.
pub(crate) fn image_file<R: Files<File = File> + AllocGlobal>(
    rt: &R,
    path: &str,
) -> io::Result<(File, Former)> {
    match File::create_new(rt, path) {
        Ok(file) => lock_made(rt, path, file),
        Err(error) if error.kind() == ErrorKind::AlreadyExists => found_file(rt, path),
        Err(error) => Err(error),
    }
}

fn found_file<R: Files<File = File> + AllocGlobal>(
    rt: &R,
    path: &str,
) -> io::Result<(File, Former)> {
    match open_alone(rt, path, Opening::Write) {
        Ok(file) => {
            let bytes = file.metadata()?.len();
            Ok((file, Former::Bytes(bytes)))
        }
        Err(error) if error.kind() == ErrorKind::NotFound => {
            lock_made(rt, path, open_regular(rt, path, Opening::Make)?)
        }
        Err(error) => Err(error),
    }
}

/// The same of a file that this run has just made. Where it gets no lock it is removed again, unless another program has one.
fn lock_made<R: Files<File = File> + AllocGlobal>(
    rt: &R,
    path: &str,
    file: File,
) -> io::Result<(File, Former)> {
    match file.try_lock() {
        Ok(()) => {
            let former = former_of_made(&file);
            Ok((file, former))
        }
        Err(TryLockError::WouldBlock) => Err(io::Error::from(ErrorKind::WouldBlock)),
        Err(TryLockError::Error(error)) => {
            remove_made(rt, path);
            Err(error)
        }
    }
}

/// Removes the file that this run has made, and no link that leads to it.
fn remove_made<R: Files<File = File> + AllocGlobal>(rt: &R, path: &str) {
    if let Ok(made) = fs::canonicalize(rt, path) {
        let _ = fs::remove_file(rt, made);
    }
}

/// What a file was that this run has made: where there are bytes in it, another program found it before it was locked, and
/// wrote them.
fn former_of_made(file: &File) -> Former {
    match file.metadata() {
        Ok(now) if now.len() > 0 => Former::Bytes(now.len()),
        _ => Former::Missing,
    }
}

/// The device for an image of these files in a file that is no image, which is lengthened with zeros where it is shorter. The
/// device has a handle of its own, so that the lock stands until the file is set back.
fn unmarked_disk<'a, C: FileContents>(
    path: &'a str,
    file: &File,
    store: NewStore,
    sources: &[FileSource<File>],
) -> Result<FileDisk<C>, ProgramFault<'a>>
    requires { IsSizedNew store }
    ensures { IfOk result (IsJustOpened ⟦<FileDisk<C> as SectorDisk>⟧) }
{
    if sources.len() > NEW_FILES {
        return Err(ProgramFault::Format(FormatFault::TooLarge));
    }
    match has_mark(file) {
        Ok(false) => disk_in::<C>(path, lengthened(file, image_bytes(store, sources))),
        Ok(true) => Err(ProgramFault::Format(FormatFault::Formatted)),
        Err(_) => Err(ProgramFault::Format(FormatFault::Device)),
    }
}

/// A second handle of a file, which is lengthened with zeros to so many bytes where it is shorter.
pub(crate) fn lengthened(file: &File, length: u64) -> io::Result<File> {
    let own = file.try_clone()?;
    lengthen(file, length)?;
    Ok(own)
}

/// Takes back what this run did to the file of that path, of which it wrote nothing. Where the system fails in that too, an
/// empty file stays, or zeros at a file's end.
pub(crate) fn set_back<R: Files<File = File> + AllocGlobal>(
    rt: &R,
    path: &str,
    file: &File,
    former: Former,
) {
    match former {
        Former::Missing => remove_made(rt, path),
        Former::Bytes(bytes) => cut_back(file, bytes),
    }
}

/// Cuts a file to so many bytes where it has more.
fn cut_back(file: &File, bytes: u64) {
    match file.metadata() {
        Ok(now) if now.len() > bytes => {
            let _ = file.set_len(bytes);
        }
        _ => {}
    }
}

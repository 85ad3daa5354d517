//! The program that writes a file of an image out.
ghost use Rattle.std.specs.Prelude.{◌≡◌, ◌≤◌, ℕ, List, Some, None, IfOk, IfErr, OnOk, IsErrOf, MatchResult, take};
ghost use Rattle.std.specs.Io.KnownBytes.{Appends};
ghost use Rattle.vm_types.specs.declared.file.FileInfo.{FileInfo};
ghost use Rattle.vm_types.specs.Files.{bytes_inside};
ghost use Rattle.stores.specs.Images.{standing_page, standing_file};
ghost use Rattle.stores.specs.Store.{disk_of, files_of, IsReadyStore, IsSectorOf};
ghost use Rattle.programs.specs.Showing.{BlamesDevice, IsSectorOfFile, KeepsImage, IsCopyable, OnlyReads, RefusesToShow, WritesOut, WritesOutPart};
ghost use Rattle.runner.specs.Bytes.{WritesBeginning};

use crate::faults::{ProgramFault, report};
use crate::files::{disk_in, settled};
use crate::places::held_places;
use command_words::cat_words;
use disk_model::{DiskFault, FileContents, SectorDisk, Unknown};
use host_files::open_to_show;
use runner::{WriteFault, write_bytes};
use std::alloc::Global;
use std::fs::{File, Files};
use std::io::{Read, Write};
use stores::{OpenFault, Store};
use thiserror::Error;
use vm_types::{FilePage, PAGE_BYTES};

/// `pagecat IMAGE N`: opens the image, of whichever layout, which carries out what a stop left, and writes the bytes of file N to `writer`, a
/// page at a time. An image that may not be written is only read, and no page may stand in a journal or a slot alone then.
///
/// Returns the exit status: 0 done; 1 a fault; 2 other words. For 1 and 2 one line on `errors` says why.
pub fn pagecat<R: Files<File = File> + AllocGlobal, I: Read, O: Write, X: Write>(
    rt: &R,
    words: &[String],
    _reader: &mut I,
    writer: &mut O,
    errors: &mut X,
) -> u8
    ensures statuses { result ≤ 2 }
{
    let shown = show_file::<Unknown, R, O>(rt, words, writer);
    report("pagecat", shown.map(|()| 0), errors)
}

fn show_file<'a, C: FileContents, R: Files<File = File> + AllocGlobal, O: Write>(
    rt: &R,
    words: &'a [String],
    writer: &mut O,
) -> Result<(), ProgramFault<'a>> {
    let words = cat_words(rt.alloc(), words)?;
    let _places = held_places(rt)?;
    let disk = disk_in::<C>(words.image, open_to_show(rt, words.image))?;
    let disk = settled(disk, ProgramFault::Open(OpenFault::Device))?;
    match show(rt.alloc(), disk, words.file, writer) {
        Ok(_) => Ok(()),
        Err((fault, _)) => Err(told(fault, words.file)),
    }
}

fn told<'a>(fault: ShowFault, file: u32) -> ProgramFault<'a> {
    match fault {
        ShowFault::Open(fault) => ProgramFault::Open(fault),
        ShowFault::NoFile => ProgramFault::NoFile(file),
        ShowFault::Read => ProgramFault::ReadFailed,
        ShowFault::Write => ProgramFault::WriteFailed,
    }
}

/// Why a file was not shown. `Display` gives it as the program tells it, which adds the file's number.
#[derive(Clone, Copy, Debug, PartialEq, Eq, Error)]
pub enum ShowFault {
    /// The image could not be opened.
    #[error("open {} {}", *.0 as u8, *.0)]
    Open(OpenFault),
    /// The image has no file of that number.
    #[error("no file")]
    NoFile,
    /// The device failed while the file was read.
    #[error("read failed")]
    Read,
    /// The writer failed, or took no bytes.
    #[error("{}", WriteFault)]
    Write,
}

impl From<CopyFault> for ShowFault {
    ghost use Rattle.programs.specs.Faults.{show_fault};

    ghost from_gives = { λ fault shown. shown ≡ show_fault fault };

    fn from(fault: CopyFault) -> Self {
        match fault {
            CopyFault::Read => ShowFault::Read,
            CopyFault::Write => ShowFault::Write,
        }
    }
}

/// Opens the image on a device, as a stop left it or as whoever had it last in this program, who may have left writes
/// unsynced, and writes the bytes of a file, as the image stood for them, to the writer. Where nothing was unsynced, every
/// image that a stop might leave meanwhile stands for what the device did at first, and for what it did before any earlier stop.
///
/// After a fault the writer took a beginning of the bytes, and after `Open` none. `Open` reports a bad layout or a bad
/// journal exactly where the image has one, unless memory is short or the device fails first, and the device only where it failed
/// (`Store::open`); the other faults come only once the image is open: `NoFile` where it has no file of that number,
/// `Read` only where the device failed, and `Write` where the writer failed or took no bytes. Each fault hands the device back,
/// and no failure of it is forgotten. An image that is no store has had nothing written. No sector is asked for but those that an
/// opening asks for and the file's own, and what lies outside of journals, pool and homes stays.
pub fn show<D: SectorDisk + Drop, W: Write>(
    alloc: Global,
    disk: D,
    file: u32,
    writer: &mut W,
) -> Result<Store<D>, (ShowFault, D)>
    ensures writes { IfOk result (λ store. WritesOut D.SectorDisk file disk store (W.contents writer.old) (W.contents writer.new)) }
    ensures keeps { IfOk result (λ store. KeepsImage D.SectorDisk file disk (disk_of store)) }
    ensures refuses { IfErr result (λ e. RefusesToShow D.SectorDisk file disk e.0 e.1) }
    ensures begins { IfErr result (λ e. WritesOutPart D.SectorDisk file disk e.0 e.1 (W.contents writer.old) (W.contents writer.new)) }
    ensures err_keeps { IfErr result (λ e. KeepsImage D.SectorDisk file disk e.1) }
{
    let mut store = match Store::open(alloc, disk) {
        Ok(store) => store,
        Err((fault, disk)) => return Err((ShowFault::Open(fault), disk)),
    };
    match show_opened(&mut store, file, writer) {
        Ok(()) => Ok(store),
        Err(fault) => Err((fault, store.into_disk())),
    }
}

/// Writes the bytes of a file of an open store to the writer; after a fault it took a beginning of them. Nothing is written
/// to the device, which is asked for the sectors of that file alone.
///
/// # Errors
///
/// `NoFile` exactly where the store has no such file, `Read` only where the device failed, and `Write` where the writer did.
pub fn show_opened<D: SectorDisk, W: Write>(
    store: &mut Store<D>,
    file: u32,
    writer: &mut W,
) -> Result<(), ShowFault>
    requires ready { IsReadyStore D.SectorDisk store.old }
    ensures reads { OnlyReads D.SectorDisk (IsSectorOfFile store.old file) store.old store.new }
    ensures some { OnOk result ((info : FileInfo) × (files_of store.old file ≡ Some info)) }
    ensures unopened { (fault : OpenFault) → IsErrOf result (ShowFault.Open fault) → ⊥ }
    ensures none { IsErrOf result ShowFault.NoFile → files_of store.old file ≡ None }
    ensures blames { BlamesDevice (D.failures (disk_of store.old)) (D.failures (disk_of store.new)) ShowFault.Read result }
    ensures written { D.keeps_model (disk_of store.new) → (bytes : List ℕ) → standing_file (D.sector_count (disk_of store.old)) (D.content (disk_of store.old)) file ≡ Some bytes
        → MatchResult result
        (λ _. Appends (W.contents writer.old) (W.contents writer.new) bytes)
        (λ _. WritesBeginning (W.contents writer.old) (W.contents writer.new) bytes) }
{
    let Some(info) = store.info(u64::from(file)) else {
        return Err(ShowFault::NoFile);
    };
    copy_file(store, file as u16, info.length, writer)?;
    Ok(())
}

/// Why a file was not written out whole.
#[derive(Clone, Copy)]
enum CopyFault {
    /// The device failed.
    Read,
    /// The writer failed, or took no bytes.
    Write,
}

impl From<DiskFault> for CopyFault {
    ghost use Rattle.programs.specs.declared.showing.CopyFault.TheVariants.{Read as ReadFailed};

    ghost from_gives = { λ _ fault. fault ≡ ReadFailed };

    fn from(_: DiskFault) -> Self {
        CopyFault::Read
    }
}

impl From<WriteFault> for CopyFault {
    ghost use Rattle.programs.specs.declared.showing.CopyFault.TheVariants.{Write as WriteFailed};

    ghost from_gives = { λ _ fault. fault ≡ WriteFailed };

    fn from(_: WriteFault) -> Self {
        CopyFault::Write
    }
}

/// Writes the bytes of a file to the writer. After a fault it took a beginning of them; `Read` comes only where the
/// device failed.
fn copy_file<D: SectorDisk, W: Write>(
    store: &mut Store<D>,
    file: u16,
    length: u64,
    writer: &mut W,
) -> Result<(), CopyFault>
    requires ready { IsReadyStore D.SectorDisk store.old }
    requires file { (info : FileInfo) × (files_of store.old file ≡ Some info) × (info.length ≡ length) }
    ensures reads { OnlyReads D.SectorDisk (IsSectorOfFile store.old file) store.old store.new }
    ensures blames { BlamesDevice (D.failures (disk_of store.old)) (D.failures (disk_of store.new)) CopyFault.Read result }
    ensures written { D.keeps_model (disk_of store.new) → (bytes : List ℕ) → standing_file (D.sector_count (disk_of store.old)) (D.content (disk_of store.old)) file ≡ Some bytes
        → MatchResult result
        (λ _. Appends (W.contents writer.old) (W.contents writer.new) bytes)
        (λ _. WritesBeginning (W.contents writer.old) (W.contents writer.new) bytes) }
{
    let mut page = [0; PAGE_BYTES];
    for k in 0..length.div_ceil(PAGE_BYTES as u64) as u32 {
        match copy_page(store, FilePage { file, page: k }, length, &mut page, writer) {
            Ok(()) => {}
            Err(fault) => return Err(fault),
        }
    }
    Ok(())
}

/// Writes the bytes of a page that lie inside its file to the writer.
fn copy_page<D: SectorDisk, W: Write>(
    store: &mut Store<D>,
    page: FilePage,
    length: u64,
    bytes: &mut [u8; 4096],
    writer: &mut W,
) -> Result<(), CopyFault>
    requires { IsCopyable D.SectorDisk store.old page length }
    ensures reads { OnlyReads D.SectorDisk (IsSectorOf store.old page) store.old store.new }
    ensures blames { BlamesDevice (D.failures (disk_of store.old)) (D.failures (disk_of store.new)) CopyFault.Read result }
    ensures written { D.keeps_model (disk_of store.new) → MatchResult result
        (λ _. Appends (W.contents writer.old) (W.contents writer.new)
        (take (bytes_inside length page.page) (standing_page (D.sector_count (disk_of store.old)) (D.content (disk_of store.old)) page.file page.page)))
        (λ _. WritesBeginning (W.contents writer.old) (W.contents writer.new)
        (take (bytes_inside length page.page) (standing_page (D.sector_count (disk_of store.old)) (D.content (disk_of store.old)) page.file page.page))) }
{
    store.read_page(page, bytes)?;
    let inside = (length as usize - PAGE_BYTES * page.page as usize).min(PAGE_BYTES);
    write_bytes(&bytes[..inside], writer)?;
    Ok(())
}

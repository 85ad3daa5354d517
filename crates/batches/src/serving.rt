//! Requests carried out one after the other.
ghost use Rattle.std.specs.Io.KnownBytes.{Consumes};
ghost use Rattle.std.specs.Prelude.{◌≡◌, ◌≢◌, ℕ, List, Result, OnOk, OnErr};
ghost use Rattle.batches.specs.Bringing.{CommitsBatch};
ghost use Rattle.batches.specs.Brought.{pages_in, bytes_in, IsBegunAnew, BringsPage};
ghost use Rattle.batches.specs.Pages.{given_page};
ghost use Rattle.batches.specs.declared.commits.BatchFault.{BatchFault as AFault};
ghost use Rattle.disk_model.specs.Moments.{Nothing, Touches};
ghost use Rattle.stores.specs.Store.{disk_of, kept_of, IsReadyStore};

use crate::batch::Batch;
use crate::commits::{BatchFault, commit_pages};
use crate::pages::check_page;
use crate::requests::{Request, next_request};
use disk_model::{DiskFault, SectorDisk};
use std::alloc::{AllocError, Global};
use std::io::{Read, Write};
use stores::Store;
use thiserror::Error;
use vm_types::FilePage;

/// How the requests of a client ended.
#[derive(Clone, Copy, Debug, PartialEq, Eq, Error)]
pub enum ServeEnd {
    /// The input ended between two batches.
    #[error("the input ended between two batches")]
    Done,
    /// The input failed, or ended within a request or a batch.
    #[error("the input ended within a batch")]
    Cut,
    /// A line was in no form.
    #[error("a line in no form")]
    BadLine,
    /// The device failed.
    #[error("{}", DiskFault)]
    Device,
    /// The output failed.
    #[error("write failed")]
    Output,
}

/// Carries out requests until the input ends or something fails: see docs/FORMATS.md for their forms and replies. A batch has room for as
/// many pages as the store always takes: for so many its memory is reserved, and the store makes room first where it has less. Nothing is
/// allocated after that.
///
/// # Errors
///
/// Where there is no room for a batch.
pub fn serve<D: SectorDisk, I: Read, O: Write>(
    alloc: Global,
    store: &mut Store<D>,
    input: &mut I,
    output: &mut O,
) -> Result<ServeEnd, AllocError>
    requires { IsReadyStore D.SectorDisk store.old }
{
    let mut batch = Batch::new(alloc, store.always_free_pages())?;
    if store.make_room_for(store.always_free_pages()).is_err() {
        return Ok(ServeEnd::Device);
    }
    for _ in 0..u64::MAX {
        if let Err(end) = serve_request(store, &mut batch, input, output) {
            return Ok(end);
        }
    }
    Ok(ServeEnd::Cut)
}

/// Carries out one request.
fn serve_request<D: SectorDisk, I: Read, O: Write>(
    store: &mut Store<D>,
    batch: &mut Batch,
    input: &mut I,
    output: &mut O,
) -> Result<(), ServeEnd>
    requires { IsReadyStore D.SectorDisk store.old }
    ensures { OnOk result (IsReadyStore D.SectorDisk store.new) }
{
    match next_request(input) {
        Request::Page(page) => take_page(batch, page, input),
        Request::Commit => commit_batch(store, batch, output),
        Request::Read(page) => show_page(store, page, output),
        Request::End if batch.is_begun() => Err(ServeEnd::Cut),
        Request::End => Err(ServeEnd::Done),
        Request::Fault => Err(ServeEnd::Cut),
        Request::Bad => {
            reply(output, b"bad-line\n")?;
            Err(ServeEnd::BadLine)
        }
    }
}

fn reply<O: Write>(output: &mut O, bytes: &[u8]) -> Result<(), ServeEnd> {
    if output.write_all(bytes).is_ok() && output.flush().is_ok() {
        Ok(())
    } else {
        Err(ServeEnd::Output)
    }
}

/// Replies with the name of a fault, and ends where it is the device's.
fn refuse<O: Write>(output: &mut O, fault: BatchFault) -> Result<(), ServeEnd>
    ensures { OnOk result (fault ≢ BatchFault.Device) }
{
    if writeln!(output, "{fault}").is_err() || output.flush().is_err() {
        return Err(ServeEnd::Output);
    }
    match fault {
        BatchFault::Device => Err(ServeEnd::Device),
        BatchFault::BadPages | BatchFault::ReadOnly => Ok(()),
    }
}

/// Takes the bytes of a page of the batch.
fn take_page<I: Read>(batch: &mut Batch, page: FilePage, input: &mut I) -> Result<(), ServeEnd>
    ensures brings { OnOk result ((bytes : List ℕ) × Consumes (I.remaining input.old) (I.remaining input.new) bytes × BringsPage batch.old batch.new page bytes) }
    ensures cut { OnErr result (batch.new ≡ batch.old) }
{
    let mut bytes = [0; 4096];
    if input.read_exact(&mut bytes).is_err() {
        return Err(ServeEnd::Cut);
    }
    batch.add(page, &bytes);
    Ok(())
}

/// Makes the batch durable, and begins the next one.
fn commit_batch<D: SectorDisk, O: Write>(
    store: &mut Store<D>,
    batch: &mut Batch,
    output: &mut O,
) -> Result<(), ServeEnd>
    requires { IsReadyStore D.SectorDisk store.old }
    ensures ready { OnOk result (IsReadyStore D.SectorDisk store.new) }
    ensures commits { (outcome : Result (Unit {0}) AFault) × CommitsBatch D.SectorDisk store.old store.new (pages_in batch.old) (given_page (bytes_in batch.old)) outcome }
    ensures begins { IsBegunAnew batch.old.most batch.new }
{
    let (pages, bytes) = batch.brought();
    let outcome = commit_pages(store, pages, bytes);
    batch.clear();
    match outcome {
        Ok(()) => reply(output, b"ok\n"),
        Err(fault) => refuse(output, fault),
    }
}

/// Replies with a page of the store. What the batch brings is not seen before it is durable.
fn show_page<D: SectorDisk, O: Write>(
    store: &mut Store<D>,
    page: FilePage,
    output: &mut O,
) -> Result<(), ServeEnd>
    requires { IsReadyStore D.SectorDisk store.old }
    ensures ready { OnOk result (IsReadyStore D.SectorDisk store.new) }
    ensures same { kept_of store.new ≡ kept_of store.old }
    ensures unwritten { D.keeps_model (disk_of store.new) → Touches D.SectorDisk Nothing (disk_of store.old) (disk_of store.new) }
{
    if !check_page(store, page) {
        return refuse(output, BatchFault::BadPages);
    }
    let mut bytes = [0; 4096];
    if store.read_page(page, &mut bytes).is_err() {
        return refuse(output, BatchFault::Device);
    }
    reply(output, b"ok\n")?;
    reply(output, &bytes)
}

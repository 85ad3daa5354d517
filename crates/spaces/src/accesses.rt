//! Loads, stores and fetches.
ghost use Rattle.std.specs.Prelude.{◌≡◌, ◌≤◌, ◌<◌, ◌+◌, ◌/◌, ◌%◌, false};
ghost use Rattle.vm_types.specs.Replies.{reply_of};
ghost use Rattle.vm_types.specs.Access.{loaded, with_number};
ghost use Rattle.vm_types.specs.Width.{byte_count};
ghost use Rattle.vm_types.specs.declared.command.Command.TheVariants.{Load, Store, Fetch};
ghost use Rattle.vm_types.specs.declared.number.Phys.{Phys};
ghost use Rattle.vm_types.specs.declared.width.Width.TheVariants.{Four};
ghost use Rattle.frames.specs.FrameTable.{IsFrame};
ghost use Rattle.sv39_walk.specs.Walk.{is_store};
ghost use Rattle.fault.specs.Outcome.{IsWalked};
ghost use Rattle.residency.specs.Picture.{picture_of};
ghost use Rattle.msync.specs.Shows.{IsSoundCore};
ghost use Rattle.spaces.specs.Accesses.{reply_for, CarriesRead, KeepsToPage, WritesNumber};
ghost use Rattle.spaces.specs.Calls.{Carries};

use crate::space::PAGE;
use byteorder::{ByteOrder, LittleEndian};
use disk_model::SectorDisk;
use fault::{AccessRefusal, access};
use memory::Memory;
use residency::Core;
use vm_types::{Access, Answer, Errno, FrameNo, Levels, Phys, StoredValue, Width};

/// The little-endian number of that width at that byte of a page.
fn read_number(page: &[u8; 4096], at: usize, width: Width) -> u64
    requires { at + byte_count width ≤ 4096 }
    ensures { result ≡ loaded page.now at (byte_count width) }
{
    LittleEndian::read_uint(&page[at..], usize::from(width.bytes()))
}

/// Writes a little-endian number at that byte of a page.
fn write_number(page: &mut [u8; 4096], at: usize, stored: StoredValue)
    requires { at + byte_count stored.width ≤ 4096 }
    ensures { page.new ≡ with_number page.old at (byte_count stored.width) stored.value }
{
    LittleEndian::write_uint(
        &mut page[at..],
        stored.value,
        usize::from(stored.width.bytes()),
    );
}

/// The frame of a place in memory.
fn frame_of<M: Levels>(frames: &Memory<M>, place: Phys) -> FrameNo
    requires { IsFrame frames.now (place.0 / 4096) }
    ensures { result.0 ≡ place.0 / 4096 }
{
    // The numbers of frames are under 65,536 (brings in that the table of frames is sound).
    let _ = frames.len();
    FrameNo((place.0 / PAGE) as u32)
}

/// What an access returns that has no place in memory.
fn refused(refusal: AccessRefusal) -> Answer
    ensures { result ≡ reply_for refusal }
{
    match refusal {
        AccessRefusal::Fault(fault) => Answer::Faulted(fault),
        AccessRefusal::Stall(stall) => Answer::Stalled(stall),
    }
}

/// Reads a little-endian number of that width at an address, in bytes, of the process, as data or as an instruction.
fn read<D: SectorDisk, E: SectorDisk, M: Levels>(
    core: &mut Core<D, E, M>,
    pid: u64,
    addr: u64,
    width: Width,
    kind: Access,
) -> Answer
    requires sound { IsSoundCore D.SectorDisk E.SectorDisk core.old }
    requires kind { is_store kind ≡ false }
    ensures comes { CarriesRead D.SectorDisk E.SectorDisk core.old core.new pid addr width kind (reply_of result) }
    ensures keeps { KeepsToPage D.SectorDisk E.SectorDisk core.old core.new pid addr kind (reply_of result) }
    ensures walked { (place : Phys) → IsWalked (picture_of core.old) pid addr width kind place → core.new ≡ core.old }
{
    let Some(pid) = core.live(pid) else {
        return Answer::Refused(Errno::ESRCH);
    };
    match access(core, pid, addr, width, kind) {
        Ok(place) => {
            let frame = frame_of(&core.frames, place);
            let page = core.frames.bytes(frame);
            let value = read_number(page, (addr % PAGE) as usize, width);
            Answer::Value { width, value }
        }
        Err(refusal) => refused(refusal),
    }
}

/// Reads a little-endian number of that width at an address, in bytes, of the process.
///
/// `ESRCH` where there is no such process. Else the first of these that holds is the fault (its order is our choice;
/// sigaction(2), si_code): the address is no multiple of the width, its page isn't mapped, the permission lacks the access,
/// the page lies past the file's end. Where none holds, the load may stall, and only where a frame is wanted: `NoFrames` where
/// the tables of all processes and two more frames fill memory, `NoSwap` where slots are fewer than own copies and touched file
/// pages, `SwapDevice` where that device failed as a frame was given up or the page was brought back, `StoreDevice` where that one
/// failed as the page was read from its file; then nobody sees a change. Whatever the devices do, no process sees another page
/// than this one otherwise.
pub fn load<D: SectorDisk, E: SectorDisk, M: Levels>(
    core: &mut Core<D, E, M>,
    pid: u64,
    addr: u64,
    width: Width,
) -> Answer
    requires sound { IsSoundCore D.SectorDisk E.SectorDisk core.old }
    ensures comes { Carries D.SectorDisk E.SectorDisk core.old core.new (Load pid addr width) (reply_of result) }
    ensures keeps { KeepsToPage D.SectorDisk E.SectorDisk core.old core.new pid addr Access.Load (reply_of result) }
    ensures walked { (place : Phys) → IsWalked (picture_of core.old) pid addr width Access.Load place → core.new ≡ core.old }
{
    read(core, pid, addr, width, Access::Load)
}

/// Reads an instruction, the little-endian number of four bytes at an address, in bytes, of the process.
///
/// `ESRCH`, faults and stalls are those of a load; the address is to be a multiple of 4 (our choice).
pub fn fetch<D: SectorDisk, E: SectorDisk, M: Levels>(
    core: &mut Core<D, E, M>,
    pid: u64,
    addr: u64,
) -> Answer
    requires sound { IsSoundCore D.SectorDisk E.SectorDisk core.old }
    ensures comes { Carries D.SectorDisk E.SectorDisk core.old core.new (Fetch pid addr) (reply_of result) }
    ensures keeps { KeepsToPage D.SectorDisk E.SectorDisk core.old core.new pid addr Access.Fetch (reply_of result) }
    ensures walked { (place : Phys) → IsWalked (picture_of core.old) pid addr Four Access.Fetch place → core.new ≡ core.old }
{
    read(core, pid, addr, Width::Four, Access::Fetch)
}

/// Writes a little-endian number at an address, in bytes, of the process: through a shared page into the file page, which
/// is touched then, and else into the page's own copy.
///
/// `ESRCH`, faults and stalls are those of a load; a store that faults or stalls changes nothing that anybody sees.
pub fn store<D: SectorDisk, E: SectorDisk, M: Levels>(
    core: &mut Core<D, E, M>,
    pid: u64,
    addr: u64,
    stored: StoredValue,
) -> Answer
    requires sound { IsSoundCore D.SectorDisk E.SectorDisk core.old }
    ensures comes { Carries D.SectorDisk E.SectorDisk core.old core.new (Store pid addr stored) (reply_of result) }
    ensures keeps { KeepsToPage D.SectorDisk E.SectorDisk core.old core.new pid addr Access.Store (reply_of result) }
    ensures walked { (place : Phys) → IsWalked (picture_of core.old) pid addr stored.width Access.Store place → WritesNumber core.old core.new (place.0 / 4096) (addr % 4096) stored }
{
    let Some(pid) = core.live(pid) else {
        return Answer::Refused(Errno::ESRCH);
    };
    match access(core, pid, addr, stored.width, Access::Store) {
        Ok(place) => {
            let frame = frame_of(&core.frames, place);
            let page = core.frames.bytes_mut(frame);
            write_number(page, (addr % PAGE) as usize, stored);
            Answer::Done
        }
        Err(refusal) => refused(refusal),
    }
}

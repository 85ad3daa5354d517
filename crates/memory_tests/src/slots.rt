//! Pages in slots, and their shares.
ghost use Rattle.swap.specs.Slots.{IsReady};

use crate::bench::equal;
use disk_model::{SectorDisk, SimDisk};
use std::process::Abort;
use std::test::Fail;
use swap::{PutFault, Swap};
use vm_types::SlotNo;

/// A call on slots; a page is one byte throughout.
#[derive(Clone, Copy)]
enum Step {
    Put(u8),
    Get(SlotNo),
    Share(SlotNo),
    Release(SlotNo),
}

/// The slot of a page that was put, the byte of one that was got, or how many share the slot after the call.
fn answer_to<D: SectorDisk>(
    rt: &impl Abort,
    swap: &mut Swap<D>,
    step: Step,
) -> Result<u32, PutFault>
    requires { IsReady D.SectorDisk swap.old }
    ensures { IsReady D.SectorDisk swap.new }
{
    match step {
        Step::Put(byte) => Ok(swap.put(&[byte; 4096])?.0),
        Step::Get(n) => {
            assert!(rt; n.0 < swap.len());
            assert!(rt; swap.count(n) > 0);
            let mut page = [0; 4096];
            swap.get(n, &mut page)?;
            Ok(u32::from(page[4095]))
        }
        Step::Share(n) => {
            assert!(rt; n.0 < swap.len());
            assert!(rt; swap.count(n) > 0);
            assert!(rt; swap.count(n) < 64);
            swap.share(n);
            Ok(u32::from(swap.count(n)))
        }
        Step::Release(n) => {
            assert!(rt; n.0 < swap.len());
            assert!(rt; swap.count(n) > 0);
            swap.release(n);
            Ok(u32::from(swap.count(n)))
        }
    }
}

/// Two slots on a device that fails once, while the second page is put.
fn carry_out<D: SectorDisk>(rt: &impl Abort, swap: &mut Swap<D>)
    requires { IsReady D.SectorDisk swap.old }
{
    let (first, second) = (SlotNo(0), SlotNo(1));
    for (step, answer, free) in [
        (Step::Put(1), Ok(0), 1),
        (Step::Put(2), Err(PutFault::Device), 1),
        (Step::Put(2), Ok(1), 0),
        (Step::Put(3), Err(PutFault::Full), 0),
        (Step::Get(first), Ok(1), 0),
        (Step::Get(second), Ok(2), 0),
        (Step::Share(first), Ok(2), 0),
        (Step::Release(first), Ok(1), 0),
        (Step::Release(first), Ok(0), 1),
        (Step::Put(4), Ok(0), 0),
        (Step::Get(first), Ok(4), 0),
    ] {
        let got = answer_to(rt, swap, step);
        equal(
            rt,
            (got, swap.free_slots(), swap.is_full()),
            (answer, free, free == 0),
        );
    }
}

// A page is eight calls of the device.
#[test]
fn slots_give_back_what_was_put(rt: HostRuntime) -> Result<(), Fail> {
    let mut disk = SimDisk::new(rt.alloc(), 16)?;
    disk.fail_at(12);
    let mut swap = Swap::new(rt.alloc(), disk, 2)?;
    carry_out(&rt, &mut swap);
    Ok(())
}

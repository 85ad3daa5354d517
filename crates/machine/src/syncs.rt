//! msync: pages made durable through the store.
ghost use Rattle.std.specs.Prelude.{◌≡◌, false};
ghost use Rattle.vm_types.specs.Replies.{reply_of};
ghost use Rattle.vm_types.specs.declared.command.Command.TheVariants.{Msync};
ghost use Rattle.msync.specs.Shows.{HasSyncRoom, IsSoundCore};
ghost use Rattle.machine.specs.EngineCommands.{EngineCarriesOut};

use crate::engine::Engine;
use disk_model::{SectorDisk, WriteZeros};
use spaces::SyncCall;
use vm_types::{Answer, Errno, Levels, MsyncMode};

impl<D: WriteZeros, E: SectorDisk, M: Levels> Engine<D, E, M> {
    /// Makes the touched pages of a range durable, and the whole of each file of another length that it shows, all at once; `EIO`
    /// halts the machine. It stalls where a slot could not be read, and returns `ENOSPC` where there are too many pages, or the store
    /// has no room for pages and lengths; then nobody sees a change, and the machine goes on.
    pub(crate) fn msync(&mut self, pid: u64, addr: u64, len: u64, mode: MsyncMode) -> Answer
        requires going { IsSoundCore D.SectorDisk E.SectorDisk self.old.core }
        requires room { HasSyncRoom D.SectorDisk self.old.core self.old.sync_room }
        requires running { self.old.halted ≡ false }
        ensures { EngineCarriesOut D.SectorDisk E.SectorDisk self.old self.new (Msync pid addr len mode) (reply_of result) }
    {
        let call = SyncCall {
            pid,
            addr,
            len,
            mode,
        };
        let answer = spaces::msync(&mut self.core, &mut self.sync_room, call);
        self.halted = answer == Answer::Refused(Errno::EIO);
        answer
    }
}

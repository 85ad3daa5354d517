//! The root tables and the regions of the processes.
ghost use Rattle.std.specs.Prelude.{◌≡◌, ℕ, true, Some, None};
ghost use Rattle.std.specs.Option.{option_map};
ghost use Rattle.page_tables.specs.Tree.{IsSpare};
ghost use Rattle.regions.specs.RunList.{attr_at};
ghost use Rattle.residency.specs.Picture.{picture_of, number_of_frame, is_live};
ghost use Rattle.residency.specs.Steps.{Spawns, Remaps, Exits};
ghost use Rattle.residency.specs.Calls.{KeepsBesideProcesses, KeepsBesideTrees};

use crate::kernel::Core;
use regions::Regions;
use vm_types::{FrameNo, Levels, Pid};

impl<D, E, M: Levels> Core<D, E, M> {
    ghost use Rattle.std.specs.Prelude.{IfSome, is_some};
    ghost use Rattle.frames.specs.FrameTable.{IsFrame};
    ghost use Rattle.residency.specs.Parts.{IsFit};

    /// The frame that is looked at first when one is to be given up.
    pub fn hand(&self) -> FrameNo
        ensures hand { result.0 ≡ self.now.clock.hand }
        ensures inside { IsFrame self.now.frames result.0 }
    {
        self.clock.hand()
    }

    /// The process of that number, exactly where it lives.
    pub fn live(&self, number: u64) -> Option<Pid>
        requires fit { IsFit (picture_of self.now) }
        ensures known { is_some result ≡ is_live (picture_of self.now) number }
        ensures found { IfSome result (λ pid. (pid ≡ number) × (is_live (picture_of self.now) pid ≡ true)) }
    {
        let pid = Pid::new(number)?;
        self.root(pid).map(|_| pid)
    }

    /// The root table of a process; `None` exactly where no process of that number lives.
    pub fn root(&self, pid: Pid) -> Option<FrameNo>
        ensures { option_map number_of_frame result ≡ (picture_of self.now).root pid }
    {
        self.roots[usize::from(pid.get())]
    }

    /// The regions of a live process.
    pub fn regions(&self, pid: Pid) -> &Regions<M>
        requires live { is_live (picture_of self.now) pid ≡ true }
        ensures { (page : ℕ) → attr_at result.now page ≡ (picture_of self.now).at pid page }
    {
        &self.regions[usize::from(pid.get())]
    }

    /// Makes a process of that number, which no live process has, with that root table and without a page.
    pub fn add_process(&mut self, pid: Pid, root: FrameNo)
        requires dead { (picture_of self.old).root pid ≡ None }
        ensures spawns { Spawns (picture_of self.old) (picture_of self.new) pid root.0 }
        ensures rest { KeepsBesideProcesses self.old self.new }
    {
        let place = usize::from(pid.get());
        self.roots[place] = Some(root);
        self.regions[place].clear();
    }

    /// Gives a live process these regions, whatever entries its pages have. No more than their runs are copied.
    pub fn remap(&mut self, pid: Pid, regions: &Regions<M>)
        requires live { is_live (picture_of self.old) pid ≡ true }
        ensures remaps { Remaps (picture_of self.old) (picture_of self.new) pid }
        ensures at { (page : ℕ) → (picture_of self.new).at pid page ≡ attr_at regions.now page }
        ensures roots { self.new.roots ≡ self.old.roots }
        ensures rest { KeepsBesideProcesses self.old self.new }
    {
        self.regions[usize::from(pid.get())].assign(regions);
    }

    /// Ends a live process whose root table has no entry: the table is free, and so is its number.
    pub fn remove_process(&mut self, pid: Pid)
        requires live { is_live (picture_of self.old) pid ≡ true }
        requires spare { (r : ℕ) → (picture_of self.old).root pid ≡ Some r → IsSpare self.old.frames r }
        ensures exits { (r : ℕ) × Exits (picture_of self.old) (picture_of self.new) pid r }
        ensures rest { KeepsBesideTrees self.old self.new }
    {
        let place = usize::from(pid.get());
        if let Some(root) = self.roots[place] {
            self.frames.release_root(root);
            self.roots[place] = None;
        }
    }
}

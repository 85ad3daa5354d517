//! The model: what is mapped, what it shows, and what stands after a stop.
use crate::files::{File, first_byte, is_due, is_whole, length_of, page_of, taken};
use crate::pages::{Bytes, CommonPage, Page, Range, backing, behind, is_cut_off};
use std::alloc::{AllocError, Global};
use vm_types::{
    Backing, Code, Command, Errno, Fault, MapSource, Mode, MsyncMode, PageKey, Pid, Placing, Reply,
    StoredValue, Width,
};

/// The most processes.
const PROCESSES: u64 = 64;

/// The most bytes of a file.
const LONGEST: u64 = 1 << 42;

/// The first user page.
const USER_START: u64 = 16;

/// The process that a command names.
fn process_of(command: Command) -> Option<u64> {
    match command {
        Command::Spawn | Command::Truncate { .. } | Command::PastFaults => None,
        Command::Fork { pid }
        | Command::Exit { pid }
        | Command::Mmap { pid, .. }
        | Command::Munmap { pid, .. }
        | Command::Mprotect { pid, .. }
        | Command::Dontneed { pid, .. }
        | Command::Msync { pid, .. }
        | Command::Load { pid, .. }
        | Command::Store { pid, .. }
        | Command::Fetch { pid, .. } => Some(pid),
    }
}

/// Processes, each a list of pages that may be read and written, and files of zeros at first.
#[derive(Clone, Drop)]
pub struct Flat {
    /// How many levels of tables address spaces have.
    mode: Mode,
    /// The most touched pages that one msync takes.
    most: usize,
    /// Files may get other lengths.
    resizes: bool,
    /// The numbers of the processes that live.
    live: Vec<u64>,
    pages: Vec<Page>,
    files: Vec<File>,
    /// The pages of files and of objects that were stored to.
    common: Vec<CommonPage>,
}

impl Flat {
    /// No process, address spaces of that mode, files of so many zeros, which may get other lengths or not, and msyncs that take so many pages at most.
    pub fn new(
        alloc: Global,
        mode: Mode,
        most: usize,
        resizes: bool,
        lengths: &[u32],
    ) -> Result<Flat, AllocError> {
        let mut flat = Flat {
            mode,
            most,
            resizes,
            live: Vec::new(alloc),
            pages: Vec::new(alloc),
            files: Vec::new(alloc),
            common: Vec::new(alloc),
        };
        for length in lengths {
            flat.files.push(File::new(u64::from(*length)))?;
        }
        Ok(flat)
    }

    /// Carries out a command, and returns its reply. Commands that the tests don't use have the reply of a halted machine.
    pub fn step(&mut self, command: Command) -> Result<Reply, AllocError> {
        match process_of(command) {
            Some(pid) if !self.live.contains(&pid) => return Ok(Reply::Refused(Errno::ESRCH)),
            _ => {}
        }
        match command {
            Command::Spawn => self.begin(0),
            Command::Fork { pid } => self.begin(pid),
            Command::Exit { pid } => Ok(self.end(pid)),
            Command::Mmap {
                pid,
                addr,
                len,
                source,
                placing,
                ..
            } => {
                let range = self.placed(Range::new(pid, addr, len), placing);
                self.map(range, source)
            }
            Command::Munmap { pid, addr, len } => Ok(self.unmap(Range::new(pid, addr, len))),
            Command::Dontneed { pid, addr, len } => {
                Ok(self.drop_copies(Range::new(pid, addr, len)))
            }
            Command::Msync {
                pid,
                addr,
                len,
                mode: MsyncMode::Sync,
            } => Ok(self.sync(Range::new(pid, addr, len))),
            Command::Truncate { file, length } => self.truncate(file, length),
            Command::Load { pid, addr, width } => Ok(self.load(pid, addr, width)),
            Command::Store { pid, addr, stored } => self.store(pid, addr, stored),
            Command::Msync { .. }
            | Command::Mprotect { .. }
            | Command::Fetch { .. }
            | Command::PastFaults => Ok(Reply::Halted),
        }
    }

    /// How many processes live.
    pub fn processes(&self) -> usize {
        self.live.len()
    }

    /// How many page tables the processes need: the root of each, and for each table of the lower levels, two of them in Sv39 and
    /// three in Sv48, one that is the first to need it (RISC-V Privileged Specification, "Sv39", "Sv48").
    pub fn tables(&self) -> usize {
        let shifts: &[u32] = match self.mode {
            Mode::Sv39 => &[9, 18],
            Mode::Sv48 => &[9, 18, 27],
        };
        let mut count = self.live.len();
        for shift in shifts {
            count = count.saturating_add(self.distinct(*shift));
        }
        count
    }

    /// How many rows of `2 ^ shift` pages have a mapped one, counted for each process.
    fn distinct(&self, shift: u32) -> usize {
        let mut count: usize = 0;
        for (i, page) in self.pages.iter().enumerate() {
            let mut earlier = self.pages.iter().take(i);
            if !earlier.any(|other| {
                other.pid == page.pid
                    && other.number.wrapping_shr(shift) == page.number.wrapping_shr(shift)
            }) {
                count = count.saturating_add(1);
            }
        }
        count
    }

    /// How many pages only memory or swap can hold: own copies, touched pages of files, and pages of objects.
    pub fn held(&self) -> usize {
        let own = self.pages.iter().filter(|page| page.own.is_some()).count();
        let common = self
            .common
            .iter()
            .filter(|common| common.is_touched)
            .count();
        own.saturating_add(common)
    }

    /// What the pages of the files hold after a stop, file by file.
    pub fn durable(&self, alloc: Global) -> Result<Vec<u8>, AllocError> {
        let mut bytes = Vec::new(alloc);
        for (number, file) in self.files.iter().enumerate() {
            for page in 0..file.durable.div_ceil(4096) {
                bytes.extend_from_slice(&self.durable_page(number as u64, page))?;
            }
        }
        Ok(bytes)
    }

    /// What a page of a file holds after a stop.
    fn durable_page(&self, file: u64, page: u64) -> Bytes {
        let key = PageKey::File(page_of(file, page));
        match self.common.iter().find(|common| common.key == key) {
            Some(common) => common.durable,
            None => [0; 4096],
        }
    }

    /// How long a file is after a stop, or none where there is none.
    pub fn durable_length(&self, file: u16) -> Option<u64> {
        let file = self.files.get(usize::from(file))?;
        Some(file.durable)
    }

    /// A process more, with the pages of another. No process is number 0.
    fn begin(&mut self, parent: u64) -> Result<Reply, AllocError> {
        for number in 1..=PROCESSES {
            if let (false, Some(pid)) = (self.live.contains(&number), Pid::new(number)) {
                self.live.push(number)?;
                self.copy_pages(parent, number)?;
                return Ok(Reply::Process(pid));
            }
        }
        Ok(Reply::Refused(Errno::EAGAIN))
    }

    fn copy_pages(&mut self, parent: u64, child: u64) -> Result<(), AllocError> {
        for i in 0..self.pages.len() {
            match self.pages.get(i).copied() {
                Some(page) if page.pid == parent => self.pages.push(Page { pid: child, ..page })?,
                _ => {}
            }
        }
        Ok(())
    }

    fn end(&mut self, pid: u64) -> Reply {
        self.live.retain(|other| *other != pid);
        self.pages.retain(|page| page.pid != pid);
        self.forget_objects();
        Reply::Done
    }

    /// Where a mapping goes: where it is asked for, or else to the lowest free pages, as many as those.
    fn placed(&self, asked: Range, placing: Placing) -> Range {
        if placing == Placing::Fixed {
            return asked;
        }
        let count = asked.end.saturating_sub(asked.first);
        let mut range = asked.moved(USER_START, count);
        for _ in 0..self.pages.len() {
            if let Some(page) = self.pages.iter().find(|page| range.has(page)) {
                range = asked.moved(page.number.saturating_add(1), count);
            }
        }
        range
    }

    fn map(&mut self, range: Range, source: MapSource) -> Result<Reply, AllocError> {
        self.unmap(range);
        let object = self.free_object();
        for number in range.first..range.end {
            self.pages.push(Page {
                pid: range.pid,
                number,
                backing: backing(source, object, number.saturating_sub(range.first)),
                own: None,
            })?;
        }
        Ok(Reply::Address(range.first.saturating_mul(4096)))
    }

    /// The least number of an object that no page names.
    fn free_object(&self) -> u16 {
        for number in 0..u16::MAX {
            let mut pages = self.pages.iter();
            if !pages.any(
                |page| matches!(page.backing, Backing::Common(at) if at.object == number),
            ) {
                return number;
            }
        }
        u16::MAX
    }

    fn unmap(&mut self, range: Range) -> Reply {
        self.pages.retain(|page| !range.has(page));
        self.forget_objects();
        Reply::Done
    }

    /// Pages of objects that no page names are gone.
    fn forget_objects(&mut self) {
        let pages = &self.pages;
        self.common.retain(|common| match common.key {
            PageKey::File(_) => true,
            PageKey::Object(at) => pages.iter().any(|page| page.backing == Backing::Common(at)),
        });
    }

    /// Whether all pages of a range are mapped.
    fn covers(&self, range: Range) -> bool {
        let mapped = self.pages.iter().filter(|page| range.has(page)).count();
        mapped as u64 == range.end.saturating_sub(range.first)
    }

    fn drop_copies(&mut self, range: Range) -> Reply {
        if !self.covers(range) {
            return Reply::Refused(Errno::ENOMEM);
        }
        for page in self.pages.iter_mut() {
            if range.has(page) {
                page.own = None;
            }
        }
        Reply::Done
    }

    fn sync(&mut self, range: Range) -> Reply {
        if !self.covers(range) {
            return Reply::Refused(Errno::ENOMEM);
        }
        let (pages, files) = (self.pages.as_slice(), self.files.as_slice());
        let due = self.common.iter();
        let due = due.filter(|common| is_due(pages, files, range, common));
        if due.count() > self.most {
            return Reply::Refused(Errno::ENOSPC);
        }
        for common in self.common.iter_mut() {
            if let Some(length) = taken(pages, files, range, common) {
                common.commit(length);
            }
        }
        for (number, file) in self.files.iter_mut().enumerate() {
            if is_whole(pages, range, number as u64, file) {
                file.commit();
            }
        }
        Reply::Done
    }

    fn truncate(&mut self, file: u64, length: u64) -> Result<Reply, AllocError> {
        let Some(was) = self.files.get(file as usize).map(|file| file.length) else {
            return Ok(Reply::Refused(Errno::EBADF));
        };
        if !self.resizes {
            return Ok(Reply::Refused(Errno::EINVAL));
        }
        if length > LONGEST {
            return Ok(Reply::Refused(Errno::EFBIG));
        }
        if length != was {
            self.resize(file, was, length)?;
        }
        Ok(Reply::Done)
    }

    /// Gives a file another length: what lies past the shorter one of both is gone. The page that it ended in is touched where it grows.
    fn resize(&mut self, file: u64, was: u64, length: u64) -> Result<(), AllocError> {
        for common in self.common.iter_mut() {
            if common.is_of(file) {
                common.cut(was.min(length));
            }
        }
        for page in self.pages.iter_mut() {
            if is_cut_off(page.backing, file, length) {
                page.own = None;
            }
        }
        if was < length && was % 4096 != 0 {
            let key = PageKey::File(page_of(file, was / 4096));
            let bytes = self.common_bytes(key);
            self.put_common(key, bytes)?;
        }
        if let Some(file) = self.files.get_mut(file as usize) {
            file.resize(length);
        }
        Ok(())
    }

    /// The page that an access reaches, or why it faults.
    fn reached(&self, pid: u64, addr: u64) -> Result<Page, Code> {
        let number = addr / 4096;
        let mut pages = self.pages.iter();
        let Some(page) = pages.find(|page| page.pid == pid && page.number == number) else {
            return Err(Code::SegvMaperr);
        };
        match behind(page.backing) {
            Some(PageKey::File(at)) if first_byte(at) >= length_of(self.files.as_slice(), at) => {
                Err(Code::BusAdrerr)
            }
            _ => Ok(*page),
        }
    }

    /// What a page shows.
    fn shown(&self, page: &Page) -> Bytes {
        match (page.own, behind(page.backing)) {
            (Some(bytes), _) => bytes,
            (None, Some(key)) => self.common_bytes(key),
            (None, None) => [0; 4096],
        }
    }

    /// What a page of a file or of an object shows.
    fn common_bytes(&self, key: PageKey) -> Bytes {
        match self.common.iter().find(|common| common.key == key) {
            Some(common) => common.shown,
            None => [0; 4096],
        }
    }

    fn load(&self, pid: u64, addr: u64, width: Width) -> Reply {
        match self.reached(pid, addr) {
            Ok(page) => {
                let bytes = self.shown(&page);
                let from = bytes
                    .iter()
                    .skip(addr as usize % 4096)
                    .take(usize::from(width.bytes()));
                let mut value = [0; 8];
                for (to, from) in value.iter_mut().zip(from) {
                    *to = *from;
                }
                Reply::Value {
                    width,
                    value: u64::from_le_bytes(value),
                }
            }
            Err(code) => Reply::Faulted(Fault {
                cause: 13,
                code,
                addr,
            }),
        }
    }

    fn store(&mut self, pid: u64, addr: u64, stored: StoredValue) -> Result<Reply, AllocError> {
        match self.reached(pid, addr) {
            Ok(page) => {
                let mut bytes = self.shown(&page);
                let to = bytes
                    .iter_mut()
                    .skip(addr as usize % 4096)
                    .take(usize::from(stored.width.bytes()));
                for (to, from) in to.zip(stored.value.to_le_bytes().iter()) {
                    *to = *from;
                }
                self.put(&page, bytes)?;
                Ok(Reply::Done)
            }
            Err(code) => Ok(Reply::Faulted(Fault {
                cause: 15,
                code,
                addr,
            })),
        }
    }

    /// Has a page show these bytes, which a store to it made.
    fn put(&mut self, page: &Page, bytes: Bytes) -> Result<(), AllocError> {
        if let (Some(key), Backing::Shared(_) | Backing::Common(_)) = (
            behind(page.backing),
            page.backing,
        ) {
            return self.put_common(key, bytes);
        }
        for other in self.pages.iter_mut() {
            if other.pid == page.pid && other.number == page.number {
                other.own = Some(bytes);
            }
        }
        Ok(())
    }

    fn put_common(&mut self, key: PageKey, bytes: Bytes) -> Result<(), AllocError> {
        if !self.common.iter().any(|common| common.key == key) {
            self.common.push(CommonPage::new(key))?;
        }
        for common in self.common.iter_mut() {
            if common.key == key {
                common.shown = bytes;
                common.is_touched = true;
            }
        }
        Ok(())
    }
}

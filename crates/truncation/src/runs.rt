//! The pages of a run that stand on pages of a file past a length.
ghost use Rattle.std.specs.Prelude.{◌≡◌, ℕ, ◌*◌, ◌<◌, ◌≤◌, false, IfSome, IfNone};
ghost use Rattle.vm_types.specs.Limits.{widest_end};
ghost use Rattle.truncation.specs.Steps.{IsFirstPast, is_run_past};

use regions::Run;
use vm_types::PAGE_BYTES;

/// The first page of a run that stands on a page of file `file` that begins at or past `length` bytes: so do all from there on. `None`
/// where none of its pages does.
pub(crate) fn first_past(run: Run, file: u16, length: u64) -> Option<u64>
    requires order { run.first ≤ run.end }
    requires high { run.end ≤ widest_end }
    ensures some { IfSome result (IsFirstPast run file length) }
    ensures none { IfNone result ((k : ℕ) → run.first ≤ k → k < run.end → is_run_past run file length k ≡ false) }
{
    let page = run.attr.backing.file_page()?;
    if page.file != file {
        return None;
    }
    let first = run.first + page_past(length).saturating_sub(u64::from(page.page));
    if first < run.end { Some(first) } else { None }
}

/// The number of the first page of a file that begins at or past `length` bytes.
fn page_past(length: u64) -> u64
    ensures past { length ≤ 4096 * result }
    ensures first { (k : ℕ) → length ≤ 4096 * k → result ≤ k }
{
    length.div_ceil(PAGE_BYTES as u64)
}

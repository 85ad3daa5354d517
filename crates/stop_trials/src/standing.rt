//! After how many msyncs the files stand.
ghost use Rattle.std.specs.Prelude.{◌≡◌, ◌↔◌, ℕ, IsTrue, IfSome, IfNone};
ghost use Rattle.stop_trials.specs.Standing.{IsStanding};

/// Whether a state has these bytes.
fn has_bytes(state: &Vec<u8>, bytes: &[u8]) -> bool
    ensures { IsTrue result ↔ (state.now.items ≡ bytes.now) }
{
    state.as_slice() == bytes
}

/// After how many msyncs the files stand that hold these bytes, where they stand after at least the acknowledged ones:
/// `states` are the bytes that they hold at first and after each msync. The least number of several; `None` exactly where no
/// such state has these bytes.
pub(crate) fn msyncs_standing(
    states: &[Vec<u8>],
    acknowledged: usize,
    bytes: &[u8],
) -> Option<usize>
    ensures found { IfSome result (λ n. IsStanding states.now acknowledged bytes.now n) }
    ensures none { IfNone result ((n : ℕ) → IsStanding states.now acknowledged bytes.now n → ⊥) }
{
    for n in acknowledged..states.len() {
        if has_bytes(&states[n], bytes) {
            return Some(n);
        }
    }
    None
}

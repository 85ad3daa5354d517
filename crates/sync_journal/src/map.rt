//! The journal map: which homes the pages of the body belong to.
ghost use Rattle.std.specs.Prelude.{◌≡◌, ◌<◌, ◌≤◌, ◌⊎◌, ◌+◌, ◌*◌, ◌++◌, ℕ, length, take, slice_index, MatchOption, replicate};
ghost use Rattle.std.specs.Bool.{OnTrue, OnFalse};
ghost use Rattle.sync_journal.specs.Layout.{page_limit};
ghost use Rattle.sync_journal.specs.Map.{AreFewHomes, HasNoHome, HasHomeTwice, IsBadMap, map_bytes, map_count, home_in};

use byteorder::{ByteOrder, LittleEndian};

/// Writes the map of these homes over zeros.
pub(crate) fn write_map(map: &mut [u8; 4096], homes: &[u32])
    requires few { length homes.now ≤ page_limit }
    requires blank { map.old ≡ replicate 4096 0 }
    ensures { map.new ≡ map_bytes homes.now }
{
    LittleEndian::write_u32(map, homes.len() as u32);
    LittleEndian::write_u32_into(homes, &mut map[4..4 + 4 * homes.len()]);
}

/// Reads the homes that a map names into the front of `homes`, for which the map has room, and returns how many they are.
/// `None` exactly where the map names more pages than that, a home that isn't under `limit` or a home twice.
pub(crate) fn read_homes(map: &[u8], limit: u64, homes: &mut [u32]) -> Option<usize>
    requires { length map.now ≡ 4 + 4 * length homes.old }
    ensures { MatchOption result (IsBadMap (length homes.old) limit map.now) (λ count. (count ≡ map_count map.now) × (count ≤ length homes.old)
        × ((j : ℕ) → j < count → slice_index homes.new j ≡ home_in map.now j) × AreFewHomes (length homes.old) limit (take count homes.new)) }
{
    let count = LittleEndian::read_u32(map) as usize;
    if count > homes.len() {
        return None;
    }
    read_numbers(map, &mut homes[..count]);
    if are_homes(&homes[..count], limit) {
        Some(count)
    } else {
        None
    }
}

// Fills `homes` with the first numbers after the count.
fn read_numbers(map: &[u8], homes: &mut [u32])
    requires { 4 + 4 * length homes.old ≤ length map.now }
    ensures { (j : ℕ) → j < length homes.new → slice_index homes.new j ≡ home_in map.now j }
{
    LittleEndian::read_u32_into(&map[4..4 + 4 * homes.len()], homes);
}

// Whether each home is under the limit, and none stands twice.
fn are_homes(homes: &[u32], limit: u64) -> bool
    ensures good { OnTrue result ((most : ℕ) → length homes.now ≤ most → AreFewHomes most limit homes.now) }
    ensures bad { OnFalse result (HasNoHome limit (λ j. slice_index homes.now j) (length homes.now)
        ⊎ HasHomeTwice (λ j. slice_index homes.now j) (length homes.now)) }
{
    for (j, home) in homes.iter().enumerate() {
        if u64::from(*home) >= limit || homes[..j].contains(home) {
            return false;
        }
    }
    true
}

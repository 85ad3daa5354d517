//! Devices that are rows of 512-byte sectors, and what a stop of such a device may leave.
//!
//! `SectorDisk` is what the store and the swap area ask of a device: POSIX `pread`, `pwrite` and `fsync`,
//! one sector at a time. Its contract says what a read gives, and which images a loss of power may leave at
//! any moment.
#![tactic(auto)]

mod asking;
mod file_disk;
mod ghost_data;
mod sector_disk;
mod sim_disk;
mod write_zeros;

pub use asking::Asked;
pub use file_disk::{FileContents, FileDisk, Unknown};
pub use ghost_data::{Count, Log};
pub use sector_disk::{DiskFault, SECTOR_BYTES, SectorDisk};
pub use sim_disk::{SimDisk, parts};
pub use write_zeros::WriteZeros;

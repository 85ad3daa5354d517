//! Whole traces under stops at each write and under each failing call of a device.
#![tactic(auto)]

#[cfg(test)]
mod bench;
#[cfg(test)]
mod cases;
#[cfg(test)]
mod faults;
#[cfg(test)]
mod fillings;
#[cfg(test)]
mod judge;
#[cfg(test)]
mod recoveries;
#[cfg(test)]
mod short_disk;
#[cfg(test)]
mod stops;

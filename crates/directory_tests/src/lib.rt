//! Tests of the kind and the directory of a store whose files grow.
#![tactic(auto)]

#[cfg(test)]
mod bench;
#[cfg(test)]
mod entries;
#[cfg(test)]
mod kinds;
#[cfg(test)]
mod layouts;

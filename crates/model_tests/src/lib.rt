//! Random commands on machines of few frames and slots, against the flat model.
#![tactic(auto)]

#[cfg(test)]
mod draws;
#[cfg(test)]
mod runs;
#[cfg(test)]
mod standing;

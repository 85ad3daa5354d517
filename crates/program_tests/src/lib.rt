//! Tests of the programs over files: images, streams and exit statuses, and what is refused.
#![tactic(auto)]

#[cfg(test)]
mod devices;
#[cfg(test)]
mod images;
#[cfg(test)]
mod looks;
#[cfg(test)]
mod newer_layouts;
#[cfg(test)]
mod pools;
#[cfg(test)]
mod refusals;
#[cfg(test)]
mod runs;
#[cfg(test)]
mod stops;
#[cfg(test)]
mod streams;
#[cfg(test)]
mod third_layout;

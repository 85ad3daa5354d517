//! Tests of the language of traces.
#![tactic(auto)]

#[cfg(test)]
mod numerals;
#[cfg(test)]
mod parsing;
#[cfg(test)]
mod texts;

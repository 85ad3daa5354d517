//! Failure-atomic msync for C programs: the plans of `sync_plans` behind functions that C calls, with a handle that says
//! whose turn it is. What a stop in the midst of a plan leaves is a theorem on each function of `exports`.
#![tactic(auto)]

mod codes;
mod exports;
mod handle;

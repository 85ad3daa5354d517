//! Objects of shared anonymous memory, which have numbers and pages, and what a frame or a slot may hold for all processes.

use crate::file::FilePage;

/// A page of an object: the object's number, and the page's, counted from 0 in pages of 4,096 bytes.
#[repr(C)]
#[derive(Clone, Copy, Debug, PartialEq, Eq)]
pub struct ObjectPage {
    pub object: u16,
    pub page: u64,
}

/// A page that stands behind pages of processes, and that all of them see alike: of a file or of an object.
#[derive(Clone, Copy, Debug, PartialEq, Eq)]
pub enum PageKey {
    File(FilePage),
    Object(ObjectPage),
}

//! Parts of a payload.

/// A part of some bytes.
#[repr(C)]
#[derive(Clone, Copy, Drop)]
pub struct NdefPart {
    /// Where it begins.
    pub at: usize,
    /// Its bytes.
    pub length: usize,
}

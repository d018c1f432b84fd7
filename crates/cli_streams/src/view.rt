//! A view in hexadecimal: the bytes of a frame that a program sees.

ghost use Rattle.std.specs.Prelude.{ℕ, ◌≡◌, ◌<◌, ◌≤◌, ◌⊎◌, List, length, Ok, IfOk, IfErr};
ghost use Rattle.hex.specs.Hex.{decode_of};

use bpf_machine::MAX_VIEW;
use hex::FromHexError;
use std::alloc::Global;
use thiserror::Error;

/// Why a word is no view.
#[derive(Clone, Copy, Debug, PartialEq, Eq, Error)]
pub enum ViewFault {
    /// It has an odd number of digits, a byte that is no hexadecimal digit, or more than
    /// [`MAX_VIEW`] bytes.
    #[error("view")]
    View,
    /// There is no memory for its bytes.
    #[error("memory")]
    Memory,
}

/// The bytes of a view that is written in hexadecimal digits of either case.
pub fn view_of(alloc: Global, text: &str) -> Result<Vec<u8>, ViewFault>
    ensures bytes { IfOk result (λ view. decode_of text.now ≡ Ok view.items) }
    ensures short { IfOk result (λ view. length view.items ≤ MAX_VIEW) }
    ensures fault { IfErr result (λ fault. (fault ≡ ViewFault.Memory) ⊎
        ((bytes : List ℕ) → decode_of text.now ≡ Ok bytes → MAX_VIEW < length bytes)) }
{
    match hex::decode(alloc, text) {
        Ok(view) if view.len() <= MAX_VIEW => Ok(view),
        Ok(_) => Err(ViewFault::View),
        Err(FromHexError::OutOfMemory) => Err(ViewFault::Memory),
        Err(_) => Err(ViewFault::View),
    }
}

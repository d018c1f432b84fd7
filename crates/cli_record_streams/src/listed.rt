//! The programs that files list.

use bpf_verify::Verified;
use cli_streams::{ListedFault, MAX_LISTING, bounded_text, listed_program};
use std::alloc::Global;
use std::io;
use std::io::Read;

/// Why a file gives no program.
#[derive(Drop)]
pub(crate) enum FilterFault {
    /// It can't be read, is no UTF-8, or is longer than a listing may be.
    File(io::Error),
    /// It lists no program that may be installed.
    Listed(ListedFault),
}

impl From<io::Error> for FilterFault {
    fn from(error: io::Error) -> FilterFault {
        FilterFault::File(error)
    }
}

impl From<ListedFault> for FilterFault {
    fn from(fault: ListedFault) -> FilterFault {
        FilterFault::Listed(fault)
    }
}

/// The program that an open file lists, which is valid.
pub(crate) fn program_in<F: Read>(alloc: Global, file: &mut F) -> Result<Verified, FilterFault> {
    let listing = bounded_text(alloc, MAX_LISTING, file)?;
    Ok(listed_program(alloc, listing.as_str())?)
}

//! The program that a text lists.

ghost use Rattle.std.specs.Prelude.{IfOk};
ghost use Rattle.cli_streams.specs.Listed.{Lists};

use bpf_insn::{ListingFault, parse_listing};
use bpf_verify::{Refused, Verified, verify};
use std::alloc::Global;

/// Why a text lists no program that may be installed.
#[derive(Debug, Drop)]
pub enum ListedFault {
    /// It is no listing.
    Listing(ListingFault),
    /// The program that it lists is refused.
    Refused(Refused),
}

impl From<ListingFault> for ListedFault {
    fn from(fault: ListingFault) -> ListedFault {
        ListedFault::Listing(fault)
    }
}

/// The program that a text lists, which is valid.
pub fn listed_program(alloc: Global, listing: &str) -> Result<Verified, ListedFault>
    ensures lists { IfOk result (λ program. Lists listing.now program) }
{
    match verify(parse_listing(alloc, listing)?) {
        Ok(program) => Ok(program),
        Err(refused) => Err(ListedFault::Refused(refused)),
    }
}

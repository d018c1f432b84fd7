//! The packet of the setup record.

ghost use Rattle.std.specs.Prelude.{ℕ, ◌≡◌, ◌++◌, ◌<◌, ◌≤◌, ◌^◌, List, Option, IfOk, MatchResult, length, string_bytes};
ghost use Rattle.std.specs.Int.{w32, to_le_bytes};
ghost use Rattle.ch11_clock.specs.CivilTime.{IsCivilTime};
ghost use Rattle.ch11_packet.specs.PacketLen.{written_len};
ghost use Rattle.ch11_packet.specs.Profiles.Profile.{WithSum};
ghost use Rattle.ch11_file.specs.FileBlocks.BlockContent.{SetupBlock};
ghost use Rattle.ch11_file.specs.WholeFile.{FileFacts, MergeState, SetupGoesNext, setup_text};
ghost use Rattle.ch11_file.specs.FileEnds.{HoldsFront};
ghost use Rattle.ch11_file.specs.Sending.{HasSent};

use crate::end::FileFault;
use crate::kind::{BlockHead, BlockKind, SETUP_WORD};
use crate::limits::MAX_SETUP_LEN;
use crate::sent::Sent;
use crate::setup::FileSetup;
use ch11_clock::CivilTime;
use ch11_setup::setup_text;
use std::alloc::{AllocError, Global};
use std::io::Write;

/// How many bytes of such a packet aren't text: its header, the word of its body, and its checksum.
const AROUND_TEXT_LEN: usize = 32;

/// Sends the setup record of a file whose first time packet has this tick and says this time.
pub(crate) fn put_setup<W: Write>(
    alloc: Global,
    setup: &FileSetup<'_>,
    time: CivilTime,
    tick: u64,
    sent: &mut Sent,
    out: &mut W,
) -> Result<(), FileFault>
    requires time { IsCivilTime time }
    requires number { length setup.now.channels.now < 2 ^ 16 }
    requires tick { tick < 2 ^ 48 }
    ensures { (facts : FileFacts) (before : Option (List ℕ)) (merge next : MergeState)
        → facts.setup ≡ setup.now → HasSent facts before (W.contents out.old) sent.old merge
        → SetupGoesNext facts merge (setup_text setup.now time) tick next
        → MatchResult result (λ _. HasSent facts before (W.contents out.new) sent.new next)
        (λ _. HoldsFront facts before (W.contents out.new)) }
{
    let head = BlockHead {
        kind: BlockKind::Setup,
        channel: 0,
        counter: tick,
    };
    let body = setup_body(alloc, setup, time)?;
    sent.put(alloc, out, head, &body)
}

/// The body of the setup record of a file whose first time packet says this time.
pub fn setup_body(
    alloc: Global,
    setup: &FileSetup<'_>,
    time: CivilTime,
) -> Result<Vec<u8>, FileFault>
    requires time { IsCivilTime time }
    requires number { length setup.now.channels.now < 2 ^ 16 }
    ensures body { IfOk result (λ body. body.items
        ≡ to_le_bytes w32 12 ++ setup_text setup.now time) }
    ensures fits { IfOk result (λ body. written_len WithSum (length body.items) ≤ MAX_SETUP_LEN) }
{
    let text = text_of(alloc, setup, time)?;
    if text.len() > MAX_SETUP_LEN - AROUND_TEXT_LEN {
        return Err(FileFault::Long);
    }
    let mut body = Vec::new(alloc);
    body.extend_from_slice(&SETUP_WORD.to_le_bytes())?;
    body.extend_from_slice(text.as_bytes())?;
    Ok(body)
}

/// The text of the setup record.
#[tactic(auto, unfolding(crate::specs::WholeFile::setup_text))]
fn text_of(alloc: Global, setup: &FileSetup<'_>, time: CivilTime) -> Result<String, AllocError>
    requires time { IsCivilTime time }
    requires number { length setup.now.channels.now < 2 ^ 16 }
    ensures { IfOk result (λ text. string_bytes text ≡ setup_text setup.now time) }
{
    setup_text(alloc, &setup.at(time))
}

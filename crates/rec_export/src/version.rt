//! The versions of a channel's filter, and what comments say of them.

ghost use Rattle.std.specs.Prelude.{◌≡◌, ◌<◌, ◌^◌, length, IfOk};
ghost use Rattle.std.specs.Option.{option_map};
ghost use Rattle.rec_export.specs.declared.version.LaterVersions.TheVariants.{Several};
ghost use Rattle.rec_export.specs.Frames.{IsShort, text_of};
ghost use Rattle.rec_export.specs.Versions.{joined_by, later_text, version_text, version_with};

use crate::fault::ExportFault;
use std::alloc::Global;
use std::io::Write;

/// A version of a channel's filter.
#[derive(Clone, Copy, Debug, PartialEq, Eq)]
pub(crate) struct FilterVersion {
    /// The number of versions before it.
    pub(crate) number: u32,
    /// The number of its instructions.
    pub(crate) insns: u16,
}

/// The versions of a channel's filter that came into force behind its last frame, and aren't in its
/// interface's description.
#[derive(Clone, Copy, Debug, PartialEq, Eq)]
pub(crate) enum LaterVersions {
    /// One version.
    One(FilterVersion),
    /// Several versions.
    Several {
        /// The number of the first.
        first: u32,
        /// The last.
        last: FilterVersion,
    },
}

/// Later versions of a filter, with one more behind them.
pub(crate) fn joined_by(later: Option<LaterVersions>, version: FilterVersion) -> LaterVersions
    ensures { result ≡ joined_by later version }
{
    let first = match later {
        None => return LaterVersions::One(version),
        Some(LaterVersions::One(one)) => one.number,
        Some(LaterVersions::Several { first, .. }) => first,
    };
    LaterVersions::Several {
        first,
        last: version,
    }
}

/// The text on a filter's later versions, if there are some.
pub(crate) fn later_comment(
    alloc: Global,
    later: Option<LaterVersions>,
) -> Result<Option<Vec<u8>>, ExportFault>
    ensures text { IfOk result (λ comment. option_map (λ text. text.items) comment
        ≡ option_map later_text later) }
    ensures short { IfOk result (λ comment. IsShort (option_map (λ text. text.items) comment)) }
{
    match later {
        Some(LaterVersions::One(version)) => comment_of(alloc, Some(version)),
        Some(LaterVersions::Several { first, last }) => {
            let FilterVersion { number, insns } = last;
            Ok(Some(several_text(alloc, first, number, insns)?))
        }
        None => Ok(None),
    }
}

/// The text on a filter's version, if there is one.
pub(crate) fn comment_of(
    alloc: Global,
    version: Option<FilterVersion>,
) -> Result<Option<Vec<u8>>, ExportFault>
    ensures text { IfOk result (λ comment. option_map (λ text. text.items) comment
        ≡ option_map version_text version) }
    ensures short { IfOk result (λ comment. IsShort (option_map (λ text. text.items) comment)) }
{
    match version {
        Some(FilterVersion { number, insns }) => Ok(Some(version_text(alloc, number, insns)?)),
        None => Ok(None),
    }
}

/// A comment's text.
pub(crate) fn text_in(comment: &Option<Vec<u8>>) -> Option<&[u8]>
    ensures { text_of result ≡ option_map (λ text. text.items) comment.now }
{
    match comment {
        Some(text) => Some(text.as_slice()),
        None => None,
    }
}

/// The text on a filter's version, by its number and the number of its instructions.
fn version_text(alloc: Global, number: u32, insns: u16) -> Result<Vec<u8>, ExportFault>
    ensures text { IfOk result (λ text. text.items ≡ version_text (version_with number insns)) }
    ensures short { IfOk result (λ text. length text.items < 2 ^ 16) }
{
    let mut text = Vec::new(alloc);
    match write!(&mut text, "filter version {number}, {insns} instructions") {
        Ok(()) => Ok(text),
        Err(_) => Err(ExportFault::Memory),
    }
}

/// The text on several versions of a filter, by the numbers of the first and the last, and the number of
/// the last one's instructions.
fn several_text(alloc: Global, first: u32, last: u32, insns: u16) -> Result<Vec<u8>, ExportFault>
    ensures text { IfOk result (λ text. text.items
        ≡ later_text (Several first (version_with last insns))) }
    ensures short { IfOk result (λ text. length text.items < 2 ^ 16) }
{
    let mut text = Vec::new(alloc);
    match write!(
        &mut text,
        "filter versions {first} to {last}, the last of {insns} instructions"
    ) {
        Ok(()) => Ok(text),
        Err(_) => Err(ExportFault::Memory),
    }
}

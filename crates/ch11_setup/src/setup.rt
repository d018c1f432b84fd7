//! The text of a setup record.

use crate::attribute::Attribute;
use ch11_clock::CivilTime;

/// What a setup record says: of which host and program, when its first time packet is, on which
/// channel the time packets stand and whether an outside source held the clock, whether an index
/// follows, the Ethernet channels in ascending order, and what a user adds.
#[derive(Clone, Copy, Debug)]
pub struct Setup<'a> {
    pub host: &'a str,
    pub program: &'a str,
    pub time: CivilTime,
    pub time_channel: u16,
    pub is_external: bool,
    pub is_indexed: bool,
    pub channels: &'a [SetupChannel<'a>],
    pub attributes: &'a [Attribute<'a>],
}

/// A channel in a setup record: its number, its name, and the number of its network.
#[derive(Clone, Copy, Debug)]
pub struct SetupChannel<'a> {
    pub id: u16,
    pub name: &'a str,
    pub net: u8,
}

//! The entries of a node and of a root, and their bytes.

ghost use Rattle.std.specs.Prelude.{◌≡◌};
ghost use Rattle.ch11_index.specs.IndexBytes.{node_entry_bytes, root_entry_bytes};

/// What a node says of a packet.
#[derive(Clone, Copy, Debug, PartialEq, Eq)]
pub struct NodeEntry {
    /// The counter of the packet's header.
    pub counter: u64,
    /// The channel's ID.
    pub channel: u16,
    /// The data type.
    pub kind: u8,
    /// The place of the packet's first byte in the file.
    pub at: u64,
}

/// What a root says of a node, or of the root before it.
#[derive(Clone, Copy, Debug, PartialEq, Eq)]
pub struct RootEntry {
    /// The counter of the header.
    pub counter: u64,
    /// The place of the first byte in the file.
    pub at: u64,
}

/// The bytes of a node's entry.
pub(crate) fn node_row(entry: &NodeEntry) -> [u8; 20]
    ensures { result ≡ node_entry_bytes entry.now }
{
    let [c0, c1, c2, c3, c4, c5, c6, c7] = entry.counter.to_le_bytes();
    let [h0, h1] = entry.channel.to_le_bytes();
    let [a0, a1, a2, a3, a4, a5, a6, a7] = entry.at.to_le_bytes();
    [
        c0, c1, c2, c3, c4, c5, c6, c7, h0, h1, entry.kind, 0, a0, a1, a2, a3, a4, a5, a6, a7,
    ]
}

/// The bytes of a root's entry.
pub(crate) fn root_row(entry: &RootEntry) -> [u8; 16]
    ensures { result ≡ root_entry_bytes entry.now }
{
    let [c0, c1, c2, c3, c4, c5, c6, c7] = entry.counter.to_le_bytes();
    let [a0, a1, a2, a3, a4, a5, a6, a7] = entry.at.to_le_bytes();
    [
        c0, c1, c2, c3, c4, c5, c6, c7, a0, a1, a2, a3, a4, a5, a6, a7,
    ]
}

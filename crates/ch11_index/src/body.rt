//! The bodies of a node and of a root.

ghost use Rattle.std.specs.Prelude.{◌≡◌, ◌≤◌, ◌++◌, OnOk, length};
ghost use Rattle.ch11_index.specs.IndexBytes.{node_bytes, root_bytes};

use crate::entry::{NodeEntry, RootEntry, node_row, root_row};
use crate::index::MOST_NAMED;
use std::alloc::AllocError;

/// The bit of a body's word that says that the packet is a node.
const NODE_BIT: u32 = 31;

/// Adds the body of a node with these entries.
pub(crate) fn add_node(entries: &[NodeEntry], body: &mut Vec<u8>) -> Result<(), AllocError>
    requires { length entries.now ≤ MOST_NAMED }
    ensures { OnOk result (body.new.items ≡ body.old.items ++ node_bytes entries.now) }
{
    let word = (1 << NODE_BIT) + entries.len() as u32;
    body.extend_from_slice(&word.to_le_bytes())?;
    'entries: for entry in entries {
        body.extend_from_slice(&node_row(entry))?;
    }
    Ok(())
}

/// Adds the body of a root with these nodes, and its last entry.
pub(crate) fn add_root(
    nodes: &[RootEntry],
    last: RootEntry,
    body: &mut Vec<u8>,
) -> Result<(), AllocError>
    requires { length nodes.now ≤ MOST_NAMED }
    ensures { OnOk result (body.new.items ≡ body.old.items ++ root_bytes nodes.now last) }
{
    let word = nodes.len() as u32 + 1;
    body.extend_from_slice(&word.to_le_bytes())?;
    'nodes: for node in nodes {
        body.extend_from_slice(&root_row(node))?;
    }
    body.extend_from_slice(&root_row(&last))?;
    Ok(())
}

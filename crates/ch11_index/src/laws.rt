//! Laws of an index, with nothing to run.

ghost use Rattle.std.specs.Prelude.{ℕ, ◌+◌, ◌^◌, ◌≡◌, ◌<◌, List, None, length};
ghost use Rattle.std.specs.List.{AllByRecursion};
ghost use Rattle.ch11_index.specs.declared.entry.NodeEntry.{NodeEntry};
ghost use Rattle.ch11_index.specs.declared.entry.RootEntry.{RootEntry};
ghost use Rattle.ch11_index.specs.IndexBytes.{node_bytes, root_bytes};
ghost use Rattle.ch11_index.specs.IndexBodies.{HoldsNode, HoldsRoot, IsNodeEntry, IsRootEntry};
ghost use Rattle.ch11_index.specs.FileIndex.{FileItem, IsIndexed, empty_index};
ghost use Rattle.ch11_index.specs.IndexRead.{AreChained, EndsWithRoot, AreWithin, named_in};
ghost use Rattle.ch11_index.specs.IndexRead.{packets_from, rooted_in, nodes_from};

use crate::index::MOST_NAMED;

/// Law: the nodes of an indexed file name each packet that isn't of the index, in order and once each, with
/// its counter, channel, data type and first byte; its roots name each node so; its last packet is a root;
/// each root leads to the one before, and the first to itself; and none names more than the limit.
pub fn an_index_names_all()
    ensures packets { (most : ℕ) (file : List FileItem) → IsIndexed (empty_index most) file
        → named_in file ≡ packets_from 0 file }
    ensures nodes { (most : ℕ) (file : List FileItem) → IsIndexed (empty_index most) file
        → rooted_in file ≡ nodes_from 0 0 file }
    ensures ends { (most : ℕ) (file : List FileItem) → IsIndexed (empty_index most) file
        → EndsWithRoot file }
    ensures chain { (most : ℕ) (file : List FileItem) → IsIndexed (empty_index most) file
        → AreChained None 0 0 file }
    ensures within { (most : ℕ) (file : List FileItem) → 0 < most
        → IsIndexed (empty_index most) file → AreWithin most file }
{}

/// Law: a reader that takes the bodies of index packets apart finds the entries that they were made of, and no
/// others; and no body is both a node's and a root's.
pub fn an_index_is_read_back()
    ensures node { (entries : List NodeEntry) → length entries < 2 ^ 31
        → AllByRecursion IsNodeEntry entries → HoldsNode (node_bytes entries) entries }
    ensures root { (nodes : List RootEntry) (last : RootEntry) → length nodes + 1 < 2 ^ 31
        → AllByRecursion IsRootEntry nodes → IsRootEntry last
        → HoldsRoot (root_bytes nodes last) nodes last }
    ensures one_node { (body : List ℕ) (entries others : List NodeEntry) → HoldsNode body entries
        → HoldsNode body others → entries ≡ others }
    ensures one_root { (body : List ℕ) (nodes others : List RootEntry) (last other : RootEntry)
        → HoldsRoot body nodes last → HoldsRoot body others other
        → (nodes ≡ others) × (last ≡ other) }
    ensures apart { (body : List ℕ) (entries : List NodeEntry) (nodes : List RootEntry)
        (last : RootEntry) → HoldsNode body entries → ¬ HoldsRoot body nodes last }
{}

/// Law: a node names at most 16,384 packets, and a root 16,384 nodes.
pub fn the_limits_of_an_index()
    ensures { MOST_NAMED ≡ 16384 }
{}

//! The texts that are assembled, and the views that their programs run on.

use crate::cases::{ARP, IPV4};

/// A text in the language of `bpf_asm`, and the views that its program runs on.
pub(crate) struct TextCase {
    /// The text's file.
    pub(crate) file: &'static str,
    pub(crate) views: &'static [&'static str],
}

/// Small texts, one for each thing that a program may meet.
pub(crate) static TEXTS: [TextCase; 15] = [
    TextCase {
        file: "texts/arp.bpf",
        views: &[ARP, "ffffffffffff0200000000010800"],
    },
    TextCase {
        file: "texts/load_outside.bpf",
        views: &[ARP],
    },
    TextCase {
        file: "texts/byte_outside.bpf",
        views: &[""],
    },
    TextCase {
        file: "texts/index_past_word.bpf",
        views: &[ARP],
    },
    TextCase {
        file: "texts/division_by_zero.bpf",
        views: &[""],
    },
    TextCase {
        file: "texts/shift_by_32.bpf",
        views: &[""],
    },
    TextCase {
        file: "texts/shift_by_31.bpf",
        views: &[""],
    },
    TextCase {
        file: "texts/below_zero.bpf",
        views: &[""],
    },
    TextCase {
        file: "texts/unset_scratch.bpf",
        views: &[],
    },
    TextCase {
        file: "texts/dead_scratch.bpf",
        views: &[""],
    },
    TextCase {
        file: "texts/header_length.bpf",
        views: &[IPV4],
    },
    TextCase {
        file: "texts/view_length.bpf",
        views: &[ARP],
    },
    TextCase {
        file: "texts/less_or_equal.bpf",
        views: &[""],
    },
    TextCase {
        file: "texts/comment_over_two_lines.bpf",
        views: &[""],
    },
    TextCase {
        file: "texts/jump_over_255.bpf",
        views: &[""],
    },
];

/// Filters as a flight-test engineer writes them, each with the view of a frame that it keeps and of
/// one that it drops.
pub(crate) static FILTERS: [TextCase; 14] = [
    TextCase {
        file: "filters/arp.bpf",
        views: &[
            "ffffffffffff020000000001080600010800060400010200000000010a0000010000000000000a000002",
            "01005e01020302000000000108004500001400000000401100000a000001ef010203",
        ],
    },
    TextCase {
        file: "filters/multicast_group.bpf",
        views: &[
            "01005e01020302000000000108004500001400000000401100000a000001ef010203",
            "01005e01020402000000000108004500001400000000401100000a000001ef010203",
        ],
    },
    TextCase {
        file: "filters/any_multicast.bpf",
        views: &[
            "01005e01020302000000000108004500001400000000401100000a000001ef010203",
            "02000000000902000000000108004500001400000000401100000a000001ef010203",
        ],
    },
    TextCase {
        file: "filters/source.bpf",
        views: &[
            "02000000000902000000000108004500001400000000401100000a000001ef010203",
            "02000000000902000000000208004500001400000000401100000a000001ef010203",
        ],
    },
    TextCase {
        file: "filters/udp_port.bpf",
        views: &[
            "01005e01020302000000000108004600002000000000401100000a000001ef010203010101019c40c35100080000",
            "01005e01020302000000000108004500001c00000000401100000a000001ef010203c3519c4000080000",
        ],
    },
    TextCase {
        file: "filters/same_ports.bpf",
        views: &[
            "01005e01020302000000000108004500001c00000000401100000a000001ef0102030140014000080000",
            "01005e01020302000000000108004500001c00000000401100000a000001ef010203013f014000080000",
        ],
    },
    TextCase {
        file: "filters/vlan.bpf",
        views: &[
            "020000000009020000000001810060640800",
            "020000000009020000000001810060650800",
        ],
    },
    TextCase {
        file: "filters/fragment.bpf",
        views: &[
            "01005e01020302000000000108004500001400002000401100000a000001ef010203",
            "01005e01020302000000000108004500001400004000401100000a000001ef010203",
        ],
    },
    TextCase {
        file: "filters/dscp.bpf",
        views: &[
            "01005e010203020000000001080045b9001400000000401100000a000001ef010203",
            "01005e01020302000000000108004528001400000000401100000a000001ef010203",
        ],
    },
    TextCase {
        file: "filters/short.bpf",
        views: &[
            "02000000000902000000000188b50000000000000000000000000000000000000000000000000000000000000000000000000000000000000000000000000000000000000000000000000000000000000000000000000000000000000000000000000000000000000000000000000000000000000000000000000000000000",
            "02000000000902000000000188b5000000000000000000000000000000000000000000000000000000000000000000000000000000000000000000000000000000000000000000000000000000000000000000000000000000000000000000000000000000000000000000000000000000000000000000000000000000000000",
        ],
    },
    TextCase {
        file: "filters/ptp_event.bpf",
        views: &[
            "011b1900000002000000000188f70002",
            "011b1900000002000000000188f70b02",
        ],
    },
    TextCase {
        file: "filters/tmns.bpf",
        views: &[
            "01005e01020302000000000108004500002c00000000401100000a000001ef010203d903d9030018000010000000000102030000000100000018",
            "01005e01020302000000000108004500002c00000000401100000a000001ef010203d903d9030018000010000000000102040000000100000018",
        ],
    },
    TextCase {
        file: "filters/inet_x.bpf",
        views: &[
            "01005e01020302000000000108004500002c00000000401100000a000001ef01020303ff1f4a0018000011000000000000dc000000010000001c",
            "01005e01020302000000000108004500002c00000000401100000a000001ef01020303ff1f4a0018000011000000000000dd000000010000001c",
        ],
    },
    TextCase {
        file: "filters/one_in_eight.bpf",
        views: &[
            "01005e01020302000000000108004500001412380000401100000a000001ef010203",
            "01005e01020302000000000108004500001412390000401100000a000001ef010203",
        ],
    },
];

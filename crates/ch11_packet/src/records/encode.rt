//! How the records are written.
ghost use Rattle.std.specs.Prelude.{◌≡◌, ◌+◌, ◌≤◌, ◌++◌, length};
ghost use Rattle.arrayvec.specs.ArrayVec.{array_vec_len};
ghost use Rattle.ch11_packet.specs.Records.{program_bytes, end_bytes};

use crate::records::{
    END_RECORD, MAX_PROGRAM_RECORD_LEN, PROGRAM_HEAD_LEN, PROGRAM_RECORD, RECORD_HEAD_LEN,
    RECORD_TAG,
};
use arrayvec::ArrayVec;
use bpf_verify::Verified;

/// The number of bytes of the record of a channel's end.
pub const END_RECORD_LEN: usize = RECORD_HEAD_LEN + 2 * 8;

const _: () = prove!(END_RECORD_LEN == 28);

/// The body of a program's record: the program that was in force on a channel as this version, from
/// frame `first` on.
#[tactic(auto, unfolding(crate::specs::Records::program_bytes))]
pub fn program_body(
    channel: u16,
    version: u32,
    first: u64,
    program: &Verified,
) -> ArrayVec<u8, MAX_PROGRAM_RECORD_LEN>
    ensures bytes { result.items ≡ program_bytes channel version first program.now }
{
    let insns = program.insns();
    let [t0, t1, t2, t3] = RECORD_TAG;
    let [c0, c1] = channel.to_le_bytes();
    let [k0, k1] = PROGRAM_RECORD.to_le_bytes();
    let [v0, v1, v2, v3] = version.to_le_bytes();
    let [f0, f1, f2, f3, f4, f5, f6, f7] = first.to_le_bytes();
    let [n0, n1] = (insns.len() as u16).to_le_bytes();
    let head: [u8; PROGRAM_HEAD_LEN] = [
        0, 0, 0, 0, t0, t1, t2, t3, k0, k1, c0, c1, v0, v1, v2, v3, f0, f1, f2, f3, f4, f5, f6, f7,
        n0, n1, 0, 0,
    ];
    let mut body = ArrayVec::new();
    append(&mut body, &head);
    'insns: for insn in insns {
        append(&mut body, &insn.to_bytes());
    }
    body
}

/// The body of the record of a channel's end: the number of frames offered, and the number of those
/// kept.
#[tactic(auto, unfolding(crate::specs::Records::end_bytes))]
pub fn end_body(channel: u16, offered: u64, kept: u64) -> [u8; END_RECORD_LEN]
    ensures bytes { result
        ≡ end_bytes (record { channel = channel; offered = offered; kept = kept }) }
{
    let [t0, t1, t2, t3] = RECORD_TAG;
    let [c0, c1] = channel.to_le_bytes();
    let [e0, e1] = END_RECORD.to_le_bytes();
    let [o0, o1, o2, o3, o4, o5, o6, o7] = offered.to_le_bytes();
    let [k0, k1, k2, k3, k4, k5, k6, k7] = kept.to_le_bytes();
    [
        0, 0, 0, 0, t0, t1, t2, t3, e0, e1, c0, c1, o0, o1, o2, o3, o4, o5, o6, o7, k0, k1, k2, k3,
        k4, k5, k6, k7,
    ]
}

/// Adds bytes for which there is room.
fn append(body: &mut ArrayVec<u8, MAX_PROGRAM_RECORD_LEN>, bytes: &[u8])
    requires { array_vec_len body.old + length bytes.now ≤ MAX_PROGRAM_RECORD_LEN }
    ensures { body.new.items ≡ body.old.items ++ bytes.now }
{
    if body.try_extend_from_slice(bytes).is_err() {
        unreachable!()
    }
}

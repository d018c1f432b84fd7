//! The callers of the crates' pages: each file is a block of code of a page's section "A caller", so
//! that what a page shows is compiled and proved. `dev/checks/examples.py` compares them.
#![tactic(auto)]

pub mod calls_bpf_asm;
pub mod calls_bpf_dis;
pub mod calls_bpf_insn;
pub mod calls_bpf_machine;
pub mod calls_bpf_verify;
pub mod calls_ch11_channels;
pub mod calls_ch11_clock;
pub mod calls_ch11_file;
pub mod calls_ch11_index;
pub mod calls_ch11_merge;
pub mod calls_ch11_moved;
pub mod calls_ch11_packet;
pub mod calls_ch11_setup;
pub mod calls_cli_record_streams;
pub mod calls_cli_streams;
pub mod calls_eth_frame;
pub mod calls_pcapng_blocks;
pub mod calls_rec_channel;
pub mod calls_rec_core;
pub mod calls_rec_export;
pub mod calls_rec_joined;
pub mod calls_rec_lane;
pub mod calls_rec_pieces;
pub mod calls_rec_reader;
pub mod calls_rec_reader_stream;
pub mod calls_rec_reader_upgrade;
pub mod calls_rec_run;
pub mod calls_rec_runs;
pub mod calls_rec_stream;
pub mod calls_rec_whole;
pub mod calls_rec_words;
pub mod calls_rec_writer;

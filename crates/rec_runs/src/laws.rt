//! Laws of the recordings of a run, with nothing to run.

ghost use Rattle.std.specs.Prelude.{ℕ, ◌≡◌, ◌∷◌, ◌≤◌, ◌^◌, ◌↔◌, [], false, IsTrue, List, map};
ghost use Rattle.std.specs.List.{AllByRecursion};
ghost use Rattle.bpf_insn.specs.declared.insn.Insn.{Insn};
ghost use Rattle.rec_reader.specs.Channels.{programs_of};
ghost use Rattle.rec_reader.specs.Packets.{PacketData};
ghost use Rattle.rec_runs.specs.FilePrograms.{program_in_file};
ghost use Rattle.rec_runs.specs.Moves.{moves_of_record, no_moves};
ghost use Rattle.rec_runs.specs.ProgramMoves.{file_programs, have_same_insns, moves_before};
ghost use Rattle.rec_runs.specs.RisingVersions.{FileRises, RecordingRises, VersionFits};
ghost use Rattle.rec_runs.specs.RunSayings.{run_has};

/// Law: where no recording before it has the channel, nothing of it is moved.
pub fn a_channel_that_begins_is_not_moved()
    ensures { (channel : ℕ) (earlier : List (List PacketData)) (own : List PacketData)
        → run_has channel earlier ≡ false → moves_of_record channel earlier own ≡ no_moves channel }
{}

/// Law: in the file of one recording each of a channel's programs has its own version.
pub fn one_recording_keeps_its_versions()
    ensures { (channel : ℕ) (recording : List PacketData) → file_programs channel (recording ∷ [])
        ≡ map (program_in_file 0) (programs_of channel recording) }
{}

/// Law: the versions of a channel's programs rise through the file, if they rise in each recording
/// and all of them fit.
pub fn versions_rise_through_a_run()
    ensures { (channel : ℕ) (recordings : List (List PacketData))
        → AllByRecursion (RecordingRises channel) recordings
        → AllByRecursion VersionFits (file_programs channel recordings)
        → FileRises (file_programs channel recordings) }
{}

/// Law: at most 2^32 is added to a version.
pub fn no_more_than_the_limit_is_added()
    ensures { (channel : ℕ) (earlier : List (List PacketData)) (own : List PacketData)
        → (moves_before channel earlier own).versions ≤ 2 ^ 32 }
{}

/// Law: two programs have the same instructions if their lists are equal, and only then.
pub fn the_same_instructions_are_equal()
    ensures { (one other : List Insn) → IsTrue (have_same_insns one other) ↔ (one ≡ other) }
{}

//! Laws of the channels of a file, with nothing to run.

ghost use Rattle.std.specs.Prelude.{◌≡◌, ◌≢◌, ℕ, true, List, AllPairs};
ghost use Rattle.std.specs.List.{list_any, AllByRecursion};
ghost use Rattle.ch11_channels.specs.declared.channels.FileChannel.{FileChannel};
ghost use Rattle.ch11_channels.specs.declared.channels.RunChannel.{RunChannel};
ghost use Rattle.ch11_channels.specs.GivenIds.{AreNumberedChannels, is_owned_by};

/// Law: each channel that a recording names is a channel of the file, no two of the file's are the same channel of
/// a run, and no two have the same ID.
pub fn channels_of_a_file_are_named_once()
    ensures each { (named : List RunChannel) (channels : List FileChannel)
        → AreNumberedChannels named channels
        → AllByRecursion (λ of. list_any (is_owned_by of) channels ≡ true) named }
    ensures once { (named : List RunChannel) (channels : List FileChannel)
        → AreNumberedChannels named channels
        → AllPairs (λ (one other : FileChannel). one.of ≢ other.of) channels }
    ensures apart { (named : List RunChannel) (channels : List FileChannel)
        → AreNumberedChannels named channels
        → AllPairs (λ (one other : FileChannel). one.id ≢ other.id) channels }
{}

/// Law: where all recordings are of one run, each channel has its own ID in the file.
pub fn a_file_of_one_run_keeps_its_ids()
    ensures { (run : ℕ) (named : List RunChannel) (channels : List FileChannel)
        → AllByRecursion (λ (of : RunChannel). of.run ≡ run) named
        → AreNumberedChannels named channels
        → AllByRecursion (λ (channel : FileChannel). channel.id ≡ channel.of.channel) channels }
{}

/// Law: there is one numbering at most.
pub fn there_is_one_numbering()
    ensures { (named : List RunChannel) (channels other : List FileChannel)
        → AreNumberedChannels named channels
        → AreNumberedChannels named other → channels ≡ other }
{}

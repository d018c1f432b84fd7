//! Laws of settings and of a file's setup, which run nothing.

ghost use Rattle.std.specs.Prelude.{ℕ, ◌≡◌, ◌↔◌, List, Ok, Err, true, map};
ghost use Rattle.ch11_setup.specs.declared.setup.Setup.{Setup};
ghost use Rattle.ch11_setup.specs.Attributes.{AreAttributes};
ghost use Rattle.ch11_setup.specs.Setups.{IsSetup, given_attribute, setup_attributes};
ghost use Rattle.ch11_setup.specs.Sources.{SaysSources};
ghost use Rattle.std.specs.List.{AllByRecursion};
ghost use Rattle.toml.specs.Data.{Members};
ghost use Rattle.rec_words.specs.SetupFile.{FileData, file_in, setup_file, CanBeAdded};
ghost use Rattle.rec_words.specs.SetupForms.{SayOneRecording};
ghost use Rattle.rec_words.specs.SetupFormat.{IsFileOf};
ghost use Rattle.rec_words.specs.ReservedNames.{is_reserved, IsReserved, own_attributes, AreReserved};
ghost use Rattle.rec_words.specs.Format.{AreSettingsOf, IsFaultOfText};
ghost use Rattle.rec_words.specs.Settings.{Fault, SettingsData, settings};

use ch11_setup::a_setup_record_names_the_channels;

/// Law: a text has these settings exactly where it is a document in which each key means something
/// and has what it may have, `channel` is 1 to 64 tables, each of them sets its channel, and no two
/// have one ID; and the settings are what the keys are set to, or their defaults. Each fault is
/// reported only where all that is judged before it is well.
pub fn settings_are_those_of_the_format()
    ensures settings { (text : List ℕ) (found : SettingsData)
        → (settings text ≡ Ok found) ↔ AreSettingsOf text found }
    ensures fault { (text : List ℕ) (fault : Fault)
        → settings text ≡ Err fault → IsFaultOfText text fault }
{}

/// Law: a name is found to be reserved exactly where a reader may take it for one that a setup record
/// writes once, or for one of a channel's; and each name that a setup record writes is, but that of
/// the test.
pub fn a_setup_record_writes_reserved_names()
    ensures is { (name : List ℕ) → (is_reserved name ≡ true) ↔ IsReserved name }
    ensures written { (setup : Setup) → IsSetup setup → AreReserved (own_attributes setup) }
{}

/// Law: what a file's setup adds are attributes, so that a reader of the setup record finds them,
/// and none has a name that a setup record writes.
pub fn added_attributes_are_attributes()
    ensures { (count : ℕ) (text : List ℕ) (file : FileData) → setup_file count text ≡ Ok file
        → AllByRecursion CanBeAdded file.general.attributes }
{}

/// Law: a setup record that adds what a text says says exactly its channels: a reader finds the time channel and
/// the channels that were passed, each with its number, its type and its names, and no others.
pub fn a_setup_record_says_exactly_its_channels()
    ensures given { (count : ℕ) (text : List ℕ) (file : FileData) (setup : Setup)
        → setup_file count text ≡ Ok file
        → map given_attribute setup.attributes.now ≡ file.general.attributes
        → AreAttributes (map given_attribute setup.attributes.now) }
    ensures sources { (count : ℕ) (text : List ℕ) (file : FileData) (setup : Setup)
        → setup_file count text ≡ Ok file
        → map given_attribute setup.attributes.now ≡ file.general.attributes
        → SaysSources setup (setup_attributes setup) }
{
    a_setup_record_names_the_channels();
}

/// Law: where a text says something of a file, it is a document in which each key means something;
/// what is said is what its keys are set to, or their defaults, each table says what it may, and no
/// two channels of a recording have one ID. There are as many recordings as were asked for, each follows an earlier
/// one or none, and no two follow the same.
pub fn a_setup_is_what_its_text_says()
    ensures { (count : ℕ) (text : List ℕ) (file : FileData) → setup_file count text ≡ Ok file
        → IsFileOf count text file }
{}

/// Law: a document that says something of its only recording at its top says the same file as one that says it in
/// a table.
pub fn one_recording_is_said_in_either_form()
    ensures { (top tabled table : Members) (file : FileData) → SayOneRecording top tabled table
        → (file_in 1 top ≡ Ok file) ↔ (file_in 1 tabled ≡ Ok file) }
{}

//! What users write for the recorder, read: the words of a command line, the settings of a
//! recording, and the setup of a Chapter 11 file.
#![tactic(auto)]

mod command_line;
mod keys;
mod laws;
mod settings;
mod setup_file;
mod words;

pub use command_line::VERSION;
pub use laws::{
    a_setup_is_what_its_text_says, a_setup_record_says_exactly_its_channels,
    a_setup_record_writes_reserved_names, added_attributes_are_attributes,
    one_recording_is_said_in_either_form, settings_are_those_of_the_format,
};
pub use settings::{ChannelSettings, Settings, SettingsFault, settings_of};
pub use setup_file::{
    AddedAttribute, ChannelSetup, FileSettings, GeneralSettings, RecordingSettings, SetupFault,
    setup_of,
};
pub use words::{Words, WordsFault, words_of};

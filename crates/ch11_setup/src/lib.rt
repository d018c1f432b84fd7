//! The text of the setup record of a Chapter 11 file (IRIG 106-17): which data sources a recording
//! has, in the words of RCC 106-17 Chapter 9 (TMATS).
#![tactic(auto)]

mod attribute;
mod channel;
mod date;
mod laws;
mod name;
mod recording;
mod setup;
mod text;

pub use attribute::Attribute;
pub use laws::{
    a_setup_record_is_read_back, a_setup_record_names_the_channels, cleaned_names_are_plain,
};
pub use name::{clean, trim_end, trim_start};
pub use setup::{Setup, SetupChannel};
pub use text::setup_text;

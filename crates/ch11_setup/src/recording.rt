//! What a setup record says of the recording and its recorder.
ghost use Rattle.std.specs.Prelude.{◌≡◌, ◌++◌, ◌<◌, true, OnOk, string_bytes, codes};
ghost use Rattle.ch11_clock.specs.CivilTime.{IsCivilTime};
ghost use Rattle.ch11_setup.specs.Attributes.{attribute_of, attribute_line, attributes_text};
ghost use Rattle.ch11_setup.specs.Dates.{date_text, date_time_text};
ghost use Rattle.ch11_setup.specs.Lines.{general_attributes, recorder_attributes, content_attributes, index_attributes};

use crate::attribute::{TEST_NAME, push_attribute, push_number};
use crate::date::{push_date, push_date_time};
use ch11_clock::CivilTime;
use std::alloc::AllocError;

/// Adds the general information.
pub(crate) fn push_general(
    text: &mut String,
    test: &str,
    host: &str,
    time: &CivilTime,
) -> Result<(), AllocError>
    requires { IsCivilTime time.now }
    ensures { OnOk result (string_bytes text.new ≡ string_bytes text.old
        ++ attributes_text (general_attributes test.now host.now time.now)) }
{
    push_attribute(text, TEST_NAME, test)?;
    push_attribute(text, "G\\106", "17")?;
    push_origin_date(text, time)?;
    push_attribute(text, "G\\DSI\\N", "1")?;
    push_attribute(text, "G\\DSI-1", host)?;
    push_attribute(text, "G\\DST-1", "STO")
}

/// Adds the date of the first time packet.
#[tactic(auto, unfolding(crate::specs::Attributes::attribute_line))]
fn push_origin_date(text: &mut String, time: &CivilTime) -> Result<(), AllocError>
    requires { IsCivilTime time.now }
    ensures { OnOk result (string_bytes text.new ≡ string_bytes text.old
        ++ attribute_line (attribute_of (codes "G\\OD") (date_text time.now))) }
{
    text.push_str("G\\OD:")?;
    push_date(text, time)?;
    text.push_str(";\r\n")
}

/// Adds the recorder and its recording.
pub(crate) fn push_recorder(
    text: &mut String,
    host: &str,
    program: &str,
    time: &CivilTime,
) -> Result<(), AllocError>
    requires { IsCivilTime time.now }
    ensures { OnOk result (string_bytes text.new ≡ string_bytes text.old
        ++ attributes_text (recorder_attributes host.now program.now time.now)) }
{
    push_attribute(text, "R-1\\ID", host)?;
    push_attribute(text, "R-1\\RID", "bpfrec")?;
    push_attribute(text, "R-1\\R1", program)?;
    push_attribute(text, "R-1\\TC1", "SSR")?;
    push_attribute(text, "R-1\\RI3", "Y")?;
    push_first_time(text, time)
}

/// Adds the date and the time of day of the first time packet.
#[tactic(auto, unfolding(crate::specs::Attributes::attribute_line))]
fn push_first_time(text: &mut String, time: &CivilTime) -> Result<(), AllocError>
    requires { IsCivilTime time.now }
    ensures { OnOk result (string_bytes text.new ≡ string_bytes text.old
        ++ attribute_line (attribute_of (codes "R-1\\RI4") (date_time_text time.now))) }
{
    text.push_str("R-1\\RI4:")?;
    push_date_time(text, time)?;
    text.push_str(";\r\n")
}

/// Adds what else the file has, and how many data sources.
pub(crate) fn push_content(
    text: &mut String,
    is_indexed: bool,
    sources: u64,
) -> Result<(), AllocError>
    ensures { OnOk result (string_bytes text.new
        ≡ string_bytes text.old ++ attributes_text (content_attributes is_indexed sources)) }
{
    push_attribute(text, "R-1\\NSB", "0")?;
    push_index(text, is_indexed)?;
    push_attribute(text, "R-1\\EV\\E", "F")?;
    push_number(text, "R-1\\N", sources)
}

/// Adds whether the file has an index.
fn push_index(text: &mut String, is_indexed: bool) -> Result<(), AllocError>
    ensures { OnOk result (string_bytes text.new
        ≡ string_bytes text.old ++ attributes_text (index_attributes is_indexed)) }
{
    if is_indexed {
        push_index_by_counts(text)
    } else {
        push_attribute(text, "R-1\\IDX\\E", "F")
    }
}

/// Adds that the file has an index, and which kind.
fn push_index_by_counts(text: &mut String) -> Result<(), AllocError>
    ensures { OnOk result (string_bytes text.new
        ≡ string_bytes text.old ++ attributes_text (index_attributes true)) }
{
    push_attribute(text, "R-1\\IDX\\E", "T")?;
    push_attribute(text, "R-1\\IDX\\IT", "C")?;
    push_attribute(text, "R-1\\IDX\\ICV", "1")
}

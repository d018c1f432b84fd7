//! The attributes of a setup record, a line for each.
ghost use Rattle.std.specs.Prelude.{◌≡◌, ◌++◌, OnOk, string_bytes, decimal};
ghost use Rattle.ch11_setup.specs.Attributes.{attribute_of, attribute_line};
ghost use Rattle.ch11_setup.specs.Lines.{numbered};

use std::alloc::AllocError;

/// The name of the test (TMATS, general information), which a user may say.
pub(crate) const TEST_NAME: &str = "G\\PN";

/// An attribute that a user adds. Its name isn't empty and has no `:`, and neither has a `;`.
#[derive(Clone, Copy, Debug, PartialEq, Eq)]
pub struct Attribute<'a> {
    pub name: &'a str,
    pub value: &'a str,
}

/// Adds the line of an attribute to a text.
#[tactic(auto, unfolding(crate::specs::Attributes::attribute_line))]
pub(crate) fn push_attribute(text: &mut String, name: &str, value: &str) -> Result<(), AllocError>
    ensures { OnOk result (string_bytes text.new
        ≡ string_bytes text.old ++ attribute_line (attribute_of name.now value.now)) }
{
    write!(text, "{name}:{value};\r\n")
}

/// Adds the line of an attribute that is a number.
#[tactic(auto, unfolding(crate::specs::Attributes::attribute_line))]
pub(crate) fn push_number(text: &mut String, name: &str, value: u64) -> Result<(), AllocError>
    ensures { OnOk result (string_bytes text.new
        ≡ string_bytes text.old ++ attribute_line (attribute_of name.now (decimal value))) }
{
    write!(text, "{name}:{value};\r\n")
}

/// Adds the line of an attribute of the recorder's n-th data source.
#[tactic(auto, unfolding(crate::specs::Attributes::attribute_line))]
pub(crate) fn push_numbered(
    text: &mut String,
    name: &str,
    n: usize,
    value: &str,
) -> Result<(), AllocError>
    ensures { OnOk result (string_bytes text.new
        ≡ string_bytes text.old ++ attribute_line (attribute_of (numbered name.now n) value.now)) }
{
    write!(text, "R-1\\{name}-{n}:{value};\r\n")
}

/// Adds the line of an attribute of the recorder's n-th data source that is a number.
#[tactic(auto, unfolding(crate::specs::Attributes::attribute_line))]
pub(crate) fn push_numbered_number(
    text: &mut String,
    name: &str,
    n: usize,
    value: u64,
) -> Result<(), AllocError>
    ensures { OnOk result (string_bytes text.new ≡ string_bytes text.old
        ++ attribute_line (attribute_of (numbered name.now n) (decimal value))) }
{
    write!(text, "R-1\\{name}-{n}:{value};\r\n")
}

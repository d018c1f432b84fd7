//! Laws of setup records, with nothing to run.
ghost use Rattle.std.specs.Prelude.{◌≡◌, ◌<◌, ◌≤◌, ℕ, List, true, length};
ghost use Rattle.std.specs.List.{AllByRecursion};
ghost use Rattle.ch11_setup.specs.declared.setup.Setup.{Setup};
ghost use Rattle.ch11_setup.specs.Attributes.{AttributeData, attributes_text, HoldsAttributes};
ghost use Rattle.ch11_setup.specs.Names.{cleaned, is_plain};
ghost use Rattle.ch11_setup.specs.Setups.{setup_attributes, given_attributes, IsSetup};
ghost use Rattle.ch11_setup.specs.Sources.{NamesNoSource, SaysSources};

/// Law: a reader that ends a name at its first colon, and a value at its first semicolon, finds the
/// attributes of a setup record in order, and no others; a text holds one list of them at most.
pub fn a_setup_record_is_read_back()
    ensures found { (setup : Setup) → IsSetup setup
        → HoldsAttributes (attributes_text (setup_attributes setup)) (setup_attributes setup) }
    ensures one { (text : List ℕ) (attributes others : List AttributeData)
        → HoldsAttributes text attributes → HoldsAttributes text others → attributes ≡ others }
{}

/// Law: the data sources of a setup record are the time channel and the recording's channels, each once and in
/// order, and each with its number, its type and its names, where a user names none.
pub fn a_setup_record_names_the_channels()
    ensures { (setup : Setup) → NamesNoSource (given_attributes setup.attributes.now)
        → SaysSources setup (setup_attributes setup) }
{}

/// Law: a name has 1 to 32 characters, which are printable ASCII and end nothing in an attribute.
pub fn cleaned_names_are_plain()
    ensures plain { (text : List ℕ) → AllByRecursion (λ byte. is_plain byte ≡ true) (cleaned text) }
    ensures some { (text : List ℕ) → 0 < length (cleaned text) }
    ensures few { (text : List ℕ) → length (cleaned text) ≤ 32 }
{}

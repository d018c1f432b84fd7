//! Tests of setup records. Texts are worked by hand.

use ch11_clock::civil_time;
use ch11_setup::*;
use std::alloc::Global;
use std::test::Fail;
use test_samples::assert_same;

/// Names, each with what is left of it.
const NAMES: [(&str, &str); 12] = [
    ("channel", "channel"),
    (" a;b\u{e9}: ", "a_b__"),
    ("C:\\x", "C__x"),
    ("", "NONE"),
    ("   ", "NONE"),
    ("\t x", "_ x"),
    ("\u{1f600}\u{65e5}", "__"),
    ("~ !", "~ !"),
    ("\u{7f}", "_"),
    (
        "  0123456789012345678901234567890123456789",
        "01234567890123456789012345678901",
    ),
    (
        "0123456789012345678901234567890 tail",
        "0123456789012345678901234567890 ",
    ),
    ("NONE", "NONE"),
];

#[test]
fn a_name_is_cleaned(rt: HostRuntime) -> Result<(), Fail> {
    for &(text, wanted) in &NAMES {
        let name = clean(rt.alloc(), text.as_bytes())?;
        assert_same!(rt; name.as_str(), wanted, "{text:?}");
    }
    Ok(())
}

/// The setup record of a recording of channel 1, as its host and its program name it by default. Its
/// first time packet says 2025-12-01 12:00:00.26, on channel 2.
const ONE_CHANNEL: &str = "G\\PN:bpfrec;\r\nG\\106:17;\r\nG\\OD:12-01-2025;\r\nG\\DSI\\N:1;\r\n\
    G\\DSI-1:bpfrec;\r\nG\\DST-1:STO;\r\nR-1\\ID:bpfrec;\r\nR-1\\RID:bpfrec;\r\nR-1\\R1:bpfrec;\r\n\
    R-1\\TC1:SSR;\r\nR-1\\RI3:Y;\r\nR-1\\RI4:12-01-2025-12-00-00;\r\nR-1\\NSB:0;\r\n\
    R-1\\IDX\\E:T;\r\nR-1\\IDX\\IT:C;\r\nR-1\\IDX\\ICV:1;\r\nR-1\\EV\\E:F;\r\nR-1\\N:2;\r\n\
    R-1\\TK1-1:2;\r\nR-1\\TK4-1:1;\r\nR-1\\CHE-1:T;\r\nR-1\\DSI-1:TIME;\r\nR-1\\CDT-1:TIMEIN;\r\n\
    R-1\\TTF-1:1;\r\nR-1\\TFMT-1:I;\r\nR-1\\TSRC-1:I;\r\n\
    R-1\\TK1-2:1;\r\nR-1\\TK4-2:2;\r\nR-1\\CHE-2:T;\r\nR-1\\DSI-2:channel 1;\r\n\
    R-1\\CDT-2:ETHIN;\r\nR-1\\ENTF-2:0;\r\nR-1\\NNET-2:1;\r\nR-1\\ENBR-2-1:0;\r\n\
    R-1\\ENAM-2-1:channel;\r\n\
    R-1\\COM:Packets of type 0 on channel 0 with the tag CBPR hold the filter programs and the \
    counts of bpfrec;\r\n";

/// The end of that of a recording of channels 1, 7 and 65535 with an outside source of time on channel
/// 2, and with two attributes of a user.
const THREE_CHANNELS: &str = "R-1\\N:4;\r\n\
    R-1\\TK1-1:2;\r\nR-1\\TK4-1:1;\r\nR-1\\CHE-1:T;\r\nR-1\\DSI-1:TIME;\r\nR-1\\CDT-1:TIMEIN;\r\n\
    R-1\\TTF-1:1;\r\nR-1\\TFMT-1:I;\r\nR-1\\TSRC-1:E;\r\n\
    R-1\\TK1-2:1;\r\nR-1\\TK4-2:2;\r\nR-1\\CHE-2:T;\r\nR-1\\DSI-2:left_wing 1;\r\n\
    R-1\\CDT-2:ETHIN;\r\nR-1\\ENTF-2:0;\r\nR-1\\NNET-2:1;\r\nR-1\\ENBR-2-1:0;\r\n\
    R-1\\ENAM-2-1:left_wing;\r\n\
    R-1\\TK1-3:7;\r\nR-1\\TK4-3:3;\r\nR-1\\CHE-3:T;\r\nR-1\\DSI-3:NONE 7;\r\n\
    R-1\\CDT-3:ETHIN;\r\nR-1\\ENTF-3:0;\r\nR-1\\NNET-3:1;\r\nR-1\\ENBR-3-1:255;\r\n\
    R-1\\ENAM-3-1:NONE;\r\n\
    R-1\\TK1-4:65535;\r\nR-1\\TK4-4:4;\r\nR-1\\CHE-4:T;\r\n\
    R-1\\DSI-4:012345678901234567890123 65535;\r\n\
    R-1\\CDT-4:ETHIN;\r\nR-1\\ENTF-4:0;\r\nR-1\\NNET-4:1;\r\nR-1\\ENBR-4-1:1;\r\n\
    R-1\\ENAM-4-1:01234567890123456789012345678901;\r\n\
    R-1\\COM:Packets of type 0 on channel 0 with the tag CBPR hold the filter programs and the \
    counts of bpfrec;\r\n\
    G\\SC:U;\r\nV-1\\X:a:b;\r\n";

/// The text of the setup record of a recording whose first time packet is at a moment.
fn text_of(
    alloc: Global,
    moment: i64,
    is_external: bool,
    channels: &[SetupChannel<'_>],
    attributes: &[Attribute<'_>],
) -> Result<String, Fail> {
    let Some(time) = civil_time(moment) else {
        return Err(Fail::from("a moment outside of the years 1 to 3999"));
    };
    if channels.len() > 65_535 {
        return Err(Fail::from("too many channels"));
    }
    let setup = Setup {
        host: "bpfrec",
        program: "bpfrec",
        time,
        time_channel: 2,
        is_external,
        is_indexed: true,
        channels,
        attributes,
    };
    Ok(setup_text(alloc, &setup)?)
}

#[test]
fn a_setup_record_has_its_lines(rt: HostRuntime) -> Result<(), Fail> {
    let channels = [SetupChannel {
        id: 1,
        name: "channel",
        net: 0,
    }];
    let text = text_of(rt.alloc(), 176_459_040_026, false, &channels, &[])?;
    assert_same!(rt; text.as_str(), ONE_CHANNEL);
    Ok(())
}

#[test]
fn each_channel_is_a_data_source_and_attributes_follow(rt: HostRuntime) -> Result<(), Fail> {
    let channels = [
        SetupChannel {
            id: 1,
            name: "left;wing",
            net: 0,
        },
        SetupChannel {
            id: 7,
            name: " ",
            net: 255,
        },
        SetupChannel {
            id: 65_535,
            name: "0123456789012345678901234567890123",
            net: 1,
        },
    ];
    let attributes = [
        Attribute {
            name: "G\\SC",
            value: "U",
        },
        Attribute {
            name: "V-1\\X",
            value: "a:b",
        },
    ];
    let text = text_of(rt.alloc(), 0, true, &channels, &attributes)?;
    assert!(rt; text.ends_with(THREE_CHANNELS));
    assert!(rt; text.contains("\nG\\OD:01-01-1970;\r\n"));
    assert!(rt; text.contains("\nR-1\\RI4:01-01-1970-00-00-00;\r\n"));
    Ok(())
}

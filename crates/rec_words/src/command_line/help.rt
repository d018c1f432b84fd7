//! The texts of help.

/// The text that help ends in, by a name: a constant that has all the texts is slow to prove.
pub(crate) enum HelpText {
    /// [`ASM`]
    Asm,
    /// [`DIS`]
    Dis,
    /// [`VERIFY`]
    Verify,
    /// [`RUN`]
    Run,
    /// [`LIST`]
    List,
    /// [`AUDIT`]
    Audit,
    /// [`EXTRACT`]
    Extract,
    /// [`UPGRADE`]
    Upgrade,
    /// [`EXPORT`]
    Export,
    /// [`CHAPTER11`]
    Chapter11,
    /// [`RECORD`]
    Record,
    /// [`SIMULATE`]
    Simulate,
    /// [`PRINT_VERSION`]
    Version,
}

/// The text that help ends in.
pub(crate) fn text_of(help: &HelpText) -> &'static str {
    match help {
        HelpText::Asm => ASM,
        HelpText::Dis => DIS,
        HelpText::Verify => VERIFY,
        HelpText::Run => RUN,
        HelpText::List => LIST,
        HelpText::Audit => AUDIT,
        HelpText::Extract => EXTRACT,
        HelpText::Upgrade => UPGRADE,
        HelpText::Export => EXPORT,
        HelpText::Chapter11 => CHAPTER11,
        HelpText::Record => RECORD,
        HelpText::Simulate => SIMULATE,
        HelpText::Version => PRINT_VERSION,
    }
}

/// What the program does.
pub(crate) const ABOUT: &str =
    "Records Ethernet channels through filters, reads the recordings, and assembles and checks filters.";

/// What help says after the list of commands.
pub(crate) const STATUSES: &str = "\
As FILE, - is standard input, so commands can be joined by pipes:
  bpfrec asm arp.bpf | bpfrec verify -
Without arguments, bpfrec reads a listing and a view in hexadecimal, a line each, from standard
input, and prints what run prints.

Exit status: 0 answered; 1 a text, listing, program, view, script or recording was refused; 2 wrong
arguments, or refused settings; 3 a file or standard output could not be read or written; 4 no memory.";

const ASM: &str = "\
Reads a filter in the text of the Linux kernel's bpf_asm, and prints its listing on standard
output, on one line, for verify, run and dis. The first fault of the text is reported on standard
error, with its line, counted from 1:
  asm <number> <Name> line <n>     Syntax, Number, UnknownMnemonic, OperandNotAllowed,
                                   LabelMissing, LabelTwice, Backward or TooFar
  asm 9 TooLong                    more than 4,096 instructions

Exit status: 0 answered; 1 no program; 2 arguments; 3 the file; 4 no memory.

Example:
  bpfrec asm arp.bpf";

const DIS: &str = "\
Reads a program's listing, and prints the program in the text of the Linux kernel's bpf_asm on
standard output, a line for each instruction, with labels where jumps lead. asm reads a text of
at most 4,096 instructions as the same program. What has no text is reported on standard error:
  dis 1 NoForm <i>                 instruction i has no legal code, or a number in a field that
                                   it doesn't use. tcpdump leaves such numbers (7 0 0 5), which
                                   verify and run skip, and no text can say them
  dis 2 JumpOut <i>                a jump of instruction i leads past the last instruction

Exit status: 0 answered; 1 no listing, or no text; 2 arguments; 3 the file; 4 no memory.

Example:
  bpfrec dis arp.txt";

const VERIFY: &str = "\
Reads a program's listing, as bpf_asm and tcpdump -ddd print it. Prints on standard output
  valid <n>                        a program of n instructions, which may be installed
  refused <number> <Name> [<i>]    the first condition that it breaks, at instruction i
A fault of the listing (listing ..) or of the file (file <path>) is reported on standard error.

Exit status: 0 valid; 1 refused, or no listing; 2 arguments; 3 the file; 4 no memory.

Example:
  bpfrec verify arp.txt";

const RUN: &str = "\
Reads a program's listing, and runs the program on a view: the bytes of a frame without its
frame check sequence (FCS), in hexadecimal (an empty argument is the empty view). Prints on
standard output
  <value> <steps>                  what the program returns, and how many instructions ran
A value of 0 means that the frame is dropped. A program that verify refuses is refused here
too; a view that is odd, not hexadecimal or over 16,379 bytes is reported as view.

Exit status: 0 answered; 1 refused; 2 arguments; 3 the file; 4 no memory.

Example:
  bpfrec run arp.txt ffffffffffff0200000000010806";

const LIST: &str = "\
Reads a recording, and prints on standard output a line for each of its packets, and how many
there are and how many of them hold something else than frames and records:
  <at> <channel> <type> <sequence> <length> <data length> <counter> <what>
  packets <n> other <m>
with these columns:
  <at>                             the place of the packet's first byte
  <channel>                        its channel ID; 0 of a record, which has a program or an end
  <type>                           its data type, in hexadecimal: 68 frames, 00 a record
  <sequence>                       its number among its channel's packets, modulo 256
  <length> <data length>           its bytes, and those of its body without filler and checksum
  <counter>                        its relative time counter (RTC), in ticks of 100 ns
  <what>                           what it holds:
    frames <n>                     n frames
    program <channel> <version> <first> <count>
                                   a program of that channel, from frame <first> on
    end <channel> <offered> <kept> the end of that channel
    other                          anything else, which is skipped
A recording that can't be read to its end is reported on standard error, and nothing is listed:
  read <number> <Name> <at>        Truncated, Sync, Checksum, Length, Body or DataChecksum, and
                                   the place of the packet that has it

Exit status: 0 listed; 1 not read to its end; 2 arguments; 3 the file; 4 no memory.

Example:
  bpfrec list flight.ch11";

const AUDIT: &str = "\
Reads a recording and judges it by its own packets: whether each frame was accepted by the program
that the recording has for it, and whether each channel's end counts its frames. Prints on standard
output
  channel <id> programs <n> frames <n> offered <n>     for each channel, in ascending order
  yes other <m>                    m packets hold something else
or the first thing that is wrong, with packets and frames counted from 0:
  no 1 NoProgram <packet>          frames, and no program of their channel before them
  no 2 BadProgram <packet>         a program that verify refuses
  no 3 NotAccepted <packet> <frame>
                                   a frame that its program drops, or that has no FCS
  no 4 Order <packet>              a packet after its channel's end, or programs out of order
  no 5 NoEnd <channel>             a channel without its end
  no 6 Counts <channel>            an end whose numbers are not those of its frames
A recording without packets is yes other 0, so look for the lines of your channels.
A recording that can't be read to its end is reported as by list.

Exit status: 0 yes; 1 no, or not read to its end; 2 arguments; 3 the file; 4 no memory.

Example:
  bpfrec audit flight.ch11";

const EXTRACT: &str = "\
Reads a recording, writes the frames of one of its channels into the feed OUT, in order, and
prints on standard output
  frames <n> passed <m>            n frames are in the feed, and m were skipped, since they
                                   are no frames with their frame check sequence (FCS)
An OUT that exists is overwritten, unless it is FILE. Of a recording that can't be read to its end,
which is reported as by list, OUT is not created.

Exit status: 0 written; 1 not read to its end; 2 arguments; 3 a file; 4 no memory.

Example:
  bpfrec extract flight.ch11 1 channel_1.feed";

const UPGRADE: &str = "\
Copies a recording into OUT and adds a data checksum to each packet of frames, program and end that
lacks one. A packet that would get too long, past 524,288 bytes, is copied as it is, and so is any
other packet. The contents do not change: list, audit and extract find the same, but for the places
and the lengths of packets. Prints on standard output
  upgraded <n> copied <m>          n packets got a data checksum, and m were copied
A recording that is up to date is copied byte for byte: upgraded 0. An OUT that exists is overwritten,
unless it is IN. Of a recording that can't be read to its end, which is reported as by list, OUT is
not created.

Exit status: 0 written; 1 not read to its end; 2 arguments; 3 a file; 4 no memory.

Example:
  bpfrec upgrade last_year.ch11 flight.ch11";

const SIMULATE: &str = "\
Runs the recorder's core, without threads and files, by a script: what happens to its channels, one
event after another, in any order. Prints the answer of each event on standard output. The fields of
a line are separated by one space, and a listing takes the rest of its line:
  recorder <limit> <ring> <version>                the first line, as in the settings of record
  channel <id> <net> <speed> <max> <listing>       1 to 64 of them, each with an id of its own
  span <channel> <ticks>                           behind them: a channel's span, as in the settings
  take <channel> <counter> <marks> <frame>         a frame comes, in hexadecimal with its FCS;
                                                   marks: 1 CRC error, 2 frame error
  time <channel> <counter>                         a time mark: no frame came up to this counter
  install <channel> <listing>                      the channel's filter is changed
  send <channel>                                   its next piece goes to its ring
  write <channel>                                  the first piece of its ring is written
  close <channel>                                  no more frames come
Each event is answered by a line:
  took <number> <version> <value>                  a value of 0 drops the frame
  timed
  installed <version> <first>                      from frame <first> on
  sent program <version>, sent frames <n>, or sent end
  wrote <packet>                                   its bytes in hexadecimal
  closed <offered> <kept>
  refused <number> <Name>                          NoChannel, Closed, RingFull, NothingToSend,
                                                   NothingToWrite, VersionsFull or CountFull
A refused event changes nothing, and the script goes on. A line of another form ends it, and
is reported on standard error, counted from 1; 0 is a script that ends before its first channel:
  script line <n>

Exit status: 0 the script ended; 1 a line is refused; 2 arguments; 3 the file; 4 no memory.

Example:
bpfrec simulate - <<'END'
recorder 16424 4 8
channel 1 0 3 100 1,6 0 0 1,
take 1 16 0 ffffffffffff0200000000010806a1b2c3d4
send 1
write 1
close 1
END";

const EXPORT: &str = "\
Reads a recording once, and writes the frames of all its channels into the pcapng file OUT, which
Wireshark, tshark and tcpdump read. A channel is an interface with the name channel <id>, and with
the version of its first filter as a comment. A frame has its bytes with the frame check sequence
(FCS), its error flags, and its counter as the time. Where the filter changed, the first frame
behind has the new version as a comment. As OUT, - is standard output; it prints nothing else.

Times are those since counter 0, from 1970 on. ORIGIN is added to them, a number of seconds from 0
to 9223372036854775807.
An OUT that exists is overwritten, unless it is FILE. Of a recording that can't be read to its end,
which is reported as by list, OUT has the frames of the packets before.

Exit status: 0 written; 1 not read to its end; 2 arguments; 3 a file; 4 no memory.

Examples:
  bpfrec export flight.ch11 flight.pcapng
  bpfrec export flight.ch11 - | wireshark -k -i -";

const CHAPTER11: &str = "\
Writes a whole Chapter 11 file of a recording, by the standard as we know it: a setup record (TMATS),
a time packet each second, the frames of all channels in packets of at most 100 ms, filters and ends by
their counters, and an index. RECORDING is a regular file, which is read twice. SETUP is a TOML
document, which bpfrec export --print-setup makes of the facts beside a recording:
  origin = \"1764590400.25\"         seconds from 1970-01-01 UTC to counter 0, or, in its place,
  origins = [{ counter = 0, origin = \"1764590400.25\" }]
                                   1 to 65536 of them, each from its counter on; one in TAI
                                   with scale = \"TAI\" and tai_offset = 37
  host = \"bpfrec\"                  the name of the recorder
  program = \"bpfrec\"               the name of the test
  external = false                 whether an outside source held the clock
  attributes = [\"G\\\\SC:U\"]        further lines of the setup record, NAME:VALUE
  [[channel]]                      any number of them, each with an id of its own
  id = 1                           1 to 65535
  name = \"channel\"                 its name
  net = 0                          its network identifier, 0 to 255
Only the origin and each id must be set; the values above are the others' defaults.

Of several recordings, up to 1,024, it writes one file of their time:
  bpfrec chapter11 <RECORDING>... <SETUP> <OUT>
SETUP then has a table for each RECORDING, in their order, in place of origin, origins and channel:
  [[recording]]
  origin = \"1764590400.25\"         or origins, as above
  after = 0                        the place, from 0, of the one that it follows in its run, if it does
  [[recording.channel]]            the channels of this RECORDING, as above
A channel keeps its ID, unless an earlier RECORDING of another run has one of the same ID.

Prints on standard output
  times <n> packets <n> records <n> index <n> bytes <n>
with the numbers of time packets, of packets of frames, of filters and ends, and of index packets; or why
there can be no such file, with the place of the packet in RECORDING:
  refused 1 Other <at>             it is no frames of a channel from 1 on, filter or end
  refused 2 Disorder <at>          its counter is over a second below one before it
  refused 3 Gap <at>               its counter is over seven days above all before it
  refused 4 Origin 0               no time packet has a place
  refused 5 Year 0                 a time outside of the years 1 to 3999
  refused 7 Full 0                 no channel ID is left for the time
  refused 8 Part <at>              a RECORDING of a run has no right filters or ends, as audit would say
  refused 9 Sum <at>               a version, or a number of frames, of a run is too great
Where SETUP has [[recording]], a second number follows: the place of that RECORDING among the arguments,
counted from 0.
An OUT that exists is overwritten, unless it is RECORDING or SETUP. Of a recording that is refused, or
that can't be read to its end, which is reported as by list, with its place behind it if there are
several, OUT is not created. A fault of SETUP is reported on standard error:
  setup <number> <Name> [<key>]    Syntax, Unknown, Missing or Value

In place of RECORDING, SETUP and OUT, --stream SETUP reads a recording on standard input as it grows, and
writes its packets on standard output, each as soon as it can go, in the recording's order and without an
index. Each [[channel]] that may come has to be in SETUP. At the end it prints on standard error
  packets <n> records <n> times <n> late <n> other <n>
with the numbers of packets of frames, of filters and ends, of time packets, of what came over a second
late, and of packets of other kinds, which are left out; or why nothing more goes out.

Exit status: 0 written; 1 refused, or not read to its end; 2 arguments, or SETUP; 3 a file; 4 no memory.

Examples:
  bpfrec chapter11 flight.ch11 flight.toml flight.ch10
  tail -c +1 -f flight.ch11 | bpfrec chapter11 --stream flight.toml > flight.ch10";

const PRINT_VERSION: &str = "\
Prints on standard output what --version prints too:
  bpfrec <version>

Exit status: 0 answered; 2 arguments; 3 standard output.

Example:
  bpfrec version";

const RECORD: &str = "\
Records the channels that SETTINGS names into the file OUT, until every feed has ended and so has
standard input. SETTINGS is a TOML document:
  limit = 65536                    the longest packet of frames without its data checksum,
                                   in bytes, 16424 to 524284
  ring = 64                        how many packets of a channel may wait for OUT, 1 to 4096
  version = 8                      the data type version of the packets, 0 to 255
  [[channel]]                      1 to 64 of them, each with an id of its own
  id = 1                           1 to 65535
  feed = \"one.feed\"                where its frames come from: a file, or a named pipe
  filter = \"one.txt\"               the listing of its filter's first program
  net = 0                          the network identifier of its frames, 0 to 255
  speed = 0                        their Ethernet speed, 0 to 15
  max = 9223372036854775807        how many frames are taken at most, 0 to this number
  span = 0                         the age at which a packet of frames is closed, in units of 100 ns,
                                   0 to 281474976710655; 0 is for no age
Only id, feed and filter must be set; the numbers above are the others' defaults. Filters and
feeds are opened channel by channel, and then OUT is created, or overwritten if it exists; the opening
of a pipe waits for its writer. No pipe may feed two channels. OUT may be none of these files, nor
a file that a standard stream is, nor what another recorder writes: it is locked. With /dev/null as
OUT the filters are tried; a named pipe as OUT takes the recording to another machine.

From then on a silent pipe delays no other channel. Nothing is dropped when time is short: a pipe
that fills delays its writer, which has to count what it drops. A channel that has ended closes
its feed. Recording ends when every feed and standard input have ended; after OUT has failed each
of them ends with its next frame or line. Ctrl-C would end it without end records; keep it from the
recorder, so that what feeds it ends first:
  (trap '' INT TERM; exec bpfrec record flight.toml flight.ch11 < /dev/null) &
A job in the background needs < /dev/null, or a pipe.

A line on standard input changes the filter of a channel while recording goes on:
  set <channel> <file>             the program that <file> lists is in force from now on
and each is answered on standard error, as soon as its answer is known:
  installed <channel> <version> <first>  from frame <first> on, counted from 0
  refused <channel> <reason>       Line, File, Listing, Program, NoChannel or VersionsFull

At the end it prints on standard output
  channel <id> versions <n> offered <n> kept <n> <ending>   for each channel, in their order
  wrote <packets> <bytes>
where <ending> is SourceEnd, CountFull, or SourceFault and the fault; none of them changes the
status. Settings that are refused are reported as settings <number> <Name> .., with status 2; an output
that fails as run 2 Output <whole> <bytes>, at that moment.

Exit status: 0 recorded; 1 a filter was refused, or the recording failed; 2 arguments or settings;
3 a file; 4 no memory.

Example:
  bpfrec record flight.toml flight.ch11 < /dev/null";

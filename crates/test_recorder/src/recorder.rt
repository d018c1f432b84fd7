//! Whole recordings: sources, a control and an output that wait for one another.
mod long;
mod parts;
mod rings;
mod runs;
mod script;
mod spans;

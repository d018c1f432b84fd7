//! The order in which a recorder calls its sources, its control and its output, beside the model of
//! its rings and buffers: each list of their calls is one that the model allows.
mod calls;
mod channel;
mod lists;
mod notes;
mod output;
mod race;
mod raced;
mod search;
mod world;

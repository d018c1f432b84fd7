//! Whole recordings of which no contract can say enough: that they stop, that their channels take
//! turns, and in how many writes they go out.
mod endless;
mod frames;
mod order;
mod packet;
mod signals;
mod stopping;
mod turns;
mod writes;

//! The tests of what reads recordings, by its public calls: whole or as a stream, the index, the
//! audit, the export, the whole Chapter 11 file.
#![tactic(auto)]

#[cfg(test)]
mod audit;
#[cfg(test)]
mod checksums;
#[cfg(test)]
mod export;
#[cfg(test)]
mod file;
#[cfg(test)]
mod index;
#[cfg(test)]
mod pieces;
#[cfg(test)]
mod reader;
#[cfg(test)]
mod shared;
#[cfg(test)]
mod stream;
#[cfg(test)]
mod upgrades;

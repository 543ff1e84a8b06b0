//! What a seat at the turn knows, only for the proofs.
use fileset_values::{Command, Entry};
use std::collections::LinkedList;
use std::snapshot::Snapshot;

/// A ghost value that goes with the number of a pass. No value of it is made.
pub struct Share {
    pub number: u64,
    /// The history as it was when the passes were made.
    pub start: LinkedList<Entry>,
    /// The history as it was when it was seen last.
    pub seen: LinkedList<Entry>,
    /// The entries of this pass, in order.
    pub mine: LinkedList<Entry>,
    /// How many entries it may still add.
    pub left: u64,
    /// The command of the running job, kept up to date only for the mover's pass.
    pub begun: Option<Command>,
    /// How much lasted of the value when it was in hand last.
    pub lasting: u64,
    /// The length at the start, or the greatest that a front told.
    pub committed: u64,
    /// How much lasted at the start, or the greatest that a front told or that it noted.
    pub durable: u64,
    /// The greatest number of ended passes that was told.
    pub ends: u64,
    pub ended: bool,
}

/// What a seat knows: the shares of its numbers, its place in the queue, and the value that it
/// holds, as it stands for all. No value of it is made.
pub struct View<T> {
    pub shares: LinkedList<Share>,
    pub ticket: Option<u64>,
    pub holds: Option<T>,
}

/// The value with which a turn begins, and how many entries each pass may add.
#[derive(Drop)]
pub struct Beginning<T> {
    pub value: Snapshot<T>,
    pub lefts: Vec<u32>,
}

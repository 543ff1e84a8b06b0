use crate::command::{Actor, Command};
use crate::reply::Reply;

/// A command of a history with its reply. The stamp is the number of device calls when it was
/// answered.
#[derive(Drop)]
pub struct Entry {
    pub actor: Actor,
    pub command: Command,
    pub reply: Reply,
    pub stamp: u64,
}

// What a pass knows, which contracts alone see: no value of it is made.
use host_events::Entry;
use std::collections::LinkedList;

/// What a pass knows of the lock, and what is its own.
pub struct View {
    /// The number of vCPUs that the lock's host was started for.
    pub vcpus: u64,
    /// The input that it was started over.
    pub input: LinkedList<u8>,
    /// A beginning of the history.
    pub known: LinkedList<Entry>,
    /// While two passes are joined, the shorter of what they knew; else nothing.
    pub shorter: LinkedList<Entry>,
    /// The greatest length of the history that it has met.
    pub reached: u64,
    /// The numbers of its own entries.
    pub own: LinkedList<u64>,
    /// The own numbers of the passes that were joined into it, a list for each.
    pub joined: LinkedList<LinkedList<u64>>,
    /// The history that it found, while it holds the host.
    pub held: Option<LinkedList<Entry>>,
    /// How many of the lock's 1,024 shares it has.
    pub share: u64,
}

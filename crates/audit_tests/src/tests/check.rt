//! What the digests of events are the hash of.

mod lines;

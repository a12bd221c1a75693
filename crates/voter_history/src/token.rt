//! Names of requests that can be withdrawn.

/// The name of a request that was handed out, by which whoever handed it out withdraws it.
#[derive(Drop)]
pub struct Token(pub u64);

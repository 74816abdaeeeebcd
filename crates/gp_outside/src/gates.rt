/// Where a worker may be held for a while. The call answers nothing.
pub trait Gate {
    /// A worker calls this once after each draw that gave it a ticket.
    fn pass(&self, worker: u32, ticket: u64);
}

/// A gate that holds nobody.
#[derive(Clone, Copy)]
pub struct FreeGate;

impl Gate for FreeGate {
    fn pass(&self, _worker: u32, _ticket: u64) {}
}

// What a caller sees of the turns.

/// Called before and after each turn of a vCPU, by the worker of that vCPU. It may wait.
pub trait Gate {
    /// The vCPU is about to ask for the host.
    fn enter(&self, vcpu: u16);

    /// The vCPU has had its turn, or was refused memory.
    fn leave(&self, vcpu: u16);
}

/// A gate that does nothing.
#[derive(Clone, Copy)]
pub struct Open;

impl Gate for Open {
    fn enter(&self, _: u16) {}

    fn leave(&self, _: u16) {}
}

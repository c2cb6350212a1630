//! What a worker passes before each of its turns.

/// Is told before each turn of each worker. Workers and turns count from 1.
pub trait Gate {
    fn pass(&self, worker: u32, turn: u64);
}

/// Does nothing.
#[derive(Clone, Copy)]
pub struct OpenGate;

impl Gate for OpenGate {
    fn pass(&self, _worker: u32, _turn: u64) {}
}

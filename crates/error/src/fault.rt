// A refusal with its place.
use crate::cause::Error;

// Why something is refused, and at which token, kind, row or byte, from 0.
#[derive(Clone, Copy)]
pub struct Fault {
    pub place: usize,
    pub error: Error,
}

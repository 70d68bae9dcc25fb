// What a head is told, and what it does then.
use crate::fault::HeadFault;

#[derive(Clone, Copy, Debug, PartialEq, Eq)]
pub enum Call {
    Seek(u64),
    On,
    Back,
    Address,
}

// What a call answered, and where the head stands after it.
#[derive(Clone, Copy, Debug, PartialEq, Eq)]
pub struct Step {
    pub answer: Result<(), HeadFault>,
    pub place: Option<u32>,
}

//! That a vehicle changed.

/// That the vehicle of these digits changed, with the number of the change. Numbers go up from 1.
#[derive(Clone, Copy)]
pub struct Change {
    pub number: u64,
    pub digits: [u8; 10],
}

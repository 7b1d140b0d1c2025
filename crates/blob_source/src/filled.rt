// What reading ahead came to.
#[derive(Clone, Copy)]
pub enum Filled {
    // There are bytes.
    Some,
    // There are none, and no more come.
    End,
    // The source failed.
    Fault,
}

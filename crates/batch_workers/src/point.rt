/// Where on its way a thread is.
#[derive(Clone, Copy, Debug, PartialEq, Eq, Drop)]
pub enum Point {
    /// A worker took the batch of this number, and goes on to have its certificate made.
    BeforeMake(u32),
    /// A worker has the certificate of the batch of this number, and goes on to register it.
    BeforeRegister(u32),
    /// The client of this number made an offer, and goes on to submit it.
    BeforeSubmit(u32),
}

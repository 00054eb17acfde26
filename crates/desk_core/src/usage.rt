/// What a client's admitted PIEs take of its limits.
#[derive(Clone, Copy, Debug)]
pub(crate) struct Usage {
    pub pies: u32,
    pub steps: u64,
    pub cells: u64,
}

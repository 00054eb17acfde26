/// How much a run takes: its steps, and the cells that its segments have room for.
#[derive(Clone, Copy, Debug, PartialEq, Eq)]
pub struct Shape {
    pub steps: u32,
    pub size: u32,
}

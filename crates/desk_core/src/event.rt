use cairo_model::{Fact, Refusal, Shape};

/// What the journal keeps of an offer.
#[derive(Debug, Drop)]
pub enum OfferNote {
    /// How much the PIE's run takes, and what it shows.
    Accepted(Shape, Fact),
    Refused(Refusal),
}

/// What happens at a desk. Clients, jobs and batches are named by their numbers.
#[derive(Debug, Drop)]
pub enum Event {
    /// By this client.
    Submit(u32, OfferNote),
    Seal,
    Take,
    /// Of this batch, with the least index at which the certified parcel isn't the batch's.
    Register(u32, Option<u32>),
    /// Of this batch.
    GiveBack(u32),
    /// By this client, whether the fact stands.
    Ask(u32, Fact),
    /// By this client, where its job of this number stands.
    Status(u32, u32),
    Close,
}

// One byte more of what a byte closes.

/// What a byte does: more has to come, with this known of it; or it closes; or it may not come
/// here.
#[derive(Clone, Copy, Drop)]
pub enum ClosingStep<S> {
    On(S),
    Closed,
    Wrong,
}

use gp_workers::Post;

// How the certificates of a window are told.
#[derive(Clone, Copy)]
pub(crate) enum Telling {
    // Each with all of its steps.
    Whole,
    // In the compact form: a step that rests on the constraints alone stands once, in the shared steps of the window.
    Compact,
}

// What is asked of each window: this question is answered by so many workers, each of which has this budget for an ask, and
// passes the gate before each of its own. The certificates are told in this form.
#[derive(Drop)]
pub(crate) struct Instructions<'a, Q, G> {
    pub(crate) question: &'a Q,
    pub(crate) workers: u32,
    pub(crate) budget: u64,
    pub(crate) gate: &'a G,
    pub(crate) telling: Telling,
}

// How the workers of a window work: side by side, or one after another in the calling thread, with a post that goes on from
// window to window.
#[derive(Drop)]
pub(crate) enum Order {
    SideBySide,
    InTurn(Post),
}

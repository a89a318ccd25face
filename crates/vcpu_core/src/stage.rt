// Where a vCPU stands between two calls; its event and its end stand beside it.

/// Where a vCPU stands.
#[derive(Clone, Copy, Debug, PartialEq, Eq)]
pub enum Stage {
    /// It has said nothing yet.
    New,
    /// It has asked the host for its versions, and waits for the answer.
    Asked,
    /// It goes on by itself.
    Going,
    /// It has shown its event, and waits for the reply.
    Waits,
    /// It has ended.
    Ended,
}

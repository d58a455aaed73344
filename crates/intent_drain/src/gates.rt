/// The gate of a group: whether chains may begin there. A group that is to be judged is closing until
/// its unfinished intents are done, and then closed (XFS Online Fsck Design, "Intent Drains").
#[derive(Clone, Copy, Debug, PartialEq, Eq)]
pub enum Gate {
    Open,
    Closing,
    Closed,
}

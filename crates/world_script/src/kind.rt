/// The kinds of script.
#[derive(Clone, Copy, PartialEq, Eq)]
pub enum ScriptKind {
    /// What befalls one gateway.
    Feed,
    /// What befalls gateways, nodes and the messages between them.
    Replay,
    /// The settings of a gateway that serves: those of a feed but for the length of its journal.
    Serve,
}

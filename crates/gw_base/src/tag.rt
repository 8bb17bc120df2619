/// The identifier of a BER value (ITU-T X.690, clause 8.1.2): what kind of value it is.
#[derive(Clone, Copy, Debug)]
pub struct Tag {
    /// The class: 0 universal, 1 application, 2 context-specific, 3 private.
    pub class: u8,
    /// Whether the contents are values again.
    pub constructed: bool,
    /// The tag number within the class.
    pub number: u32,
}

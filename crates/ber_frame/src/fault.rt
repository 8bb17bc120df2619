/// Why octets aren't one BER value, and where.
#[derive(Clone, Copy, Debug, PartialEq, Eq)]
pub struct BerFault {
    /// The place of the first octet of the value that fails, counted from 0; for `Trailing` the
    /// place of the first octet past the outer value. It may be the number of octets.
    pub at: usize,
    /// What is wrong there.
    pub kind: BerKind,
}

/// What may be wrong with a BER value (ITU-T X.690, clause 8.1). A value is read from left to right,
/// and the first that fails is told: an identifier that is cut, its tag number, length octets that
/// are cut, the length they give, an indefinite one, the depth, contents that are cut; then the
/// values inside, one after the other. `Trailing` comes last.
#[derive(Clone, Copy, Debug, PartialEq, Eq)]
pub enum BerKind {
    /// The octets, or those of the enclosing value, end before the value does.
    Cut,
    /// Octets follow the outer value.
    Trailing,
    /// The length of a primitive value is indefinite.
    Indefinite,
    /// The first length octet is `FF`, or the length is above 4,294,967,295.
    LengthTooBig,
    /// The value lies more than 32 values deep, the outer one counted.
    TooDeep,
    /// The tag number is above 4,294,967,295.
    TagTooBig,
}

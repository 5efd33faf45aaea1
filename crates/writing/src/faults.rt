// Why no set is written.

/// Why a set is not written, or has no smallest form.
#[derive(Clone, Copy, Debug, PartialEq, Eq)]
pub enum WriteFault {
    /// 19: the identifier is not 1 to 32 bytes of whole arcs
    Identifier,
    /// 20: the object has no byte, or over 2,048
    Size,
    /// more bytes of offset and pad than an offset byte can tell: over 256
    Extra,
    /// the room is shorter than the set, which has so many bytes
    Short(usize),
}

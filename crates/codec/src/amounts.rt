// An amount of bytes: bases, offsets and addresses are such.
#[derive(Clone, Copy, Debug, PartialEq, Eq)]
pub struct Bytes(pub i64);

// An amount of elements: strides are such. The two meet only where the width is applied.
#[derive(Clone, Copy, Debug, PartialEq, Eq)]
pub struct Elements(pub i64);

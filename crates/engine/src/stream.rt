// A stream's descriptors.
use codec::amounts::{Bytes, Elements};
use codec::operation::{Behaviour, Parameter};

// A modifier. Dimensions are counted from 0 here: the target is the sheet's field, the owner the place of its dimension.
#[derive(Clone, Copy)]
pub struct Modifier {
    pub owner: usize,
    pub target: usize,
    pub parameter: Parameter,
    pub behaviour: Behaviour,
    pub displacement: u64,
}

// What the loops depend on: the dimensions' sizes, innermost first, the modifiers, and the coupling.
#[derive(Clone, Copy)]
pub struct Shape {
    pub dims: usize,
    pub sizes: [u64; 7],
    pub mods: usize,
    pub modifiers: [Modifier; 8],
    pub coupling: Option<u64>,
}

// A stream's descriptors: its shape, and where its elements lie. Offsets count bytes and strides count elements.
#[derive(Clone, Copy)]
pub struct Pattern {
    pub shape: Shape,
    pub base: Bytes,
    pub offsets: [Bytes; 7],
    pub strides: [Elements; 7],
}

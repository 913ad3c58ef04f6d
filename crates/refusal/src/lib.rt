// What every refused call tells: a number, the layer that refuses and a position.
#![tactic(auto)]

// Which part of the library refuses.
#[derive(Clone, Copy, PartialEq, Eq, Debug)]
pub enum Layer {
    Calendar,
    Model,
    Study,
}

// The number is what users are told and look up, so it is one and no enum; each fault of a layer is a case of that layer's enum. It is 0 for want of memory. The position is one in a starting list, or 0 and no None: the rule tells 0 where there is none.
#[derive(Clone, Copy, PartialEq, Eq, Debug)]
pub struct Refusal {
    pub number: u8,
    pub layer: Layer,
    pub position: u32,
}

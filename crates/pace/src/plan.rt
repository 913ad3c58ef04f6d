// What is run, and what comes of it.

// Days that are branched once: so many steps, a child of variant 0 for each further variant, and so many steps more.
#[repr(C)]
#[derive(Clone, Copy)]
pub struct Plan {
    // the buckets, or else the heap
    pub buckets: bool,
    // whether journals are read and summed up
    pub summed: bool,
    // the dairy's farms, or PHOLD's places
    pub farms_or_places: u8,
    pub tankers: u8,
    pub variants: u8,
    // the children are given orders at the first so many places in turn; 0: none
    pub ordered: u8,
    // how many starting messages
    pub starts: u16,
    pub steps_before: u32,
    pub steps_after: u32,
}

#[repr(C)]
#[derive(Clone, Copy)]
pub struct Figures {
    pub steps: u32,
    pub executions: u32,
    pub copies: u32,
    pub entries: usize,
    // of each variant, where journals are summed up
    pub events: [usize; 16],
    // of the journals of all variants in turn, where they are summed up
    pub checksum: u64,
}

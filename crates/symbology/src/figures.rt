// The figures of an accepted body, and what a caller asks of one before anything is written.
#[derive(Clone, Copy, PartialEq, Eq)]
pub enum Packet {
    Packet16,
    PacketAf1f,
    Packet28,
}

// The range scale of packets 16 and AF1F, or the gate figures of packet 28.
#[derive(Clone, Copy)]
pub enum Geometry {
    RangeScale(u16),
    Gates {
        gate_width_m: f32,
        first_gate_m: f32,
    },
}

#[derive(Clone, Copy)]
pub struct Figures {
    pub packet: Packet,
    pub n_radials: usize,
    pub n_bins: usize,
    pub geometry: Geometry,
}

// The schemes as document 01 groups them by the packets that they work on.
#[derive(Clone, Copy)]
pub enum Packets {
    // Legacy.
    Af1fAlone,
    // Halfword and float, on 16 and AF1F; their step has to be above 0 (9).
    Radial { step: f32 },
    // Precipitation and class, on all three.
    Any,
}

// What a caller asks of a body: the packets that it can use, and, where values are written, room for so many.
#[derive(Clone, Copy)]
pub struct Terms {
    pub packets: Packets,
    pub physical: Option<usize>,
}

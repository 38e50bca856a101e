// Eight planes of bits, of which each bit of a byte belongs to another block.

ghost use Rattle.aes_lanes.specs.Planes.{IsPlane};

use std::simd::prelude::*;

/// Eight planes of 32 bytes.
#[derive(Clone, Copy)]
pub(crate) struct Planes {
    pub(crate) p0: u8x32,
    pub(crate) p1: u8x32,
    pub(crate) p2: u8x32,
    pub(crate) p3: u8x32,
    pub(crate) p4: u8x32,
    pub(crate) p5: u8x32,
    pub(crate) p6: u8x32,
    pub(crate) p7: u8x32,
    pub(crate) ghost plane0: { IsPlane p0 },
    pub(crate) ghost plane1: { IsPlane p1 },
    pub(crate) ghost plane2: { IsPlane p2 },
    pub(crate) ghost plane3: { IsPlane p3 },
    pub(crate) ghost plane4: { IsPlane p4 },
    pub(crate) ghost plane5: { IsPlane p5 },
    pub(crate) ghost plane6: { IsPlane p6 },
    pub(crate) ghost plane7: { IsPlane p7 },
}

/// Planes of zeros.
pub(crate) fn no_planes() -> Planes {
    let plane = u8x32::splat(0);
    Planes {
        p0: plane,
        p1: plane,
        p2: plane,
        p3: plane,
        p4: plane,
        p5: plane,
        p6: plane,
        p7: plane,
    }
}

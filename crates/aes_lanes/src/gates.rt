// The S-box as gates on bits side by side.

ghost use Rattle.std.specs.Prelude.{◌≡◌, ℕ, ◌<◌, bit_xor, map};
ghost use Rattle.aes_lanes.specs.Field.{sbox};
ghost use Rattle.aes_lanes.specs.Planes.{bit_of, byte_at, byte_of};
ghost use Rattle.aes_lanes.specs.PlaneList.{bits_list, list_of};

use crate::planes::Planes;
use std::simd::prelude::*;

/// The words in one place of eight planes.
#[derive(Clone, Copy)]
pub(crate) struct Bits {
    pub(crate) b0: u64,
    pub(crate) b1: u64,
    pub(crate) b2: u64,
    pub(crate) b3: u64,
    pub(crate) b4: u64,
    pub(crate) b5: u64,
    pub(crate) b6: u64,
    pub(crate) b7: u64,
}

// The circuit of Boyar and Peralta without the complement of four values: the S-box and 0x63. Of the orders in which its
// gates can stand this is one that LLVM compiles with few values moved to memory and back.
#[inline(always)]
fn gates_of(bits: Bits) -> Bits
    ensures { (k : ℕ) → k < 64
        → byte_of (map (bit_of k) (bits_list result)) ≡ bit_xor (sbox (byte_of (map (bit_of k) (bits_list bits)))) 0x63 }
{
    let x0 = bits.b7;
    let x1 = bits.b6;
    let x2 = bits.b5;
    let x3 = bits.b4;
    let x4 = bits.b3;
    let x5 = bits.b2;
    let x6 = bits.b1;
    let x7 = bits.b0;
    let y14 = x3 ^ x5;
    let t0 = x1 ^ x2;
    let y1 = t0 ^ x7;
    let y8 = x0 ^ x5;
    let y13 = x0 ^ x6;
    let y4 = y1 ^ x3;
    let y12 = y13 ^ y14;
    let y5 = y1 ^ x6;
    let y3 = y5 ^ y8;
    let t1 = x4 ^ y12;
    let y20 = t1 ^ x1;
    let y9 = x0 ^ x3;
    let y15 = t1 ^ x5;
    let t2 = y12 & y15;
    let y6 = y15 ^ x7;
    let y11 = y20 ^ y9;
    let t12 = y9 & y11;
    let t5 = y4 & x7;
    let t3 = y3 & y6;
    let y10 = y15 ^ t0;
    let y16 = t0 ^ y11;
    let t4 = t3 ^ t2;
    let y17 = y10 ^ y11;
    let t7 = y13 & y16;
    let t8 = y5 & y1;
    let t13 = y14 & y17;
    let t6 = t5 ^ t2;
    let t14 = t13 ^ t12;
    let y2 = y1 ^ x0;
    let y18 = x0 ^ y16;
    let y7 = x7 ^ y11;
    let t15 = y8 & y10;
    let t16 = t15 ^ t12;
    let t9 = t8 ^ t7;
    let t10 = y2 & y7;
    let y19 = y10 ^ y8;
    let t19 = t9 ^ t14;
    let t17 = t4 ^ t14;
    let t11 = t10 ^ t7;
    let t18 = t6 ^ t16;
    let t21 = t17 ^ y20;
    let y21 = y13 ^ y16;
    let t22 = t18 ^ y19;
    let t20 = t11 ^ t16;
    let t23 = t19 ^ y21;
    let t25 = t21 ^ t22;
    let t24 = t20 ^ y18;
    let t26 = t21 & t23;
    let t27 = t24 ^ t26;
    let t28 = t25 & t27;
    let t29 = t28 ^ t22;
    let t30 = t23 ^ t24;
    let t31 = t22 ^ t26;
    let t32 = t31 & t30;
    let t33 = t32 ^ t24;
    let t35 = t27 ^ t33;
    let t36 = t24 & t35;
    let t38 = t27 ^ t36;
    let t39 = t29 & t38;
    let t42 = t29 ^ t33;
    let t40 = t25 ^ t39;
    let t34 = t23 ^ t33;
    let t37 = t36 ^ t34;
    let z2 = t33 & x7;
    let t41 = t40 ^ t37;
    let t43 = t29 ^ t40;
    let z6 = t42 & y11;
    let t44 = t33 ^ t37;
    let t45 = t42 ^ t41;
    let z5 = t29 & y7;
    let z0 = t44 & y15;
    let z7 = t45 & y17;
    let z3 = t43 & y16;
    let z1 = t37 & y6;
    let z9 = t44 & y12;
    let z8 = t41 & y10;
    let z10 = t37 & y3;
    let z11 = t33 & y4;
    let z15 = t42 & y9;
    let z14 = t29 & y2;
    let z12 = t43 & y13;
    let z4 = t40 & y1;
    let t52 = z7 ^ z8;
    let z13 = t40 & y5;
    let z16 = t45 & y14;
    let z17 = t41 & y8;
    let t47 = z10 ^ z11;
    let t53 = z0 ^ z3;
    let t54 = z6 ^ z7;
    let t49 = z9 ^ z10;
    let t46 = z15 ^ z16;
    let t48 = z5 ^ z13;
    let t58 = z4 ^ t46;
    let t51 = z2 ^ z5;
    let t50 = z2 ^ z12;
    let t62 = t52 ^ t58;
    let t56 = z12 ^ t48;
    let t57 = t50 ^ t53;
    let t59 = z3 ^ t54;
    let t61 = z14 ^ t57;
    let t64 = z4 ^ t59;
    let t63 = t49 ^ t58;
    let t60 = t46 ^ t57;
    let t55 = z16 ^ z17;
    let t66 = z1 ^ t63;
    let s7 = t48 ^ t60;
    let s0 = t59 ^ t63;
    let t65 = t61 ^ t62;
    let t67 = t64 ^ t65;
    let s5 = t47 ^ t65;
    let s6 = t56 ^ t62;
    let s3 = t53 ^ t66;
    let s1 = t64 ^ s3;
    let s4 = t51 ^ t66;
    let s2 = t55 ^ t67;
    Bits {
        b0: s7,
        b1: s6,
        b2: s5,
        b3: s4,
        b4: s3,
        b5: s2,
        b6: s1,
        b7: s0,
    }
}

/// The gates of the S-box on each byte. They go word by word, so that a compiler takes as many words at once as a register holds.
#[inline(always)]
pub(crate) fn gates(s: &Planes) -> Planes
    ensures { (k p : ℕ) → k < 8 → p < 32
        → byte_at (list_of result) k p ≡ bit_xor (sbox (byte_at (list_of s.now) k p)) 0x63 }
{
    let mut y0 = u64x4::from_le_bytes(s.p0).to_array();
    let mut y1 = u64x4::from_le_bytes(s.p1).to_array();
    let mut y2 = u64x4::from_le_bytes(s.p2).to_array();
    let mut y3 = u64x4::from_le_bytes(s.p3).to_array();
    let mut y4 = u64x4::from_le_bytes(s.p4).to_array();
    let mut y5 = u64x4::from_le_bytes(s.p5).to_array();
    let mut y6 = u64x4::from_le_bytes(s.p6).to_array();
    let mut y7 = u64x4::from_le_bytes(s.p7).to_array();
    for place in 0..4 {
        let made = gates_of(Bits {
            b0: y0[place],
            b1: y1[place],
            b2: y2[place],
            b3: y3[place],
            b4: y4[place],
            b5: y5[place],
            b6: y6[place],
            b7: y7[place],
        });
        y0[place] = made.b0;
        y1[place] = made.b1;
        y2[place] = made.b2;
        y3[place] = made.b3;
        y4[place] = made.b4;
        y5[place] = made.b5;
        y6[place] = made.b6;
        y7[place] = made.b7;
    }
    Planes {
        p0: u64x4::from_array(y0).to_le_bytes(),
        p1: u64x4::from_array(y1).to_le_bytes(),
        p2: u64x4::from_array(y2).to_le_bytes(),
        p3: u64x4::from_array(y3).to_le_bytes(),
        p4: u64x4::from_array(y4).to_le_bytes(),
        p5: u64x4::from_array(y5).to_le_bytes(),
        p6: u64x4::from_array(y6).to_le_bytes(),
        p7: u64x4::from_array(y7).to_le_bytes(),
    }
}

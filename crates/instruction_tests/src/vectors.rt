//! What vector instructions compute, worked out by hand from the Arm Architecture Reference Manual.
use crate::rows::numbers_of;
use crate::walk::{Tested, walk};
use lane_ops::vector_value;
use sample_set::Failing;
use sl_isa::meaning::{Arrangement, Lane, LaneOp, LaneShift, Permutation, Vector};
use std::alloc::Global;

/// The operations of the cases below, in their order.
const OPERATIONS: [Vector; 125] = [
    Vector::Lanewise {
        op: LaneOp::Add,
        lanes: Arrangement::Bytes16,
    },
    Vector::Lanewise {
        op: LaneOp::Add,
        lanes: Arrangement::Bytes8,
    },
    Vector::Lanewise {
        op: LaneOp::Add,
        lanes: Arrangement::Halves8,
    },
    Vector::Lanewise {
        op: LaneOp::Add,
        lanes: Arrangement::Words4,
    },
    Vector::Lanewise {
        op: LaneOp::Add,
        lanes: Arrangement::Doubles2,
    },
    Vector::Lanewise {
        op: LaneOp::Sub,
        lanes: Arrangement::Bytes16,
    },
    Vector::Lanewise {
        op: LaneOp::Sub,
        lanes: Arrangement::Halves4,
    },
    Vector::Lanewise {
        op: LaneOp::Sub,
        lanes: Arrangement::Words4,
    },
    Vector::Lanewise {
        op: LaneOp::Sub,
        lanes: Arrangement::Doubles2,
    },
    Vector::Lanewise {
        op: LaneOp::And,
        lanes: Arrangement::Bytes16,
    },
    Vector::Lanewise {
        op: LaneOp::And,
        lanes: Arrangement::Bytes8,
    },
    Vector::Lanewise {
        op: LaneOp::Orr,
        lanes: Arrangement::Bytes16,
    },
    Vector::Lanewise {
        op: LaneOp::Orr,
        lanes: Arrangement::Bytes8,
    },
    Vector::Lanewise {
        op: LaneOp::Eor,
        lanes: Arrangement::Bytes16,
    },
    Vector::Lanewise {
        op: LaneOp::Eor,
        lanes: Arrangement::Bytes8,
    },
    Vector::Lanewise {
        op: LaneOp::Bic,
        lanes: Arrangement::Bytes16,
    },
    Vector::Lanewise {
        op: LaneOp::Bic,
        lanes: Arrangement::Bytes8,
    },
    Vector::Lanewise {
        op: LaneOp::Mul,
        lanes: Arrangement::Bytes16,
    },
    Vector::Lanewise {
        op: LaneOp::Mul,
        lanes: Arrangement::Halves8,
    },
    Vector::Lanewise {
        op: LaneOp::Mul,
        lanes: Arrangement::Halves4,
    },
    Vector::Lanewise {
        op: LaneOp::Mul,
        lanes: Arrangement::Words4,
    },
    Vector::Lanewise {
        op: LaneOp::Mla,
        lanes: Arrangement::Halves8,
    },
    Vector::Lanewise {
        op: LaneOp::Mla,
        lanes: Arrangement::Halves4,
    },
    Vector::Lanewise {
        op: LaneOp::Mla,
        lanes: Arrangement::Words4,
    },
    Vector::Lanewise {
        op: LaneOp::Mls,
        lanes: Arrangement::Halves8,
    },
    Vector::Lanewise {
        op: LaneOp::Mls,
        lanes: Arrangement::Halves4,
    },
    Vector::Lanewise {
        op: LaneOp::Mls,
        lanes: Arrangement::Words2,
    },
    Vector::Lanewise {
        op: LaneOp::Sqdmulh,
        lanes: Arrangement::Halves8,
    },
    Vector::Lanewise {
        op: LaneOp::Sqdmulh,
        lanes: Arrangement::Halves4,
    },
    Vector::Lanewise {
        op: LaneOp::Sqrdmulh,
        lanes: Arrangement::Halves8,
    },
    Vector::Lanewise {
        op: LaneOp::Sqrdmulh,
        lanes: Arrangement::Halves4,
    },
    Vector::Lanewise {
        op: LaneOp::Sqdmulh,
        lanes: Arrangement::Words4,
    },
    Vector::Lanewise {
        op: LaneOp::Sqrdmulh,
        lanes: Arrangement::Words4,
    },
    Vector::Lanewise {
        op: LaneOp::Sqdmulh,
        lanes: Arrangement::Words2,
    },
    Vector::Lanewise {
        op: LaneOp::Sqrdmulh,
        lanes: Arrangement::Words2,
    },
    Vector::Lanewise {
        op: LaneOp::Sqdmulh,
        lanes: Arrangement::Doubles2,
    },
    Vector::Lanewise {
        op: LaneOp::Sqrdmulh,
        lanes: Arrangement::Doubles2,
    },
    Vector::ByElement {
        op: LaneOp::Mul,
        lanes: Arrangement::Halves8,
    },
    Vector::ByElement {
        op: LaneOp::Mla,
        lanes: Arrangement::Words2,
    },
    Vector::ByElement {
        op: LaneOp::Mls,
        lanes: Arrangement::Words4,
    },
    Vector::ByElement {
        op: LaneOp::Sqdmulh,
        lanes: Arrangement::Halves8,
    },
    Vector::ByElement {
        op: LaneOp::Sqrdmulh,
        lanes: Arrangement::Halves4,
    },
    Vector::Copy {
        lanes: Arrangement::Bytes16,
    },
    Vector::Copy {
        lanes: Arrangement::Bytes8,
    },
    Vector::Copy {
        lanes: Arrangement::Doubles2,
    },
    Vector::Long {
        signed: false,
        adds: false,
        high: false,
        lanes: Arrangement::Halves8,
    },
    Vector::Long {
        signed: false,
        adds: false,
        high: false,
        lanes: Arrangement::Words4,
    },
    Vector::Long {
        signed: false,
        adds: false,
        high: false,
        lanes: Arrangement::Doubles2,
    },
    Vector::Long {
        signed: false,
        adds: false,
        high: true,
        lanes: Arrangement::Words4,
    },
    Vector::Long {
        signed: false,
        adds: true,
        high: false,
        lanes: Arrangement::Words4,
    },
    Vector::Long {
        signed: false,
        adds: true,
        high: true,
        lanes: Arrangement::Words4,
    },
    Vector::Long {
        signed: true,
        adds: false,
        high: false,
        lanes: Arrangement::Halves8,
    },
    Vector::Long {
        signed: true,
        adds: false,
        high: false,
        lanes: Arrangement::Words4,
    },
    Vector::Long {
        signed: true,
        adds: false,
        high: true,
        lanes: Arrangement::Halves8,
    },
    Vector::Long {
        signed: true,
        adds: false,
        high: true,
        lanes: Arrangement::Words4,
    },
    Vector::Long {
        signed: true,
        adds: true,
        high: false,
        lanes: Arrangement::Words4,
    },
    Vector::Long {
        signed: true,
        adds: true,
        high: false,
        lanes: Arrangement::Doubles2,
    },
    Vector::Long {
        signed: true,
        adds: true,
        high: true,
        lanes: Arrangement::Words4,
    },
    Vector::Long {
        signed: true,
        adds: false,
        high: false,
        lanes: Arrangement::Doubles2,
    },
    Vector::Long {
        signed: true,
        adds: false,
        high: true,
        lanes: Arrangement::Doubles2,
    },
    Vector::Long {
        signed: false,
        adds: true,
        high: true,
        lanes: Arrangement::Doubles2,
    },
    Vector::Shift {
        op: LaneShift::Shl,
        lanes: Arrangement::Words4,
    },
    Vector::Shift {
        op: LaneShift::Sli,
        lanes: Arrangement::Words4,
    },
    Vector::Shift {
        op: LaneShift::Sli,
        lanes: Arrangement::Words2,
    },
    Vector::Shift {
        op: LaneShift::Ushr,
        lanes: Arrangement::Words4,
    },
    Vector::Shift {
        op: LaneShift::Sshr,
        lanes: Arrangement::Words4,
    },
    Vector::Shift {
        op: LaneShift::Srshr,
        lanes: Arrangement::Words4,
    },
    Vector::Shift {
        op: LaneShift::Sri,
        lanes: Arrangement::Words4,
    },
    Vector::Shift {
        op: LaneShift::Shl,
        lanes: Arrangement::Bytes8,
    },
    Vector::Shift {
        op: LaneShift::Sli,
        lanes: Arrangement::Bytes8,
    },
    Vector::Shift {
        op: LaneShift::Ushr,
        lanes: Arrangement::Bytes8,
    },
    Vector::Shift {
        op: LaneShift::Sshr,
        lanes: Arrangement::Bytes8,
    },
    Vector::Shift {
        op: LaneShift::Srshr,
        lanes: Arrangement::Bytes8,
    },
    Vector::Shift {
        op: LaneShift::Sri,
        lanes: Arrangement::Bytes8,
    },
    Vector::Shift {
        op: LaneShift::Shl,
        lanes: Arrangement::Doubles2,
    },
    Vector::Shift {
        op: LaneShift::Sli,
        lanes: Arrangement::Halves4,
    },
    Vector::Shift {
        op: LaneShift::Ushr,
        lanes: Arrangement::Doubles2,
    },
    Vector::Shift {
        op: LaneShift::Sshr,
        lanes: Arrangement::Doubles2,
    },
    Vector::Shift {
        op: LaneShift::Srshr,
        lanes: Arrangement::Bytes16,
    },
    Vector::Shift {
        op: LaneShift::Srshr,
        lanes: Arrangement::Doubles2,
    },
    Vector::Shift {
        op: LaneShift::Sri,
        lanes: Arrangement::Doubles2,
    },
    Vector::Narrow {
        lanes: Arrangement::Bytes8,
    },
    Vector::Narrow {
        lanes: Arrangement::Halves4,
    },
    Vector::Narrow {
        lanes: Arrangement::Words2,
    },
    Vector::Permute {
        op: Permutation::Zip1,
        lanes: Arrangement::Bytes16,
    },
    Vector::Permute {
        op: Permutation::Zip1,
        lanes: Arrangement::Words4,
    },
    Vector::Permute {
        op: Permutation::Zip1,
        lanes: Arrangement::Bytes8,
    },
    Vector::Permute {
        op: Permutation::Zip2,
        lanes: Arrangement::Bytes16,
    },
    Vector::Permute {
        op: Permutation::Zip2,
        lanes: Arrangement::Doubles2,
    },
    Vector::Permute {
        op: Permutation::Zip2,
        lanes: Arrangement::Bytes8,
    },
    Vector::Permute {
        op: Permutation::Uzp1,
        lanes: Arrangement::Bytes16,
    },
    Vector::Permute {
        op: Permutation::Uzp1,
        lanes: Arrangement::Words4,
    },
    Vector::Permute {
        op: Permutation::Uzp1,
        lanes: Arrangement::Bytes8,
    },
    Vector::Permute {
        op: Permutation::Uzp2,
        lanes: Arrangement::Bytes16,
    },
    Vector::Permute {
        op: Permutation::Uzp2,
        lanes: Arrangement::Halves8,
    },
    Vector::Permute {
        op: Permutation::Uzp2,
        lanes: Arrangement::Words2,
    },
    Vector::Permute {
        op: Permutation::Trn1,
        lanes: Arrangement::Bytes16,
    },
    Vector::Permute {
        op: Permutation::Trn1,
        lanes: Arrangement::Words4,
    },
    Vector::Permute {
        op: Permutation::Trn1,
        lanes: Arrangement::Doubles2,
    },
    Vector::Permute {
        op: Permutation::Trn2,
        lanes: Arrangement::Bytes16,
    },
    Vector::Permute {
        op: Permutation::Trn2,
        lanes: Arrangement::Halves4,
    },
    Vector::Permute {
        op: Permutation::Trn2,
        lanes: Arrangement::Words4,
    },
    Vector::Extract {
        lanes: Arrangement::Bytes16,
    },
    Vector::Extract {
        lanes: Arrangement::Bytes8,
    },
    Vector::DupLane {
        lanes: Arrangement::Bytes16,
    },
    Vector::DupLane {
        lanes: Arrangement::Bytes8,
    },
    Vector::DupLane {
        lanes: Arrangement::Halves8,
    },
    Vector::DupLane {
        lanes: Arrangement::Words2,
    },
    Vector::DupLane {
        lanes: Arrangement::Doubles2,
    },
    Vector::DupGeneral {
        lanes: Arrangement::Bytes16,
    },
    Vector::DupGeneral {
        lanes: Arrangement::Halves4,
    },
    Vector::DupGeneral {
        lanes: Arrangement::Words4,
    },
    Vector::DupGeneral {
        lanes: Arrangement::Doubles2,
    },
    Vector::InsertGeneral { lane: Lane::Byte },
    Vector::InsertGeneral { lane: Lane::Half },
    Vector::InsertGeneral { lane: Lane::Word },
    Vector::InsertGeneral { lane: Lane::Double },
    Vector::InsertLane { lane: Lane::Byte },
    Vector::InsertLane { lane: Lane::Half },
    Vector::InsertLane { lane: Lane::Word },
    Vector::InsertLane { lane: Lane::Double },
    Vector::MoveOut { lane: Lane::Byte },
    Vector::MoveOut { lane: Lane::Half },
    Vector::MoveOut { lane: Lane::Word },
    Vector::MoveOut { lane: Lane::Double },
];

/// For each operation its name and its cases, with a `~` behind them. A case has the numbers, in decimal, before a colon, if there are any;
/// then the values of the operands and, behind an arrow, the result, in hexadecimal.
const CASES: &str = "\
    add 16b\n\
    1ffff80007fff0000123400ffff00 10001800000010000432100010100 ffffffffffffffffffffffffffffffff -> 2ff0000007f000000555500000000\n\
    0 ffffffffffffffffffffffffffffffff -> ffffffffffffffffffffffffffffffff\n\
    ~\n\
    add 8b\n\
    1ffff80007fff0000123400ffff00 10001800000010000432100010100 ffffffffffffffffffffffffffffffff -> 555500000000\n\
    ~\n\
    add 8h\n\
    1ffff80007fff0000123400ffff00 10001800000010000432100010100 ffffffffffffffffffffffffffffffff -> 20000000080000000555501000000\n\
    ~\n\
    add 4s\n\
    1ffff80007fff0000123400ffff00 10001800000010000432100010100 ffffffffffffffffffffffffffffffff -> 30000000080000000555501010000\n\
    ~\n\
    add 2d\n\
    1ffff80007fff0000123400ffff00 10001800000010000432100010100 ffffffffffffffffffffffffffffffff -> 30001000080000000555501010000\n\
    ~\n\
    sub 16b\n\
    1ffff80007fff0000123400ffff00 10001800000010000432100010100 ffffffffffffffffffffffffffffffff -> fffe00007ffe0000cf1300fefe00\n\
    ~\n\
    sub 4h\n\
    1ffff80007fff0000123400ffff00 10001800000010000432100010100 ffffffffffffffffffffffffffffffff -> cf1300fefe00\n\
    0 ffffffffffffffffffffffffffffffff -> 1000100010001\n\
    ~\n\
    sub 4s\n\
    1ffff80007fff0000123400ffff00 10001800000010000432100010100 ffffffffffffffffffffffffffffffff -> fffe00007ffeffffcf1300fefe00\n\
    ~\n\
    sub 2d\n\
    1ffff80007fff0000123400ffff00 10001800000010000432100010100 ffffffffffffffffffffffffffffffff -> fffe00007ffeffffcf1300fefe00\n\
    0 ffffffffffffffffffffffffffffffff -> 10000000000000001\n\
    ~\n\
    and 16b\n\
    ff00ff00f0f0f0f00f0f0f0fffffffff ff00ff0ffffffff00ff00ff80000001 ffffffffffffffffffffffffffffffff -> f000f00f0f0f0f0000f000f80000001\n\
    ffffffffffffffffffffffffffffffff -> 0\n\
    ~\n\
    and 8b\n\
    ff00ff00f0f0f0f00f0f0f0fffffffff ff00ff0ffffffff00ff00ff80000001 ffffffffffffffffffffffffffffffff -> f000f80000001\n\
    ~\n\
    orr 16b\n\
    ff00ff00f0f0f0f00f0f0f0fffffffff ff00ff0ffffffff00ff00ff80000001 ffffffffffffffffffffffffffffffff -> fff0fff0ffffffff0fff0fffffffffff\n\
    ffffffffffffffffffffffffffffffff -> ffffffffffffffffffffffffffffffff\n\
    ~\n\
    orr 8b\n\
    ff00ff00f0f0f0f00f0f0f0fffffffff ff00ff0ffffffff00ff00ff80000001 ffffffffffffffffffffffffffffffff -> fff0fffffffffff\n\
    ~\n\
    eor 16b\n\
    ff00ff00f0f0f0f00f0f0f0fffffffff ff00ff0ffffffff00ff00ff80000001 ffffffffffffffffffffffffffffffff -> f0f0f0f00f0f0f0f0ff00ff07ffffffe\n\
    ffffffffffffffffffffffffffffffff -> ffffffffffffffffffffffffffffffff\n\
    ~\n\
    eor 8b\n\
    ff00ff00f0f0f0f00f0f0f0fffffffff ff00ff0ffffffff00ff00ff80000001 ffffffffffffffffffffffffffffffff -> ff00ff07ffffffe\n\
    ~\n\
    bic 16b\n\
    ff00ff00f0f0f0f00f0f0f0fffffffff ff00ff0ffffffff00ff00ff80000001 ffffffffffffffffffffffffffffffff -> f000f000000000000f000f007ffffffe\n\
    ffffffffffffffffffffffffffffffff -> ffffffffffffffffffffffffffffffff\n\
    ~\n\
    bic 8b\n\
    ff00ff00f0f0f0f00f0f0f0fffffffff ff00ff0ffffffff00ff00ff80000001 ffffffffffffffffffffffffffffffff -> f000f007ffffffe\n\
    ~\n\
    mul 16b\n\
    7fff8000ffff01000002000180000100 28000ffff01000003000100010010 ffff0000000100000001ffff80001234 -> fe0000010101000006000100000000\n\
    ~\n\
    mul 8h\n\
    7fff8000ffff01000002000180000100 28000ffff01000003000100010010 ffff0000000100000001ffff80001234 -> fffe0000000100000006000180001000\n\
    ~\n\
    mul 4h\n\
    7fff8000ffff01000002000180000100 28000ffff01000003000100010010 ffff0000000100000001ffff80001234 -> 6000180001000\n\
    ~\n\
    mul 4s\n\
    7fff8000ffff01000002000180000100 28000ffff01000003000100010010 ffff0000000100000001ffff80001234 -> c0000000fe0100000005000101001000\n\
    ~\n\
    mla 8h\n\
    7fff8000ffff01000002000180000100 28000ffff01000003000100010010 ffff0000000100000001ffff80001234 -> fffd0000000200000007000000002234\n\
    ~\n\
    mla 4h\n\
    7fff8000ffff01000002000180000100 28000ffff01000003000100010010 ffff0000000100000001ffff80001234 -> 7000000002234\n\
    ~\n\
    mla 4s\n\
    7fff8000ffff01000002000180000100 28000ffff01000003000100010010 ffff0000000100000001ffff80001234 -> bfff0000fe0200000007000081002234\n\
    ~\n\
    mls 8h\n\
    7fff8000ffff01000002000180000100 28000ffff01000003000100010010 ffff0000000100000001ffff80001234 -> 1000000000000fffbfffe00000234\n\
    ~\n\
    mls 4h\n\
    7fff8000ffff01000002000180000100 28000ffff01000003000100010010 ffff0000000100000001ffff80001234 -> fffbfffe00000234\n\
    ~\n\
    mls 2s\n\
    7fff8000ffff01000002000180000100 28000ffff01000003000100010010 ffff0000000100000001ffff80001234 -> fffcfffe7f000234\n\
    ~\n\
    sqdmulh 8h\n\
    80007fffffff800000014000000000b5 80007fffffff7fffffff4000800000b5 -> 7fff7ffe00008001ffff200000000000\n\
    80008000800080008000800080008000 80008000800080008000800080008000 -> 7fff7fff7fff7fff7fff7fff7fff7fff\n\
    ~\n\
    sqdmulh 4h\n\
    80007fffffff800000014000000000b5 80007fffffff7fffffff4000800000b5 -> ffff200000000000\n\
    80008000800080008000800080008000 80008000800080008000800080008000 -> 7fff7fff7fff7fff\n\
    ~\n\
    sqrdmulh 8h\n\
    80007fffffff800000014000000000b5 80007fffffff7fffffff4000800000b5 -> 7fff7ffe000080010000200000000001\n\
    80008000800080008000800080008000 80008000800080008000800080008000 -> 7fff7fff7fff7fff7fff7fff7fff7fff\n\
    ~\n\
    sqrdmulh 4h\n\
    80007fffffff800000014000000000b5 80007fffffff7fffffff4000800000b5 -> 200000000001\n\
    80008000800080008000800080008000 80008000800080008000800080008000 -> 7fff7fff7fff7fff\n\
    ~\n\
    sqdmulh 4s\n\
    80000000ffffffff7fffffff40000000 80000000000000017fffffff00000002 -> 7fffffffffffffff7ffffffe00000001\n\
    80000000800000008000000080000000 80000000800000008000000080000000 -> 7fffffff7fffffff7fffffff7fffffff\n\
    ~\n\
    sqrdmulh 4s\n\
    80000000ffffffff7fffffff40000000 80000000000000017fffffff00000002 -> 7fffffff000000007ffffffe00000001\n\
    80000000800000008000000080000000 80000000800000008000000080000000 -> 7fffffff7fffffff7fffffff7fffffff\n\
    ~\n\
    sqdmulh 2s\n\
    80000000800000008000000080000000 80000000800000008000000080000000 -> 7fffffff7fffffff\n\
    ~\n\
    sqrdmulh 2s\n\
    80000000800000008000000080000000 80000000800000008000000080000000 -> 7fffffff7fffffff\n\
    ~\n\
    sqdmulh 2d\n\
    80000000000000008000000000000000 80000000000000008000000000000000 -> 7fffffffffffffff7fffffffffffffff\n\
    ~\n\
    sqrdmulh 2d\n\
    80000000000000008000000000000000 80000000000000008000000000000000 -> 7fffffffffffffff7fffffffffffffff\n\
    ~\n\
    mul by element, 8h\n\
    7: 80007fffffff800000014000c0000002 30000000000020000000000008000 ffff0001800000000000000000000001 -> 80007ffdfffd80000003c00040000006\n\
    8: 80007fffffff800000014000c0000002 30000000000020000000000008000 ffff0001800000000000000000000001 -> 0\n\
    ~\n\
    mla by element, 2s\n\
    2: 80007fffffff800000014000c0000002 30000000000020000000000008000 ffff0001800000000000000000000001 -> 2800080000005\n\
    ~\n\
    mls by element, 4s\n\
    2: 80007fffffff800000014000c0000002 30000000000020000000000008000 ffff0001800000000000000000000001 -> fffe000380010000fffd80007ffffffd\n\
    ~\n\
    sqdmulh by element, 8h\n\
    0: 80007fffffff800000014000c0000002 30000000000020000000000008000 ffff0001800000000000000000000001 -> 7fff800100017fffffffc0004000fffe\n\
    ~\n\
    sqrdmulh by element, 4h\n\
    0: 80007fffffff800000014000c0000002 30000000000020000000000008000 ffff0001800000000000000000000001 -> ffffc0004000fffe\n\
    ~\n\
    mov 16b\n\
    f0e0d0c0b0a09080706050403020100 -> f0e0d0c0b0a09080706050403020100\n\
    ffffffffffffffffffffffffffffffff -> ffffffffffffffffffffffffffffffff\n\
    ~\n\
    mov 8b\n\
    f0e0d0c0b0a09080706050403020100 -> 706050403020100\n\
    ffffffffffffffffffffffffffffffff -> ffffffffffffffff\n\
    ~\n\
    mov 2d\n\
    0 -> 0\n\
    ~\n\
    umull 8h\n\
    ffff800000020000ffff800000020001 ffff000200031234ffff00020003fffe 1ffffffff0000000080000000 -> fe01fe010000000000000006000000fe\n\
    ~\n\
    umull 4s\n\
    ffff800000020000ffff800000020001 ffff000200031234ffff00020003fffe 1ffffffff0000000080000000 -> fffe000100010000000000060000fffe\n\
    ~\n\
    umull 2d\n\
    ffff800000020000ffff800000020001 ffff000200031234ffff00020003fffe 1ffffffff0000000080000000 -> fffe80027fff000000000007fffffffe\n\
    80000000ffffffff 800000007fffffff -> 40000000000000007ffffffe80000001\n\
    ~\n\
    umull2 4s\n\
    ffff800000020000ffff800000020001 ffff000200031234ffff00020003fffe 1ffffffff0000000080000000 -> fffe0001000100000000000600000000\n\
    ~\n\
    umlal 4s\n\
    ffff800000020000ffff800000020001 ffff000200031234ffff00020003fffe 1ffffffff0000000080000000 -> fffe00020000ffff000000068000fffe\n\
    ~\n\
    umlal2 4s\n\
    ffff800000020000ffff800000020001 ffff000200031234ffff00020003fffe 1ffffffff0000000080000000 -> fffe00020000ffff0000000680000000\n\
    ~\n\
    smull 8h\n\
    ffff800000020000ffff800000020001 ffff000200031234ffff00020003fffe 1ffffffff0000000080000000 -> 1000100000000000000060000fffe\n\
    ~\n\
    smull 4s\n\
    ffff800000020000ffff800000020001 ffff000200031234ffff00020003fffe 1ffffffff0000000080000000 -> 1ffff000000000006fffffffe\n\
    ~\n\
    smull2 8h\n\
    ffff800000020000ffff800000020001 ffff000200031234ffff00020003fffe 1ffffffff0000000080000000 -> 10001000000000000000600000000\n\
    ~\n\
    smull2 4s\n\
    ffff800000020000ffff800000020001 ffff000200031234ffff00020003fffe 1ffffffff0000000080000000 -> 1ffff00000000000600000000\n\
    ~\n\
    smlal 4s\n\
    ffff800000020000ffff800000020001 ffff000200031234ffff00020003fffe 1ffffffff0000000080000000 -> 2fffeffff000000067ffffffe\n\
    ~\n\
    smlal 2d\n\
    ffff800000020000ffff800000020001 ffff000200031234ffff00020003fffe 1ffffffff0000000080000000 -> 27ffeffff000000087ffffffe\n\
    ffffffffffffffffffffffffffffffff ffffffffffffffffffffffffffffffff ffffffffffffffffffffffffffffffff -> 0\n\
    ~\n\
    smlal2 4s\n\
    ffff800000020000ffff800000020001 ffff000200031234ffff00020003fffe 1ffffffff0000000080000000 -> 2fffeffff0000000680000000\n\
    ~\n\
    smull 2d\n\
    80000000ffffffff 800000007fffffff -> 4000000000000000ffffffff80000001\n\
    ~\n\
    smull2 2d\n\
    80000000ffffffff 800000007fffffff -> 0\n\
    ~\n\
    umlal2 2d\n\
    ffffffffffffffffffffffffffffffff ffffffffffffffffffffffffffffffff ffffffffffffffffffffffffffffffff -> fffffffe00000000fffffffe00000000\n\
    ~\n\
    shl 4s\n\
    0: 80000001ffffffff0000000072345678 ffffffffffffffffffffffffffffffff -> 80000001ffffffff0000000072345678\n\
    1: 80000001ffffffff0000000072345678 ffffffffffffffffffffffffffffffff -> 2fffffffe00000000e468acf0\n\
    31: 80000001ffffffff0000000072345678 ffffffffffffffffffffffffffffffff -> 80000000800000000000000000000000\n\
    32: 80000001ffffffff0000000072345678 ffffffffffffffffffffffffffffffff -> 0\n\
    ~\n\
    sli 4s\n\
    0: 80000001ffffffff0000000072345678 ffffffffffffffffffffffffffffffff -> 80000001ffffffff0000000072345678\n\
    1: 80000001ffffffff0000000072345678 ffffffffffffffffffffffffffffffff -> 3ffffffff00000001e468acf1\n\
    31: 80000001ffffffff0000000072345678 ffffffffffffffffffffffffffffffff -> ffffffffffffffff7fffffff7fffffff\n\
    ~\n\
    sli 2s\n\
    32: 80000001ffffffff0000000072345678 ffffffffffffffffffffffffffffffff -> ffffffffffffffff\n\
    ~\n\
    ushr 4s\n\
    1: 80000001ffffffff0000000072345678 ffffffffffffffffffffffffffffffff -> 400000007fffffff00000000391a2b3c\n\
    31: 80000001ffffffff0000000072345678 ffffffffffffffffffffffffffffffff -> 1000000010000000000000000\n\
    32: 80000001ffffffff0000000072345678 ffffffffffffffffffffffffffffffff -> 0\n\
    ~\n\
    sshr 4s\n\
    1: 80000001ffffffff0000000072345678 ffffffffffffffffffffffffffffffff -> c0000000ffffffff00000000391a2b3c\n\
    31: 80000001ffffffff0000000072345678 ffffffffffffffffffffffffffffffff -> ffffffffffffffff0000000000000000\n\
    32: 80000001ffffffff0000000072345678 ffffffffffffffffffffffffffffffff -> ffffffffffffffff0000000000000000\n\
    ~\n\
    srshr 4s\n\
    1: 80000001ffffffff0000000072345678 ffffffffffffffffffffffffffffffff -> c00000010000000000000000391a2b3c\n\
    32: 80000001ffffffff0000000072345678 ffffffffffffffffffffffffffffffff -> 0\n\
    ~\n\
    sri 4s\n\
    1: 80000001ffffffff0000000072345678 ffffffffffffffffffffffffffffffff -> c0000000ffffffff80000000b91a2b3c\n\
    31: 80000001ffffffff0000000072345678 ffffffffffffffffffffffffffffffff -> fffffffffffffffffffffffefffffffe\n\
    32: 80000001ffffffff0000000072345678 ffffffffffffffffffffffffffffffff -> ffffffffffffffffffffffffffffffff\n\
    ~\n\
    shl 8b\n\
    7: ffffffffffffffff7f80017eff81fe00 ffffffffffffffffffffffffffffffff -> 8000800080800000\n\
    ~\n\
    sli 8b\n\
    7: ffffffffffffffff7f80017eff81fe00 ffffffffffffffffffffffffffffffff -> ff7fff7fffff7f7f\n\
    ~\n\
    ushr 8b\n\
    7: ffffffffffffffff7f80017eff81fe00 ffffffffffffffffffffffffffffffff -> 1000001010100\n\
    ~\n\
    sshr 8b\n\
    1: ffffffffffffffff7f80017eff81fe00 ffffffffffffffffffffffffffffffff -> 3fc0003fffc0ff00\n\
    8: ffffffffffffffff7f80017eff81fe00 ffffffffffffffffffffffffffffffff -> ff0000ffffff00\n\
    ~\n\
    srshr 8b\n\
    1: ffffffffffffffff7f80017eff81fe00 ffffffffffffffffffffffffffffffff -> 40c0013f00c1ff00\n\
    7: ffffffffffffffff7f80017eff81fe00 ffffffffffffffffffffffffffffffff -> 1ff000100ff0000\n\
    8: ffffffffffffffff7f80017eff81fe00 ffffffffffffffffffffffffffffffff -> 0\n\
    ~\n\
    sri 8b\n\
    0: ffffffffffffffff7f80017eff81fe00 ffffffffffffffffffffffffffffffff -> 7f80017eff81fe00\n\
    1: ffffffffffffffff7f80017eff81fe00 ffffffffffffffffffffffffffffffff -> bfc080bfffc0ff80\n\
    8: ffffffffffffffff7f80017eff81fe00 ffffffffffffffffffffffffffffffff -> ffffffffffffffff\n\
    ~\n\
    shl 2d\n\
    63: ffffffffffffffffffffffffffffffff -> 80000000000000008000000000000000\n\
    ~\n\
    sli 4h\n\
    15: ffffffffffffffffffffffffffffffff -> 8000800080008000\n\
    ~\n\
    ushr 2d\n\
    64: ffffffffffffffffffffffffffffffff -> 0\n\
    ~\n\
    sshr 2d\n\
    64: ffffffffffffffffffffffffffffffff -> ffffffffffffffffffffffffffffffff\n\
    ~\n\
    srshr 16b\n\
    1: ffffffffffffffffffffffffffffffff -> 0\n\
    ~\n\
    srshr 2d\n\
    1: ffffffffffffffffffffffffffffffff -> 0\n\
    64: ffffffffffffffffffffffffffffffff -> 0\n\
    ~\n\
    sri 2d\n\
    63: ffffffffffffffffffffffffffffffff -> 10000000000000001\n\
    ~\n\
    xtn 8b\n\
    f0e0d0c0b0a09080706050403020100 -> e0c0a0806040200\n\
    80008000800080008000800080008000 -> 0\n\
    ~\n\
    xtn 4h\n\
    f0e0d0c0b0a09080706050403020100 -> d0c090805040100\n\
    ~\n\
    xtn 2s\n\
    f0e0d0c0b0a09080706050403020100 -> b0a090803020100\n\
    ffffffffffffffffffffffffffffffff -> ffffffffffffffff\n\
    ~\n\
    zip1 16b\n\
    f0e0d0c0b0a09080706050403020100 1f1e1d1c1b1a19181716151413121110 -> 17071606150514041303120211011000\n\
    ~\n\
    zip1 4s\n\
    f0e0d0c0b0a09080706050403020100 1f1e1d1c1b1a19181716151413121110 -> 17161514070605041312111003020100\n\
    ~\n\
    zip1 8b\n\
    f0e0d0c0b0a09080706050403020100 1f1e1d1c1b1a19181716151413121110 -> 1303120211011000\n\
    ~\n\
    zip2 16b\n\
    f0e0d0c0b0a09080706050403020100 1f1e1d1c1b1a19181716151413121110 -> 1f0f1e0e1d0d1c0c1b0b1a0a19091808\n\
    ~\n\
    zip2 2d\n\
    f0e0d0c0b0a09080706050403020100 1f1e1d1c1b1a19181716151413121110 -> 1f1e1d1c1b1a19180f0e0d0c0b0a0908\n\
    ~\n\
    zip2 8b\n\
    f0e0d0c0b0a09080706050403020100 1f1e1d1c1b1a19181716151413121110 -> 1707160615051404\n\
    ~\n\
    uzp1 16b\n\
    f0e0d0c0b0a09080706050403020100 1f1e1d1c1b1a19181716151413121110 -> 1e1c1a18161412100e0c0a0806040200\n\
    ~\n\
    uzp1 4s\n\
    f0e0d0c0b0a09080706050403020100 1f1e1d1c1b1a19181716151413121110 -> 1b1a1918131211100b0a090803020100\n\
    ~\n\
    uzp1 8b\n\
    f0e0d0c0b0a09080706050403020100 1f1e1d1c1b1a19181716151413121110 -> 1614121006040200\n\
    ~\n\
    uzp2 16b\n\
    f0e0d0c0b0a09080706050403020100 1f1e1d1c1b1a19181716151413121110 -> 1f1d1b19171513110f0d0b0907050301\n\
    ~\n\
    uzp2 8h\n\
    f0e0d0c0b0a09080706050403020100 1f1e1d1c1b1a19181716151413121110 -> 1f1e1b1a171613120f0e0b0a07060302\n\
    ~\n\
    uzp2 2s\n\
    f0e0d0c0b0a09080706050403020100 1f1e1d1c1b1a19181716151413121110 -> 1716151407060504\n\
    ~\n\
    trn1 16b\n\
    f0e0d0c0b0a09080706050403020100 1f1e1d1c1b1a19181716151413121110 -> 1e0e1c0c1a0a18081606140412021000\n\
    ~\n\
    trn1 4s\n\
    f0e0d0c0b0a09080706050403020100 1f1e1d1c1b1a19181716151413121110 -> 1b1a19180b0a09081312111003020100\n\
    ~\n\
    trn1 2d\n\
    f0e0d0c0b0a09080706050403020100 1f1e1d1c1b1a19181716151413121110 -> 17161514131211100706050403020100\n\
    ~\n\
    trn2 16b\n\
    f0e0d0c0b0a09080706050403020100 1f1e1d1c1b1a19181716151413121110 -> 1f0f1d0d1b0b19091707150513031101\n\
    ~\n\
    trn2 4h\n\
    f0e0d0c0b0a09080706050403020100 1f1e1d1c1b1a19181716151413121110 -> 1716070613120302\n\
    ~\n\
    trn2 4s\n\
    f0e0d0c0b0a09080706050403020100 1f1e1d1c1b1a19181716151413121110 -> 1f1e1d1c0f0e0d0c1716151407060504\n\
    ~\n\
    ext 16b\n\
    0: f0e0d0c0b0a09080706050403020100 1f1e1d1c1b1a19181716151413121110 -> f0e0d0c0b0a09080706050403020100\n\
    7: f0e0d0c0b0a09080706050403020100 1f1e1d1c1b1a19181716151413121110 -> 161514131211100f0e0d0c0b0a090807\n\
    15: f0e0d0c0b0a09080706050403020100 1f1e1d1c1b1a19181716151413121110 -> 1e1d1c1b1a191817161514131211100f\n\
    31: f0e0d0c0b0a09080706050403020100 1f1e1d1c1b1a19181716151413121110 -> 1f\n\
    32: f0e0d0c0b0a09080706050403020100 1f1e1d1c1b1a19181716151413121110 -> 0\n\
    ~\n\
    ext 8b\n\
    0: f0e0d0c0b0a09080706050403020100 1f1e1d1c1b1a19181716151413121110 -> 706050403020100\n\
    3: f0e0d0c0b0a09080706050403020100 1f1e1d1c1b1a19181716151413121110 -> 1211100706050403\n\
    7: f0e0d0c0b0a09080706050403020100 1f1e1d1c1b1a19181716151413121110 -> 1615141312111007\n\
    ~\n\
    dup of an element, 16b\n\
    0: f0e0d0c0b0a09080706050403020100 -> 0\n\
    ~\n\
    dup of an element, 8b\n\
    15: f0e0d0c0b0a09080706050403020100 -> f0f0f0f0f0f0f0f\n\
    ~\n\
    dup of an element, 8h\n\
    7: f0e0d0c0b0a09080706050403020100 -> f0e0f0e0f0e0f0e0f0e0f0e0f0e0f0e\n\
    ~\n\
    dup of an element, 2s\n\
    3: f0e0d0c0b0a09080706050403020100 -> f0e0d0c0f0e0d0c\n\
    ~\n\
    dup of an element, 2d\n\
    1: f0e0d0c0b0a09080706050403020100 -> f0e0d0c0b0a09080f0e0d0c0b0a0908\n\
    ~\n\
    dup of a register, 16b\n\
    ffffffffffffff80 -> 80808080808080808080808080808080\n\
    ~\n\
    dup of a register, 4h\n\
    12345678 -> 5678567856785678\n\
    ~\n\
    dup of a register, 4s\n\
    ffffffff00000001 -> 1000000010000000100000001\n\
    ~\n\
    dup of a register, 2d\n\
    ffffffffffffffff -> ffffffffffffffffffffffffffffffff\n\
    ~\n\
    ins of a register, b\n\
    0: abcd f0e0d0c0b0a09080706050403020100 -> f0e0d0c0b0a090807060504030201cd\n\
    15: ff f0e0d0c0b0a09080706050403020100 -> ff0e0d0c0b0a09080706050403020100\n\
    ~\n\
    ins of a register, h\n\
    7: ffff1234 f0e0d0c0b0a09080706050403020100 -> 12340d0c0b0a09080706050403020100\n\
    ~\n\
    ins of a register, s\n\
    3: 0 f0e0d0c0b0a09080706050403020100 -> b0a09080706050403020100\n\
    ~\n\
    ins of a register, d\n\
    1: ffffffffffffffff f0e0d0c0b0a09080706050403020100 -> ffffffffffffffff0706050403020100\n\
    ~\n\
    ins of an element, b\n\
    15 0: 1f1e1d1c1b1a19181716151413121110 f0e0d0c0b0a09080706050403020100 -> 100e0d0c0b0a09080706050403020100\n\
    ~\n\
    ins of an element, h\n\
    0 7: 1f1e1d1c1b1a19181716151413121110 f0e0d0c0b0a09080706050403020100 -> f0e0d0c0b0a09080706050403021f1e\n\
    ~\n\
    ins of an element, s\n\
    3 3: 1f1e1d1c1b1a19181716151413121110 f0e0d0c0b0a09080706050403020100 -> 1f1e1d1c0b0a09080706050403020100\n\
    ~\n\
    ins of an element, d\n\
    0 1: 1f1e1d1c1b1a19181716151413121110 f0e0d0c0b0a09080706050403020100 -> f0e0d0c0b0a09081f1e1d1c1b1a1918\n\
    ~\n\
    umov b\n\
    0: f0e0d0c0b0a09080706050403020100 -> 0\n\
    15: ffffffffffffffffffffffffffffffff -> ff\n\
    ~\n\
    umov h\n\
    7: f0e0d0c0b0a09080706050403020100 -> f0e\n\
    ~\n\
    umov s\n\
    3: f0e0d0c0b0a09080706050403020100 -> f0e0d0c\n\
    ~\n\
    umov d\n\
    1: ffffffffffffffffffffffffffffffff -> ffffffffffffffff";

/// The numbers that stand before the colon of a line, and what stands behind it.
fn cut_numbers(line: &str) -> ([i64; 2], &str) {
    let mut imms = [0; 2];
    let Some((head, rest)) = line.split_once(": ") else {
        return (imms, line);
    };
    let mut count = 0;
    for word in head.split(' ') {
        if count < 2 {
            imms[count] = word.parse::<i64>().unwrap_or(0);
            count += 1;
        }
    }
    (imms, rest)
}

/// Does a line say what an operation gives?
fn is_right(op: Vector, line: &str) -> bool {
    let (imms, rest) = cut_numbers(line);
    let Some((operands, result)) = rest.split_once(" -> ") else {
        return false;
    };
    let mut ins = [0; 3];
    numbers_of(operands, &mut ins);
    let mut outs = [0; 1];
    numbers_of(result, &mut outs);
    vector_value(op, &imms, &ins) == outs[0]
}

/// The cases of an operation.
#[derive(Drop)]
struct Vectors(Vector);

impl Tested for Vectors {
    fn try_line(&self, _alloc: Global, line: &str, failing: &mut Failing) {
        failing.check(line, is_right(self.0, line));
    }
}

/// Notes the name of an operation and those of its cases that fail, if there are any; says how many cases there are.
fn check(alloc: Global, op: Vector, block: &str, failing: &mut Failing) -> usize {
    let (name, cases) = block.split_once("\n").unwrap_or((block, ""));
    let before = failing.len();
    let count = walk(&Vectors(op), alloc, cases, failing);
    failing.check(name, failing.len() == before);
    count
}

#[test]
fn vector_instructions_compute_what_the_manual_says(rt: HostRuntime) -> Failing {
    let mut failing = Failing::new(rt.alloc());
    let mut count: usize = 0;
    let mut blocks = CASES.split("~\n");
    for op in &OPERATIONS {
        let block = blocks.next().unwrap_or("");
        count = count.saturating_add(check(rt.alloc(), *op, block, &mut failing));
    }
    failing.check("the number of lines", count == 171);
    failing
}

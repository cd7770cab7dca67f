//! Spellings of each row of the table of AArch64, as `checks/tables` writes them: the greatest numbers; letters of either case, blanks and the
//! least numbers; numbers past these; registers and arrangements that the row doesn't take. A line without an arrow is printed as it stands.

pub const ROWS: usize = 2265;

pub const PARTS: [&str; 11] = [
    "\
    add x3, x17, x29\n\
    AdD  x30\t, X0\t, x9 => add x30, x0, x9\n\
    add xzr, x17, x29 => RegisterClass\n\
    add q1, x17, x29 => BadOperand\n\
    add x3, xzr, x29\n\
    add x3, sp, x29 => RegisterClass\n\
    add x3, x17, xzr\n\
    add x3, x17, sp => RegisterClass\n\
    add x3, x17, x29, lsl #63\n\
    AdD  x30\t, X0\t, x9\t, LsL #0 => add x30, x0, x9\n\
    add x3, x17, x29, lsl #64 => ImmediateRange\n\
    add x30, x0, x9, lsl #-1 => ImmediateRange\n\
    add xzr, x17, x29, lsl #63 => RegisterClass\n\
    add q1, x17, x29, lsl #63 => BadOperand\n\
    add x3, xzr, x29, lsl #63\n\
    add x3, sp, x29, lsl #63 => RegisterClass\n\
    add x3, x17, xzr, lsl #63\n\
    add x3, x17, sp, lsl #63 => RegisterClass\n\
    add x3, x17, x29, lsr #63\n\
    AdD  x30\t, X0\t, x9\t, LsR #0 => add x30, x0, x9, lsr #0\n\
    add x3, x17, x29, lsr #64 => ImmediateRange\n\
    add x30, x0, x9, lsr #-1 => ImmediateRange\n\
    add xzr, x17, x29, lsr #63 => RegisterClass\n\
    add q1, x17, x29, lsr #63 => BadOperand\n\
    add x3, xzr, x29, lsr #63\n\
    add x3, sp, x29, lsr #63 => RegisterClass\n\
    add x3, x17, xzr, lsr #63\n\
    add x3, x17, sp, lsr #63 => RegisterClass\n\
    add x3, x17, x29, asr #63\n\
    AdD  x30\t, X0\t, x9\t, AsR #0 => add x30, x0, x9, asr #0\n\
    add x3, x17, x29, asr #64 => ImmediateRange\n\
    add x30, x0, x9, asr #-1 => ImmediateRange\n\
    add xzr, x17, x29, asr #63 => RegisterClass\n\
    add q1, x17, x29, asr #63 => BadOperand\n\
    add x3, xzr, x29, asr #63\n\
    add x3, sp, x29, asr #63 => RegisterClass\n\
    add x3, x17, xzr, asr #63\n\
    add x3, x17, sp, asr #63 => RegisterClass\n\
    add w3, w17, w29\n\
    AdD  w30\t, W0\t, w9 => add w30, w0, w9\n\
    add wzr, w17, w29 => RegisterClass\n\
    add q1, w17, w29 => BadOperand\n\
    add w3, wzr, w29\n\
    add w3, w17, wzr\n\
    add w3, w17, w29, lsl #31\n\
    AdD  w30\t, W0\t, w9\t, LsL #0 => add w30, w0, w9\n\
    add w3, w17, w29, lsl #32 => ImmediateRange\n\
    add w30, w0, w9, lsl #-1 => ImmediateRange\n\
    add wzr, w17, w29, lsl #31 => RegisterClass\n\
    add q1, w17, w29, lsl #31 => BadOperand\n\
    add w3, wzr, w29, lsl #31\n\
    add w3, w17, wzr, lsl #31\n\
    add w3, w17, w29, lsr #31\n\
    AdD  w30\t, W0\t, w9\t, LsR #0 => add w30, w0, w9, lsr #0\n\
    add w3, w17, w29, lsr #32 => ImmediateRange\n\
    add w30, w0, w9, lsr #-1 => ImmediateRange\n\
    add wzr, w17, w29, lsr #31 => RegisterClass\n\
    add q1, w17, w29, lsr #31 => BadOperand\n\
    add w3, wzr, w29, lsr #31\n\
    add w3, w17, wzr, lsr #31\n\
    add w3, w17, w29, asr #31\n\
    AdD  w30\t, W0\t, w9\t, AsR #0 => add w30, w0, w9, asr #0\n\
    add w3, w17, w29, asr #32 => ImmediateRange\n\
    add w30, w0, w9, asr #-1 => ImmediateRange\n\
    add wzr, w17, w29, asr #31 => RegisterClass\n\
    add q1, w17, w29, asr #31 => BadOperand\n\
    add w3, wzr, w29, asr #31\n\
    add w3, w17, wzr, asr #31\n\
    sub x3, x17, x29\n\
    SuB  x30\t, X0\t, x9 => sub x30, x0, x9\n\
    sub xzr, x17, x29 => RegisterClass\n\
    sub q1, x17, x29 => BadOperand\n\
    sub x3, xzr, x29\n\
    sub x3, sp, x29 => RegisterClass\n\
    sub x3, x17, xzr\n\
    sub x3, x17, sp => RegisterClass\n\
    sub x3, x17, x29, lsl #63\n\
    SuB  x30\t, X0\t, x9\t, LsL #0 => sub x30, x0, x9\n\
    sub x3, x17, x29, lsl #64 => ImmediateRange\n\
    sub x30, x0, x9, lsl #-1 => ImmediateRange\n\
    sub xzr, x17, x29, lsl #63 => RegisterClass\n\
    sub q1, x17, x29, lsl #63 => BadOperand\n\
    sub x3, xzr, x29, lsl #63\n\
    sub x3, sp, x29, lsl #63 => RegisterClass\n\
    sub x3, x17, xzr, lsl #63\n\
    sub x3, x17, sp, lsl #63 => RegisterClass\n\
    sub x3, x17, x29, lsr #63\n\
    SuB  x30\t, X0\t, x9\t, LsR #0 => sub x30, x0, x9, lsr #0\n\
    sub x3, x17, x29, lsr #64 => ImmediateRange\n\
    sub x30, x0, x9, lsr #-1 => ImmediateRange\n\
    sub xzr, x17, x29, lsr #63 => RegisterClass\n\
    sub q1, x17, x29, lsr #63 => BadOperand\n\
    sub x3, xzr, x29, lsr #63\n\
    sub x3, sp, x29, lsr #63 => RegisterClass\n\
    sub x3, x17, xzr, lsr #63\n\
    sub x3, x17, sp, lsr #63 => RegisterClass\n\
    sub x3, x17, x29, asr #63\n\
    SuB  x30\t, X0\t, x9\t, AsR #0 => sub x30, x0, x9, asr #0\n\
    sub x3, x17, x29, asr #64 => ImmediateRange\n\
    sub x30, x0, x9, asr #-1 => ImmediateRange\n\
    sub xzr, x17, x29, asr #63 => RegisterClass\n\
    sub q1, x17, x29, asr #63 => BadOperand\n\
    sub x3, xzr, x29, asr #63\n\
    sub x3, sp, x29, asr #63 => RegisterClass\n\
    sub x3, x17, xzr, asr #63\n\
    sub x3, x17, sp, asr #63 => RegisterClass\n\
    sub w3, w17, w29\n\
    SuB  w30\t, W0\t, w9 => sub w30, w0, w9\n\
    sub wzr, w17, w29 => RegisterClass\n\
    sub q1, w17, w29 => BadOperand\n\
    sub w3, wzr, w29\n\
    sub w3, w17, wzr\n\
    sub w3, w17, w29, lsl #31\n\
    SuB  w30\t, W0\t, w9\t, LsL #0 => sub w30, w0, w9\n\
    sub w3, w17, w29, lsl #32 => ImmediateRange\n\
    sub w30, w0, w9, lsl #-1 => ImmediateRange\n\
    sub wzr, w17, w29, lsl #31 => RegisterClass\n\
    sub q1, w17, w29, lsl #31 => BadOperand\n\
    sub w3, wzr, w29, lsl #31\n\
    sub w3, w17, wzr, lsl #31\n\
    sub w3, w17, w29, lsr #31\n\
    SuB  w30\t, W0\t, w9\t, LsR #0 => sub w30, w0, w9, lsr #0\n\
    sub w3, w17, w29, lsr #32 => ImmediateRange\n\
    sub w30, w0, w9, lsr #-1 => ImmediateRange\n\
    sub wzr, w17, w29, lsr #31 => RegisterClass\n\
    sub q1, w17, w29, lsr #31 => BadOperand\n\
    sub w3, wzr, w29, lsr #31\n\
    sub w3, w17, wzr, lsr #31\n\
    sub w3, w17, w29, asr #31\n\
    SuB  w30\t, W0\t, w9\t, AsR #0 => sub w30, w0, w9, asr #0\n\
    sub w3, w17, w29, asr #32 => ImmediateRange\n\
    sub w30, w0, w9, asr #-1 => ImmediateRange\n\
    sub wzr, w17, w29, asr #31 => RegisterClass\n\
    sub q1, w17, w29, asr #31 => BadOperand\n\
    sub w3, wzr, w29, asr #31\n\
    sub w3, w17, wzr, asr #31\n\
    add x3, x17, #4095\n\
    AdD  x30\t, X0\t, #0 => add x30, x0, #0\n\
    add x3, x17, #4096 => ImmediateRange\n\
    add x30, x0, #-1 => ImmediateRange\n\
    add xzr, x17, #4095 => RegisterClass\n\
    add q1, x17, #4095 => BadOperand\n\
    add x3, xzr, #4095 => RegisterClass\n\
    add x3, x17, #4095, lsl #12\n\
    AdD  x30\t, X0\t, #0\t, lSl #12 => add x30, x0, #0, lsl #12\n\
    add x3, x17, #4096, lsl #12 => ImmediateRange\n\
    add x30, x0, #-1, lsl #12 => ImmediateRange\n\
    add x3, x17, #4095, lsl #13 => ImmediateRange\n\
    add x30, x0, #0, lsl #11 => ImmediateRange\n\
    add xzr, x17, #4095, lsl #12 => RegisterClass\n\
    add q1, x17, #4095, lsl #12 => BadOperand\n\
    add x3, xzr, #4095, lsl #12 => RegisterClass\n\
    add w3, w17, #4095\n\
    AdD  w30\t, W0\t, #0 => add w30, w0, #0\n\
    add w3, w17, #4096 => ImmediateRange\n\
    add w30, w0, #-1 => ImmediateRange\n\
    add wzr, w17, #4095 => RegisterClass\n\
    add q1, w17, #4095 => BadOperand\n\
    add w3, wzr, #4095 => RegisterClass\n\
    add w3, w17, #4095, lsl #12\n\
    AdD  w30\t, W0\t, #0\t, lSl #12 => add w30, w0, #0, lsl #12\n\
    add w3, w17, #4096, lsl #12 => ImmediateRange\n\
    add w30, w0, #-1, lsl #12 => ImmediateRange\n\
    add w3, w17, #4095, lsl #13 => ImmediateRange\n\
    add w30, w0, #0, lsl #11 => ImmediateRange\n\
    add wzr, w17, #4095, lsl #12 => RegisterClass\n\
    add q1, w17, #4095, lsl #12 => BadOperand\n\
    add w3, wzr, #4095, lsl #12 => RegisterClass\n\
    sub x3, x17, #4095\n\
    SuB  x30\t, X0\t, #0 => sub x30, x0, #0\n\
    sub x3, x17, #4096 => ImmediateRange\n\
    sub x30, x0, #-1 => ImmediateRange\n\
    sub xzr, x17, #4095 => RegisterClass\n\
    sub q1, x17, #4095 => BadOperand\n\
    sub x3, xzr, #4095 => RegisterClass\n\
    sub x3, x17, #4095, lsl #12\n\
    SuB  x30\t, X0\t, #0\t, lSl #12 => sub x30, x0, #0, lsl #12\n\
    sub x3, x17, #4096, lsl #12 => ImmediateRange\n\
    sub x30, x0, #-1, lsl #12 => ImmediateRange\n\
    sub x3, x17, #4095, lsl #13 => ImmediateRange\n\
    sub x30, x0, #0, lsl #11 => ImmediateRange\n\
    sub xzr, x17, #4095, lsl #12 => RegisterClass\n\
    sub q1, x17, #4095, lsl #12 => BadOperand\n\
    sub x3, xzr, #4095, lsl #12 => RegisterClass\n\
    sub w3, w17, #4095\n\
    SuB  w30\t, W0\t, #0 => sub w30, w0, #0\n\
    sub w3, w17, #4096 => ImmediateRange\n\
    sub w30, w0, #-1 => ImmediateRange\n\
    sub wzr, w17, #4095 => RegisterClass\n\
    sub q1, w17, #4095 => BadOperand\n\
    sub w3, wzr, #4095 => RegisterClass\n\
    sub w3, w17, #4095, lsl #12\n\
    SuB  w30\t, W0\t, #0\t, lSl #12 => sub w30, w0, #0, lsl #12\n\
    sub w3, w17, #4096, lsl #12 => ImmediateRange\n\
    sub w30, w0, #-1, lsl #12 => ImmediateRange\n\
    sub w3, w17, #4095, lsl #13 => ImmediateRange\n\
    sub w30, w0, #0, lsl #11 => ImmediateRange\n\
    sub wzr, w17, #4095, lsl #12 => RegisterClass\n\
    sub q1, w17, #4095, lsl #12 => BadOperand\n\
    sub w3, wzr, #4095, lsl #12 => RegisterClass\n\
    adds x3, x17, x29\n\
    AdDs  X30\t, x0\t, X9 => adds x30, x0, x9\n\
    adds xzr, x17, x29 => RegisterClass\n\
    adds q1, x17, x29 => BadOperand\n\
    adds x3, xzr, x29\n\
    adds x3, sp, x29 => RegisterClass\n\
    adds x3, x17, xzr\n\
    adds x3, x17, sp => RegisterClass\n\
    adds x3, x17, x29, lsl #63\n\
    AdDs  X30\t, x0\t, X9\t, lSl #0 => adds x30, x0, x9\n\
    adds x3, x17, x29, lsl #64 => ImmediateRange\n\
    adds x30, x0, x9, lsl #-1 => ImmediateRange\n\
    adds xzr, x17, x29, lsl #63 => RegisterClass\n\
    adds q1, x17, x29, lsl #63 => BadOperand\n\
    adds x3, xzr, x29, lsl #63",
    "\
    adds x3, sp, x29, lsl #63 => RegisterClass\n\
    adds x3, x17, xzr, lsl #63\n\
    adds x3, x17, sp, lsl #63 => RegisterClass\n\
    adds x3, x17, x29, lsr #63\n\
    AdDs  X30\t, x0\t, X9\t, lSr #0 => adds x30, x0, x9, lsr #0\n\
    adds x3, x17, x29, lsr #64 => ImmediateRange\n\
    adds x30, x0, x9, lsr #-1 => ImmediateRange\n\
    adds xzr, x17, x29, lsr #63 => RegisterClass\n\
    adds q1, x17, x29, lsr #63 => BadOperand\n\
    adds x3, xzr, x29, lsr #63\n\
    adds x3, sp, x29, lsr #63 => RegisterClass\n\
    adds x3, x17, xzr, lsr #63\n\
    adds x3, x17, sp, lsr #63 => RegisterClass\n\
    adds x3, x17, x29, asr #63\n\
    AdDs  X30\t, x0\t, X9\t, aSr #0 => adds x30, x0, x9, asr #0\n\
    adds x3, x17, x29, asr #64 => ImmediateRange\n\
    adds x30, x0, x9, asr #-1 => ImmediateRange\n\
    adds xzr, x17, x29, asr #63 => RegisterClass\n\
    adds q1, x17, x29, asr #63 => BadOperand\n\
    adds x3, xzr, x29, asr #63\n\
    adds x3, sp, x29, asr #63 => RegisterClass\n\
    adds x3, x17, xzr, asr #63\n\
    adds x3, x17, sp, asr #63 => RegisterClass\n\
    adds w3, w17, w29\n\
    AdDs  W30\t, w0\t, W9 => adds w30, w0, w9\n\
    adds wzr, w17, w29 => RegisterClass\n\
    adds q1, w17, w29 => BadOperand\n\
    adds w3, wzr, w29\n\
    adds w3, w17, wzr\n\
    adds w3, w17, w29, lsl #31\n\
    AdDs  W30\t, w0\t, W9\t, lSl #0 => adds w30, w0, w9\n\
    adds w3, w17, w29, lsl #32 => ImmediateRange\n\
    adds w30, w0, w9, lsl #-1 => ImmediateRange\n\
    adds wzr, w17, w29, lsl #31 => RegisterClass\n\
    adds q1, w17, w29, lsl #31 => BadOperand\n\
    adds w3, wzr, w29, lsl #31\n\
    adds w3, w17, wzr, lsl #31\n\
    adds w3, w17, w29, lsr #31\n\
    AdDs  W30\t, w0\t, W9\t, lSr #0 => adds w30, w0, w9, lsr #0\n\
    adds w3, w17, w29, lsr #32 => ImmediateRange\n\
    adds w30, w0, w9, lsr #-1 => ImmediateRange\n\
    adds wzr, w17, w29, lsr #31 => RegisterClass\n\
    adds q1, w17, w29, lsr #31 => BadOperand\n\
    adds w3, wzr, w29, lsr #31\n\
    adds w3, w17, wzr, lsr #31\n\
    adds w3, w17, w29, asr #31\n\
    AdDs  W30\t, w0\t, W9\t, aSr #0 => adds w30, w0, w9, asr #0\n\
    adds w3, w17, w29, asr #32 => ImmediateRange\n\
    adds w30, w0, w9, asr #-1 => ImmediateRange\n\
    adds wzr, w17, w29, asr #31 => RegisterClass\n\
    adds q1, w17, w29, asr #31 => BadOperand\n\
    adds w3, wzr, w29, asr #31\n\
    adds w3, w17, wzr, asr #31\n\
    subs x3, x17, x29\n\
    SuBs  X30\t, x0\t, X9 => subs x30, x0, x9\n\
    subs xzr, x17, x29 => RegisterClass\n\
    subs q1, x17, x29 => BadOperand\n\
    subs x3, xzr, x29\n\
    subs x3, sp, x29 => RegisterClass\n\
    subs x3, x17, xzr\n\
    subs x3, x17, sp => RegisterClass\n\
    subs x3, x17, x29, lsl #63\n\
    SuBs  X30\t, x0\t, X9\t, lSl #0 => subs x30, x0, x9\n\
    subs x3, x17, x29, lsl #64 => ImmediateRange\n\
    subs x30, x0, x9, lsl #-1 => ImmediateRange\n\
    subs xzr, x17, x29, lsl #63 => RegisterClass\n\
    subs q1, x17, x29, lsl #63 => BadOperand\n\
    subs x3, xzr, x29, lsl #63\n\
    subs x3, sp, x29, lsl #63 => RegisterClass\n\
    subs x3, x17, xzr, lsl #63\n\
    subs x3, x17, sp, lsl #63 => RegisterClass\n\
    subs x3, x17, x29, lsr #63\n\
    SuBs  X30\t, x0\t, X9\t, lSr #0 => subs x30, x0, x9, lsr #0\n\
    subs x3, x17, x29, lsr #64 => ImmediateRange\n\
    subs x30, x0, x9, lsr #-1 => ImmediateRange\n\
    subs xzr, x17, x29, lsr #63 => RegisterClass\n\
    subs q1, x17, x29, lsr #63 => BadOperand\n\
    subs x3, xzr, x29, lsr #63\n\
    subs x3, sp, x29, lsr #63 => RegisterClass\n\
    subs x3, x17, xzr, lsr #63\n\
    subs x3, x17, sp, lsr #63 => RegisterClass\n\
    subs x3, x17, x29, asr #63\n\
    SuBs  X30\t, x0\t, X9\t, aSr #0 => subs x30, x0, x9, asr #0\n\
    subs x3, x17, x29, asr #64 => ImmediateRange\n\
    subs x30, x0, x9, asr #-1 => ImmediateRange\n\
    subs xzr, x17, x29, asr #63 => RegisterClass\n\
    subs q1, x17, x29, asr #63 => BadOperand\n\
    subs x3, xzr, x29, asr #63\n\
    subs x3, sp, x29, asr #63 => RegisterClass\n\
    subs x3, x17, xzr, asr #63\n\
    subs x3, x17, sp, asr #63 => RegisterClass\n\
    subs w3, w17, w29\n\
    SuBs  W30\t, w0\t, W9 => subs w30, w0, w9\n\
    subs wzr, w17, w29 => RegisterClass\n\
    subs q1, w17, w29 => BadOperand\n\
    subs w3, wzr, w29\n\
    subs w3, w17, wzr\n\
    subs w3, w17, w29, lsl #31\n\
    SuBs  W30\t, w0\t, W9\t, lSl #0 => subs w30, w0, w9\n\
    subs w3, w17, w29, lsl #32 => ImmediateRange\n\
    subs w30, w0, w9, lsl #-1 => ImmediateRange\n\
    subs wzr, w17, w29, lsl #31 => RegisterClass\n\
    subs q1, w17, w29, lsl #31 => BadOperand\n\
    subs w3, wzr, w29, lsl #31\n\
    subs w3, w17, wzr, lsl #31\n\
    subs w3, w17, w29, lsr #31\n\
    SuBs  W30\t, w0\t, W9\t, lSr #0 => subs w30, w0, w9, lsr #0\n\
    subs w3, w17, w29, lsr #32 => ImmediateRange\n\
    subs w30, w0, w9, lsr #-1 => ImmediateRange\n\
    subs wzr, w17, w29, lsr #31 => RegisterClass\n\
    subs q1, w17, w29, lsr #31 => BadOperand\n\
    subs w3, wzr, w29, lsr #31\n\
    subs w3, w17, wzr, lsr #31\n\
    subs w3, w17, w29, asr #31\n\
    SuBs  W30\t, w0\t, W9\t, aSr #0 => subs w30, w0, w9, asr #0\n\
    subs w3, w17, w29, asr #32 => ImmediateRange\n\
    subs w30, w0, w9, asr #-1 => ImmediateRange\n\
    subs wzr, w17, w29, asr #31 => RegisterClass\n\
    subs q1, w17, w29, asr #31 => BadOperand\n\
    subs w3, wzr, w29, asr #31\n\
    subs w3, w17, wzr, asr #31\n\
    adds x3, x17, #4095\n\
    AdDs  X30\t, x0\t, #0 => adds x30, x0, #0\n\
    adds x3, x17, #4096 => ImmediateRange\n\
    adds x30, x0, #-1 => ImmediateRange\n\
    adds xzr, x17, #4095 => RegisterClass\n\
    adds q1, x17, #4095 => BadOperand\n\
    adds x3, xzr, #4095 => RegisterClass\n\
    adds x3, x17, #4095, lsl #12\n\
    AdDs  X30\t, x0\t, #0\t, LsL #12 => adds x30, x0, #0, lsl #12\n\
    adds x3, x17, #4096, lsl #12 => ImmediateRange\n\
    adds x30, x0, #-1, lsl #12 => ImmediateRange\n\
    adds x3, x17, #4095, lsl #13 => ImmediateRange\n\
    adds x30, x0, #0, lsl #11 => ImmediateRange\n\
    adds xzr, x17, #4095, lsl #12 => RegisterClass\n\
    adds q1, x17, #4095, lsl #12 => BadOperand\n\
    adds x3, xzr, #4095, lsl #12 => RegisterClass\n\
    adds w3, w17, #4095\n\
    AdDs  W30\t, w0\t, #0 => adds w30, w0, #0\n\
    adds w3, w17, #4096 => ImmediateRange\n\
    adds w30, w0, #-1 => ImmediateRange\n\
    adds wzr, w17, #4095 => RegisterClass\n\
    adds q1, w17, #4095 => BadOperand\n\
    adds w3, wzr, #4095 => RegisterClass\n\
    adds w3, w17, #4095, lsl #12\n\
    AdDs  W30\t, w0\t, #0\t, LsL #12 => adds w30, w0, #0, lsl #12\n\
    adds w3, w17, #4096, lsl #12 => ImmediateRange\n\
    adds w30, w0, #-1, lsl #12 => ImmediateRange\n\
    adds w3, w17, #4095, lsl #13 => ImmediateRange\n\
    adds w30, w0, #0, lsl #11 => ImmediateRange\n\
    adds wzr, w17, #4095, lsl #12 => RegisterClass\n\
    adds q1, w17, #4095, lsl #12 => BadOperand\n\
    adds w3, wzr, #4095, lsl #12 => RegisterClass\n\
    subs x3, x17, #4095\n\
    SuBs  X30\t, x0\t, #0 => subs x30, x0, #0\n\
    subs x3, x17, #4096 => ImmediateRange\n\
    subs x30, x0, #-1 => ImmediateRange\n\
    subs xzr, x17, #4095 => RegisterClass\n\
    subs q1, x17, #4095 => BadOperand\n\
    subs x3, xzr, #4095 => RegisterClass\n\
    subs x3, x17, #4095, lsl #12\n\
    SuBs  X30\t, x0\t, #0\t, LsL #12 => subs x30, x0, #0, lsl #12\n\
    subs x3, x17, #4096, lsl #12 => ImmediateRange\n\
    subs x30, x0, #-1, lsl #12 => ImmediateRange\n\
    subs x3, x17, #4095, lsl #13 => ImmediateRange\n\
    subs x30, x0, #0, lsl #11 => ImmediateRange\n\
    subs xzr, x17, #4095, lsl #12 => RegisterClass\n\
    subs q1, x17, #4095, lsl #12 => BadOperand\n\
    subs x3, xzr, #4095, lsl #12 => RegisterClass\n\
    subs w3, w17, #4095\n\
    SuBs  W30\t, w0\t, #0 => subs w30, w0, #0\n\
    subs w3, w17, #4096 => ImmediateRange\n\
    subs w30, w0, #-1 => ImmediateRange\n\
    subs wzr, w17, #4095 => RegisterClass\n\
    subs q1, w17, #4095 => BadOperand\n\
    subs w3, wzr, #4095 => RegisterClass\n\
    subs w3, w17, #4095, lsl #12\n\
    SuBs  W30\t, w0\t, #0\t, LsL #12 => subs w30, w0, #0, lsl #12\n\
    subs w3, w17, #4096, lsl #12 => ImmediateRange\n\
    subs w30, w0, #-1, lsl #12 => ImmediateRange\n\
    subs w3, w17, #4095, lsl #13 => ImmediateRange\n\
    subs w30, w0, #0, lsl #11 => ImmediateRange\n\
    subs wzr, w17, #4095, lsl #12 => RegisterClass\n\
    subs q1, w17, #4095, lsl #12 => BadOperand\n\
    subs w3, wzr, #4095, lsl #12 => RegisterClass\n\
    adc x3, x17, x29\n\
    AdC  x30\t, X0\t, x9 => adc x30, x0, x9\n\
    adc xzr, x17, x29 => RegisterClass\n\
    adc q1, x17, x29 => BadOperand\n\
    adc x3, xzr, x29\n\
    adc x3, sp, x29 => RegisterClass\n\
    adc x3, x17, xzr\n\
    adc x3, x17, sp => RegisterClass\n\
    adc w3, w17, w29\n\
    AdC  w30\t, W0\t, w9 => adc w30, w0, w9\n\
    adc wzr, w17, w29 => RegisterClass\n\
    adc q1, w17, w29 => BadOperand\n\
    adc w3, wzr, w29\n\
    adc w3, w17, wzr\n\
    sbc x3, x17, x29\n\
    SbC  x30\t, X0\t, x9 => sbc x30, x0, x9\n\
    sbc xzr, x17, x29 => RegisterClass\n\
    sbc q1, x17, x29 => BadOperand\n\
    sbc x3, xzr, x29\n\
    sbc x3, sp, x29 => RegisterClass\n\
    sbc x3, x17, xzr\n\
    sbc x3, x17, sp => RegisterClass\n\
    sbc w3, w17, w29\n\
    SbC  w30\t, W0\t, w9 => sbc w30, w0, w9\n\
    sbc wzr, w17, w29 => RegisterClass\n\
    sbc q1, w17, w29 => BadOperand\n\
    sbc w3, wzr, w29\n\
    sbc w3, w17, wzr\n\
    adcs x3, x17, x29\n\
    AdCs  X30\t, x0\t, X9 => adcs x30, x0, x9",
    "\
    adcs xzr, x17, x29 => RegisterClass\n\
    adcs q1, x17, x29 => BadOperand\n\
    adcs x3, xzr, x29\n\
    adcs x3, sp, x29 => RegisterClass\n\
    adcs x3, x17, xzr\n\
    adcs x3, x17, sp => RegisterClass\n\
    adcs w3, w17, w29\n\
    AdCs  W30\t, w0\t, W9 => adcs w30, w0, w9\n\
    adcs wzr, w17, w29 => RegisterClass\n\
    adcs q1, w17, w29 => BadOperand\n\
    adcs w3, wzr, w29\n\
    adcs w3, w17, wzr\n\
    sbcs x3, x17, x29\n\
    SbCs  X30\t, x0\t, X9 => sbcs x30, x0, x9\n\
    sbcs xzr, x17, x29 => RegisterClass\n\
    sbcs q1, x17, x29 => BadOperand\n\
    sbcs x3, xzr, x29\n\
    sbcs x3, sp, x29 => RegisterClass\n\
    sbcs x3, x17, xzr\n\
    sbcs x3, x17, sp => RegisterClass\n\
    sbcs w3, w17, w29\n\
    SbCs  W30\t, w0\t, W9 => sbcs w30, w0, w9\n\
    sbcs wzr, w17, w29 => RegisterClass\n\
    sbcs q1, w17, w29 => BadOperand\n\
    sbcs w3, wzr, w29\n\
    sbcs w3, w17, wzr\n\
    and x3, x17, x29\n\
    AnD  x30\t, X0\t, x9 => and x30, x0, x9\n\
    and xzr, x17, x29 => RegisterClass\n\
    and q1, x17, x29 => BadOperand\n\
    and x3, xzr, x29\n\
    and x3, sp, x29 => RegisterClass\n\
    and x3, x17, xzr\n\
    and x3, x17, sp => RegisterClass\n\
    and x3, x17, x29, lsl #63\n\
    AnD  x30\t, X0\t, x9\t, LsL #0 => and x30, x0, x9\n\
    and x3, x17, x29, lsl #64 => ImmediateRange\n\
    and x30, x0, x9, lsl #-1 => ImmediateRange\n\
    and xzr, x17, x29, lsl #63 => RegisterClass\n\
    and q1, x17, x29, lsl #63 => BadOperand\n\
    and x3, xzr, x29, lsl #63\n\
    and x3, sp, x29, lsl #63 => RegisterClass\n\
    and x3, x17, xzr, lsl #63\n\
    and x3, x17, sp, lsl #63 => RegisterClass\n\
    and x3, x17, x29, lsr #63\n\
    AnD  x30\t, X0\t, x9\t, LsR #0 => and x30, x0, x9, lsr #0\n\
    and x3, x17, x29, lsr #64 => ImmediateRange\n\
    and x30, x0, x9, lsr #-1 => ImmediateRange\n\
    and xzr, x17, x29, lsr #63 => RegisterClass\n\
    and q1, x17, x29, lsr #63 => BadOperand\n\
    and x3, xzr, x29, lsr #63\n\
    and x3, sp, x29, lsr #63 => RegisterClass\n\
    and x3, x17, xzr, lsr #63\n\
    and x3, x17, sp, lsr #63 => RegisterClass\n\
    and x3, x17, x29, asr #63\n\
    AnD  x30\t, X0\t, x9\t, AsR #0 => and x30, x0, x9, asr #0\n\
    and x3, x17, x29, asr #64 => ImmediateRange\n\
    and x30, x0, x9, asr #-1 => ImmediateRange\n\
    and xzr, x17, x29, asr #63 => RegisterClass\n\
    and q1, x17, x29, asr #63 => BadOperand\n\
    and x3, xzr, x29, asr #63\n\
    and x3, sp, x29, asr #63 => RegisterClass\n\
    and x3, x17, xzr, asr #63\n\
    and x3, x17, sp, asr #63 => RegisterClass\n\
    and x3, x17, x29, ror #63\n\
    AnD  x30\t, X0\t, x9\t, RoR #0 => and x30, x0, x9, ror #0\n\
    and x3, x17, x29, ror #64 => ImmediateRange\n\
    and x30, x0, x9, ror #-1 => ImmediateRange\n\
    and xzr, x17, x29, ror #63 => RegisterClass\n\
    and q1, x17, x29, ror #63 => BadOperand\n\
    and x3, xzr, x29, ror #63\n\
    and x3, sp, x29, ror #63 => RegisterClass\n\
    and x3, x17, xzr, ror #63\n\
    and x3, x17, sp, ror #63 => RegisterClass\n\
    and w3, w17, w29\n\
    AnD  w30\t, W0\t, w9 => and w30, w0, w9\n\
    and wzr, w17, w29 => RegisterClass\n\
    and q1, w17, w29 => BadOperand\n\
    and w3, wzr, w29\n\
    and w3, w17, wzr\n\
    and w3, w17, w29, lsl #31\n\
    AnD  w30\t, W0\t, w9\t, LsL #0 => and w30, w0, w9\n\
    and w3, w17, w29, lsl #32 => ImmediateRange\n\
    and w30, w0, w9, lsl #-1 => ImmediateRange\n\
    and wzr, w17, w29, lsl #31 => RegisterClass\n\
    and q1, w17, w29, lsl #31 => BadOperand\n\
    and w3, wzr, w29, lsl #31\n\
    and w3, w17, wzr, lsl #31\n\
    and w3, w17, w29, lsr #31\n\
    AnD  w30\t, W0\t, w9\t, LsR #0 => and w30, w0, w9, lsr #0\n\
    and w3, w17, w29, lsr #32 => ImmediateRange\n\
    and w30, w0, w9, lsr #-1 => ImmediateRange\n\
    and wzr, w17, w29, lsr #31 => RegisterClass\n\
    and q1, w17, w29, lsr #31 => BadOperand\n\
    and w3, wzr, w29, lsr #31\n\
    and w3, w17, wzr, lsr #31\n\
    and w3, w17, w29, asr #31\n\
    AnD  w30\t, W0\t, w9\t, AsR #0 => and w30, w0, w9, asr #0\n\
    and w3, w17, w29, asr #32 => ImmediateRange\n\
    and w30, w0, w9, asr #-1 => ImmediateRange\n\
    and wzr, w17, w29, asr #31 => RegisterClass\n\
    and q1, w17, w29, asr #31 => BadOperand\n\
    and w3, wzr, w29, asr #31\n\
    and w3, w17, wzr, asr #31\n\
    and w3, w17, w29, ror #31\n\
    AnD  w30\t, W0\t, w9\t, RoR #0 => and w30, w0, w9, ror #0\n\
    and w3, w17, w29, ror #32 => ImmediateRange\n\
    and w30, w0, w9, ror #-1 => ImmediateRange\n\
    and wzr, w17, w29, ror #31 => RegisterClass\n\
    and q1, w17, w29, ror #31 => BadOperand\n\
    and w3, wzr, w29, ror #31\n\
    and w3, w17, wzr, ror #31\n\
    orr x3, x17, x29\n\
    OrR  x30\t, X0\t, x9 => orr x30, x0, x9\n\
    orr xzr, x17, x29 => RegisterClass\n\
    orr q1, x17, x29 => BadOperand\n\
    orr x3, xzr, x29\n\
    orr x3, sp, x29 => RegisterClass\n\
    orr x3, x17, xzr\n\
    orr x3, x17, sp => RegisterClass\n\
    orr x3, x17, x29, lsl #63\n\
    OrR  x30\t, X0\t, x9\t, LsL #0 => orr x30, x0, x9\n\
    orr x3, x17, x29, lsl #64 => ImmediateRange\n\
    orr x30, x0, x9, lsl #-1 => ImmediateRange\n\
    orr xzr, x17, x29, lsl #63 => RegisterClass\n\
    orr q1, x17, x29, lsl #63 => BadOperand\n\
    orr x3, xzr, x29, lsl #63\n\
    orr x3, sp, x29, lsl #63 => RegisterClass\n\
    orr x3, x17, xzr, lsl #63\n\
    orr x3, x17, sp, lsl #63 => RegisterClass\n\
    orr x3, x17, x29, lsr #63\n\
    OrR  x30\t, X0\t, x9\t, LsR #0 => orr x30, x0, x9, lsr #0\n\
    orr x3, x17, x29, lsr #64 => ImmediateRange\n\
    orr x30, x0, x9, lsr #-1 => ImmediateRange\n\
    orr xzr, x17, x29, lsr #63 => RegisterClass\n\
    orr q1, x17, x29, lsr #63 => BadOperand\n\
    orr x3, xzr, x29, lsr #63\n\
    orr x3, sp, x29, lsr #63 => RegisterClass\n\
    orr x3, x17, xzr, lsr #63\n\
    orr x3, x17, sp, lsr #63 => RegisterClass\n\
    orr x3, x17, x29, asr #63\n\
    OrR  x30\t, X0\t, x9\t, AsR #0 => orr x30, x0, x9, asr #0\n\
    orr x3, x17, x29, asr #64 => ImmediateRange\n\
    orr x30, x0, x9, asr #-1 => ImmediateRange\n\
    orr xzr, x17, x29, asr #63 => RegisterClass\n\
    orr q1, x17, x29, asr #63 => BadOperand\n\
    orr x3, xzr, x29, asr #63\n\
    orr x3, sp, x29, asr #63 => RegisterClass\n\
    orr x3, x17, xzr, asr #63\n\
    orr x3, x17, sp, asr #63 => RegisterClass\n\
    orr x3, x17, x29, ror #63\n\
    OrR  x30\t, X0\t, x9\t, RoR #0 => orr x30, x0, x9, ror #0\n\
    orr x3, x17, x29, ror #64 => ImmediateRange\n\
    orr x30, x0, x9, ror #-1 => ImmediateRange\n\
    orr xzr, x17, x29, ror #63 => RegisterClass\n\
    orr q1, x17, x29, ror #63 => BadOperand\n\
    orr x3, xzr, x29, ror #63\n\
    orr x3, sp, x29, ror #63 => RegisterClass\n\
    orr x3, x17, xzr, ror #63\n\
    orr x3, x17, sp, ror #63 => RegisterClass\n\
    orr w3, w17, w29\n\
    OrR  w30\t, W0\t, w9 => orr w30, w0, w9\n\
    orr wzr, w17, w29 => RegisterClass\n\
    orr q1, w17, w29 => BadOperand\n\
    orr w3, wzr, w29\n\
    orr w3, w17, wzr\n\
    orr w3, w17, w29, lsl #31\n\
    OrR  w30\t, W0\t, w9\t, LsL #0 => orr w30, w0, w9\n\
    orr w3, w17, w29, lsl #32 => ImmediateRange\n\
    orr w30, w0, w9, lsl #-1 => ImmediateRange\n\
    orr wzr, w17, w29, lsl #31 => RegisterClass\n\
    orr q1, w17, w29, lsl #31 => BadOperand\n\
    orr w3, wzr, w29, lsl #31\n\
    orr w3, w17, wzr, lsl #31\n\
    orr w3, w17, w29, lsr #31\n\
    OrR  w30\t, W0\t, w9\t, LsR #0 => orr w30, w0, w9, lsr #0\n\
    orr w3, w17, w29, lsr #32 => ImmediateRange\n\
    orr w30, w0, w9, lsr #-1 => ImmediateRange\n\
    orr wzr, w17, w29, lsr #31 => RegisterClass\n\
    orr q1, w17, w29, lsr #31 => BadOperand\n\
    orr w3, wzr, w29, lsr #31\n\
    orr w3, w17, wzr, lsr #31\n\
    orr w3, w17, w29, asr #31\n\
    OrR  w30\t, W0\t, w9\t, AsR #0 => orr w30, w0, w9, asr #0\n\
    orr w3, w17, w29, asr #32 => ImmediateRange\n\
    orr w30, w0, w9, asr #-1 => ImmediateRange\n\
    orr wzr, w17, w29, asr #31 => RegisterClass\n\
    orr q1, w17, w29, asr #31 => BadOperand\n\
    orr w3, wzr, w29, asr #31\n\
    orr w3, w17, wzr, asr #31\n\
    orr w3, w17, w29, ror #31\n\
    OrR  w30\t, W0\t, w9\t, RoR #0 => orr w30, w0, w9, ror #0\n\
    orr w3, w17, w29, ror #32 => ImmediateRange\n\
    orr w30, w0, w9, ror #-1 => ImmediateRange\n\
    orr wzr, w17, w29, ror #31 => RegisterClass\n\
    orr q1, w17, w29, ror #31 => BadOperand\n\
    orr w3, wzr, w29, ror #31\n\
    orr w3, w17, wzr, ror #31\n\
    eor x3, x17, x29\n\
    EoR  x30\t, X0\t, x9 => eor x30, x0, x9\n\
    eor xzr, x17, x29 => RegisterClass\n\
    eor q1, x17, x29 => BadOperand\n\
    eor x3, xzr, x29\n\
    eor x3, sp, x29 => RegisterClass\n\
    eor x3, x17, xzr\n\
    eor x3, x17, sp => RegisterClass\n\
    eor x3, x17, x29, lsl #63\n\
    EoR  x30\t, X0\t, x9\t, LsL #0 => eor x30, x0, x9\n\
    eor x3, x17, x29, lsl #64 => ImmediateRange\n\
    eor x30, x0, x9, lsl #-1 => ImmediateRange\n\
    eor xzr, x17, x29, lsl #63 => RegisterClass\n\
    eor q1, x17, x29, lsl #63 => BadOperand\n\
    eor x3, xzr, x29, lsl #63\n\
    eor x3, sp, x29, lsl #63 => RegisterClass\n\
    eor x3, x17, xzr, lsl #63\n\
    eor x3, x17, sp, lsl #63 => RegisterClass\n\
    eor x3, x17, x29, lsr #63\n\
    EoR  x30\t, X0\t, x9\t, LsR #0 => eor x30, x0, x9, lsr #0\n\
    eor x3, x17, x29, lsr #64 => ImmediateRange\n\
    eor x30, x0, x9, lsr #-1 => ImmediateRange\n\
    eor xzr, x17, x29, lsr #63 => RegisterClass\n\
    eor q1, x17, x29, lsr #63 => BadOperand\n\
    eor x3, xzr, x29, lsr #63\n\
    eor x3, sp, x29, lsr #63 => RegisterClass\n\
    eor x3, x17, xzr, lsr #63",
    "\
    eor x3, x17, sp, lsr #63 => RegisterClass\n\
    eor x3, x17, x29, asr #63\n\
    EoR  x30\t, X0\t, x9\t, AsR #0 => eor x30, x0, x9, asr #0\n\
    eor x3, x17, x29, asr #64 => ImmediateRange\n\
    eor x30, x0, x9, asr #-1 => ImmediateRange\n\
    eor xzr, x17, x29, asr #63 => RegisterClass\n\
    eor q1, x17, x29, asr #63 => BadOperand\n\
    eor x3, xzr, x29, asr #63\n\
    eor x3, sp, x29, asr #63 => RegisterClass\n\
    eor x3, x17, xzr, asr #63\n\
    eor x3, x17, sp, asr #63 => RegisterClass\n\
    eor x3, x17, x29, ror #63\n\
    EoR  x30\t, X0\t, x9\t, RoR #0 => eor x30, x0, x9, ror #0\n\
    eor x3, x17, x29, ror #64 => ImmediateRange\n\
    eor x30, x0, x9, ror #-1 => ImmediateRange\n\
    eor xzr, x17, x29, ror #63 => RegisterClass\n\
    eor q1, x17, x29, ror #63 => BadOperand\n\
    eor x3, xzr, x29, ror #63\n\
    eor x3, sp, x29, ror #63 => RegisterClass\n\
    eor x3, x17, xzr, ror #63\n\
    eor x3, x17, sp, ror #63 => RegisterClass\n\
    eor w3, w17, w29\n\
    EoR  w30\t, W0\t, w9 => eor w30, w0, w9\n\
    eor wzr, w17, w29 => RegisterClass\n\
    eor q1, w17, w29 => BadOperand\n\
    eor w3, wzr, w29\n\
    eor w3, w17, wzr\n\
    eor w3, w17, w29, lsl #31\n\
    EoR  w30\t, W0\t, w9\t, LsL #0 => eor w30, w0, w9\n\
    eor w3, w17, w29, lsl #32 => ImmediateRange\n\
    eor w30, w0, w9, lsl #-1 => ImmediateRange\n\
    eor wzr, w17, w29, lsl #31 => RegisterClass\n\
    eor q1, w17, w29, lsl #31 => BadOperand\n\
    eor w3, wzr, w29, lsl #31\n\
    eor w3, w17, wzr, lsl #31\n\
    eor w3, w17, w29, lsr #31\n\
    EoR  w30\t, W0\t, w9\t, LsR #0 => eor w30, w0, w9, lsr #0\n\
    eor w3, w17, w29, lsr #32 => ImmediateRange\n\
    eor w30, w0, w9, lsr #-1 => ImmediateRange\n\
    eor wzr, w17, w29, lsr #31 => RegisterClass\n\
    eor q1, w17, w29, lsr #31 => BadOperand\n\
    eor w3, wzr, w29, lsr #31\n\
    eor w3, w17, wzr, lsr #31\n\
    eor w3, w17, w29, asr #31\n\
    EoR  w30\t, W0\t, w9\t, AsR #0 => eor w30, w0, w9, asr #0\n\
    eor w3, w17, w29, asr #32 => ImmediateRange\n\
    eor w30, w0, w9, asr #-1 => ImmediateRange\n\
    eor wzr, w17, w29, asr #31 => RegisterClass\n\
    eor q1, w17, w29, asr #31 => BadOperand\n\
    eor w3, wzr, w29, asr #31\n\
    eor w3, w17, wzr, asr #31\n\
    eor w3, w17, w29, ror #31\n\
    EoR  w30\t, W0\t, w9\t, RoR #0 => eor w30, w0, w9, ror #0\n\
    eor w3, w17, w29, ror #32 => ImmediateRange\n\
    eor w30, w0, w9, ror #-1 => ImmediateRange\n\
    eor wzr, w17, w29, ror #31 => RegisterClass\n\
    eor q1, w17, w29, ror #31 => BadOperand\n\
    eor w3, wzr, w29, ror #31\n\
    eor w3, w17, wzr, ror #31\n\
    bic x3, x17, x29\n\
    BiC  x30\t, X0\t, x9 => bic x30, x0, x9\n\
    bic xzr, x17, x29 => RegisterClass\n\
    bic q1, x17, x29 => BadOperand\n\
    bic x3, xzr, x29\n\
    bic x3, sp, x29 => RegisterClass\n\
    bic x3, x17, xzr\n\
    bic x3, x17, sp => RegisterClass\n\
    bic x3, x17, x29, lsl #63\n\
    BiC  x30\t, X0\t, x9\t, LsL #0 => bic x30, x0, x9\n\
    bic x3, x17, x29, lsl #64 => ImmediateRange\n\
    bic x30, x0, x9, lsl #-1 => ImmediateRange\n\
    bic xzr, x17, x29, lsl #63 => RegisterClass\n\
    bic q1, x17, x29, lsl #63 => BadOperand\n\
    bic x3, xzr, x29, lsl #63\n\
    bic x3, sp, x29, lsl #63 => RegisterClass\n\
    bic x3, x17, xzr, lsl #63\n\
    bic x3, x17, sp, lsl #63 => RegisterClass\n\
    bic x3, x17, x29, lsr #63\n\
    BiC  x30\t, X0\t, x9\t, LsR #0 => bic x30, x0, x9, lsr #0\n\
    bic x3, x17, x29, lsr #64 => ImmediateRange\n\
    bic x30, x0, x9, lsr #-1 => ImmediateRange\n\
    bic xzr, x17, x29, lsr #63 => RegisterClass\n\
    bic q1, x17, x29, lsr #63 => BadOperand\n\
    bic x3, xzr, x29, lsr #63\n\
    bic x3, sp, x29, lsr #63 => RegisterClass\n\
    bic x3, x17, xzr, lsr #63\n\
    bic x3, x17, sp, lsr #63 => RegisterClass\n\
    bic x3, x17, x29, asr #63\n\
    BiC  x30\t, X0\t, x9\t, AsR #0 => bic x30, x0, x9, asr #0\n\
    bic x3, x17, x29, asr #64 => ImmediateRange\n\
    bic x30, x0, x9, asr #-1 => ImmediateRange\n\
    bic xzr, x17, x29, asr #63 => RegisterClass\n\
    bic q1, x17, x29, asr #63 => BadOperand\n\
    bic x3, xzr, x29, asr #63\n\
    bic x3, sp, x29, asr #63 => RegisterClass\n\
    bic x3, x17, xzr, asr #63\n\
    bic x3, x17, sp, asr #63 => RegisterClass\n\
    bic x3, x17, x29, ror #63\n\
    BiC  x30\t, X0\t, x9\t, RoR #0 => bic x30, x0, x9, ror #0\n\
    bic x3, x17, x29, ror #64 => ImmediateRange\n\
    bic x30, x0, x9, ror #-1 => ImmediateRange\n\
    bic xzr, x17, x29, ror #63 => RegisterClass\n\
    bic q1, x17, x29, ror #63 => BadOperand\n\
    bic x3, xzr, x29, ror #63\n\
    bic x3, sp, x29, ror #63 => RegisterClass\n\
    bic x3, x17, xzr, ror #63\n\
    bic x3, x17, sp, ror #63 => RegisterClass\n\
    bic w3, w17, w29\n\
    BiC  w30\t, W0\t, w9 => bic w30, w0, w9\n\
    bic wzr, w17, w29 => RegisterClass\n\
    bic q1, w17, w29 => BadOperand\n\
    bic w3, wzr, w29\n\
    bic w3, w17, wzr\n\
    bic w3, w17, w29, lsl #31\n\
    BiC  w30\t, W0\t, w9\t, LsL #0 => bic w30, w0, w9\n\
    bic w3, w17, w29, lsl #32 => ImmediateRange\n\
    bic w30, w0, w9, lsl #-1 => ImmediateRange\n\
    bic wzr, w17, w29, lsl #31 => RegisterClass\n\
    bic q1, w17, w29, lsl #31 => BadOperand\n\
    bic w3, wzr, w29, lsl #31\n\
    bic w3, w17, wzr, lsl #31\n\
    bic w3, w17, w29, lsr #31\n\
    BiC  w30\t, W0\t, w9\t, LsR #0 => bic w30, w0, w9, lsr #0\n\
    bic w3, w17, w29, lsr #32 => ImmediateRange\n\
    bic w30, w0, w9, lsr #-1 => ImmediateRange\n\
    bic wzr, w17, w29, lsr #31 => RegisterClass\n\
    bic q1, w17, w29, lsr #31 => BadOperand\n\
    bic w3, wzr, w29, lsr #31\n\
    bic w3, w17, wzr, lsr #31\n\
    bic w3, w17, w29, asr #31\n\
    BiC  w30\t, W0\t, w9\t, AsR #0 => bic w30, w0, w9, asr #0\n\
    bic w3, w17, w29, asr #32 => ImmediateRange\n\
    bic w30, w0, w9, asr #-1 => ImmediateRange\n\
    bic wzr, w17, w29, asr #31 => RegisterClass\n\
    bic q1, w17, w29, asr #31 => BadOperand\n\
    bic w3, wzr, w29, asr #31\n\
    bic w3, w17, wzr, asr #31\n\
    bic w3, w17, w29, ror #31\n\
    BiC  w30\t, W0\t, w9\t, RoR #0 => bic w30, w0, w9, ror #0\n\
    bic w3, w17, w29, ror #32 => ImmediateRange\n\
    bic w30, w0, w9, ror #-1 => ImmediateRange\n\
    bic wzr, w17, w29, ror #31 => RegisterClass\n\
    bic q1, w17, w29, ror #31 => BadOperand\n\
    bic w3, wzr, w29, ror #31\n\
    bic w3, w17, wzr, ror #31\n\
    mov x3, x17\n\
    MoV  x30\t, X0 => mov x30, x0\n\
    mov xzr, x17 => RegisterClass\n\
    mov q1, x17 => BadOperand\n\
    mov x3, xzr\n\
    mov x3, sp => RegisterClass\n\
    mov w3, w17\n\
    MoV  w30\t, W0 => mov w30, w0\n\
    mov wzr, w17 => RegisterClass\n\
    mov q1, w17 => BadOperand\n\
    mov w3, wzr\n\
    movz x3, #65535\n\
    MoVz  X30\t, #0 => movz x30, #0\n\
    movz x3, #65536 => ImmediateRange\n\
    movz x30, #-1 => ImmediateRange\n\
    movz xzr, #65535 => RegisterClass\n\
    movz q1, #65535 => BadOperand\n\
    movz x3, #65535, lsl #48\n\
    MoVz  X30\t, #0\t, lSl #0 => movz x30, #0\n\
    movz x3, #65536, lsl #48 => ImmediateRange\n\
    movz x30, #-1, lsl #0 => ImmediateRange\n\
    movz x3, #65535, lsl #64 => ImmediateRange\n\
    movz x30, #0, lsl #-1 => ImmediateRange\n\
    movz x3, #65535, lsl #8 => ImmediateRange\n\
    movz xzr, #65535, lsl #48 => RegisterClass\n\
    movz q1, #65535, lsl #48 => BadOperand\n\
    movz w3, #65535\n\
    MoVz  W30\t, #0 => movz w30, #0\n\
    movz w3, #65536 => ImmediateRange\n\
    movz w30, #-1 => ImmediateRange\n\
    movz wzr, #65535 => RegisterClass\n\
    movz q1, #65535 => BadOperand\n\
    movz w3, #65535, lsl #16\n\
    MoVz  W30\t, #0\t, lSl #0 => movz w30, #0\n\
    movz w3, #65536, lsl #16 => ImmediateRange\n\
    movz w30, #-1, lsl #0 => ImmediateRange\n\
    movz w3, #65535, lsl #32 => ImmediateRange\n\
    movz w30, #0, lsl #-1 => ImmediateRange\n\
    movz w3, #65535, lsl #8 => ImmediateRange\n\
    movz wzr, #65535, lsl #16 => RegisterClass\n\
    movz q1, #65535, lsl #16 => BadOperand\n\
    mov x3, #65535 => movz x3, #65535\n\
    MoV  x30\t, #0 => movz x30, #0\n\
    mov x3, #65536 => ImmediateRange\n\
    mov x30, #-1 => ImmediateRange\n\
    mov xzr, #65535 => RegisterClass\n\
    mov q1, #65535 => BadOperand\n\
    mov w3, #65535 => movz w3, #65535\n\
    MoV  w30\t, #0 => movz w30, #0\n\
    mov w3, #65536 => ImmediateRange\n\
    mov w30, #-1 => ImmediateRange\n\
    mov wzr, #65535 => RegisterClass\n\
    mov q1, #65535 => BadOperand\n\
    movk x3, #65535\n\
    MoVk  X30\t, #0 => movk x30, #0\n\
    movk x3, #65536 => ImmediateRange\n\
    movk x30, #-1 => ImmediateRange\n\
    movk xzr, #65535 => RegisterClass\n\
    movk q1, #65535 => BadOperand\n\
    movk x3, #65535, lsl #48\n\
    MoVk  X30\t, #0\t, lSl #0 => movk x30, #0\n\
    movk x3, #65536, lsl #48 => ImmediateRange\n\
    movk x30, #-1, lsl #0 => ImmediateRange\n\
    movk x3, #65535, lsl #64 => ImmediateRange\n\
    movk x30, #0, lsl #-1 => ImmediateRange\n\
    movk x3, #65535, lsl #8 => ImmediateRange\n\
    movk xzr, #65535, lsl #48 => RegisterClass\n\
    movk q1, #65535, lsl #48 => BadOperand\n\
    movk w3, #65535\n\
    MoVk  W30\t, #0 => movk w30, #0\n\
    movk w3, #65536 => ImmediateRange\n\
    movk w30, #-1 => ImmediateRange\n\
    movk wzr, #65535 => RegisterClass\n\
    movk q1, #65535 => BadOperand\n\
    movk w3, #65535, lsl #16\n\
    MoVk  W30\t, #0\t, lSl #0 => movk w30, #0\n\
    movk w3, #65536, lsl #16 => ImmediateRange\n\
    movk w30, #-1, lsl #0 => ImmediateRange\n\
    movk w3, #65535, lsl #32 => ImmediateRange",
    "\
    movk w30, #0, lsl #-1 => ImmediateRange\n\
    movk w3, #65535, lsl #8 => ImmediateRange\n\
    movk wzr, #65535, lsl #16 => RegisterClass\n\
    movk q1, #65535, lsl #16 => BadOperand\n\
    mul x3, x17, x29\n\
    MuL  x30\t, X0\t, x9 => mul x30, x0, x9\n\
    mul xzr, x17, x29 => RegisterClass\n\
    mul q1, x17, x29 => BadOperand\n\
    mul x3, xzr, x29\n\
    mul x3, sp, x29 => RegisterClass\n\
    mul x3, x17, xzr\n\
    mul x3, x17, sp => RegisterClass\n\
    mul w3, w17, w29\n\
    MuL  w30\t, W0\t, w9 => mul w30, w0, w9\n\
    mul wzr, w17, w29 => RegisterClass\n\
    mul q1, w17, w29 => BadOperand\n\
    mul w3, wzr, w29\n\
    mul w3, w17, wzr\n\
    madd x3, x17, x29, x11\n\
    MaDd  X30\t, x0\t, X9\t, x22 => madd x30, x0, x9, x22\n\
    madd xzr, x17, x29, x11 => RegisterClass\n\
    madd q1, x17, x29, x11 => BadOperand\n\
    madd x3, xzr, x29, x11\n\
    madd x3, sp, x29, x11 => RegisterClass\n\
    madd x3, x17, xzr, x11\n\
    madd x3, x17, sp, x11 => RegisterClass\n\
    madd x3, x17, x29, xzr\n\
    madd x3, x17, x29, sp => RegisterClass\n\
    madd w3, w17, w29, w11\n\
    MaDd  W30\t, w0\t, W9\t, w22 => madd w30, w0, w9, w22\n\
    madd wzr, w17, w29, w11 => RegisterClass\n\
    madd q1, w17, w29, w11 => BadOperand\n\
    madd w3, wzr, w29, w11\n\
    madd w3, w17, wzr, w11\n\
    madd w3, w17, w29, wzr\n\
    msub x3, x17, x29, x11\n\
    MsUb  X30\t, x0\t, X9\t, x22 => msub x30, x0, x9, x22\n\
    msub xzr, x17, x29, x11 => RegisterClass\n\
    msub q1, x17, x29, x11 => BadOperand\n\
    msub x3, xzr, x29, x11\n\
    msub x3, sp, x29, x11 => RegisterClass\n\
    msub x3, x17, xzr, x11\n\
    msub x3, x17, sp, x11 => RegisterClass\n\
    msub x3, x17, x29, xzr\n\
    msub x3, x17, x29, sp => RegisterClass\n\
    msub w3, w17, w29, w11\n\
    MsUb  W30\t, w0\t, W9\t, w22 => msub w30, w0, w9, w22\n\
    msub wzr, w17, w29, w11 => RegisterClass\n\
    msub q1, w17, w29, w11 => BadOperand\n\
    msub w3, wzr, w29, w11\n\
    msub w3, w17, wzr, w11\n\
    msub w3, w17, w29, wzr\n\
    umulh x3, x17, x29\n\
    UmUlH  x30\t, X0\t, x9 => umulh x30, x0, x9\n\
    umulh xzr, x17, x29 => RegisterClass\n\
    umulh q1, x17, x29 => BadOperand\n\
    umulh x3, xzr, x29\n\
    umulh x3, sp, x29 => RegisterClass\n\
    umulh x3, x17, xzr\n\
    umulh x3, x17, sp => RegisterClass\n\
    smulh x3, x17, x29\n\
    SmUlH  x30\t, X0\t, x9 => smulh x30, x0, x9\n\
    smulh xzr, x17, x29 => RegisterClass\n\
    smulh q1, x17, x29 => BadOperand\n\
    smulh x3, xzr, x29\n\
    smulh x3, sp, x29 => RegisterClass\n\
    smulh x3, x17, xzr\n\
    smulh x3, x17, sp => RegisterClass\n\
    umull x3, w17, w29\n\
    UmUlL  x30\t, W0\t, w9 => umull x30, w0, w9\n\
    umull xzr, w17, w29 => RegisterClass\n\
    umull q1, w17, w29 => BadOperand\n\
    umull x3, wzr, w29\n\
    umull x3, w17, wzr\n\
    smull x3, w17, w29\n\
    SmUlL  x30\t, W0\t, w9 => smull x30, w0, w9\n\
    smull xzr, w17, w29 => RegisterClass\n\
    smull q1, w17, w29 => BadOperand\n\
    smull x3, wzr, w29\n\
    smull x3, w17, wzr\n\
    extr x3, x17, x29, #63\n\
    ExTr  X30\t, x0\t, X9\t, #0 => extr x30, x0, x9, #0\n\
    extr x3, x17, x29, #64 => ImmediateRange\n\
    extr x30, x0, x9, #-1 => ImmediateRange\n\
    extr xzr, x17, x29, #63 => RegisterClass\n\
    extr q1, x17, x29, #63 => BadOperand\n\
    extr x3, xzr, x29, #63\n\
    extr x3, sp, x29, #63 => RegisterClass\n\
    extr x3, x17, xzr, #63\n\
    extr x3, x17, sp, #63 => RegisterClass\n\
    extr w3, w17, w29, #31\n\
    ExTr  W30\t, w0\t, W9\t, #0 => extr w30, w0, w9, #0\n\
    extr w3, w17, w29, #32 => ImmediateRange\n\
    extr w30, w0, w9, #-1 => ImmediateRange\n\
    extr wzr, w17, w29, #31 => RegisterClass\n\
    extr q1, w17, w29, #31 => BadOperand\n\
    extr w3, wzr, w29, #31\n\
    extr w3, w17, wzr, #31\n\
    lsl x3, x17, #63\n\
    LsL  x30\t, X0\t, #0 => lsl x30, x0, #0\n\
    lsl x3, x17, #64 => ImmediateRange\n\
    lsl x30, x0, #-1 => ImmediateRange\n\
    lsl xzr, x17, #63 => RegisterClass\n\
    lsl q1, x17, #63 => BadOperand\n\
    lsl x3, xzr, #63\n\
    lsl x3, sp, #63 => RegisterClass\n\
    lsl w3, w17, #31\n\
    LsL  w30\t, W0\t, #0 => lsl w30, w0, #0\n\
    lsl w3, w17, #32 => ImmediateRange\n\
    lsl w30, w0, #-1 => ImmediateRange\n\
    lsl wzr, w17, #31 => RegisterClass\n\
    lsl q1, w17, #31 => BadOperand\n\
    lsl w3, wzr, #31\n\
    lsr x3, x17, #63\n\
    LsR  x30\t, X0\t, #0 => lsr x30, x0, #0\n\
    lsr x3, x17, #64 => ImmediateRange\n\
    lsr x30, x0, #-1 => ImmediateRange\n\
    lsr xzr, x17, #63 => RegisterClass\n\
    lsr q1, x17, #63 => BadOperand\n\
    lsr x3, xzr, #63\n\
    lsr x3, sp, #63 => RegisterClass\n\
    lsr w3, w17, #31\n\
    LsR  w30\t, W0\t, #0 => lsr w30, w0, #0\n\
    lsr w3, w17, #32 => ImmediateRange\n\
    lsr w30, w0, #-1 => ImmediateRange\n\
    lsr wzr, w17, #31 => RegisterClass\n\
    lsr q1, w17, #31 => BadOperand\n\
    lsr w3, wzr, #31\n\
    asr x3, x17, #63\n\
    AsR  x30\t, X0\t, #0 => asr x30, x0, #0\n\
    asr x3, x17, #64 => ImmediateRange\n\
    asr x30, x0, #-1 => ImmediateRange\n\
    asr xzr, x17, #63 => RegisterClass\n\
    asr q1, x17, #63 => BadOperand\n\
    asr x3, xzr, #63\n\
    asr x3, sp, #63 => RegisterClass\n\
    asr w3, w17, #31\n\
    AsR  w30\t, W0\t, #0 => asr w30, w0, #0\n\
    asr w3, w17, #32 => ImmediateRange\n\
    asr w30, w0, #-1 => ImmediateRange\n\
    asr wzr, w17, #31 => RegisterClass\n\
    asr q1, w17, #31 => BadOperand\n\
    asr w3, wzr, #31\n\
    ror x3, x17, #63\n\
    RoR  x30\t, X0\t, #0 => ror x30, x0, #0\n\
    ror x3, x17, #64 => ImmediateRange\n\
    ror x30, x0, #-1 => ImmediateRange\n\
    ror xzr, x17, #63 => RegisterClass\n\
    ror q1, x17, #63 => BadOperand\n\
    ror x3, xzr, #63\n\
    ror x3, sp, #63 => RegisterClass\n\
    ror w3, w17, #31\n\
    RoR  w30\t, W0\t, #0 => ror w30, w0, #0\n\
    ror w3, w17, #32 => ImmediateRange\n\
    ror w30, w0, #-1 => ImmediateRange\n\
    ror wzr, w17, #31 => RegisterClass\n\
    ror q1, w17, #31 => BadOperand\n\
    ror w3, wzr, #31\n\
    ubfx x3, x17, #63, #1\n\
    UbFx  X30\t, x0\t, #0\t, #64 => ubfx x30, x0, #0, #64\n\
    ubfx x3, x17, #64, #1 => ImmediateRange\n\
    ubfx x30, x0, #-1, #64 => ImmediateRange\n\
    ubfx x3, x17, #63, #65 => ImmediateRange\n\
    ubfx x30, x0, #0, #0 => ImmediateRange\n\
    ubfx x3, x17, #63, #2 => ImmediateRange\n\
    ubfx xzr, x17, #63, #1 => RegisterClass\n\
    ubfx q1, x17, #63, #1 => BadOperand\n\
    ubfx x3, xzr, #63, #1 => RegisterClass\n\
    ubfx w3, w17, #31, #1\n\
    UbFx  W30\t, w0\t, #0\t, #32 => ubfx w30, w0, #0, #32\n\
    ubfx w3, w17, #32, #1 => ImmediateRange\n\
    ubfx w30, w0, #-1, #32 => ImmediateRange\n\
    ubfx w3, w17, #31, #33 => ImmediateRange\n\
    ubfx w30, w0, #0, #0 => ImmediateRange\n\
    ubfx w3, w17, #31, #2 => ImmediateRange\n\
    ubfx wzr, w17, #31, #1 => RegisterClass\n\
    ubfx q1, w17, #31, #1 => BadOperand\n\
    ubfx w3, wzr, #31, #1 => RegisterClass\n\
    csel x3, x17, x29, le\n\
    CsEl  X30\t, x0\t, X9\t, eQ => csel x30, x0, x9, eq\n\
    csel xzr, x17, x29, le => RegisterClass\n\
    csel q1, x17, x29, le => BadOperand\n\
    csel x3, xzr, x29, le\n\
    csel x3, sp, x29, le => RegisterClass\n\
    csel x3, x17, xzr, le\n\
    csel x3, x17, sp, le => RegisterClass\n\
    csel x3, x17, x29, EQ => csel x3, x17, x29, eq\n\
    csel x3, x17, x29, NE => csel x3, x17, x29, ne\n\
    csel x3, x17, x29, CS => csel x3, x17, x29, cs\n\
    csel x3, x17, x29, CC => csel x3, x17, x29, cc\n\
    csel x3, x17, x29, MI => csel x3, x17, x29, mi\n\
    csel x3, x17, x29, PL => csel x3, x17, x29, pl\n\
    csel x3, x17, x29, VS => csel x3, x17, x29, vs\n\
    csel x3, x17, x29, VC => csel x3, x17, x29, vc\n\
    csel x3, x17, x29, HI => csel x3, x17, x29, hi\n\
    csel x3, x17, x29, LS => csel x3, x17, x29, ls\n\
    csel x3, x17, x29, GE => csel x3, x17, x29, ge\n\
    csel x3, x17, x29, LT => csel x3, x17, x29, lt\n\
    csel x3, x17, x29, GT => csel x3, x17, x29, gt\n\
    csel x3, x17, x29, LE => csel x3, x17, x29, le\n\
    csel x3, x17, x29, HS => csel x3, x17, x29, cs\n\
    csel x3, x17, x29, LO => csel x3, x17, x29, cc\n\
    csel x3, x17, x29, al => BadOperand\n\
    csel w3, w17, w29, le\n\
    CsEl  W30\t, w0\t, W9\t, eQ => csel w30, w0, w9, eq\n\
    csel wzr, w17, w29, le => RegisterClass\n\
    csel q1, w17, w29, le => BadOperand\n\
    csel w3, wzr, w29, le\n\
    csel w3, w17, wzr, le\n\
    csel w3, w17, w29, EQ => csel w3, w17, w29, eq\n\
    csel w3, w17, w29, NE => csel w3, w17, w29, ne\n\
    csel w3, w17, w29, CS => csel w3, w17, w29, cs\n\
    csel w3, w17, w29, CC => csel w3, w17, w29, cc\n\
    csel w3, w17, w29, MI => csel w3, w17, w29, mi\n\
    csel w3, w17, w29, PL => csel w3, w17, w29, pl\n\
    csel w3, w17, w29, VS => csel w3, w17, w29, vs\n\
    csel w3, w17, w29, VC => csel w3, w17, w29, vc\n\
    csel w3, w17, w29, HI => csel w3, w17, w29, hi\n\
    csel w3, w17, w29, LS => csel w3, w17, w29, ls\n\
    csel w3, w17, w29, GE => csel w3, w17, w29, ge\n\
    csel w3, w17, w29, LT => csel w3, w17, w29, lt\n\
    csel w3, w17, w29, GT => csel w3, w17, w29, gt\n\
    csel w3, w17, w29, LE => csel w3, w17, w29, le\n\
    csel w3, w17, w29, HS => csel w3, w17, w29, cs\n\
    csel w3, w17, w29, LO => csel w3, w17, w29, cc\n\
    csel w3, w17, w29, al => BadOperand\n\
    add v3.8b, v17.8b, v29.8b\n\
    AdD  v30.8B\t, v0.8B\t, v9.8B => add v30.8b, v0.8b, v9.8b\n\
    add v1.1d, v17.8b, v29.8b => BadOperand\n\
    add v3.8b, v1.1d, v29.8b => BadOperand\n\
    add v3.8b, v17.8b, v1.1d => BadOperand",
    "\
    add v3.16b, v17.16b, v29.16b\n\
    AdD  v30.16B\t, v0.16B\t, v9.16B => add v30.16b, v0.16b, v9.16b\n\
    add v1.1d, v17.16b, v29.16b => BadOperand\n\
    add v3.16b, v1.1d, v29.16b => BadOperand\n\
    add v3.16b, v17.16b, v1.1d => BadOperand\n\
    add v3.4h, v17.4h, v29.4h\n\
    AdD  v30.4H\t, v0.4H\t, v9.4H => add v30.4h, v0.4h, v9.4h\n\
    add v1.1d, v17.4h, v29.4h => BadOperand\n\
    add v3.4h, v1.1d, v29.4h => BadOperand\n\
    add v3.4h, v17.4h, v1.1d => BadOperand\n\
    add v3.8h, v17.8h, v29.8h\n\
    AdD  v30.8H\t, v0.8H\t, v9.8H => add v30.8h, v0.8h, v9.8h\n\
    add v1.1d, v17.8h, v29.8h => BadOperand\n\
    add v3.8h, v1.1d, v29.8h => BadOperand\n\
    add v3.8h, v17.8h, v1.1d => BadOperand\n\
    add v3.2s, v17.2s, v29.2s\n\
    AdD  v30.2S\t, v0.2S\t, v9.2S => add v30.2s, v0.2s, v9.2s\n\
    add v1.1d, v17.2s, v29.2s => BadOperand\n\
    add v3.2s, v1.1d, v29.2s => BadOperand\n\
    add v3.2s, v17.2s, v1.1d => BadOperand\n\
    add v3.4s, v17.4s, v29.4s\n\
    AdD  v30.4S\t, v0.4S\t, v9.4S => add v30.4s, v0.4s, v9.4s\n\
    add v1.1d, v17.4s, v29.4s => BadOperand\n\
    add v3.4s, v1.1d, v29.4s => BadOperand\n\
    add v3.4s, v17.4s, v1.1d => BadOperand\n\
    add v3.2d, v17.2d, v29.2d\n\
    AdD  v30.2D\t, v0.2D\t, v9.2D => add v30.2d, v0.2d, v9.2d\n\
    add v1.1d, v17.2d, v29.2d => BadOperand\n\
    add v3.2d, v1.1d, v29.2d => BadOperand\n\
    add v3.2d, v17.2d, v1.1d => BadOperand\n\
    sub v3.8b, v17.8b, v29.8b\n\
    SuB  v30.8B\t, v0.8B\t, v9.8B => sub v30.8b, v0.8b, v9.8b\n\
    sub v1.1d, v17.8b, v29.8b => BadOperand\n\
    sub v3.8b, v1.1d, v29.8b => BadOperand\n\
    sub v3.8b, v17.8b, v1.1d => BadOperand\n\
    sub v3.16b, v17.16b, v29.16b\n\
    SuB  v30.16B\t, v0.16B\t, v9.16B => sub v30.16b, v0.16b, v9.16b\n\
    sub v1.1d, v17.16b, v29.16b => BadOperand\n\
    sub v3.16b, v1.1d, v29.16b => BadOperand\n\
    sub v3.16b, v17.16b, v1.1d => BadOperand\n\
    sub v3.4h, v17.4h, v29.4h\n\
    SuB  v30.4H\t, v0.4H\t, v9.4H => sub v30.4h, v0.4h, v9.4h\n\
    sub v1.1d, v17.4h, v29.4h => BadOperand\n\
    sub v3.4h, v1.1d, v29.4h => BadOperand\n\
    sub v3.4h, v17.4h, v1.1d => BadOperand\n\
    sub v3.8h, v17.8h, v29.8h\n\
    SuB  v30.8H\t, v0.8H\t, v9.8H => sub v30.8h, v0.8h, v9.8h\n\
    sub v1.1d, v17.8h, v29.8h => BadOperand\n\
    sub v3.8h, v1.1d, v29.8h => BadOperand\n\
    sub v3.8h, v17.8h, v1.1d => BadOperand\n\
    sub v3.2s, v17.2s, v29.2s\n\
    SuB  v30.2S\t, v0.2S\t, v9.2S => sub v30.2s, v0.2s, v9.2s\n\
    sub v1.1d, v17.2s, v29.2s => BadOperand\n\
    sub v3.2s, v1.1d, v29.2s => BadOperand\n\
    sub v3.2s, v17.2s, v1.1d => BadOperand\n\
    sub v3.4s, v17.4s, v29.4s\n\
    SuB  v30.4S\t, v0.4S\t, v9.4S => sub v30.4s, v0.4s, v9.4s\n\
    sub v1.1d, v17.4s, v29.4s => BadOperand\n\
    sub v3.4s, v1.1d, v29.4s => BadOperand\n\
    sub v3.4s, v17.4s, v1.1d => BadOperand\n\
    sub v3.2d, v17.2d, v29.2d\n\
    SuB  v30.2D\t, v0.2D\t, v9.2D => sub v30.2d, v0.2d, v9.2d\n\
    sub v1.1d, v17.2d, v29.2d => BadOperand\n\
    sub v3.2d, v1.1d, v29.2d => BadOperand\n\
    sub v3.2d, v17.2d, v1.1d => BadOperand\n\
    and v3.8b, v17.8b, v29.8b\n\
    AnD  v30.8B\t, v0.8B\t, v9.8B => and v30.8b, v0.8b, v9.8b\n\
    and v1.1d, v17.8b, v29.8b => BadOperand\n\
    and v3.8b, v1.1d, v29.8b => BadOperand\n\
    and v3.8b, v17.8b, v1.1d => BadOperand\n\
    and v3.16b, v17.16b, v29.16b\n\
    AnD  v30.16B\t, v0.16B\t, v9.16B => and v30.16b, v0.16b, v9.16b\n\
    and v1.1d, v17.16b, v29.16b => BadOperand\n\
    and v3.16b, v1.1d, v29.16b => BadOperand\n\
    and v3.16b, v17.16b, v1.1d => BadOperand\n\
    orr v3.8b, v17.8b, v29.8b\n\
    OrR  v30.8B\t, v0.8B\t, v9.8B => orr v30.8b, v0.8b, v9.8b\n\
    orr v1.1d, v17.8b, v29.8b => BadOperand\n\
    orr v3.8b, v1.1d, v29.8b => BadOperand\n\
    orr v3.8b, v17.8b, v1.1d => BadOperand\n\
    orr v3.16b, v17.16b, v29.16b\n\
    OrR  v30.16B\t, v0.16B\t, v9.16B => orr v30.16b, v0.16b, v9.16b\n\
    orr v1.1d, v17.16b, v29.16b => BadOperand\n\
    orr v3.16b, v1.1d, v29.16b => BadOperand\n\
    orr v3.16b, v17.16b, v1.1d => BadOperand\n\
    eor v3.8b, v17.8b, v29.8b\n\
    EoR  v30.8B\t, v0.8B\t, v9.8B => eor v30.8b, v0.8b, v9.8b\n\
    eor v1.1d, v17.8b, v29.8b => BadOperand\n\
    eor v3.8b, v1.1d, v29.8b => BadOperand\n\
    eor v3.8b, v17.8b, v1.1d => BadOperand\n\
    eor v3.16b, v17.16b, v29.16b\n\
    EoR  v30.16B\t, v0.16B\t, v9.16B => eor v30.16b, v0.16b, v9.16b\n\
    eor v1.1d, v17.16b, v29.16b => BadOperand\n\
    eor v3.16b, v1.1d, v29.16b => BadOperand\n\
    eor v3.16b, v17.16b, v1.1d => BadOperand\n\
    bic v3.8b, v17.8b, v29.8b\n\
    BiC  v30.8B\t, v0.8B\t, v9.8B => bic v30.8b, v0.8b, v9.8b\n\
    bic v1.1d, v17.8b, v29.8b => BadOperand\n\
    bic v3.8b, v1.1d, v29.8b => BadOperand\n\
    bic v3.8b, v17.8b, v1.1d => BadOperand\n\
    bic v3.16b, v17.16b, v29.16b\n\
    BiC  v30.16B\t, v0.16B\t, v9.16B => bic v30.16b, v0.16b, v9.16b\n\
    bic v1.1d, v17.16b, v29.16b => BadOperand\n\
    bic v3.16b, v1.1d, v29.16b => BadOperand\n\
    bic v3.16b, v17.16b, v1.1d => BadOperand\n\
    mov v3.8b, v17.8b\n\
    MoV  v30.8B\t, v0.8B => mov v30.8b, v0.8b\n\
    mov v1.1d, v17.8b => BadOperand\n\
    mov v3.8b, v1.1d => BadOperand\n\
    mov v3.16b, v17.16b\n\
    MoV  v30.16B\t, v0.16B => mov v30.16b, v0.16b\n\
    mov v1.1d, v17.16b => BadOperand\n\
    mov v3.16b, v1.1d => BadOperand\n\
    mul v3.8b, v17.8b, v29.8b\n\
    MuL  v30.8B\t, v0.8B\t, v9.8B => mul v30.8b, v0.8b, v9.8b\n\
    mul v1.1d, v17.8b, v29.8b => BadOperand\n\
    mul v3.8b, v1.1d, v29.8b => BadOperand\n\
    mul v3.8b, v17.8b, v1.1d => BadOperand\n\
    mul v3.16b, v17.16b, v29.16b\n\
    MuL  v30.16B\t, v0.16B\t, v9.16B => mul v30.16b, v0.16b, v9.16b\n\
    mul v1.1d, v17.16b, v29.16b => BadOperand\n\
    mul v3.16b, v1.1d, v29.16b => BadOperand\n\
    mul v3.16b, v17.16b, v1.1d => BadOperand\n\
    mul v3.4h, v17.4h, v29.4h\n\
    MuL  v30.4H\t, v0.4H\t, v9.4H => mul v30.4h, v0.4h, v9.4h\n\
    mul v1.1d, v17.4h, v29.4h => BadOperand\n\
    mul v3.4h, v1.1d, v29.4h => BadOperand\n\
    mul v3.4h, v17.4h, v1.1d => BadOperand\n\
    mul v3.8h, v17.8h, v29.8h\n\
    MuL  v30.8H\t, v0.8H\t, v9.8H => mul v30.8h, v0.8h, v9.8h\n\
    mul v1.1d, v17.8h, v29.8h => BadOperand\n\
    mul v3.8h, v1.1d, v29.8h => BadOperand\n\
    mul v3.8h, v17.8h, v1.1d => BadOperand\n\
    mul v3.2s, v17.2s, v29.2s\n\
    MuL  v30.2S\t, v0.2S\t, v9.2S => mul v30.2s, v0.2s, v9.2s\n\
    mul v1.1d, v17.2s, v29.2s => BadOperand\n\
    mul v3.2s, v1.1d, v29.2s => BadOperand\n\
    mul v3.2s, v17.2s, v1.1d => BadOperand\n\
    mul v3.4s, v17.4s, v29.4s\n\
    MuL  v30.4S\t, v0.4S\t, v9.4S => mul v30.4s, v0.4s, v9.4s\n\
    mul v1.1d, v17.4s, v29.4s => BadOperand\n\
    mul v3.4s, v1.1d, v29.4s => BadOperand\n\
    mul v3.4s, v17.4s, v1.1d => BadOperand\n\
    mla v3.8b, v17.8b, v29.8b\n\
    MlA  v30.8B\t, v0.8B\t, v9.8B => mla v30.8b, v0.8b, v9.8b\n\
    mla v1.1d, v17.8b, v29.8b => BadOperand\n\
    mla v3.8b, v1.1d, v29.8b => BadOperand\n\
    mla v3.8b, v17.8b, v1.1d => BadOperand\n\
    mla v3.16b, v17.16b, v29.16b\n\
    MlA  v30.16B\t, v0.16B\t, v9.16B => mla v30.16b, v0.16b, v9.16b\n\
    mla v1.1d, v17.16b, v29.16b => BadOperand\n\
    mla v3.16b, v1.1d, v29.16b => BadOperand\n\
    mla v3.16b, v17.16b, v1.1d => BadOperand\n\
    mla v3.4h, v17.4h, v29.4h\n\
    MlA  v30.4H\t, v0.4H\t, v9.4H => mla v30.4h, v0.4h, v9.4h\n\
    mla v1.1d, v17.4h, v29.4h => BadOperand\n\
    mla v3.4h, v1.1d, v29.4h => BadOperand\n\
    mla v3.4h, v17.4h, v1.1d => BadOperand\n\
    mla v3.8h, v17.8h, v29.8h\n\
    MlA  v30.8H\t, v0.8H\t, v9.8H => mla v30.8h, v0.8h, v9.8h\n\
    mla v1.1d, v17.8h, v29.8h => BadOperand\n\
    mla v3.8h, v1.1d, v29.8h => BadOperand\n\
    mla v3.8h, v17.8h, v1.1d => BadOperand\n\
    mla v3.2s, v17.2s, v29.2s\n\
    MlA  v30.2S\t, v0.2S\t, v9.2S => mla v30.2s, v0.2s, v9.2s\n\
    mla v1.1d, v17.2s, v29.2s => BadOperand\n\
    mla v3.2s, v1.1d, v29.2s => BadOperand\n\
    mla v3.2s, v17.2s, v1.1d => BadOperand\n\
    mla v3.4s, v17.4s, v29.4s\n\
    MlA  v30.4S\t, v0.4S\t, v9.4S => mla v30.4s, v0.4s, v9.4s\n\
    mla v1.1d, v17.4s, v29.4s => BadOperand\n\
    mla v3.4s, v1.1d, v29.4s => BadOperand\n\
    mla v3.4s, v17.4s, v1.1d => BadOperand\n\
    mls v3.8b, v17.8b, v29.8b\n\
    MlS  v30.8B\t, v0.8B\t, v9.8B => mls v30.8b, v0.8b, v9.8b\n\
    mls v1.1d, v17.8b, v29.8b => BadOperand\n\
    mls v3.8b, v1.1d, v29.8b => BadOperand\n\
    mls v3.8b, v17.8b, v1.1d => BadOperand\n\
    mls v3.16b, v17.16b, v29.16b\n\
    MlS  v30.16B\t, v0.16B\t, v9.16B => mls v30.16b, v0.16b, v9.16b\n\
    mls v1.1d, v17.16b, v29.16b => BadOperand\n\
    mls v3.16b, v1.1d, v29.16b => BadOperand\n\
    mls v3.16b, v17.16b, v1.1d => BadOperand\n\
    mls v3.4h, v17.4h, v29.4h\n\
    MlS  v30.4H\t, v0.4H\t, v9.4H => mls v30.4h, v0.4h, v9.4h\n\
    mls v1.1d, v17.4h, v29.4h => BadOperand\n\
    mls v3.4h, v1.1d, v29.4h => BadOperand\n\
    mls v3.4h, v17.4h, v1.1d => BadOperand\n\
    mls v3.8h, v17.8h, v29.8h\n\
    MlS  v30.8H\t, v0.8H\t, v9.8H => mls v30.8h, v0.8h, v9.8h\n\
    mls v1.1d, v17.8h, v29.8h => BadOperand\n\
    mls v3.8h, v1.1d, v29.8h => BadOperand\n\
    mls v3.8h, v17.8h, v1.1d => BadOperand\n\
    mls v3.2s, v17.2s, v29.2s\n\
    MlS  v30.2S\t, v0.2S\t, v9.2S => mls v30.2s, v0.2s, v9.2s\n\
    mls v1.1d, v17.2s, v29.2s => BadOperand",
    "\
    mls v3.2s, v1.1d, v29.2s => BadOperand\n\
    mls v3.2s, v17.2s, v1.1d => BadOperand\n\
    mls v3.4s, v17.4s, v29.4s\n\
    MlS  v30.4S\t, v0.4S\t, v9.4S => mls v30.4s, v0.4s, v9.4s\n\
    mls v1.1d, v17.4s, v29.4s => BadOperand\n\
    mls v3.4s, v1.1d, v29.4s => BadOperand\n\
    mls v3.4s, v17.4s, v1.1d => BadOperand\n\
    sqdmulh v3.4h, v17.4h, v29.4h\n\
    SqDmUlH  v30.4H\t, v0.4H\t, v9.4H => sqdmulh v30.4h, v0.4h, v9.4h\n\
    sqdmulh v1.1d, v17.4h, v29.4h => BadOperand\n\
    sqdmulh v3.4h, v1.1d, v29.4h => BadOperand\n\
    sqdmulh v3.4h, v17.4h, v1.1d => BadOperand\n\
    sqdmulh v3.8h, v17.8h, v29.8h\n\
    SqDmUlH  v30.8H\t, v0.8H\t, v9.8H => sqdmulh v30.8h, v0.8h, v9.8h\n\
    sqdmulh v1.1d, v17.8h, v29.8h => BadOperand\n\
    sqdmulh v3.8h, v1.1d, v29.8h => BadOperand\n\
    sqdmulh v3.8h, v17.8h, v1.1d => BadOperand\n\
    sqdmulh v3.2s, v17.2s, v29.2s\n\
    SqDmUlH  v30.2S\t, v0.2S\t, v9.2S => sqdmulh v30.2s, v0.2s, v9.2s\n\
    sqdmulh v1.1d, v17.2s, v29.2s => BadOperand\n\
    sqdmulh v3.2s, v1.1d, v29.2s => BadOperand\n\
    sqdmulh v3.2s, v17.2s, v1.1d => BadOperand\n\
    sqdmulh v3.4s, v17.4s, v29.4s\n\
    SqDmUlH  v30.4S\t, v0.4S\t, v9.4S => sqdmulh v30.4s, v0.4s, v9.4s\n\
    sqdmulh v1.1d, v17.4s, v29.4s => BadOperand\n\
    sqdmulh v3.4s, v1.1d, v29.4s => BadOperand\n\
    sqdmulh v3.4s, v17.4s, v1.1d => BadOperand\n\
    sqrdmulh v3.4h, v17.4h, v29.4h\n\
    SqRdMuLh  V30.4h\t, V0.4h\t, V9.4h => sqrdmulh v30.4h, v0.4h, v9.4h\n\
    sqrdmulh v1.1d, v17.4h, v29.4h => BadOperand\n\
    sqrdmulh v3.4h, v1.1d, v29.4h => BadOperand\n\
    sqrdmulh v3.4h, v17.4h, v1.1d => BadOperand\n\
    sqrdmulh v3.8h, v17.8h, v29.8h\n\
    SqRdMuLh  V30.8h\t, V0.8h\t, V9.8h => sqrdmulh v30.8h, v0.8h, v9.8h\n\
    sqrdmulh v1.1d, v17.8h, v29.8h => BadOperand\n\
    sqrdmulh v3.8h, v1.1d, v29.8h => BadOperand\n\
    sqrdmulh v3.8h, v17.8h, v1.1d => BadOperand\n\
    sqrdmulh v3.2s, v17.2s, v29.2s\n\
    SqRdMuLh  V30.2s\t, V0.2s\t, V9.2s => sqrdmulh v30.2s, v0.2s, v9.2s\n\
    sqrdmulh v1.1d, v17.2s, v29.2s => BadOperand\n\
    sqrdmulh v3.2s, v1.1d, v29.2s => BadOperand\n\
    sqrdmulh v3.2s, v17.2s, v1.1d => BadOperand\n\
    sqrdmulh v3.4s, v17.4s, v29.4s\n\
    SqRdMuLh  V30.4s\t, V0.4s\t, V9.4s => sqrdmulh v30.4s, v0.4s, v9.4s\n\
    sqrdmulh v1.1d, v17.4s, v29.4s => BadOperand\n\
    sqrdmulh v3.4s, v1.1d, v29.4s => BadOperand\n\
    sqrdmulh v3.4s, v17.4s, v1.1d => BadOperand\n\
    mul v3.4h, v17.4h, v13.h[7]\n\
    MuL  v30.4H\t, v0.4H\t, v9.H [ 0 ] => mul v30.4h, v0.4h, v9.h[0]\n\
    mul v3.4h, v17.4h, v13.h[8] => ImmediateRange\n\
    mul v30.4h, v0.4h, v9.h[-1] => ImmediateRange\n\
    mul v1.1d, v17.4h, v13.h[7] => BadOperand\n\
    mul v3.4h, v1.1d, v13.h[7] => BadOperand\n\
    mul v3.4h, v17.4h, v16.h[0] => RegisterClass\n\
    mul v3.4h, v17.4h, v1.q[0] => BadOperand\n\
    mul v3.8h, v17.8h, v13.h[7]\n\
    MuL  v30.8H\t, v0.8H\t, v9.H [ 0 ] => mul v30.8h, v0.8h, v9.h[0]\n\
    mul v3.8h, v17.8h, v13.h[8] => ImmediateRange\n\
    mul v30.8h, v0.8h, v9.h[-1] => ImmediateRange\n\
    mul v1.1d, v17.8h, v13.h[7] => BadOperand\n\
    mul v3.8h, v1.1d, v13.h[7] => BadOperand\n\
    mul v3.8h, v17.8h, v16.h[0] => RegisterClass\n\
    mul v3.8h, v17.8h, v1.q[0] => BadOperand\n\
    mul v3.2s, v17.2s, v29.s[3]\n\
    MuL  v30.2S\t, v0.2S\t, v9.S [ 0 ] => mul v30.2s, v0.2s, v9.s[0]\n\
    mul v3.2s, v17.2s, v29.s[4] => ImmediateRange\n\
    mul v30.2s, v0.2s, v9.s[-1] => ImmediateRange\n\
    mul v1.1d, v17.2s, v29.s[3] => BadOperand\n\
    mul v3.2s, v1.1d, v29.s[3] => BadOperand\n\
    mul v3.2s, v17.2s, v1.q[0] => BadOperand\n\
    mul v3.4s, v17.4s, v29.s[3]\n\
    MuL  v30.4S\t, v0.4S\t, v9.S [ 0 ] => mul v30.4s, v0.4s, v9.s[0]\n\
    mul v3.4s, v17.4s, v29.s[4] => ImmediateRange\n\
    mul v30.4s, v0.4s, v9.s[-1] => ImmediateRange\n\
    mul v1.1d, v17.4s, v29.s[3] => BadOperand\n\
    mul v3.4s, v1.1d, v29.s[3] => BadOperand\n\
    mul v3.4s, v17.4s, v1.q[0] => BadOperand\n\
    sqdmulh v3.4h, v17.4h, v13.h[7]\n\
    SqDmUlH  v30.4H\t, v0.4H\t, v9.H [ 0 ] => sqdmulh v30.4h, v0.4h, v9.h[0]\n\
    sqdmulh v3.4h, v17.4h, v13.h[8] => ImmediateRange\n\
    sqdmulh v30.4h, v0.4h, v9.h[-1] => ImmediateRange\n\
    sqdmulh v1.1d, v17.4h, v13.h[7] => BadOperand\n\
    sqdmulh v3.4h, v1.1d, v13.h[7] => BadOperand\n\
    sqdmulh v3.4h, v17.4h, v16.h[0] => RegisterClass\n\
    sqdmulh v3.4h, v17.4h, v1.q[0] => BadOperand\n\
    sqdmulh v3.8h, v17.8h, v13.h[7]\n\
    SqDmUlH  v30.8H\t, v0.8H\t, v9.H [ 0 ] => sqdmulh v30.8h, v0.8h, v9.h[0]\n\
    sqdmulh v3.8h, v17.8h, v13.h[8] => ImmediateRange\n\
    sqdmulh v30.8h, v0.8h, v9.h[-1] => ImmediateRange\n\
    sqdmulh v1.1d, v17.8h, v13.h[7] => BadOperand\n\
    sqdmulh v3.8h, v1.1d, v13.h[7] => BadOperand\n\
    sqdmulh v3.8h, v17.8h, v16.h[0] => RegisterClass\n\
    sqdmulh v3.8h, v17.8h, v1.q[0] => BadOperand\n\
    sqdmulh v3.2s, v17.2s, v29.s[3]\n\
    SqDmUlH  v30.2S\t, v0.2S\t, v9.S [ 0 ] => sqdmulh v30.2s, v0.2s, v9.s[0]\n\
    sqdmulh v3.2s, v17.2s, v29.s[4] => ImmediateRange\n\
    sqdmulh v30.2s, v0.2s, v9.s[-1] => ImmediateRange\n\
    sqdmulh v1.1d, v17.2s, v29.s[3] => BadOperand\n\
    sqdmulh v3.2s, v1.1d, v29.s[3] => BadOperand\n\
    sqdmulh v3.2s, v17.2s, v1.q[0] => BadOperand\n\
    sqdmulh v3.4s, v17.4s, v29.s[3]\n\
    SqDmUlH  v30.4S\t, v0.4S\t, v9.S [ 0 ] => sqdmulh v30.4s, v0.4s, v9.s[0]\n\
    sqdmulh v3.4s, v17.4s, v29.s[4] => ImmediateRange\n\
    sqdmulh v30.4s, v0.4s, v9.s[-1] => ImmediateRange\n\
    sqdmulh v1.1d, v17.4s, v29.s[3] => BadOperand\n\
    sqdmulh v3.4s, v1.1d, v29.s[3] => BadOperand\n\
    sqdmulh v3.4s, v17.4s, v1.q[0] => BadOperand\n\
    sqrdmulh v3.4h, v17.4h, v13.h[7]\n\
    SqRdMuLh  V30.4h\t, V0.4h\t, V9.h [ 0 ] => sqrdmulh v30.4h, v0.4h, v9.h[0]\n\
    sqrdmulh v3.4h, v17.4h, v13.h[8] => ImmediateRange\n\
    sqrdmulh v30.4h, v0.4h, v9.h[-1] => ImmediateRange\n\
    sqrdmulh v1.1d, v17.4h, v13.h[7] => BadOperand\n\
    sqrdmulh v3.4h, v1.1d, v13.h[7] => BadOperand\n\
    sqrdmulh v3.4h, v17.4h, v16.h[0] => RegisterClass\n\
    sqrdmulh v3.4h, v17.4h, v1.q[0] => BadOperand\n\
    sqrdmulh v3.8h, v17.8h, v13.h[7]\n\
    SqRdMuLh  V30.8h\t, V0.8h\t, V9.h [ 0 ] => sqrdmulh v30.8h, v0.8h, v9.h[0]\n\
    sqrdmulh v3.8h, v17.8h, v13.h[8] => ImmediateRange\n\
    sqrdmulh v30.8h, v0.8h, v9.h[-1] => ImmediateRange\n\
    sqrdmulh v1.1d, v17.8h, v13.h[7] => BadOperand\n\
    sqrdmulh v3.8h, v1.1d, v13.h[7] => BadOperand\n\
    sqrdmulh v3.8h, v17.8h, v16.h[0] => RegisterClass\n\
    sqrdmulh v3.8h, v17.8h, v1.q[0] => BadOperand\n\
    sqrdmulh v3.2s, v17.2s, v29.s[3]\n\
    SqRdMuLh  V30.2s\t, V0.2s\t, V9.s [ 0 ] => sqrdmulh v30.2s, v0.2s, v9.s[0]\n\
    sqrdmulh v3.2s, v17.2s, v29.s[4] => ImmediateRange\n\
    sqrdmulh v30.2s, v0.2s, v9.s[-1] => ImmediateRange\n\
    sqrdmulh v1.1d, v17.2s, v29.s[3] => BadOperand\n\
    sqrdmulh v3.2s, v1.1d, v29.s[3] => BadOperand\n\
    sqrdmulh v3.2s, v17.2s, v1.q[0] => BadOperand\n\
    sqrdmulh v3.4s, v17.4s, v29.s[3]\n\
    SqRdMuLh  V30.4s\t, V0.4s\t, V9.s [ 0 ] => sqrdmulh v30.4s, v0.4s, v9.s[0]\n\
    sqrdmulh v3.4s, v17.4s, v29.s[4] => ImmediateRange\n\
    sqrdmulh v30.4s, v0.4s, v9.s[-1] => ImmediateRange\n\
    sqrdmulh v1.1d, v17.4s, v29.s[3] => BadOperand\n\
    sqrdmulh v3.4s, v1.1d, v29.s[3] => BadOperand\n\
    sqrdmulh v3.4s, v17.4s, v1.q[0] => BadOperand\n\
    mla v3.4h, v17.4h, v13.h[7]\n\
    MlA  v30.4H\t, v0.4H\t, v9.H [ 0 ] => mla v30.4h, v0.4h, v9.h[0]\n\
    mla v3.4h, v17.4h, v13.h[8] => ImmediateRange\n\
    mla v30.4h, v0.4h, v9.h[-1] => ImmediateRange\n\
    mla v1.1d, v17.4h, v13.h[7] => BadOperand\n\
    mla v3.4h, v1.1d, v13.h[7] => BadOperand\n\
    mla v3.4h, v17.4h, v16.h[0] => RegisterClass\n\
    mla v3.4h, v17.4h, v1.q[0] => BadOperand\n\
    mla v3.8h, v17.8h, v13.h[7]\n\
    MlA  v30.8H\t, v0.8H\t, v9.H [ 0 ] => mla v30.8h, v0.8h, v9.h[0]\n\
    mla v3.8h, v17.8h, v13.h[8] => ImmediateRange\n\
    mla v30.8h, v0.8h, v9.h[-1] => ImmediateRange\n\
    mla v1.1d, v17.8h, v13.h[7] => BadOperand\n\
    mla v3.8h, v1.1d, v13.h[7] => BadOperand\n\
    mla v3.8h, v17.8h, v16.h[0] => RegisterClass\n\
    mla v3.8h, v17.8h, v1.q[0] => BadOperand\n\
    mla v3.2s, v17.2s, v29.s[3]\n\
    MlA  v30.2S\t, v0.2S\t, v9.S [ 0 ] => mla v30.2s, v0.2s, v9.s[0]\n\
    mla v3.2s, v17.2s, v29.s[4] => ImmediateRange\n\
    mla v30.2s, v0.2s, v9.s[-1] => ImmediateRange\n\
    mla v1.1d, v17.2s, v29.s[3] => BadOperand\n\
    mla v3.2s, v1.1d, v29.s[3] => BadOperand\n\
    mla v3.2s, v17.2s, v1.q[0] => BadOperand\n\
    mla v3.4s, v17.4s, v29.s[3]\n\
    MlA  v30.4S\t, v0.4S\t, v9.S [ 0 ] => mla v30.4s, v0.4s, v9.s[0]\n\
    mla v3.4s, v17.4s, v29.s[4] => ImmediateRange\n\
    mla v30.4s, v0.4s, v9.s[-1] => ImmediateRange\n\
    mla v1.1d, v17.4s, v29.s[3] => BadOperand\n\
    mla v3.4s, v1.1d, v29.s[3] => BadOperand\n\
    mla v3.4s, v17.4s, v1.q[0] => BadOperand\n\
    mls v3.4h, v17.4h, v13.h[7]\n\
    MlS  v30.4H\t, v0.4H\t, v9.H [ 0 ] => mls v30.4h, v0.4h, v9.h[0]\n\
    mls v3.4h, v17.4h, v13.h[8] => ImmediateRange\n\
    mls v30.4h, v0.4h, v9.h[-1] => ImmediateRange\n\
    mls v1.1d, v17.4h, v13.h[7] => BadOperand\n\
    mls v3.4h, v1.1d, v13.h[7] => BadOperand",
    "\
    mls v3.4h, v17.4h, v16.h[0] => RegisterClass\n\
    mls v3.4h, v17.4h, v1.q[0] => BadOperand\n\
    mls v3.8h, v17.8h, v13.h[7]\n\
    MlS  v30.8H\t, v0.8H\t, v9.H [ 0 ] => mls v30.8h, v0.8h, v9.h[0]\n\
    mls v3.8h, v17.8h, v13.h[8] => ImmediateRange\n\
    mls v30.8h, v0.8h, v9.h[-1] => ImmediateRange\n\
    mls v1.1d, v17.8h, v13.h[7] => BadOperand\n\
    mls v3.8h, v1.1d, v13.h[7] => BadOperand\n\
    mls v3.8h, v17.8h, v16.h[0] => RegisterClass\n\
    mls v3.8h, v17.8h, v1.q[0] => BadOperand\n\
    mls v3.2s, v17.2s, v29.s[3]\n\
    MlS  v30.2S\t, v0.2S\t, v9.S [ 0 ] => mls v30.2s, v0.2s, v9.s[0]\n\
    mls v3.2s, v17.2s, v29.s[4] => ImmediateRange\n\
    mls v30.2s, v0.2s, v9.s[-1] => ImmediateRange\n\
    mls v1.1d, v17.2s, v29.s[3] => BadOperand\n\
    mls v3.2s, v1.1d, v29.s[3] => BadOperand\n\
    mls v3.2s, v17.2s, v1.q[0] => BadOperand\n\
    mls v3.4s, v17.4s, v29.s[3]\n\
    MlS  v30.4S\t, v0.4S\t, v9.S [ 0 ] => mls v30.4s, v0.4s, v9.s[0]\n\
    mls v3.4s, v17.4s, v29.s[4] => ImmediateRange\n\
    mls v30.4s, v0.4s, v9.s[-1] => ImmediateRange\n\
    mls v1.1d, v17.4s, v29.s[3] => BadOperand\n\
    mls v3.4s, v1.1d, v29.s[3] => BadOperand\n\
    mls v3.4s, v17.4s, v1.q[0] => BadOperand\n\
    smull v3.8h, v17.8b, v29.8b\n\
    SmUlL  v30.8H\t, v0.8B\t, v9.8B => smull v30.8h, v0.8b, v9.8b\n\
    smull v1.1d, v17.8b, v29.8b => BadOperand\n\
    smull v3.8h, v1.1d, v29.8b => BadOperand\n\
    smull v3.8h, v17.8b, v1.1d => BadOperand\n\
    smull v3.4s, v17.4h, v29.4h\n\
    SmUlL  v30.4S\t, v0.4H\t, v9.4H => smull v30.4s, v0.4h, v9.4h\n\
    smull v1.1d, v17.4h, v29.4h => BadOperand\n\
    smull v3.4s, v1.1d, v29.4h => BadOperand\n\
    smull v3.4s, v17.4h, v1.1d => BadOperand\n\
    smull v3.2d, v17.2s, v29.2s\n\
    SmUlL  v30.2D\t, v0.2S\t, v9.2S => smull v30.2d, v0.2s, v9.2s\n\
    smull v1.1d, v17.2s, v29.2s => BadOperand\n\
    smull v3.2d, v1.1d, v29.2s => BadOperand\n\
    smull v3.2d, v17.2s, v1.1d => BadOperand\n\
    umull v3.8h, v17.8b, v29.8b\n\
    UmUlL  v30.8H\t, v0.8B\t, v9.8B => umull v30.8h, v0.8b, v9.8b\n\
    umull v1.1d, v17.8b, v29.8b => BadOperand\n\
    umull v3.8h, v1.1d, v29.8b => BadOperand\n\
    umull v3.8h, v17.8b, v1.1d => BadOperand\n\
    umull v3.4s, v17.4h, v29.4h\n\
    UmUlL  v30.4S\t, v0.4H\t, v9.4H => umull v30.4s, v0.4h, v9.4h\n\
    umull v1.1d, v17.4h, v29.4h => BadOperand\n\
    umull v3.4s, v1.1d, v29.4h => BadOperand\n\
    umull v3.4s, v17.4h, v1.1d => BadOperand\n\
    umull v3.2d, v17.2s, v29.2s\n\
    UmUlL  v30.2D\t, v0.2S\t, v9.2S => umull v30.2d, v0.2s, v9.2s\n\
    umull v1.1d, v17.2s, v29.2s => BadOperand\n\
    umull v3.2d, v1.1d, v29.2s => BadOperand\n\
    umull v3.2d, v17.2s, v1.1d => BadOperand\n\
    smlal v3.8h, v17.8b, v29.8b\n\
    SmLaL  v30.8H\t, v0.8B\t, v9.8B => smlal v30.8h, v0.8b, v9.8b\n\
    smlal v1.1d, v17.8b, v29.8b => BadOperand\n\
    smlal v3.8h, v1.1d, v29.8b => BadOperand\n\
    smlal v3.8h, v17.8b, v1.1d => BadOperand\n\
    smlal v3.4s, v17.4h, v29.4h\n\
    SmLaL  v30.4S\t, v0.4H\t, v9.4H => smlal v30.4s, v0.4h, v9.4h\n\
    smlal v1.1d, v17.4h, v29.4h => BadOperand\n\
    smlal v3.4s, v1.1d, v29.4h => BadOperand\n\
    smlal v3.4s, v17.4h, v1.1d => BadOperand\n\
    smlal v3.2d, v17.2s, v29.2s\n\
    SmLaL  v30.2D\t, v0.2S\t, v9.2S => smlal v30.2d, v0.2s, v9.2s\n\
    smlal v1.1d, v17.2s, v29.2s => BadOperand\n\
    smlal v3.2d, v1.1d, v29.2s => BadOperand\n\
    smlal v3.2d, v17.2s, v1.1d => BadOperand\n\
    umlal v3.8h, v17.8b, v29.8b\n\
    UmLaL  v30.8H\t, v0.8B\t, v9.8B => umlal v30.8h, v0.8b, v9.8b\n\
    umlal v1.1d, v17.8b, v29.8b => BadOperand\n\
    umlal v3.8h, v1.1d, v29.8b => BadOperand\n\
    umlal v3.8h, v17.8b, v1.1d => BadOperand\n\
    umlal v3.4s, v17.4h, v29.4h\n\
    UmLaL  v30.4S\t, v0.4H\t, v9.4H => umlal v30.4s, v0.4h, v9.4h\n\
    umlal v1.1d, v17.4h, v29.4h => BadOperand\n\
    umlal v3.4s, v1.1d, v29.4h => BadOperand\n\
    umlal v3.4s, v17.4h, v1.1d => BadOperand\n\
    umlal v3.2d, v17.2s, v29.2s\n\
    UmLaL  v30.2D\t, v0.2S\t, v9.2S => umlal v30.2d, v0.2s, v9.2s\n\
    umlal v1.1d, v17.2s, v29.2s => BadOperand\n\
    umlal v3.2d, v1.1d, v29.2s => BadOperand\n\
    umlal v3.2d, v17.2s, v1.1d => BadOperand\n\
    smull2 v3.8h, v17.16b, v29.16b\n\
    SmUlL2  v30.8H\t, v0.16B\t, v9.16B => smull2 v30.8h, v0.16b, v9.16b\n\
    smull2 v1.1d, v17.16b, v29.16b => BadOperand\n\
    smull2 v3.8h, v1.1d, v29.16b => BadOperand\n\
    smull2 v3.8h, v17.16b, v1.1d => BadOperand\n\
    smull2 v3.4s, v17.8h, v29.8h\n\
    SmUlL2  v30.4S\t, v0.8H\t, v9.8H => smull2 v30.4s, v0.8h, v9.8h\n\
    smull2 v1.1d, v17.8h, v29.8h => BadOperand\n\
    smull2 v3.4s, v1.1d, v29.8h => BadOperand\n\
    smull2 v3.4s, v17.8h, v1.1d => BadOperand\n\
    smull2 v3.2d, v17.4s, v29.4s\n\
    SmUlL2  v30.2D\t, v0.4S\t, v9.4S => smull2 v30.2d, v0.4s, v9.4s\n\
    smull2 v1.1d, v17.4s, v29.4s => BadOperand\n\
    smull2 v3.2d, v1.1d, v29.4s => BadOperand\n\
    smull2 v3.2d, v17.4s, v1.1d => BadOperand\n\
    umull2 v3.8h, v17.16b, v29.16b\n\
    UmUlL2  v30.8H\t, v0.16B\t, v9.16B => umull2 v30.8h, v0.16b, v9.16b\n\
    umull2 v1.1d, v17.16b, v29.16b => BadOperand\n\
    umull2 v3.8h, v1.1d, v29.16b => BadOperand\n\
    umull2 v3.8h, v17.16b, v1.1d => BadOperand\n\
    umull2 v3.4s, v17.8h, v29.8h\n\
    UmUlL2  v30.4S\t, v0.8H\t, v9.8H => umull2 v30.4s, v0.8h, v9.8h\n\
    umull2 v1.1d, v17.8h, v29.8h => BadOperand\n\
    umull2 v3.4s, v1.1d, v29.8h => BadOperand\n\
    umull2 v3.4s, v17.8h, v1.1d => BadOperand\n\
    umull2 v3.2d, v17.4s, v29.4s\n\
    UmUlL2  v30.2D\t, v0.4S\t, v9.4S => umull2 v30.2d, v0.4s, v9.4s\n\
    umull2 v1.1d, v17.4s, v29.4s => BadOperand\n\
    umull2 v3.2d, v1.1d, v29.4s => BadOperand\n\
    umull2 v3.2d, v17.4s, v1.1d => BadOperand\n\
    smlal2 v3.8h, v17.16b, v29.16b\n\
    SmLaL2  v30.8H\t, v0.16B\t, v9.16B => smlal2 v30.8h, v0.16b, v9.16b\n\
    smlal2 v1.1d, v17.16b, v29.16b => BadOperand\n\
    smlal2 v3.8h, v1.1d, v29.16b => BadOperand\n\
    smlal2 v3.8h, v17.16b, v1.1d => BadOperand\n\
    smlal2 v3.4s, v17.8h, v29.8h\n\
    SmLaL2  v30.4S\t, v0.8H\t, v9.8H => smlal2 v30.4s, v0.8h, v9.8h\n\
    smlal2 v1.1d, v17.8h, v29.8h => BadOperand\n\
    smlal2 v3.4s, v1.1d, v29.8h => BadOperand\n\
    smlal2 v3.4s, v17.8h, v1.1d => BadOperand\n\
    smlal2 v3.2d, v17.4s, v29.4s\n\
    SmLaL2  v30.2D\t, v0.4S\t, v9.4S => smlal2 v30.2d, v0.4s, v9.4s\n\
    smlal2 v1.1d, v17.4s, v29.4s => BadOperand\n\
    smlal2 v3.2d, v1.1d, v29.4s => BadOperand\n\
    smlal2 v3.2d, v17.4s, v1.1d => BadOperand\n\
    umlal2 v3.8h, v17.16b, v29.16b\n\
    UmLaL2  v30.8H\t, v0.16B\t, v9.16B => umlal2 v30.8h, v0.16b, v9.16b\n\
    umlal2 v1.1d, v17.16b, v29.16b => BadOperand\n\
    umlal2 v3.8h, v1.1d, v29.16b => BadOperand\n\
    umlal2 v3.8h, v17.16b, v1.1d => BadOperand\n\
    umlal2 v3.4s, v17.8h, v29.8h\n\
    UmLaL2  v30.4S\t, v0.8H\t, v9.8H => umlal2 v30.4s, v0.8h, v9.8h\n\
    umlal2 v1.1d, v17.8h, v29.8h => BadOperand\n\
    umlal2 v3.4s, v1.1d, v29.8h => BadOperand\n\
    umlal2 v3.4s, v17.8h, v1.1d => BadOperand\n\
    umlal2 v3.2d, v17.4s, v29.4s\n\
    UmLaL2  v30.2D\t, v0.4S\t, v9.4S => umlal2 v30.2d, v0.4s, v9.4s\n\
    umlal2 v1.1d, v17.4s, v29.4s => BadOperand\n\
    umlal2 v3.2d, v1.1d, v29.4s => BadOperand\n\
    umlal2 v3.2d, v17.4s, v1.1d => BadOperand\n\
    shl v3.8b, v17.8b, #7\n\
    ShL  v30.8B\t, v0.8B\t, #0 => shl v30.8b, v0.8b, #0\n\
    shl v3.8b, v17.8b, #8 => ImmediateRange\n\
    shl v30.8b, v0.8b, #-1 => ImmediateRange\n\
    shl v1.1d, v17.8b, #7 => BadOperand\n\
    shl v3.8b, v1.1d, #7 => BadOperand\n\
    shl v3.16b, v17.16b, #7\n\
    ShL  v30.16B\t, v0.16B\t, #0 => shl v30.16b, v0.16b, #0\n\
    shl v3.16b, v17.16b, #8 => ImmediateRange\n\
    shl v30.16b, v0.16b, #-1 => ImmediateRange\n\
    shl v1.1d, v17.16b, #7 => BadOperand\n\
    shl v3.16b, v1.1d, #7 => BadOperand\n\
    shl v3.4h, v17.4h, #15\n\
    ShL  v30.4H\t, v0.4H\t, #0 => shl v30.4h, v0.4h, #0\n\
    shl v3.4h, v17.4h, #16 => ImmediateRange\n\
    shl v30.4h, v0.4h, #-1 => ImmediateRange\n\
    shl v1.1d, v17.4h, #15 => BadOperand\n\
    shl v3.4h, v1.1d, #15 => BadOperand\n\
    shl v3.8h, v17.8h, #15\n\
    ShL  v30.8H\t, v0.8H\t, #0 => shl v30.8h, v0.8h, #0\n\
    shl v3.8h, v17.8h, #16 => ImmediateRange\n\
    shl v30.8h, v0.8h, #-1 => ImmediateRange\n\
    shl v1.1d, v17.8h, #15 => BadOperand\n\
    shl v3.8h, v1.1d, #15 => BadOperand\n\
    shl v3.2s, v17.2s, #31\n\
    ShL  v30.2S\t, v0.2S\t, #0 => shl v30.2s, v0.2s, #0\n\
    shl v3.2s, v17.2s, #32 => ImmediateRange\n\
    shl v30.2s, v0.2s, #-1 => ImmediateRange\n\
    shl v1.1d, v17.2s, #31 => BadOperand\n\
    shl v3.2s, v1.1d, #31 => BadOperand\n\
    shl v3.4s, v17.4s, #31\n\
    ShL  v30.4S\t, v0.4S\t, #0 => shl v30.4s, v0.4s, #0\n\
    shl v3.4s, v17.4s, #32 => ImmediateRange\n\
    shl v30.4s, v0.4s, #-1 => ImmediateRange\n\
    shl v1.1d, v17.4s, #31 => BadOperand\n\
    shl v3.4s, v1.1d, #31 => BadOperand\n\
    shl v3.2d, v17.2d, #63\n\
    ShL  v30.2D\t, v0.2D\t, #0 => shl v30.2d, v0.2d, #0\n\
    shl v3.2d, v17.2d, #64 => ImmediateRange\n\
    shl v30.2d, v0.2d, #-1 => ImmediateRange\n\
    shl v1.1d, v17.2d, #63 => BadOperand\n\
    shl v3.2d, v1.1d, #63 => BadOperand\n\
    sli v3.8b, v17.8b, #7\n\
    SlI  v30.8B\t, v0.8B\t, #0 => sli v30.8b, v0.8b, #0",
    "\
    sli v3.8b, v17.8b, #8 => ImmediateRange\n\
    sli v30.8b, v0.8b, #-1 => ImmediateRange\n\
    sli v1.1d, v17.8b, #7 => BadOperand\n\
    sli v3.8b, v1.1d, #7 => BadOperand\n\
    sli v3.16b, v17.16b, #7\n\
    SlI  v30.16B\t, v0.16B\t, #0 => sli v30.16b, v0.16b, #0\n\
    sli v3.16b, v17.16b, #8 => ImmediateRange\n\
    sli v30.16b, v0.16b, #-1 => ImmediateRange\n\
    sli v1.1d, v17.16b, #7 => BadOperand\n\
    sli v3.16b, v1.1d, #7 => BadOperand\n\
    sli v3.4h, v17.4h, #15\n\
    SlI  v30.4H\t, v0.4H\t, #0 => sli v30.4h, v0.4h, #0\n\
    sli v3.4h, v17.4h, #16 => ImmediateRange\n\
    sli v30.4h, v0.4h, #-1 => ImmediateRange\n\
    sli v1.1d, v17.4h, #15 => BadOperand\n\
    sli v3.4h, v1.1d, #15 => BadOperand\n\
    sli v3.8h, v17.8h, #15\n\
    SlI  v30.8H\t, v0.8H\t, #0 => sli v30.8h, v0.8h, #0\n\
    sli v3.8h, v17.8h, #16 => ImmediateRange\n\
    sli v30.8h, v0.8h, #-1 => ImmediateRange\n\
    sli v1.1d, v17.8h, #15 => BadOperand\n\
    sli v3.8h, v1.1d, #15 => BadOperand\n\
    sli v3.2s, v17.2s, #31\n\
    SlI  v30.2S\t, v0.2S\t, #0 => sli v30.2s, v0.2s, #0\n\
    sli v3.2s, v17.2s, #32 => ImmediateRange\n\
    sli v30.2s, v0.2s, #-1 => ImmediateRange\n\
    sli v1.1d, v17.2s, #31 => BadOperand\n\
    sli v3.2s, v1.1d, #31 => BadOperand\n\
    sli v3.4s, v17.4s, #31\n\
    SlI  v30.4S\t, v0.4S\t, #0 => sli v30.4s, v0.4s, #0\n\
    sli v3.4s, v17.4s, #32 => ImmediateRange\n\
    sli v30.4s, v0.4s, #-1 => ImmediateRange\n\
    sli v1.1d, v17.4s, #31 => BadOperand\n\
    sli v3.4s, v1.1d, #31 => BadOperand\n\
    sli v3.2d, v17.2d, #63\n\
    SlI  v30.2D\t, v0.2D\t, #0 => sli v30.2d, v0.2d, #0\n\
    sli v3.2d, v17.2d, #64 => ImmediateRange\n\
    sli v30.2d, v0.2d, #-1 => ImmediateRange\n\
    sli v1.1d, v17.2d, #63 => BadOperand\n\
    sli v3.2d, v1.1d, #63 => BadOperand\n\
    sshr v3.8b, v17.8b, #8\n\
    SsHr  V30.8b\t, V0.8b\t, #1 => sshr v30.8b, v0.8b, #1\n\
    sshr v3.8b, v17.8b, #9 => ImmediateRange\n\
    sshr v30.8b, v0.8b, #0 => ImmediateRange\n\
    sshr v1.1d, v17.8b, #8 => BadOperand\n\
    sshr v3.8b, v1.1d, #8 => BadOperand\n\
    sshr v3.16b, v17.16b, #8\n\
    SsHr  V30.16b\t, V0.16b\t, #1 => sshr v30.16b, v0.16b, #1\n\
    sshr v3.16b, v17.16b, #9 => ImmediateRange\n\
    sshr v30.16b, v0.16b, #0 => ImmediateRange\n\
    sshr v1.1d, v17.16b, #8 => BadOperand\n\
    sshr v3.16b, v1.1d, #8 => BadOperand\n\
    sshr v3.4h, v17.4h, #16\n\
    SsHr  V30.4h\t, V0.4h\t, #1 => sshr v30.4h, v0.4h, #1\n\
    sshr v3.4h, v17.4h, #17 => ImmediateRange\n\
    sshr v30.4h, v0.4h, #0 => ImmediateRange\n\
    sshr v1.1d, v17.4h, #16 => BadOperand\n\
    sshr v3.4h, v1.1d, #16 => BadOperand\n\
    sshr v3.8h, v17.8h, #16\n\
    SsHr  V30.8h\t, V0.8h\t, #1 => sshr v30.8h, v0.8h, #1\n\
    sshr v3.8h, v17.8h, #17 => ImmediateRange\n\
    sshr v30.8h, v0.8h, #0 => ImmediateRange\n\
    sshr v1.1d, v17.8h, #16 => BadOperand\n\
    sshr v3.8h, v1.1d, #16 => BadOperand\n\
    sshr v3.2s, v17.2s, #32\n\
    SsHr  V30.2s\t, V0.2s\t, #1 => sshr v30.2s, v0.2s, #1\n\
    sshr v3.2s, v17.2s, #33 => ImmediateRange\n\
    sshr v30.2s, v0.2s, #0 => ImmediateRange\n\
    sshr v1.1d, v17.2s, #32 => BadOperand\n\
    sshr v3.2s, v1.1d, #32 => BadOperand\n\
    sshr v3.4s, v17.4s, #32\n\
    SsHr  V30.4s\t, V0.4s\t, #1 => sshr v30.4s, v0.4s, #1\n\
    sshr v3.4s, v17.4s, #33 => ImmediateRange\n\
    sshr v30.4s, v0.4s, #0 => ImmediateRange\n\
    sshr v1.1d, v17.4s, #32 => BadOperand\n\
    sshr v3.4s, v1.1d, #32 => BadOperand\n\
    sshr v3.2d, v17.2d, #64\n\
    SsHr  V30.2d\t, V0.2d\t, #1 => sshr v30.2d, v0.2d, #1\n\
    sshr v3.2d, v17.2d, #65 => ImmediateRange\n\
    sshr v30.2d, v0.2d, #0 => ImmediateRange\n\
    sshr v1.1d, v17.2d, #64 => BadOperand\n\
    sshr v3.2d, v1.1d, #64 => BadOperand\n\
    ushr v3.8b, v17.8b, #8\n\
    UsHr  V30.8b\t, V0.8b\t, #1 => ushr v30.8b, v0.8b, #1\n\
    ushr v3.8b, v17.8b, #9 => ImmediateRange\n\
    ushr v30.8b, v0.8b, #0 => ImmediateRange\n\
    ushr v1.1d, v17.8b, #8 => BadOperand\n\
    ushr v3.8b, v1.1d, #8 => BadOperand\n\
    ushr v3.16b, v17.16b, #8\n\
    UsHr  V30.16b\t, V0.16b\t, #1 => ushr v30.16b, v0.16b, #1\n\
    ushr v3.16b, v17.16b, #9 => ImmediateRange\n\
    ushr v30.16b, v0.16b, #0 => ImmediateRange\n\
    ushr v1.1d, v17.16b, #8 => BadOperand\n\
    ushr v3.16b, v1.1d, #8 => BadOperand\n\
    ushr v3.4h, v17.4h, #16\n\
    UsHr  V30.4h\t, V0.4h\t, #1 => ushr v30.4h, v0.4h, #1\n\
    ushr v3.4h, v17.4h, #17 => ImmediateRange\n\
    ushr v30.4h, v0.4h, #0 => ImmediateRange\n\
    ushr v1.1d, v17.4h, #16 => BadOperand\n\
    ushr v3.4h, v1.1d, #16 => BadOperand\n\
    ushr v3.8h, v17.8h, #16\n\
    UsHr  V30.8h\t, V0.8h\t, #1 => ushr v30.8h, v0.8h, #1\n\
    ushr v3.8h, v17.8h, #17 => ImmediateRange\n\
    ushr v30.8h, v0.8h, #0 => ImmediateRange\n\
    ushr v1.1d, v17.8h, #16 => BadOperand\n\
    ushr v3.8h, v1.1d, #16 => BadOperand\n\
    ushr v3.2s, v17.2s, #32\n\
    UsHr  V30.2s\t, V0.2s\t, #1 => ushr v30.2s, v0.2s, #1\n\
    ushr v3.2s, v17.2s, #33 => ImmediateRange\n\
    ushr v30.2s, v0.2s, #0 => ImmediateRange\n\
    ushr v1.1d, v17.2s, #32 => BadOperand\n\
    ushr v3.2s, v1.1d, #32 => BadOperand\n\
    ushr v3.4s, v17.4s, #32\n\
    UsHr  V30.4s\t, V0.4s\t, #1 => ushr v30.4s, v0.4s, #1\n\
    ushr v3.4s, v17.4s, #33 => ImmediateRange\n\
    ushr v30.4s, v0.4s, #0 => ImmediateRange\n\
    ushr v1.1d, v17.4s, #32 => BadOperand\n\
    ushr v3.4s, v1.1d, #32 => BadOperand\n\
    ushr v3.2d, v17.2d, #64\n\
    UsHr  V30.2d\t, V0.2d\t, #1 => ushr v30.2d, v0.2d, #1\n\
    ushr v3.2d, v17.2d, #65 => ImmediateRange\n\
    ushr v30.2d, v0.2d, #0 => ImmediateRange\n\
    ushr v1.1d, v17.2d, #64 => BadOperand\n\
    ushr v3.2d, v1.1d, #64 => BadOperand\n\
    srshr v3.8b, v17.8b, #8\n\
    SrShR  v30.8B\t, v0.8B\t, #1 => srshr v30.8b, v0.8b, #1\n\
    srshr v3.8b, v17.8b, #9 => ImmediateRange\n\
    srshr v30.8b, v0.8b, #0 => ImmediateRange\n\
    srshr v1.1d, v17.8b, #8 => BadOperand\n\
    srshr v3.8b, v1.1d, #8 => BadOperand\n\
    srshr v3.16b, v17.16b, #8\n\
    SrShR  v30.16B\t, v0.16B\t, #1 => srshr v30.16b, v0.16b, #1\n\
    srshr v3.16b, v17.16b, #9 => ImmediateRange\n\
    srshr v30.16b, v0.16b, #0 => ImmediateRange\n\
    srshr v1.1d, v17.16b, #8 => BadOperand\n\
    srshr v3.16b, v1.1d, #8 => BadOperand\n\
    srshr v3.4h, v17.4h, #16\n\
    SrShR  v30.4H\t, v0.4H\t, #1 => srshr v30.4h, v0.4h, #1\n\
    srshr v3.4h, v17.4h, #17 => ImmediateRange\n\
    srshr v30.4h, v0.4h, #0 => ImmediateRange\n\
    srshr v1.1d, v17.4h, #16 => BadOperand\n\
    srshr v3.4h, v1.1d, #16 => BadOperand\n\
    srshr v3.8h, v17.8h, #16\n\
    SrShR  v30.8H\t, v0.8H\t, #1 => srshr v30.8h, v0.8h, #1\n\
    srshr v3.8h, v17.8h, #17 => ImmediateRange\n\
    srshr v30.8h, v0.8h, #0 => ImmediateRange\n\
    srshr v1.1d, v17.8h, #16 => BadOperand\n\
    srshr v3.8h, v1.1d, #16 => BadOperand\n\
    srshr v3.2s, v17.2s, #32\n\
    SrShR  v30.2S\t, v0.2S\t, #1 => srshr v30.2s, v0.2s, #1\n\
    srshr v3.2s, v17.2s, #33 => ImmediateRange\n\
    srshr v30.2s, v0.2s, #0 => ImmediateRange\n\
    srshr v1.1d, v17.2s, #32 => BadOperand\n\
    srshr v3.2s, v1.1d, #32 => BadOperand\n\
    srshr v3.4s, v17.4s, #32\n\
    SrShR  v30.4S\t, v0.4S\t, #1 => srshr v30.4s, v0.4s, #1\n\
    srshr v3.4s, v17.4s, #33 => ImmediateRange\n\
    srshr v30.4s, v0.4s, #0 => ImmediateRange\n\
    srshr v1.1d, v17.4s, #32 => BadOperand\n\
    srshr v3.4s, v1.1d, #32 => BadOperand\n\
    srshr v3.2d, v17.2d, #64\n\
    SrShR  v30.2D\t, v0.2D\t, #1 => srshr v30.2d, v0.2d, #1\n\
    srshr v3.2d, v17.2d, #65 => ImmediateRange\n\
    srshr v30.2d, v0.2d, #0 => ImmediateRange\n\
    srshr v1.1d, v17.2d, #64 => BadOperand\n\
    srshr v3.2d, v1.1d, #64 => BadOperand\n\
    sri v3.8b, v17.8b, #8\n\
    SrI  v30.8B\t, v0.8B\t, #1 => sri v30.8b, v0.8b, #1\n\
    sri v3.8b, v17.8b, #9 => ImmediateRange\n\
    sri v30.8b, v0.8b, #0 => ImmediateRange\n\
    sri v1.1d, v17.8b, #8 => BadOperand\n\
    sri v3.8b, v1.1d, #8 => BadOperand\n\
    sri v3.16b, v17.16b, #8\n\
    SrI  v30.16B\t, v0.16B\t, #1 => sri v30.16b, v0.16b, #1\n\
    sri v3.16b, v17.16b, #9 => ImmediateRange\n\
    sri v30.16b, v0.16b, #0 => ImmediateRange\n\
    sri v1.1d, v17.16b, #8 => BadOperand\n\
    sri v3.16b, v1.1d, #8 => BadOperand\n\
    sri v3.4h, v17.4h, #16\n\
    SrI  v30.4H\t, v0.4H\t, #1 => sri v30.4h, v0.4h, #1\n\
    sri v3.4h, v17.4h, #17 => ImmediateRange\n\
    sri v30.4h, v0.4h, #0 => ImmediateRange\n\
    sri v1.1d, v17.4h, #16 => BadOperand\n\
    sri v3.4h, v1.1d, #16 => BadOperand\n\
    sri v3.8h, v17.8h, #16\n\
    SrI  v30.8H\t, v0.8H\t, #1 => sri v30.8h, v0.8h, #1\n\
    sri v3.8h, v17.8h, #17 => ImmediateRange\n\
    sri v30.8h, v0.8h, #0 => ImmediateRange\n\
    sri v1.1d, v17.8h, #16 => BadOperand\n\
    sri v3.8h, v1.1d, #16 => BadOperand\n\
    sri v3.2s, v17.2s, #32\n\
    SrI  v30.2S\t, v0.2S\t, #1 => sri v30.2s, v0.2s, #1\n\
    sri v3.2s, v17.2s, #33 => ImmediateRange\n\
    sri v30.2s, v0.2s, #0 => ImmediateRange\n\
    sri v1.1d, v17.2s, #32 => BadOperand\n\
    sri v3.2s, v1.1d, #32 => BadOperand\n\
    sri v3.4s, v17.4s, #32\n\
    SrI  v30.4S\t, v0.4S\t, #1 => sri v30.4s, v0.4s, #1\n\
    sri v3.4s, v17.4s, #33 => ImmediateRange\n\
    sri v30.4s, v0.4s, #0 => ImmediateRange\n\
    sri v1.1d, v17.4s, #32 => BadOperand\n\
    sri v3.4s, v1.1d, #32 => BadOperand\n\
    sri v3.2d, v17.2d, #64",
    "\
    SrI  v30.2D\t, v0.2D\t, #1 => sri v30.2d, v0.2d, #1\n\
    sri v3.2d, v17.2d, #65 => ImmediateRange\n\
    sri v30.2d, v0.2d, #0 => ImmediateRange\n\
    sri v1.1d, v17.2d, #64 => BadOperand\n\
    sri v3.2d, v1.1d, #64 => BadOperand\n\
    xtn v3.8b, v17.8h\n\
    XtN  v30.8B\t, v0.8H => xtn v30.8b, v0.8h\n\
    xtn v1.1d, v17.8h => BadOperand\n\
    xtn v3.8b, v1.1d => BadOperand\n\
    xtn v3.4h, v17.4s\n\
    XtN  v30.4H\t, v0.4S => xtn v30.4h, v0.4s\n\
    xtn v1.1d, v17.4s => BadOperand\n\
    xtn v3.4h, v1.1d => BadOperand\n\
    xtn v3.2s, v17.2d\n\
    XtN  v30.2S\t, v0.2D => xtn v30.2s, v0.2d\n\
    xtn v1.1d, v17.2d => BadOperand\n\
    xtn v3.2s, v1.1d => BadOperand\n\
    trn1 v3.8b, v17.8b, v29.8b\n\
    TrN1  v30.8B\t, v0.8B\t, v9.8B => trn1 v30.8b, v0.8b, v9.8b\n\
    trn1 v1.1d, v17.8b, v29.8b => BadOperand\n\
    trn1 v3.8b, v1.1d, v29.8b => BadOperand\n\
    trn1 v3.8b, v17.8b, v1.1d => BadOperand\n\
    trn1 v3.16b, v17.16b, v29.16b\n\
    TrN1  v30.16B\t, v0.16B\t, v9.16B => trn1 v30.16b, v0.16b, v9.16b\n\
    trn1 v1.1d, v17.16b, v29.16b => BadOperand\n\
    trn1 v3.16b, v1.1d, v29.16b => BadOperand\n\
    trn1 v3.16b, v17.16b, v1.1d => BadOperand\n\
    trn1 v3.4h, v17.4h, v29.4h\n\
    TrN1  v30.4H\t, v0.4H\t, v9.4H => trn1 v30.4h, v0.4h, v9.4h\n\
    trn1 v1.1d, v17.4h, v29.4h => BadOperand\n\
    trn1 v3.4h, v1.1d, v29.4h => BadOperand\n\
    trn1 v3.4h, v17.4h, v1.1d => BadOperand\n\
    trn1 v3.8h, v17.8h, v29.8h\n\
    TrN1  v30.8H\t, v0.8H\t, v9.8H => trn1 v30.8h, v0.8h, v9.8h\n\
    trn1 v1.1d, v17.8h, v29.8h => BadOperand\n\
    trn1 v3.8h, v1.1d, v29.8h => BadOperand\n\
    trn1 v3.8h, v17.8h, v1.1d => BadOperand\n\
    trn1 v3.2s, v17.2s, v29.2s\n\
    TrN1  v30.2S\t, v0.2S\t, v9.2S => trn1 v30.2s, v0.2s, v9.2s\n\
    trn1 v1.1d, v17.2s, v29.2s => BadOperand\n\
    trn1 v3.2s, v1.1d, v29.2s => BadOperand\n\
    trn1 v3.2s, v17.2s, v1.1d => BadOperand\n\
    trn1 v3.4s, v17.4s, v29.4s\n\
    TrN1  v30.4S\t, v0.4S\t, v9.4S => trn1 v30.4s, v0.4s, v9.4s\n\
    trn1 v1.1d, v17.4s, v29.4s => BadOperand\n\
    trn1 v3.4s, v1.1d, v29.4s => BadOperand\n\
    trn1 v3.4s, v17.4s, v1.1d => BadOperand\n\
    trn1 v3.2d, v17.2d, v29.2d\n\
    TrN1  v30.2D\t, v0.2D\t, v9.2D => trn1 v30.2d, v0.2d, v9.2d\n\
    trn1 v1.1d, v17.2d, v29.2d => BadOperand\n\
    trn1 v3.2d, v1.1d, v29.2d => BadOperand\n\
    trn1 v3.2d, v17.2d, v1.1d => BadOperand\n\
    trn2 v3.8b, v17.8b, v29.8b\n\
    TrN2  v30.8B\t, v0.8B\t, v9.8B => trn2 v30.8b, v0.8b, v9.8b\n\
    trn2 v1.1d, v17.8b, v29.8b => BadOperand\n\
    trn2 v3.8b, v1.1d, v29.8b => BadOperand\n\
    trn2 v3.8b, v17.8b, v1.1d => BadOperand\n\
    trn2 v3.16b, v17.16b, v29.16b\n\
    TrN2  v30.16B\t, v0.16B\t, v9.16B => trn2 v30.16b, v0.16b, v9.16b\n\
    trn2 v1.1d, v17.16b, v29.16b => BadOperand\n\
    trn2 v3.16b, v1.1d, v29.16b => BadOperand\n\
    trn2 v3.16b, v17.16b, v1.1d => BadOperand\n\
    trn2 v3.4h, v17.4h, v29.4h\n\
    TrN2  v30.4H\t, v0.4H\t, v9.4H => trn2 v30.4h, v0.4h, v9.4h\n\
    trn2 v1.1d, v17.4h, v29.4h => BadOperand\n\
    trn2 v3.4h, v1.1d, v29.4h => BadOperand\n\
    trn2 v3.4h, v17.4h, v1.1d => BadOperand\n\
    trn2 v3.8h, v17.8h, v29.8h\n\
    TrN2  v30.8H\t, v0.8H\t, v9.8H => trn2 v30.8h, v0.8h, v9.8h\n\
    trn2 v1.1d, v17.8h, v29.8h => BadOperand\n\
    trn2 v3.8h, v1.1d, v29.8h => BadOperand\n\
    trn2 v3.8h, v17.8h, v1.1d => BadOperand\n\
    trn2 v3.2s, v17.2s, v29.2s\n\
    TrN2  v30.2S\t, v0.2S\t, v9.2S => trn2 v30.2s, v0.2s, v9.2s\n\
    trn2 v1.1d, v17.2s, v29.2s => BadOperand\n\
    trn2 v3.2s, v1.1d, v29.2s => BadOperand\n\
    trn2 v3.2s, v17.2s, v1.1d => BadOperand\n\
    trn2 v3.4s, v17.4s, v29.4s\n\
    TrN2  v30.4S\t, v0.4S\t, v9.4S => trn2 v30.4s, v0.4s, v9.4s\n\
    trn2 v1.1d, v17.4s, v29.4s => BadOperand\n\
    trn2 v3.4s, v1.1d, v29.4s => BadOperand\n\
    trn2 v3.4s, v17.4s, v1.1d => BadOperand\n\
    trn2 v3.2d, v17.2d, v29.2d\n\
    TrN2  v30.2D\t, v0.2D\t, v9.2D => trn2 v30.2d, v0.2d, v9.2d\n\
    trn2 v1.1d, v17.2d, v29.2d => BadOperand\n\
    trn2 v3.2d, v1.1d, v29.2d => BadOperand\n\
    trn2 v3.2d, v17.2d, v1.1d => BadOperand\n\
    zip1 v3.8b, v17.8b, v29.8b\n\
    ZiP1  v30.8B\t, v0.8B\t, v9.8B => zip1 v30.8b, v0.8b, v9.8b\n\
    zip1 v1.1d, v17.8b, v29.8b => BadOperand\n\
    zip1 v3.8b, v1.1d, v29.8b => BadOperand\n\
    zip1 v3.8b, v17.8b, v1.1d => BadOperand\n\
    zip1 v3.16b, v17.16b, v29.16b\n\
    ZiP1  v30.16B\t, v0.16B\t, v9.16B => zip1 v30.16b, v0.16b, v9.16b\n\
    zip1 v1.1d, v17.16b, v29.16b => BadOperand\n\
    zip1 v3.16b, v1.1d, v29.16b => BadOperand\n\
    zip1 v3.16b, v17.16b, v1.1d => BadOperand\n\
    zip1 v3.4h, v17.4h, v29.4h\n\
    ZiP1  v30.4H\t, v0.4H\t, v9.4H => zip1 v30.4h, v0.4h, v9.4h\n\
    zip1 v1.1d, v17.4h, v29.4h => BadOperand\n\
    zip1 v3.4h, v1.1d, v29.4h => BadOperand\n\
    zip1 v3.4h, v17.4h, v1.1d => BadOperand\n\
    zip1 v3.8h, v17.8h, v29.8h\n\
    ZiP1  v30.8H\t, v0.8H\t, v9.8H => zip1 v30.8h, v0.8h, v9.8h\n\
    zip1 v1.1d, v17.8h, v29.8h => BadOperand\n\
    zip1 v3.8h, v1.1d, v29.8h => BadOperand\n\
    zip1 v3.8h, v17.8h, v1.1d => BadOperand\n\
    zip1 v3.2s, v17.2s, v29.2s\n\
    ZiP1  v30.2S\t, v0.2S\t, v9.2S => zip1 v30.2s, v0.2s, v9.2s\n\
    zip1 v1.1d, v17.2s, v29.2s => BadOperand\n\
    zip1 v3.2s, v1.1d, v29.2s => BadOperand\n\
    zip1 v3.2s, v17.2s, v1.1d => BadOperand\n\
    zip1 v3.4s, v17.4s, v29.4s\n\
    ZiP1  v30.4S\t, v0.4S\t, v9.4S => zip1 v30.4s, v0.4s, v9.4s\n\
    zip1 v1.1d, v17.4s, v29.4s => BadOperand\n\
    zip1 v3.4s, v1.1d, v29.4s => BadOperand\n\
    zip1 v3.4s, v17.4s, v1.1d => BadOperand\n\
    zip1 v3.2d, v17.2d, v29.2d\n\
    ZiP1  v30.2D\t, v0.2D\t, v9.2D => zip1 v30.2d, v0.2d, v9.2d\n\
    zip1 v1.1d, v17.2d, v29.2d => BadOperand\n\
    zip1 v3.2d, v1.1d, v29.2d => BadOperand\n\
    zip1 v3.2d, v17.2d, v1.1d => BadOperand\n\
    zip2 v3.8b, v17.8b, v29.8b\n\
    ZiP2  v30.8B\t, v0.8B\t, v9.8B => zip2 v30.8b, v0.8b, v9.8b\n\
    zip2 v1.1d, v17.8b, v29.8b => BadOperand\n\
    zip2 v3.8b, v1.1d, v29.8b => BadOperand\n\
    zip2 v3.8b, v17.8b, v1.1d => BadOperand\n\
    zip2 v3.16b, v17.16b, v29.16b\n\
    ZiP2  v30.16B\t, v0.16B\t, v9.16B => zip2 v30.16b, v0.16b, v9.16b\n\
    zip2 v1.1d, v17.16b, v29.16b => BadOperand\n\
    zip2 v3.16b, v1.1d, v29.16b => BadOperand\n\
    zip2 v3.16b, v17.16b, v1.1d => BadOperand\n\
    zip2 v3.4h, v17.4h, v29.4h\n\
    ZiP2  v30.4H\t, v0.4H\t, v9.4H => zip2 v30.4h, v0.4h, v9.4h\n\
    zip2 v1.1d, v17.4h, v29.4h => BadOperand\n\
    zip2 v3.4h, v1.1d, v29.4h => BadOperand\n\
    zip2 v3.4h, v17.4h, v1.1d => BadOperand\n\
    zip2 v3.8h, v17.8h, v29.8h\n\
    ZiP2  v30.8H\t, v0.8H\t, v9.8H => zip2 v30.8h, v0.8h, v9.8h\n\
    zip2 v1.1d, v17.8h, v29.8h => BadOperand\n\
    zip2 v3.8h, v1.1d, v29.8h => BadOperand\n\
    zip2 v3.8h, v17.8h, v1.1d => BadOperand\n\
    zip2 v3.2s, v17.2s, v29.2s\n\
    ZiP2  v30.2S\t, v0.2S\t, v9.2S => zip2 v30.2s, v0.2s, v9.2s\n\
    zip2 v1.1d, v17.2s, v29.2s => BadOperand\n\
    zip2 v3.2s, v1.1d, v29.2s => BadOperand\n\
    zip2 v3.2s, v17.2s, v1.1d => BadOperand\n\
    zip2 v3.4s, v17.4s, v29.4s\n\
    ZiP2  v30.4S\t, v0.4S\t, v9.4S => zip2 v30.4s, v0.4s, v9.4s\n\
    zip2 v1.1d, v17.4s, v29.4s => BadOperand\n\
    zip2 v3.4s, v1.1d, v29.4s => BadOperand\n\
    zip2 v3.4s, v17.4s, v1.1d => BadOperand\n\
    zip2 v3.2d, v17.2d, v29.2d\n\
    ZiP2  v30.2D\t, v0.2D\t, v9.2D => zip2 v30.2d, v0.2d, v9.2d\n\
    zip2 v1.1d, v17.2d, v29.2d => BadOperand\n\
    zip2 v3.2d, v1.1d, v29.2d => BadOperand\n\
    zip2 v3.2d, v17.2d, v1.1d => BadOperand\n\
    uzp1 v3.8b, v17.8b, v29.8b\n\
    UzP1  v30.8B\t, v0.8B\t, v9.8B => uzp1 v30.8b, v0.8b, v9.8b\n\
    uzp1 v1.1d, v17.8b, v29.8b => BadOperand\n\
    uzp1 v3.8b, v1.1d, v29.8b => BadOperand\n\
    uzp1 v3.8b, v17.8b, v1.1d => BadOperand\n\
    uzp1 v3.16b, v17.16b, v29.16b\n\
    UzP1  v30.16B\t, v0.16B\t, v9.16B => uzp1 v30.16b, v0.16b, v9.16b\n\
    uzp1 v1.1d, v17.16b, v29.16b => BadOperand\n\
    uzp1 v3.16b, v1.1d, v29.16b => BadOperand\n\
    uzp1 v3.16b, v17.16b, v1.1d => BadOperand\n\
    uzp1 v3.4h, v17.4h, v29.4h\n\
    UzP1  v30.4H\t, v0.4H\t, v9.4H => uzp1 v30.4h, v0.4h, v9.4h\n\
    uzp1 v1.1d, v17.4h, v29.4h => BadOperand\n\
    uzp1 v3.4h, v1.1d, v29.4h => BadOperand\n\
    uzp1 v3.4h, v17.4h, v1.1d => BadOperand\n\
    uzp1 v3.8h, v17.8h, v29.8h\n\
    UzP1  v30.8H\t, v0.8H\t, v9.8H => uzp1 v30.8h, v0.8h, v9.8h\n\
    uzp1 v1.1d, v17.8h, v29.8h => BadOperand\n\
    uzp1 v3.8h, v1.1d, v29.8h => BadOperand\n\
    uzp1 v3.8h, v17.8h, v1.1d => BadOperand\n\
    uzp1 v3.2s, v17.2s, v29.2s\n\
    UzP1  v30.2S\t, v0.2S\t, v9.2S => uzp1 v30.2s, v0.2s, v9.2s\n\
    uzp1 v1.1d, v17.2s, v29.2s => BadOperand\n\
    uzp1 v3.2s, v1.1d, v29.2s => BadOperand\n\
    uzp1 v3.2s, v17.2s, v1.1d => BadOperand\n\
    uzp1 v3.4s, v17.4s, v29.4s\n\
    UzP1  v30.4S\t, v0.4S\t, v9.4S => uzp1 v30.4s, v0.4s, v9.4s\n\
    uzp1 v1.1d, v17.4s, v29.4s => BadOperand\n\
    uzp1 v3.4s, v1.1d, v29.4s => BadOperand\n\
    uzp1 v3.4s, v17.4s, v1.1d => BadOperand\n\
    uzp1 v3.2d, v17.2d, v29.2d\n\
    UzP1  v30.2D\t, v0.2D\t, v9.2D => uzp1 v30.2d, v0.2d, v9.2d\n\
    uzp1 v1.1d, v17.2d, v29.2d => BadOperand\n\
    uzp1 v3.2d, v1.1d, v29.2d => BadOperand\n\
    uzp1 v3.2d, v17.2d, v1.1d => BadOperand\n\
    uzp2 v3.8b, v17.8b, v29.8b",
    "\
    UzP2  v30.8B\t, v0.8B\t, v9.8B => uzp2 v30.8b, v0.8b, v9.8b\n\
    uzp2 v1.1d, v17.8b, v29.8b => BadOperand\n\
    uzp2 v3.8b, v1.1d, v29.8b => BadOperand\n\
    uzp2 v3.8b, v17.8b, v1.1d => BadOperand\n\
    uzp2 v3.16b, v17.16b, v29.16b\n\
    UzP2  v30.16B\t, v0.16B\t, v9.16B => uzp2 v30.16b, v0.16b, v9.16b\n\
    uzp2 v1.1d, v17.16b, v29.16b => BadOperand\n\
    uzp2 v3.16b, v1.1d, v29.16b => BadOperand\n\
    uzp2 v3.16b, v17.16b, v1.1d => BadOperand\n\
    uzp2 v3.4h, v17.4h, v29.4h\n\
    UzP2  v30.4H\t, v0.4H\t, v9.4H => uzp2 v30.4h, v0.4h, v9.4h\n\
    uzp2 v1.1d, v17.4h, v29.4h => BadOperand\n\
    uzp2 v3.4h, v1.1d, v29.4h => BadOperand\n\
    uzp2 v3.4h, v17.4h, v1.1d => BadOperand\n\
    uzp2 v3.8h, v17.8h, v29.8h\n\
    UzP2  v30.8H\t, v0.8H\t, v9.8H => uzp2 v30.8h, v0.8h, v9.8h\n\
    uzp2 v1.1d, v17.8h, v29.8h => BadOperand\n\
    uzp2 v3.8h, v1.1d, v29.8h => BadOperand\n\
    uzp2 v3.8h, v17.8h, v1.1d => BadOperand\n\
    uzp2 v3.2s, v17.2s, v29.2s\n\
    UzP2  v30.2S\t, v0.2S\t, v9.2S => uzp2 v30.2s, v0.2s, v9.2s\n\
    uzp2 v1.1d, v17.2s, v29.2s => BadOperand\n\
    uzp2 v3.2s, v1.1d, v29.2s => BadOperand\n\
    uzp2 v3.2s, v17.2s, v1.1d => BadOperand\n\
    uzp2 v3.4s, v17.4s, v29.4s\n\
    UzP2  v30.4S\t, v0.4S\t, v9.4S => uzp2 v30.4s, v0.4s, v9.4s\n\
    uzp2 v1.1d, v17.4s, v29.4s => BadOperand\n\
    uzp2 v3.4s, v1.1d, v29.4s => BadOperand\n\
    uzp2 v3.4s, v17.4s, v1.1d => BadOperand\n\
    uzp2 v3.2d, v17.2d, v29.2d\n\
    UzP2  v30.2D\t, v0.2D\t, v9.2D => uzp2 v30.2d, v0.2d, v9.2d\n\
    uzp2 v1.1d, v17.2d, v29.2d => BadOperand\n\
    uzp2 v3.2d, v1.1d, v29.2d => BadOperand\n\
    uzp2 v3.2d, v17.2d, v1.1d => BadOperand\n\
    ext v3.8b, v17.8b, v29.8b, #7\n\
    ExT  v30.8B\t, v0.8B\t, v9.8B\t, #0 => ext v30.8b, v0.8b, v9.8b, #0\n\
    ext v3.8b, v17.8b, v29.8b, #8 => ImmediateRange\n\
    ext v30.8b, v0.8b, v9.8b, #-1 => ImmediateRange\n\
    ext v1.1d, v17.8b, v29.8b, #7 => BadOperand\n\
    ext v3.8b, v1.1d, v29.8b, #7 => BadOperand\n\
    ext v3.8b, v17.8b, v1.1d, #7 => BadOperand\n\
    ext v3.16b, v17.16b, v29.16b, #15\n\
    ExT  v30.16B\t, v0.16B\t, v9.16B\t, #0 => ext v30.16b, v0.16b, v9.16b, #0\n\
    ext v3.16b, v17.16b, v29.16b, #16 => ImmediateRange\n\
    ext v30.16b, v0.16b, v9.16b, #-1 => ImmediateRange\n\
    ext v1.1d, v17.16b, v29.16b, #15 => BadOperand\n\
    ext v3.16b, v1.1d, v29.16b, #15 => BadOperand\n\
    ext v3.16b, v17.16b, v1.1d, #15 => BadOperand\n\
    dup v3.8b, v17.b[15]\n\
    DuP  v30.8B\t, v0.B [ 0 ] => dup v30.8b, v0.b[0]\n\
    dup v3.8b, v17.b[16] => ImmediateRange\n\
    dup v30.8b, v0.b[-1] => ImmediateRange\n\
    dup v1.1d, v17.b[15] => BadOperand\n\
    dup v3.8b, v1.q[0] => BadOperand\n\
    dup v3.16b, v17.b[15]\n\
    DuP  v30.16B\t, v0.B [ 0 ] => dup v30.16b, v0.b[0]\n\
    dup v3.16b, v17.b[16] => ImmediateRange\n\
    dup v30.16b, v0.b[-1] => ImmediateRange\n\
    dup v1.1d, v17.b[15] => BadOperand\n\
    dup v3.16b, v1.q[0] => BadOperand\n\
    dup v3.4h, v17.h[7]\n\
    DuP  v30.4H\t, v0.H [ 0 ] => dup v30.4h, v0.h[0]\n\
    dup v3.4h, v17.h[8] => ImmediateRange\n\
    dup v30.4h, v0.h[-1] => ImmediateRange\n\
    dup v1.1d, v17.h[7] => BadOperand\n\
    dup v3.4h, v1.q[0] => BadOperand\n\
    dup v3.8h, v17.h[7]\n\
    DuP  v30.8H\t, v0.H [ 0 ] => dup v30.8h, v0.h[0]\n\
    dup v3.8h, v17.h[8] => ImmediateRange\n\
    dup v30.8h, v0.h[-1] => ImmediateRange\n\
    dup v1.1d, v17.h[7] => BadOperand\n\
    dup v3.8h, v1.q[0] => BadOperand\n\
    dup v3.2s, v17.s[3]\n\
    DuP  v30.2S\t, v0.S [ 0 ] => dup v30.2s, v0.s[0]\n\
    dup v3.2s, v17.s[4] => ImmediateRange\n\
    dup v30.2s, v0.s[-1] => ImmediateRange\n\
    dup v1.1d, v17.s[3] => BadOperand\n\
    dup v3.2s, v1.q[0] => BadOperand\n\
    dup v3.4s, v17.s[3]\n\
    DuP  v30.4S\t, v0.S [ 0 ] => dup v30.4s, v0.s[0]\n\
    dup v3.4s, v17.s[4] => ImmediateRange\n\
    dup v30.4s, v0.s[-1] => ImmediateRange\n\
    dup v1.1d, v17.s[3] => BadOperand\n\
    dup v3.4s, v1.q[0] => BadOperand\n\
    dup v3.2d, v17.d[1]\n\
    DuP  v30.2D\t, v0.D [ 0 ] => dup v30.2d, v0.d[0]\n\
    dup v3.2d, v17.d[2] => ImmediateRange\n\
    dup v30.2d, v0.d[-1] => ImmediateRange\n\
    dup v1.1d, v17.d[1] => BadOperand\n\
    dup v3.2d, v1.q[0] => BadOperand\n\
    dup v3.8b, w17\n\
    DuP  v30.8B\t, w0 => dup v30.8b, w0\n\
    dup v1.1d, w17 => BadOperand\n\
    dup v3.8b, wzr => RegisterClass\n\
    dup v3.16b, w17\n\
    DuP  v30.16B\t, w0 => dup v30.16b, w0\n\
    dup v1.1d, w17 => BadOperand\n\
    dup v3.16b, wzr => RegisterClass\n\
    dup v3.4h, w17\n\
    DuP  v30.4H\t, w0 => dup v30.4h, w0\n\
    dup v1.1d, w17 => BadOperand\n\
    dup v3.4h, wzr => RegisterClass\n\
    dup v3.8h, w17\n\
    DuP  v30.8H\t, w0 => dup v30.8h, w0\n\
    dup v1.1d, w17 => BadOperand\n\
    dup v3.8h, wzr => RegisterClass\n\
    dup v3.2s, w17\n\
    DuP  v30.2S\t, w0 => dup v30.2s, w0\n\
    dup v1.1d, w17 => BadOperand\n\
    dup v3.2s, wzr => RegisterClass\n\
    dup v3.4s, w17\n\
    DuP  v30.4S\t, w0 => dup v30.4s, w0\n\
    dup v1.1d, w17 => BadOperand\n\
    dup v3.4s, wzr => RegisterClass\n\
    dup v3.2d, x17\n\
    DuP  v30.2D\t, x0 => dup v30.2d, x0\n\
    dup v1.1d, x17 => BadOperand\n\
    dup v3.2d, xzr => RegisterClass\n\
    ins v3.b[15], w17\n\
    InS  v30.B [ 0 ]\t, w0 => ins v30.b[0], w0\n\
    ins v3.b[16], w17 => ImmediateRange\n\
    ins v30.b[-1], w0 => ImmediateRange\n\
    ins v1.q[0], w17 => BadOperand\n\
    ins v3.b[15], wzr => RegisterClass\n\
    ins v3.h[7], w17\n\
    InS  v30.H [ 0 ]\t, w0 => ins v30.h[0], w0\n\
    ins v3.h[8], w17 => ImmediateRange\n\
    ins v30.h[-1], w0 => ImmediateRange\n\
    ins v1.q[0], w17 => BadOperand\n\
    ins v3.h[7], wzr => RegisterClass\n\
    ins v3.s[3], w17\n\
    InS  v30.S [ 0 ]\t, w0 => ins v30.s[0], w0\n\
    ins v3.s[4], w17 => ImmediateRange\n\
    ins v30.s[-1], w0 => ImmediateRange\n\
    ins v1.q[0], w17 => BadOperand\n\
    ins v3.s[3], wzr => RegisterClass\n\
    ins v3.d[1], x17\n\
    InS  v30.D [ 0 ]\t, x0 => ins v30.d[0], x0\n\
    ins v3.d[2], x17 => ImmediateRange\n\
    ins v30.d[-1], x0 => ImmediateRange\n\
    ins v1.q[0], x17 => BadOperand\n\
    ins v3.d[1], xzr => RegisterClass\n\
    ins v3.b[15], v17.b[15]\n\
    InS  v30.B [ 0 ]\t, v0.B [ 0 ] => ins v30.b[0], v0.b[0]\n\
    ins v3.b[16], v17.b[15] => ImmediateRange\n\
    ins v30.b[-1], v0.b[0] => ImmediateRange\n\
    ins v3.b[15], v17.b[16] => ImmediateRange\n\
    ins v30.b[0], v0.b[-1] => ImmediateRange\n\
    ins v1.q[0], v17.b[15] => BadOperand\n\
    ins v3.b[15], v1.q[0] => BadOperand\n\
    ins v3.h[7], v17.h[7]\n\
    InS  v30.H [ 0 ]\t, v0.H [ 0 ] => ins v30.h[0], v0.h[0]\n\
    ins v3.h[8], v17.h[7] => ImmediateRange\n\
    ins v30.h[-1], v0.h[0] => ImmediateRange\n\
    ins v3.h[7], v17.h[8] => ImmediateRange\n\
    ins v30.h[0], v0.h[-1] => ImmediateRange\n\
    ins v1.q[0], v17.h[7] => BadOperand\n\
    ins v3.h[7], v1.q[0] => BadOperand\n\
    ins v3.s[3], v17.s[3]\n\
    InS  v30.S [ 0 ]\t, v0.S [ 0 ] => ins v30.s[0], v0.s[0]\n\
    ins v3.s[4], v17.s[3] => ImmediateRange\n\
    ins v30.s[-1], v0.s[0] => ImmediateRange\n\
    ins v3.s[3], v17.s[4] => ImmediateRange\n\
    ins v30.s[0], v0.s[-1] => ImmediateRange\n\
    ins v1.q[0], v17.s[3] => BadOperand\n\
    ins v3.s[3], v1.q[0] => BadOperand\n\
    ins v3.d[1], v17.d[1]\n\
    InS  v30.D [ 0 ]\t, v0.D [ 0 ] => ins v30.d[0], v0.d[0]\n\
    ins v3.d[2], v17.d[1] => ImmediateRange\n\
    ins v30.d[-1], v0.d[0] => ImmediateRange\n\
    ins v3.d[1], v17.d[2] => ImmediateRange\n\
    ins v30.d[0], v0.d[-1] => ImmediateRange\n\
    ins v1.q[0], v17.d[1] => BadOperand\n\
    ins v3.d[1], v1.q[0] => BadOperand\n\
    umov w3, v17.b[15]\n\
    UmOv  W30\t, v0.B [ 0 ] => umov w30, v0.b[0]\n\
    umov w3, v17.b[16] => ImmediateRange\n\
    umov w30, v0.b[-1] => ImmediateRange\n\
    umov wzr, v17.b[15] => RegisterClass\n\
    umov q1, v17.b[15] => BadOperand\n\
    umov w3, v1.q[0] => BadOperand\n\
    umov w3, v17.h[7]\n\
    UmOv  W30\t, v0.H [ 0 ] => umov w30, v0.h[0]\n\
    umov w3, v17.h[8] => ImmediateRange\n\
    umov w30, v0.h[-1] => ImmediateRange\n\
    umov wzr, v17.h[7] => RegisterClass\n\
    umov q1, v17.h[7] => BadOperand\n\
    umov w3, v1.q[0] => BadOperand\n\
    umov w3, v17.s[3]\n\
    UmOv  W30\t, v0.S [ 0 ] => umov w30, v0.s[0]\n\
    umov w3, v17.s[4] => ImmediateRange\n\
    umov w30, v0.s[-1] => ImmediateRange\n\
    umov wzr, v17.s[3] => RegisterClass\n\
    umov q1, v17.s[3] => BadOperand\n\
    umov w3, v1.q[0] => BadOperand\n\
    umov x3, v17.d[1]\n\
    UmOv  X30\t, v0.D [ 0 ] => umov x30, v0.d[0]\n\
    umov x3, v17.d[2] => ImmediateRange\n\
    umov x30, v0.d[-1] => ImmediateRange\n\
    umov xzr, v17.d[1] => RegisterClass\n\
    umov q1, v17.d[1] => BadOperand\n\
    umov x3, v1.q[0] => BadOperand",
];

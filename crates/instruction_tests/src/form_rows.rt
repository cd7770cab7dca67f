//! One spelling of each row of the table of AArch64, in its order, as `checks/tables` writes them.

pub const ROWS: usize = 425;

pub const PARTS: [&str; 2] = [
    "\
    add x3, x17, x29\n\
    add x3, x17, x29, lsl #63\n\
    add x3, x17, x29, lsr #63\n\
    add x3, x17, x29, asr #63\n\
    add w3, w17, w29\n\
    add w3, w17, w29, lsl #31\n\
    add w3, w17, w29, lsr #31\n\
    add w3, w17, w29, asr #31\n\
    sub x3, x17, x29\n\
    sub x3, x17, x29, lsl #63\n\
    sub x3, x17, x29, lsr #63\n\
    sub x3, x17, x29, asr #63\n\
    sub w3, w17, w29\n\
    sub w3, w17, w29, lsl #31\n\
    sub w3, w17, w29, lsr #31\n\
    sub w3, w17, w29, asr #31\n\
    add x3, x17, #4095\n\
    add x3, x17, #4095, lsl #12\n\
    add w3, w17, #4095\n\
    add w3, w17, #4095, lsl #12\n\
    sub x3, x17, #4095\n\
    sub x3, x17, #4095, lsl #12\n\
    sub w3, w17, #4095\n\
    sub w3, w17, #4095, lsl #12\n\
    adds x3, x17, x29\n\
    adds x3, x17, x29, lsl #63\n\
    adds x3, x17, x29, lsr #63\n\
    adds x3, x17, x29, asr #63\n\
    adds w3, w17, w29\n\
    adds w3, w17, w29, lsl #31\n\
    adds w3, w17, w29, lsr #31\n\
    adds w3, w17, w29, asr #31\n\
    subs x3, x17, x29\n\
    subs x3, x17, x29, lsl #63\n\
    subs x3, x17, x29, lsr #63\n\
    subs x3, x17, x29, asr #63\n\
    subs w3, w17, w29\n\
    subs w3, w17, w29, lsl #31\n\
    subs w3, w17, w29, lsr #31\n\
    subs w3, w17, w29, asr #31\n\
    adds x3, x17, #4095\n\
    adds x3, x17, #4095, lsl #12\n\
    adds w3, w17, #4095\n\
    adds w3, w17, #4095, lsl #12\n\
    subs x3, x17, #4095\n\
    subs x3, x17, #4095, lsl #12\n\
    subs w3, w17, #4095\n\
    subs w3, w17, #4095, lsl #12\n\
    adc x3, x17, x29\n\
    adc w3, w17, w29\n\
    sbc x3, x17, x29\n\
    sbc w3, w17, w29\n\
    adcs x3, x17, x29\n\
    adcs w3, w17, w29\n\
    sbcs x3, x17, x29\n\
    sbcs w3, w17, w29\n\
    and x3, x17, x29\n\
    and x3, x17, x29, lsl #63\n\
    and x3, x17, x29, lsr #63\n\
    and x3, x17, x29, asr #63\n\
    and x3, x17, x29, ror #63\n\
    and w3, w17, w29\n\
    and w3, w17, w29, lsl #31\n\
    and w3, w17, w29, lsr #31\n\
    and w3, w17, w29, asr #31\n\
    and w3, w17, w29, ror #31\n\
    orr x3, x17, x29\n\
    orr x3, x17, x29, lsl #63\n\
    orr x3, x17, x29, lsr #63\n\
    orr x3, x17, x29, asr #63\n\
    orr x3, x17, x29, ror #63\n\
    orr w3, w17, w29\n\
    orr w3, w17, w29, lsl #31\n\
    orr w3, w17, w29, lsr #31\n\
    orr w3, w17, w29, asr #31\n\
    orr w3, w17, w29, ror #31\n\
    eor x3, x17, x29\n\
    eor x3, x17, x29, lsl #63\n\
    eor x3, x17, x29, lsr #63\n\
    eor x3, x17, x29, asr #63\n\
    eor x3, x17, x29, ror #63\n\
    eor w3, w17, w29\n\
    eor w3, w17, w29, lsl #31\n\
    eor w3, w17, w29, lsr #31\n\
    eor w3, w17, w29, asr #31\n\
    eor w3, w17, w29, ror #31\n\
    bic x3, x17, x29\n\
    bic x3, x17, x29, lsl #63\n\
    bic x3, x17, x29, lsr #63\n\
    bic x3, x17, x29, asr #63\n\
    bic x3, x17, x29, ror #63\n\
    bic w3, w17, w29\n\
    bic w3, w17, w29, lsl #31\n\
    bic w3, w17, w29, lsr #31\n\
    bic w3, w17, w29, asr #31\n\
    bic w3, w17, w29, ror #31\n\
    mov x3, x17\n\
    mov w3, w17\n\
    movz x3, #65535\n\
    movz x3, #65535, lsl #48\n\
    movz w3, #65535\n\
    movz w3, #65535, lsl #16\n\
    mov x3, #65535\n\
    mov w3, #65535\n\
    movk x3, #65535\n\
    movk x3, #65535, lsl #48\n\
    movk w3, #65535\n\
    movk w3, #65535, lsl #16\n\
    mul x3, x17, x29\n\
    mul w3, w17, w29\n\
    madd x3, x17, x29, x11\n\
    madd w3, w17, w29, w11\n\
    msub x3, x17, x29, x11\n\
    msub w3, w17, w29, w11\n\
    umulh x3, x17, x29\n\
    smulh x3, x17, x29\n\
    umull x3, w17, w29\n\
    smull x3, w17, w29\n\
    extr x3, x17, x29, #63\n\
    extr w3, w17, w29, #31\n\
    lsl x3, x17, #63\n\
    lsl w3, w17, #31\n\
    lsr x3, x17, #63\n\
    lsr w3, w17, #31\n\
    asr x3, x17, #63\n\
    asr w3, w17, #31\n\
    ror x3, x17, #63\n\
    ror w3, w17, #31\n\
    ubfx x3, x17, #63, #1\n\
    ubfx w3, w17, #31, #1\n\
    csel x3, x17, x29, le\n\
    csel w3, w17, w29, le\n\
    add v3.8b, v17.8b, v29.8b\n\
    add v3.16b, v17.16b, v29.16b\n\
    add v3.4h, v17.4h, v29.4h\n\
    add v3.8h, v17.8h, v29.8h\n\
    add v3.2s, v17.2s, v29.2s\n\
    add v3.4s, v17.4s, v29.4s\n\
    add v3.2d, v17.2d, v29.2d\n\
    sub v3.8b, v17.8b, v29.8b\n\
    sub v3.16b, v17.16b, v29.16b\n\
    sub v3.4h, v17.4h, v29.4h\n\
    sub v3.8h, v17.8h, v29.8h\n\
    sub v3.2s, v17.2s, v29.2s\n\
    sub v3.4s, v17.4s, v29.4s\n\
    sub v3.2d, v17.2d, v29.2d\n\
    and v3.8b, v17.8b, v29.8b\n\
    and v3.16b, v17.16b, v29.16b\n\
    orr v3.8b, v17.8b, v29.8b\n\
    orr v3.16b, v17.16b, v29.16b\n\
    eor v3.8b, v17.8b, v29.8b\n\
    eor v3.16b, v17.16b, v29.16b\n\
    bic v3.8b, v17.8b, v29.8b\n\
    bic v3.16b, v17.16b, v29.16b\n\
    mov v3.8b, v17.8b\n\
    mov v3.16b, v17.16b\n\
    mul v3.8b, v17.8b, v29.8b\n\
    mul v3.16b, v17.16b, v29.16b\n\
    mul v3.4h, v17.4h, v29.4h\n\
    mul v3.8h, v17.8h, v29.8h\n\
    mul v3.2s, v17.2s, v29.2s\n\
    mul v3.4s, v17.4s, v29.4s\n\
    mla v3.8b, v17.8b, v29.8b\n\
    mla v3.16b, v17.16b, v29.16b\n\
    mla v3.4h, v17.4h, v29.4h\n\
    mla v3.8h, v17.8h, v29.8h\n\
    mla v3.2s, v17.2s, v29.2s\n\
    mla v3.4s, v17.4s, v29.4s\n\
    mls v3.8b, v17.8b, v29.8b\n\
    mls v3.16b, v17.16b, v29.16b\n\
    mls v3.4h, v17.4h, v29.4h\n\
    mls v3.8h, v17.8h, v29.8h\n\
    mls v3.2s, v17.2s, v29.2s\n\
    mls v3.4s, v17.4s, v29.4s\n\
    sqdmulh v3.4h, v17.4h, v29.4h\n\
    sqdmulh v3.8h, v17.8h, v29.8h\n\
    sqdmulh v3.2s, v17.2s, v29.2s\n\
    sqdmulh v3.4s, v17.4s, v29.4s\n\
    sqrdmulh v3.4h, v17.4h, v29.4h\n\
    sqrdmulh v3.8h, v17.8h, v29.8h\n\
    sqrdmulh v3.2s, v17.2s, v29.2s\n\
    sqrdmulh v3.4s, v17.4s, v29.4s\n\
    mul v3.4h, v17.4h, v13.h[7]\n\
    mul v3.8h, v17.8h, v13.h[7]\n\
    mul v3.2s, v17.2s, v29.s[3]\n\
    mul v3.4s, v17.4s, v29.s[3]\n\
    sqdmulh v3.4h, v17.4h, v13.h[7]\n\
    sqdmulh v3.8h, v17.8h, v13.h[7]\n\
    sqdmulh v3.2s, v17.2s, v29.s[3]\n\
    sqdmulh v3.4s, v17.4s, v29.s[3]\n\
    sqrdmulh v3.4h, v17.4h, v13.h[7]\n\
    sqrdmulh v3.8h, v17.8h, v13.h[7]\n\
    sqrdmulh v3.2s, v17.2s, v29.s[3]\n\
    sqrdmulh v3.4s, v17.4s, v29.s[3]\n\
    mla v3.4h, v17.4h, v13.h[7]\n\
    mla v3.8h, v17.8h, v13.h[7]\n\
    mla v3.2s, v17.2s, v29.s[3]\n\
    mla v3.4s, v17.4s, v29.s[3]\n\
    mls v3.4h, v17.4h, v13.h[7]\n\
    mls v3.8h, v17.8h, v13.h[7]\n\
    mls v3.2s, v17.2s, v29.s[3]\n\
    mls v3.4s, v17.4s, v29.s[3]\n\
    smull v3.8h, v17.8b, v29.8b\n\
    smull v3.4s, v17.4h, v29.4h\n\
    smull v3.2d, v17.2s, v29.2s\n\
    umull v3.8h, v17.8b, v29.8b\n\
    umull v3.4s, v17.4h, v29.4h\n\
    umull v3.2d, v17.2s, v29.2s\n\
    smlal v3.8h, v17.8b, v29.8b\n\
    smlal v3.4s, v17.4h, v29.4h\n\
    smlal v3.2d, v17.2s, v29.2s\n\
    umlal v3.8h, v17.8b, v29.8b\n\
    umlal v3.4s, v17.4h, v29.4h\n\
    umlal v3.2d, v17.2s, v29.2s\n\
    smull2 v3.8h, v17.16b, v29.16b\n\
    smull2 v3.4s, v17.8h, v29.8h\n\
    smull2 v3.2d, v17.4s, v29.4s\n\
    umull2 v3.8h, v17.16b, v29.16b\n\
    umull2 v3.4s, v17.8h, v29.8h\n\
    umull2 v3.2d, v17.4s, v29.4s\n\
    smlal2 v3.8h, v17.16b, v29.16b\n\
    smlal2 v3.4s, v17.8h, v29.8h\n\
    smlal2 v3.2d, v17.4s, v29.4s\n\
    umlal2 v3.8h, v17.16b, v29.16b\n\
    umlal2 v3.4s, v17.8h, v29.8h\n\
    umlal2 v3.2d, v17.4s, v29.4s\n\
    shl v3.8b, v17.8b, #7\n\
    shl v3.16b, v17.16b, #7\n\
    shl v3.4h, v17.4h, #15\n\
    shl v3.8h, v17.8h, #15\n\
    shl v3.2s, v17.2s, #31\n\
    shl v3.4s, v17.4s, #31\n\
    shl v3.2d, v17.2d, #63\n\
    sli v3.8b, v17.8b, #7\n\
    sli v3.16b, v17.16b, #7\n\
    sli v3.4h, v17.4h, #15\n\
    sli v3.8h, v17.8h, #15\n\
    sli v3.2s, v17.2s, #31\n\
    sli v3.4s, v17.4s, #31\n\
    sli v3.2d, v17.2d, #63\n\
    sshr v3.8b, v17.8b, #8\n\
    sshr v3.16b, v17.16b, #8\n\
    sshr v3.4h, v17.4h, #16\n\
    sshr v3.8h, v17.8h, #16\n\
    sshr v3.2s, v17.2s, #32\n\
    sshr v3.4s, v17.4s, #32\n\
    sshr v3.2d, v17.2d, #64\n\
    ushr v3.8b, v17.8b, #8\n\
    ushr v3.16b, v17.16b, #8\n\
    ushr v3.4h, v17.4h, #16\n\
    ushr v3.8h, v17.8h, #16\n\
    ushr v3.2s, v17.2s, #32\n\
    ushr v3.4s, v17.4s, #32\n\
    ushr v3.2d, v17.2d, #64\n\
    srshr v3.8b, v17.8b, #8\n\
    srshr v3.16b, v17.16b, #8\n\
    srshr v3.4h, v17.4h, #16\n\
    srshr v3.8h, v17.8h, #16\n\
    srshr v3.2s, v17.2s, #32\n\
    srshr v3.4s, v17.4s, #32\n\
    srshr v3.2d, v17.2d, #64\n\
    sri v3.8b, v17.8b, #8\n\
    sri v3.16b, v17.16b, #8\n\
    sri v3.4h, v17.4h, #16\n\
    sri v3.8h, v17.8h, #16\n\
    sri v3.2s, v17.2s, #32\n\
    sri v3.4s, v17.4s, #32\n\
    sri v3.2d, v17.2d, #64\n\
    xtn v3.8b, v17.8h\n\
    xtn v3.4h, v17.4s\n\
    xtn v3.2s, v17.2d\n\
    trn1 v3.8b, v17.8b, v29.8b\n\
    trn1 v3.16b, v17.16b, v29.16b\n\
    trn1 v3.4h, v17.4h, v29.4h\n\
    trn1 v3.8h, v17.8h, v29.8h\n\
    trn1 v3.2s, v17.2s, v29.2s\n\
    trn1 v3.4s, v17.4s, v29.4s\n\
    trn1 v3.2d, v17.2d, v29.2d\n\
    trn2 v3.8b, v17.8b, v29.8b\n\
    trn2 v3.16b, v17.16b, v29.16b\n\
    trn2 v3.4h, v17.4h, v29.4h\n\
    trn2 v3.8h, v17.8h, v29.8h\n\
    trn2 v3.2s, v17.2s, v29.2s\n\
    trn2 v3.4s, v17.4s, v29.4s\n\
    trn2 v3.2d, v17.2d, v29.2d\n\
    zip1 v3.8b, v17.8b, v29.8b\n\
    zip1 v3.16b, v17.16b, v29.16b\n\
    zip1 v3.4h, v17.4h, v29.4h\n\
    zip1 v3.8h, v17.8h, v29.8h\n\
    zip1 v3.2s, v17.2s, v29.2s\n\
    zip1 v3.4s, v17.4s, v29.4s\n\
    zip1 v3.2d, v17.2d, v29.2d\n\
    zip2 v3.8b, v17.8b, v29.8b\n\
    zip2 v3.16b, v17.16b, v29.16b\n\
    zip2 v3.4h, v17.4h, v29.4h\n\
    zip2 v3.8h, v17.8h, v29.8h\n\
    zip2 v3.2s, v17.2s, v29.2s\n\
    zip2 v3.4s, v17.4s, v29.4s\n\
    zip2 v3.2d, v17.2d, v29.2d\n\
    uzp1 v3.8b, v17.8b, v29.8b\n\
    uzp1 v3.16b, v17.16b, v29.16b\n\
    uzp1 v3.4h, v17.4h, v29.4h\n\
    uzp1 v3.8h, v17.8h, v29.8h\n\
    uzp1 v3.2s, v17.2s, v29.2s\n\
    uzp1 v3.4s, v17.4s, v29.4s\n\
    uzp1 v3.2d, v17.2d, v29.2d\n\
    uzp2 v3.8b, v17.8b, v29.8b\n\
    uzp2 v3.16b, v17.16b, v29.16b\n\
    uzp2 v3.4h, v17.4h, v29.4h\n\
    uzp2 v3.8h, v17.8h, v29.8h\n\
    uzp2 v3.2s, v17.2s, v29.2s\n\
    uzp2 v3.4s, v17.4s, v29.4s\n\
    uzp2 v3.2d, v17.2d, v29.2d\n\
    ext v3.8b, v17.8b, v29.8b, #7\n\
    ext v3.16b, v17.16b, v29.16b, #15\n\
    dup v3.8b, v17.b[15]\n\
    dup v3.16b, v17.b[15]\n\
    dup v3.4h, v17.h[7]\n\
    dup v3.8h, v17.h[7]\n\
    dup v3.2s, v17.s[3]\n\
    dup v3.4s, v17.s[3]",
    "\
    dup v3.2d, v17.d[1]\n\
    dup v3.8b, w17\n\
    dup v3.16b, w17\n\
    dup v3.4h, w17\n\
    dup v3.8h, w17\n\
    dup v3.2s, w17\n\
    dup v3.4s, w17\n\
    dup v3.2d, x17\n\
    ins v3.b[15], w17\n\
    ins v3.h[7], w17\n\
    ins v3.s[3], w17\n\
    ins v3.d[1], x17\n\
    ins v3.b[15], v17.b[15]\n\
    ins v3.h[7], v17.h[7]\n\
    ins v3.s[3], v17.s[3]\n\
    ins v3.d[1], v17.d[1]\n\
    umov w3, v17.b[15]\n\
    umov w3, v17.h[7]\n\
    umov w3, v17.s[3]\n\
    umov x3, v17.d[1]\n\
    ldr x3, [x17]\n\
    ldr x3, [x17, #32760]\n\
    ldr x3, [x17], #255\n\
    ldr x3, [x17, #255]!\n\
    ldr w3, [x17]\n\
    ldr w3, [x17, #16380]\n\
    ldr w3, [x17], #255\n\
    ldr w3, [x17, #255]!\n\
    ldr q3, [x17]\n\
    ldr q3, [x17, #65520]\n\
    ldr q3, [x17], #255\n\
    ldr q3, [x17, #255]!\n\
    ldr d3, [x17]\n\
    ldr d3, [x17, #32760]\n\
    ldr d3, [x17], #255\n\
    ldr d3, [x17, #255]!\n\
    ldr s3, [x17]\n\
    ldr s3, [x17, #16380]\n\
    ldr s3, [x17], #255\n\
    ldr s3, [x17, #255]!\n\
    str x3, [x17]\n\
    str x3, [x17, #32760]\n\
    str x3, [x17], #255\n\
    str x3, [x17, #255]!\n\
    str w3, [x17]\n\
    str w3, [x17, #16380]\n\
    str w3, [x17], #255\n\
    str w3, [x17, #255]!\n\
    str q3, [x17]\n\
    str q3, [x17, #65520]\n\
    str q3, [x17], #255\n\
    str q3, [x17, #255]!\n\
    str d3, [x17]\n\
    str d3, [x17, #32760]\n\
    str d3, [x17], #255\n\
    str d3, [x17, #255]!\n\
    str s3, [x17]\n\
    str s3, [x17, #16380]\n\
    str s3, [x17], #255\n\
    str s3, [x17, #255]!\n\
    ldur x3, [x17]\n\
    ldur x3, [x17, #255]\n\
    ldur w3, [x17]\n\
    ldur w3, [x17, #255]\n\
    ldur q3, [x17]\n\
    ldur q3, [x17, #255]\n\
    ldur d3, [x17]\n\
    ldur d3, [x17, #255]\n\
    ldur s3, [x17]\n\
    ldur s3, [x17, #255]\n\
    stur x3, [x17]\n\
    stur x3, [x17, #255]\n\
    stur w3, [x17]\n\
    stur w3, [x17, #255]\n\
    stur q3, [x17]\n\
    stur q3, [x17, #255]\n\
    stur d3, [x17]\n\
    stur d3, [x17, #255]\n\
    stur s3, [x17]\n\
    stur s3, [x17, #255]\n\
    ldp x3, x17, [x29]\n\
    ldp x3, x17, [x29, #504]\n\
    ldp x3, x17, [x29], #504\n\
    ldp x3, x17, [x29, #504]!\n\
    ldp d3, d17, [x29]\n\
    ldp d3, d17, [x29, #504]\n\
    ldp d3, d17, [x29], #504\n\
    ldp d3, d17, [x29, #504]!\n\
    ldp q3, q17, [x29]\n\
    ldp q3, q17, [x29, #1008]\n\
    ldp q3, q17, [x29], #1008\n\
    ldp q3, q17, [x29, #1008]!\n\
    stp x3, x17, [x29]\n\
    stp x3, x17, [x29, #504]\n\
    stp x3, x17, [x29], #504\n\
    stp x3, x17, [x29, #504]!\n\
    stp d3, d17, [x29]\n\
    stp d3, d17, [x29, #504]\n\
    stp d3, d17, [x29], #504\n\
    stp d3, d17, [x29, #504]!\n\
    stp q3, q17, [x29]\n\
    stp q3, q17, [x29, #1008]\n\
    stp q3, q17, [x29], #1008\n\
    stp q3, q17, [x29, #1008]!",
];

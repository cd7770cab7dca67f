//! Instructions of Armv7E-M, worked out from the manual (DDI 0403) on their own: each line has a cost class, a spelling, how it is printed, and
//! the values of the operands in their order and of the outputs, in hexadecimal. Behind `@` stand the 16 bytes from address 1000 on,
//! as a number. Each gives the flags as N, Z, C, V.

pub const GIVEN_ROWS: usize = 233;

pub const GIVEN_PARTS: [&str; 2] = [
    "\
    alu | add r5, r6, r7 | add r5, r6, r7 | c5c7fd0 7fffffff -> 8c5c7fcf\n\
    alus | add r5, r6, lr, lsl #31 | add r5, r6, lr, lsl #31 | 3d9c1724 a170b338 -> 3d9c1724\n\
    alus | add r5, r6, lr, lsr #32 | add r5, r6, lr, lsr #32 | dbc496cb 1a61dbe2 -> dbc496cb\n\
    alus | add r5, r6, lr, asr #32 | add r5, r6, lr, asr #32 | 9e7769b1 80008000 -> 9e7769b0\n\
    alus | add r5, r6, lr, ror #31 | add r5, r6, lr, ror #31 | 14f4733f 80008000 -> 14f57340\n\
    alu | add.w r5, r7 | add.w r5, r5, r7 | 7fffffff e01f5057 -> 601f5056\n\
    alu | add r5, r6, r7, lsl #0 | add r5, r6, r7 | 7f26144b 4f426dcb -> ce688216\n\
    alu | add r5, r12, #4095 | add r5, r12, #4095 | ab2cd31e -> ab2ce31d\n\
    alu | add r5, #0x1f | add r5, r5, #31 | 2b0537e6 -> 2b053805\n\
    alu | sub r5, r6, r7 | sub r5, r6, r7 | eab477d2 dd2e1609 -> d8661c9\n\
    alus | sub r5, r6, lr, lsl #31 | sub r5, r6, lr, lsl #31 | aec6f024 0 -> aec6f024\n\
    alus | sub r5, r6, lr, lsr #32 | sub r5, r6, lr, lsr #32 | 1 dfe01893 -> 1\n\
    alus | sub r5, r6, lr, asr #32 | sub r5, r6, lr, asr #32 | 7fffffff 0 -> 7fffffff\n\
    alus | sub r5, r6, lr, ror #31 | sub r5, r6, lr, ror #31 | 7fff8000 5d39d0a8 -> c58bdeb0\n\
    alu | sub.w r5, r7 | sub.w r5, r5, r7 | d953ee26 80008000 -> 59536e26\n\
    alu | sub r5, r6, r7, lsl #0 | sub r5, r6, r7 | 0 87322e25 -> 78cdd1db\n\
    alu | sub r5, r12, #4095 | sub r5, r12, #4095 | 2ac34446 -> 2ac33447\n\
    alu | sub r5, #0x1f | sub r5, r5, #31 | a2eddbbd -> a2eddb9e\n\
    alu | adds r5, r6, r7 | adds r5, r6, r7 | 0 f4de2c08 -> f4de2c08 8\n\
    alus | adds r5, r6, lr, lsl #31 | adds r5, r6, lr, lsl #31 | cefe2a1f 0 -> cefe2a1f 8\n\
    alus | adds r5, r6, lr, lsr #32 | adds r5, r6, lr, lsr #32 | 80000000 7a605a91 -> 80000000 8\n\
    alus | adds r5, r6, lr, asr #32 | adds r5, r6, lr, asr #32 | b8c9817a 0 -> b8c9817a 8\n\
    alus | adds r5, r6, lr, ror #31 | adds r5, r6, lr, ror #31 | d39630d6 80000000 -> d39630d7 8\n\
    alu | adds.w r5, r7 | adds.w r5, r5, r7 | 7fff8000 40783f0a -> c077bf0a 9\n\
    alu | adds r5, r6, r7, lsl #0 | adds r5, r6, r7 | 5a9196f0 ffffffff -> 5a9196ef 2\n\
    alu | adds r5, r12, #255 | adds r5, r12, #255 | 0 -> ff 0\n\
    alu | adds r5, #0x1f | adds r5, r5, #31 | 1 -> 20 0\n\
    alu | subs r5, r6, r7 | subs r5, r6, r7 | 1 0 -> 1 2\n\
    alus | subs r5, r6, lr, lsl #31 | subs r5, r6, lr, lsl #31 | 7fff8000 b156d1ad -> ffff8000 9\n\
    alus | subs r5, r6, lr, lsr #32 | subs r5, r6, lr, lsr #32 | 7fff8000 d70a39d1 -> 7fff8000 2\n\
    alus | subs r5, r6, lr, asr #32 | subs r5, r6, lr, asr #32 | ffffffff e2015522 -> 0 6\n\
    alus | subs r5, r6, lr, ror #31 | subs r5, r6, lr, ror #31 | 3836e865 83feb17b -> 3039856e 2\n\
    alu | subs.w r5, r7 | subs.w r5, r5, r7 | 0 626467ba -> 9d9b9846 8\n\
    alu | subs r5, r6, r7, lsl #0 | subs r5, r6, r7 | 80008000 c17a9262 -> be85ed9e 8\n\
    alu | subs r5, r12, #255 | subs r5, r12, #255 | 7fffffff -> 7fffff00 2\n\
    alu | subs r5, #0x1f | subs r5, r5, #31 | 0 -> ffffffe1 8\n\
    alu | adc r5, r6, r7 | adc r5, r6, r7 | 80000000 ffffffff 2 -> 80000000\n\
    alus | adc r5, r6, lr, lsl #31 | adc r5, r6, lr, lsl #31 | 1 eea7bb64 2 -> 2\n\
    alus | adc r5, r6, lr, lsr #32 | adc r5, r6, lr, lsr #32 | 8005ce74 83a4e629 2 -> 8005ce75\n\
    alus | adc r5, r6, lr, asr #32 | adc r5, r6, lr, asr #32 | a81100a1 8bc08311 2 -> a81100a1\n\
    alus | adc r5, r6, lr, ror #31 | adc r5, r6, lr, ror #31 | b4ebf4b6 dec6823 2 -> d0c4c4fd\n\
    alu | adc.w r5, r7 | adc.w r5, r5, r7 | e2ec40a 28541424 2 -> 3682d82f\n\
    alu | adc r5, r6, r7, lsl #0 | adc r5, r6, r7 | ed6b02 5b491561 2 -> 5c368064\n\
    alu | sbc r5, r6, r7 | sbc r5, r6, r7 | 7fffffff 16fa1421 2 -> 6905ebde\n\
    alus | sbc r5, r6, lr, lsl #31 | sbc r5, r6, lr, lsl #31 | ffffffff 537d9128 2 -> ffffffff\n\
    alus | sbc r5, r6, lr, lsr #32 | sbc r5, r6, lr, lsr #32 | b35b1de 0 2 -> b35b1de\n\
    alus | sbc r5, r6, lr, asr #32 | sbc r5, r6, lr, asr #32 | d38f8c45 1adbce5d 2 -> d38f8c45\n\
    alus | sbc r5, r6, lr, ror #31 | sbc r5, r6, lr, ror #31 | cfff054 7fffffff 2 -> cfff056\n\
    alu | sbc.w r5, r7 | sbc.w r5, r5, r7 | 86a74a63 75d8d8a4 2 -> 10ce71bf\n\
    alu | sbc r5, r6, r7, lsl #0 | sbc r5, r6, r7 | 7fff8000 ffffffff 2 -> 7fff8001\n\
    alu | adcs r5, r6, r7 | adcs r5, r6, r7 | 37bac233 7fff8000 2 -> b7ba4234 9\n\
    alus | adcs r5, r6, lr, lsl #31 | adcs r5, r6, lr, lsl #31 | 757f1cba 7fffffff 2 -> f57f1cbb 8\n\
    alus | adcs r5, r6, lr, lsr #32 | adcs r5, r6, lr, lsr #32 | bf5b411b 7f7595b5 2 -> bf5b411c 8\n\
    alus | adcs r5, r6, lr, asr #32 | adcs r5, r6, lr, asr #32 | ffffffff 50ea7da7 2 -> 0 6\n\
    alus | adcs r5, r6, lr, ror #31 | adcs r5, r6, lr, ror #31 | 1ebb0794 63e19869 2 -> e67e3867 8\n\
    alu | adcs.w r5, r7 | adcs.w r5, r5, r7 | c172b298 7fff8000 2 -> 41723299 2\n\
    alu | adcs r5, r6, r7, lsl #0 | adcs r5, r6, r7 | e25f4b1c b835e8a5 2 -> 9a9533c2 a\n\
    alu | sbcs r5, r6, r7 | sbcs r5, r6, r7 | ffffffff 78e10e70 0 -> 871ef18e a\n\
    alus | sbcs r5, r6, lr, lsl #31 | sbcs r5, r6, lr, lsl #31 | 80008000 a4a915d0 0 -> 80007fff a\n\
    alus | sbcs r5, r6, lr, lsr #32 | sbcs r5, r6, lr, lsr #32 | 7fff8000 173910e3 0 -> 7fff7fff 2\n\
    alus | sbcs r5, r6, lr, asr #32 | sbcs r5, r6, lr, asr #32 | dee0a843 862fe231 0 -> dee0a843 8\n\
    alus | sbcs r5, r6, lr, ror #31 | sbcs r5, r6, lr, ror #31 | 7fff8000 e59409c1 0 -> b4d76c7c 9\n\
    alu | sbcs.w r5, r7 | sbcs.w r5, r5, r7 | b5a29061 ed448d4e 0 -> c85e0312 8\n\
    alu | sbcs r5, r6, r7, lsl #0 | sbcs r5, r6, r7 | 80000000 7fffffff 0 -> 0 7\n\
    alu | and r5, r6, r7 | and r5, r6, r7 | 202ab6fa 80000000 -> 0\n\
    alus | and r5, r6, lr, lsl #31 | and r5, r6, lr, lsl #31 | 197536b1 2ad9d2b -> 0\n\
    alus | and r5, r6, lr, lsr #32 | and r5, r6, lr, lsr #32 | 0 593dba2 -> 0\n\
    alus | and r5, r6, lr, asr #32 | and r5, r6, lr, asr #32 | 1 b7e49f36 -> 1\n\
    alus | and r5, r6, lr, ror #31 | and r5, r6, lr, ror #31 | 7fff8000 f3b17af0 -> 67628000\n\
    alu | and.w r5, r7 | and.w r5, r5, r7 | ffffffff 1 -> 1\n\
    alu | and r5, r6, r7, lsl #0 | and r5, r6, r7 | 80000000 a70828a7 -> 80000000\n\
    alu | and r5, r12, #255 | and r5, r12, #255 | fc27d683 -> 83\n\
    alu | and r5, #0x1f | and r5, r5, #31 | 80000000 -> 0\n\
    alu | orr r5, r6, r7 | orr r5, r6, r7 | 1 8aa1a59c -> 8aa1a59d\n\
    alus | orr r5, r6, lr, lsl #31 | orr r5, r6, lr, lsl #31 | 692a4f0e 7fff8000 -> 692a4f0e\n\
    alus | orr r5, r6, lr, lsr #32 | orr r5, r6, lr, lsr #32 | 1 7fffffff -> 1\n\
    alus | orr r5, r6, lr, asr #32 | orr r5, r6, lr, asr #32 | b72fac4a 80008000 -> ffffffff\n\
    alus | orr r5, r6, lr, ror #31 | orr r5, r6, lr, ror #31 | 23a80a2 7fff8000 -> ffff80a2\n\
    alu | orr.w r5, r7 | orr.w r5, r5, r7 | 3f4f8b9d 7fffffff -> 7fffffff\n\
    alu | orr r5, r6, r7, lsl #0 | orr r5, r6, r7 | 3555d6ae 80000000 -> b555d6ae\n\
    alu | orr r5, r12, #255 | orr r5, r12, #255 | d7435571 -> d74355ff\n\
    alu | orr r5, #0x1f | orr r5, r5, #31 | 7fff8000 -> 7fff801f\n\
    alu | eor r5, r6, r7 | eor r5, r6, r7 | 80000000 a74068b2 -> 274068b2\n\
    alus | eor r5, r6, lr, lsl #31 | eor r5, r6, lr, lsl #31 | 1 80008000 -> 1\n\
    alus | eor r5, r6, lr, lsr #32 | eor r5, r6, lr, lsr #32 | c71c588c 1 -> c71c588c\n\
    alus | eor r5, r6, lr, asr #32 | eor r5, r6, lr, asr #32 | 2e9c9fb cb978be3 -> fd163604\n\
    alus | eor r5, r6, lr, ror #31 | eor r5, r6, lr, ror #31 | ffffffff 1755c6de -> d1547243\n\
    alu | eor.w r5, r7 | eor.w r5, r5, r7 | d25f954 7fff8000 -> 72da7954\n\
    alu | eor r5, r6, r7, lsl #0 | eor r5, r6, r7 | 6f25630d 80008000 -> ef25e30d\n\
    alu | eor r5, r12, #255 | eor r5, r12, #255 | 7fffffff -> 7fffff00\n\
    alu | eor r5, #0x1f | eor r5, r5, #31 | ed5ec904 -> ed5ec91b\n\
    alu | bic r5, r6, r7 | bic r5, r6, r7 | 7fff8000 1 -> 7fff8000\n\
    alus | bic r5, r6, lr, lsl #31 | bic r5, r6, lr, lsl #31 | 80008000 3234752b -> 8000\n\
    alus | bic r5, r6, lr, lsr #32 | bic r5, r6, lr, lsr #32 | 6655b9f0 1 -> 6655b9f0\n\
    alus | bic r5, r6, lr, asr #32 | bic r5, r6, lr, asr #32 | 52fef478 a8a9ea62 -> 0\n\
    alus | bic r5, r6, lr, ror #31 | bic r5, r6, lr, ror #31 | 80ea8397 cf7eda11 -> 20394\n\
    alu | bic.w r5, r7 | bic.w r5, r5, r7 | 177a8334 a6fb154 -> 15100220\n\
    alu | bic r5, r6, r7, lsl #0 | bic r5, r6, r7 | ffffffff 7fff8000 -> 80007fff\n\
    alu | bic r5, r12, #255 | bic r5, r12, #255 | 80008000 -> 80008000\n\
    alu | bic r5, #0x1f | bic r5, r5, #31 | c9d35f16 -> c9d35f00\n\
    alu | mov r5, lr | mov r5, lr | 52e71cf8 -> 52e71cf8\n\
    alu | movw r5, #65535 | movw r5, #65535 |  -> ffff\n\
    alu | mov r5, #4660 | movw r5, #4660 |  -> 1234\n\
    alu | movt r5, #32769 | movt r5, #32769 | 89abcdef -> 8001cdef\n\
    alus | lsl r5, r6, #31 | lsl r5, r6, #31 | df4ce303 -> 80000000\n\
    alus | lsl r5, #3 | lsl r5, r5, #3 | 1 -> 8\n\
    alus | lsr r5, r6, #32 | lsr r5, r6, #32 | 80000001 -> 0\n\
    alus | lsr r5, #3 | lsr r5, r5, #3 | fe3245fe -> 1fc648bf\n\
    alus | asr r5, r6, #32 | asr r5, r6, #32 | c3bf64e9 -> ffffffff\n\
    alus | asr r5, #3 | asr r5, r5, #3 | 2d3fe297 -> 5a7fc52\n\
    alus | ror r5, r6, #31 | ror r5, r6, #31 | fbeb0a99 -> f7d61533\n\
    alus | ror r5, #3 | ror r5, r5, #3 | 4a7d1dbc -> 894fa3b7\n\
    alus | ubfx r5, r6, #31, #1 | ubfx r5, r6, #31, #1 | 6aed8872 -> 0\n\
    alus | sbfx r5, r6, #31, #1 | sbfx r5, r6, #31, #1 | 6aed8872 -> 0\n\
    alus | ubfx r5, r6, #0, #32 | ubfx r5, r6, #0, #32 | 833edd4b -> 833edd4b\n\
    alus | sbfx r5, r6, #0, #32 | sbfx r5, r6, #0, #32 | 833edd4b -> 833edd4b\n\
    alus | ubfx r5, r6, #7, #9 | ubfx r5, r6, #7, #9 | 5d359777 -> 12e\n\
    alus | sbfx r5, r6, #7, #9 | sbfx r5, r6, #7, #9 | 5d359777 -> ffffff2e\n\
    alu | uxth r5, r6 | uxth r5, r6 | 12348765 -> 8765\n\
    alu | sxth r5, r6 | sxth r5, r6 | 12348765 -> ffff8765\n",
    "\
    alu | uxth r5, r6 | uxth r5, r6 | ffff7fff -> 7fff\n\
    alu | sxth r5, r6 | sxth r5, r6 | ffff7fff -> 7fff\n\
    mul | mul r5, r6, r7 | mul r5, r6, r7 | e542453d 8c3b1266 -> 5254e04e\n\
    mul | mla r5, r6, r7, r9 | mla r5, r6, r7, r9 | e542453d 8c3b1266 a1cc4751 -> f421279f\n\
    mul | mls r5, r6, r7, r9 | mls r5, r6, r7, r9 | e542453d 8c3b1266 a1cc4751 -> 4f776703\n\
    mul | smull r5, r6, r7, r9 | smull r5, r6, r7, r9 | e542453d 8c3b1266 -> 5254e04e c17ccfa\n\
    mul | umull r5, r6, r7, r9 | umull r5, r6, r7, r9 | e542453d 8c3b1266 -> 5254e04e 7d95249d\n\
    mul | smlal r5, r6, r7, r9 | smlal r5, r6, r7, r9 | e542453d 8c3b1266 a1cc4751 fd076c0b -> f421279f 91f3905\n\
    mul | umlal r5, r6, r7, r9 | umlal r5, r6, r7, r9 | e542453d 8c3b1266 a1cc4751 fd076c0b -> f421279f 7a9c90a8\n\
    mul | umaal r5, r6, r7, r9 | umaal r5, r6, r7, r9 | e542453d 8c3b1266 a1cc4751 fd076c0b -> f12893aa 7d95249e\n\
    mul | mul r5, r6, r7 | mul r5, r6, r7 | ba2db00a 9cce12d5 -> de702c52\n\
    mul | mla r5, r6, r7, r9 | mla r5, r6, r7, r9 | ba2db00a 9cce12d5 a7321d31 -> 85a24983\n\
    mul | mls r5, r6, r7, r9 | mls r5, r6, r7, r9 | ba2db00a 9cce12d5 a7321d31 -> c8c1f0df\n\
    mul | smull r5, r6, r7, r9 | smull r5, r6, r7, r9 | ba2db00a 9cce12d5 -> de702c52 1b0df2dc\n\
    mul | umull r5, r6, r7, r9 | umull r5, r6, r7, r9 | ba2db00a 9cce12d5 -> de702c52 7209b5bb\n\
    mul | smlal r5, r6, r7, r9 | smlal r5, r6, r7, r9 | ba2db00a 9cce12d5 a7321d31 8bab5f9f -> 85a24983 a6b9527c\n\
    mul | umlal r5, r6, r7, r9 | umlal r5, r6, r7, r9 | ba2db00a 9cce12d5 a7321d31 8bab5f9f -> 85a24983 fdb5155b\n\
    mul | umaal r5, r6, r7, r9 | umaal r5, r6, r7, r9 | ba2db00a 9cce12d5 a7321d31 8bab5f9f -> 114da922 7209b5bd\n\
    mul | umaal.w r5, r6, r7, r9 | umaal.w r5, r6, r7, r9 | ffffffff ffffffff ffffffff ffffffff -> ffffffff ffffffff\n\
    mul | smulbb r5, r6, r7 | smulbb r5, r6, r7 | 80008000 80007fff -> c0008000\n\
    mul | smlabb r5, r6, r7, r9 | smlabb r5, r6, r7, r9 | 80008000 80007fff 7fffffff -> 40007fff\n\
    mul | smulbt r5, r6, r7 | smulbt r5, r6, r7 | 80008000 80007fff -> 40000000\n\
    mul | smlabt r5, r6, r7, r9 | smlabt r5, r6, r7, r9 | 80008000 80007fff 7fffffff -> bfffffff\n\
    mul | smultb r5, r6, r7 | smultb r5, r6, r7 | 80008000 80007fff -> c0008000\n\
    mul | smlatb r5, r6, r7, r9 | smlatb r5, r6, r7, r9 | 80008000 80007fff 7fffffff -> 40007fff\n\
    mul | smultt r5, r6, r7 | smultt r5, r6, r7 | 80008000 80007fff -> 40000000\n\
    mul | smlatt r5, r6, r7, r9 | smlatt r5, r6, r7, r9 | 80008000 80007fff 7fffffff -> bfffffff\n\
    mul | smulwb r5, r6, r7 | smulwb r5, r6, r7 | 80008000 80007fff -> c000bfff\n\
    mul | smlawb r5, r6, r7, r9 | smlawb r5, r6, r7, r9 | 80008000 80007fff 7fffffff -> 4000bffe\n\
    mul | smulwt r5, r6, r7 | smulwt r5, r6, r7 | 80008000 80007fff -> 3fffc000\n\
    mul | smlawt r5, r6, r7, r9 | smlawt r5, r6, r7, r9 | 80008000 80007fff 7fffffff -> bfffbfff\n\
    mul | smuad r5, r6, r7 | smuad r5, r6, r7 | 80008000 80007fff -> 8000\n\
    mul | smlad r5, r6, r7, r9 | smlad r5, r6, r7, r9 | 80008000 80007fff 7fffffff -> 80007fff\n\
    mul | smuadx r5, r6, r7 | smuadx r5, r6, r7 | 80008000 80007fff -> 8000\n\
    mul | smladx r5, r6, r7, r9 | smladx r5, r6, r7, r9 | 80008000 80007fff 7fffffff -> 80007fff\n\
    mul | smmulr r5, r6, r7 | smmulr r5, r6, r7 | 80008000 80007fff -> 3fff8001\n\
    simd | pkhbt r5, r6, r7 | pkhbt r5, r6, r7 | 80008000 80007fff -> 80008000\n\
    simd | pkhbt r5, r6, r7, lsl #31 | pkhbt r5, r6, r7, lsl #31 | 80008000 80007fff -> 80008000\n\
    simd | pkhtb r5, r6, r7, asr #32 | pkhtb r5, r6, r7, asr #32 | 80008000 80007fff -> 8000ffff\n\
    simd | uadd16 r5, r6, r7 | uadd16 r5, r6, r7 | 80008000 80007fff -> ffff\n\
    simd | sadd16 r5, r6, r7 | sadd16 r5, r6, r7 | 80008000 80007fff -> ffff\n\
    simd | usub16 r5, r6, r7 | usub16 r5, r6, r7 | 80008000 80007fff -> 1\n\
    simd | ssub16 r5, r6, r7 | ssub16 r5, r6, r7 | 80008000 80007fff -> 1\n\
    mul | smulbb r5, r6, r7 | smulbb r5, r6, r7 | 5b4c425 decb3b5 -> 11d68d29\n\
    mul | smlabb r5, r6, r7, r9 | smlabb r5, r6, r7, r9 | 5b4c425 decb3b5 ab68b8 -> 1281f5e1\n\
    mul | smulbt r5, r6, r7 | smulbt r5, r6, r7 | 5b4c425 decb3b5 -> fcbeb31c\n\
    mul | smlabt r5, r6, r7, r9 | smlabt r5, r6, r7, r9 | 5b4c425 decb3b5 ab68b8 -> fd6a1bd4\n\
    mul | smultb r5, r6, r7 | smultb r5, r6, r7 | 5b4c425 decb3b5 -> fe4ce444\n\
    mul | smlatb r5, r6, r7, r9 | smlatb r5, r6, r7, r9 | 5b4c425 decb3b5 ab68b8 -> fef84cfc\n\
    mul | smultt r5, r6, r7 | smultt r5, r6, r7 | 5b4c425 decb3b5 -> 4f65f0\n\
    mul | smlatt r5, r6, r7, r9 | smlatt r5, r6, r7, r9 | 5b4c425 decb3b5 ab68b8 -> facea8\n\
    mul | smulwb r5, r6, r7 | smulwb r5, r6, r7 | 5b4c425 decb3b5 -> fe4ca9cf\n\
    mul | smlawb r5, r6, r7, r9 | smlawb r5, r6, r7, r9 | 5b4c425 decb3b5 ab68b8 -> fef81287\n\
    mul | smulwt r5, r6, r7 | smulwt r5, r6, r7 | 5b4c425 decb3b5 -> 4f709a\n\
    mul | smlawt r5, r6, r7, r9 | smlawt r5, r6, r7, r9 | 5b4c425 decb3b5 ab68b8 -> fad952\n\
    mul | smuad r5, r6, r7 | smuad r5, r6, r7 | 5b4c425 decb3b5 -> 1225f319\n\
    mul | smlad r5, r6, r7, r9 | smlad r5, r6, r7, r9 | 5b4c425 decb3b5 ab68b8 -> 12d15bd1\n\
    mul | smuadx r5, r6, r7 | smuadx r5, r6, r7 | 5b4c425 decb3b5 -> fb0b9760\n\
    mul | smladx r5, r6, r7, r9 | smladx r5, r6, r7, r9 | 5b4c425 decb3b5 ab68b8 -> fbb70018\n\
    mul | smmulr r5, r6, r7 | smmulr r5, r6, r7 | 5b4c425 decb3b5 -> 4f749c\n\
    simd | pkhbt r5, r6, r7 | pkhbt r5, r6, r7 | 5b4c425 decb3b5 -> decc425\n\
    simd | pkhbt r5, r6, r7, lsl #31 | pkhbt r5, r6, r7, lsl #31 | 5b4c425 decb3b5 -> 8000c425\n\
    simd | pkhtb r5, r6, r7, asr #32 | pkhtb r5, r6, r7, asr #32 | 5b4c425 decb3b5 -> 5b40000\n\
    simd | uadd16 r5, r6, r7 | uadd16 r5, r6, r7 | 5b4c425 decb3b5 -> 13a077da\n\
    simd | sadd16 r5, r6, r7 | sadd16 r5, r6, r7 | 5b4c425 decb3b5 -> 13a077da\n\
    simd | usub16 r5, r6, r7 | usub16 r5, r6, r7 | 5b4c425 decb3b5 -> f7c81070\n\
    simd | ssub16 r5, r6, r7 | ssub16 r5, r6, r7 | 5b4c425 decb3b5 -> f7c81070\n\
    fmove | vmov s31, r6 | vmov s31, r6 | fedcba98 -> fedcba98\n\
    fmove | vmov r6, s0 | vmov r6, s0 | fedcba98 -> fedcba98\n\
    load | ldr r5, [r6] | ldr r5, [r6] | 1008 @ 9d11c645837adcfe0198a75634d28ef0 -> 837adcfe\n\
    load | ldr r5, [sp, #4] | ldr r5, [sp, #4] | 1000 @ 9d11c645837adcfe0198a75634d28ef0 -> 198a756\n\
    load | ldr r5, [r6, #0] | ldr r5, [r6] | 1000 @ 9d11c645837adcfe0198a75634d28ef0 -> 34d28ef0\n\
    load | ldr r5, [r6, #-255] | ldr r5, [r6, #-255] | 1100 @ 9d11c645837adcfe0198a75634d28ef0 -> 5634d28e\n\
    load | ldr.w r5, [r6], #-255 | ldr.w r5, [r6], #-255 | 1002 @ 9d11c645837adcfe0198a75634d28ef0 -> a75634d2 f03\n\
    load | ldr r5, [r6, #255]! | ldr r5, [r6, #255]! | f0b @ 9d11c645837adcfe0198a75634d28ef0 -> c645837a 100a\n\
    load | ldrh r5, [r6] | ldrh r5, [r6] | 1008 @ 9d11c645837adcfe0198a75634d28ef0 -> dcfe\n\
    load | ldrh r5, [sp, #4] | ldrh r5, [sp, #4] | 1000 @ 9d11c645837adcfe0198a75634d28ef0 -> a756\n\
    load | ldrh r5, [r6, #0] | ldrh r5, [r6] | 1000 @ 9d11c645837adcfe0198a75634d28ef0 -> 8ef0\n\
    load | ldrh r5, [r6, #-255] | ldrh r5, [r6, #-255] | 1100 @ 9d11c645837adcfe0198a75634d28ef0 -> d28e\n\
    load | ldrh.w r5, [r6], #-255 | ldrh.w r5, [r6], #-255 | 1002 @ 9d11c645837adcfe0198a75634d28ef0 -> 34d2 f03\n\
    load | ldrh r5, [r6, #255]! | ldrh r5, [r6, #255]! | f0b @ 9d11c645837adcfe0198a75634d28ef0 -> 837a 100a\n\
    load | ldrsh r5, [r6] | ldrsh r5, [r6] | 1008 @ 9d11c645837adcfe0198a75634d28ef0 -> ffffdcfe\n\
    load | ldrsh r5, [sp, #4] | ldrsh r5, [sp, #4] | 1000 @ 9d11c645837adcfe0198a75634d28ef0 -> ffffa756\n\
    load | ldrsh r5, [r6, #0] | ldrsh r5, [r6] | 1000 @ 9d11c645837adcfe0198a75634d28ef0 -> ffff8ef0\n\
    load | ldrsh r5, [r6, #-255] | ldrsh r5, [r6, #-255] | 1100 @ 9d11c645837adcfe0198a75634d28ef0 -> ffffd28e\n\
    load | ldrsh.w r5, [r6], #-255 | ldrsh.w r5, [r6], #-255 | 1002 @ 9d11c645837adcfe0198a75634d28ef0 -> 34d2 f03\n\
    load | ldrsh r5, [r6, #255]! | ldrsh r5, [r6, #255]! | f0b @ 9d11c645837adcfe0198a75634d28ef0 -> ffff837a 100a\n\
    load | ldrb r5, [r6] | ldrb r5, [r6] | 1008 @ 9d11c645837adcfe0198a75634d28ef0 -> fe\n\
    load | ldrb r5, [sp, #4] | ldrb r5, [sp, #4] | 1000 @ 9d11c645837adcfe0198a75634d28ef0 -> 56\n\
    load | ldrb r5, [r6, #0] | ldrb r5, [r6] | 1000 @ 9d11c645837adcfe0198a75634d28ef0 -> f0\n\
    load | ldrb r5, [r6, #-255] | ldrb r5, [r6, #-255] | 1100 @ 9d11c645837adcfe0198a75634d28ef0 -> 8e\n\
    load | ldrb.w r5, [r6], #-255 | ldrb.w r5, [r6], #-255 | 1002 @ 9d11c645837adcfe0198a75634d28ef0 -> d2 f03\n\
    load | ldrb r5, [r6, #255]! | ldrb r5, [r6, #255]! | f0b @ 9d11c645837adcfe0198a75634d28ef0 -> 7a 100a\n\
    store | str r5, [r6] | str r5, [r6] | a1b2c3d4 1008 @ 9d11c645837adcfe0198a75634d28ef0 ->  @ 9d11c645a1b2c3d40198a75634d28ef0\n\
    store | str r5, [r6, #4] | str r5, [r6, #4] | a1b2c3d4 1000 @ 9d11c645837adcfe0198a75634d28ef0 ->  @ 9d11c645837adcfea1b2c3d434d28ef0\n\
    store | str r5, [lr], #-255 | str r5, [lr], #-255 | a1b2c3d4 1003 @ 9d11c645837adcfe0198a75634d28ef0 -> f04 @ 9d11c645837adcfe01a1b2c3d4d28ef0\n\
    store | str.w r5, [r6, #0]! | str.w r5, [r6, #0]! | a1b2c3d4 1005 @ 9d11c645837adcfe0198a75634d28ef0 -> 1005 @ 9d11c645837adca1b2c3d45634d28ef0\n\
    store | strh r5, [r6] | strh r5, [r6] | a1b2c3d4 1008 @ 9d11c645837adcfe0198a75634d28ef0 ->  @ 9d11c645837ac3d40198a75634d28ef0\n\
    store | strh r5, [r6, #4] | strh r5, [r6, #4] | a1b2c3d4 1000 @ 9d11c645837adcfe0198a75634d28ef0 ->  @ 9d11c645837adcfe0198c3d434d28ef0\n\
    store | strh r5, [lr], #-255 | strh r5, [lr], #-255 | a1b2c3d4 1003 @ 9d11c645837adcfe0198a75634d28ef0 -> f04 @ 9d11c645837adcfe0198a7c3d4d28ef0\n\
    store | strh.w r5, [r6, #0]! | strh.w r5, [r6, #0]! | a1b2c3d4 1005 @ 9d11c645837adcfe0198a75634d28ef0 -> 1005 @ 9d11c645837adcfe01c3d45634d28ef0\n\
    store | strb r5, [r6] | strb r5, [r6] | a1b2c3d4 1008 @ 9d11c645837adcfe0198a75634d28ef0 ->  @ 9d11c645837adcd40198a75634d28ef0\n\
    store | strb r5, [r6, #4] | strb r5, [r6, #4] | a1b2c3d4 1000 @ 9d11c645837adcfe0198a75634d28ef0 ->  @ 9d11c645837adcfe0198a7d434d28ef0\n\
    store | strb r5, [lr], #-255 | strb r5, [lr], #-255 | a1b2c3d4 1003 @ 9d11c645837adcfe0198a75634d28ef0 -> f04 @ 9d11c645837adcfe0198a756d4d28ef0\n\
    store | strb.w r5, [r6, #0]! | strb.w r5, [r6, #0]! | a1b2c3d4 1005 @ 9d11c645837adcfe0198a75634d28ef0 -> 1005 @ 9d11c645837adcfe0198d45634d28ef0\n\
    load | ldrd r5, r7, [r6] | ldrd r5, r7, [r6] | 1004 @ 9d11c645837adcfe0198a75634d28ef0 -> 198a756 837adcfe\n\
    load | ldrd r5, r7, [r6, #-1020] | ldrd r5, r7, [r6, #-1020] | 13fc @ 9d11c645837adcfe0198a75634d28ef0 -> 34d28ef0 198a756\n\
    load | ldrd r5, r7, [r6], #1020 | ldrd r5, r7, [r6], #1020 | 1008 @ 9d11c645837adcfe0198a75634d28ef0 -> 837adcfe 9d11c645 1404\n\
    load | ldrd r5, r7, [r6, #4]! | ldrd r5, r7, [r6, #4]! | 1004 @ 9d11c645837adcfe0198a75634d28ef0 -> 837adcfe 9d11c645 1008\n\
    store | strd r5, r7, [r6] | strd r5, r7, [r6] | a1b2c3d4 15263748 1008 @ 9d11c645837adcfe0198a75634d28ef0 ->  @ 15263748a1b2c3d40198a75634d28ef0\n\
    store | strd r5, r7, [r6, #-8] | strd r5, r7, [r6, #-8] | a1b2c3d4 15263748 1008 @ 9d11c645837adcfe0198a75634d28ef0 ->  @ 9d11c645837adcfe15263748a1b2c3d4\n\
    store | strd r5, r7, [r6], #-4 | strd r5, r7, [r6], #-4 | a1b2c3d4 15263748 1001 @ 9d11c645837adcfe0198a75634d28ef0 -> ffd @ 9d11c645837adc15263748a1b2c3d4f0\n\
    store | strd.w r5, r7, [r6, #4]! | strd.w r5, r7, [r6, #4]! | a1b2c3d4 15263748 1000 @ 9d11c645837adcfe0198a75634d28ef0 -> 1004 @ 9d11c64515263748a1b2c3d434d28ef0\n",
];

// Spellings that are refused, with their reasons.
pub const REFUSED_ROWS: usize = 31;

pub const REFUSED_PARTS: [&str; 1] = [
    "\
    add.n r0, r1, r2 => UnknownMnemonic\n\
    add.w.w r0, r1, r2 => UnknownMnemonic\n\
    movz r0, #1 => UnknownMnemonic\n\
    add r0, r1, lsl #2 => BadOperand\n\
    add r13, r1, r2 => BadOperand\n\
    add x0, x1, x2 => BadOperand\n\
    vmov s32, r0 => BadOperand\n\
    pkhtb r0, r1, r2 => BadOperand\n\
    cbz r0, r1 => UnknownMnemonic\n\
    add r0, r1, #4096 => ImmediateRange\n\
    adds r0, r1, #256 => ImmediateRange\n\
    add r0, r1, r2, lsl #32 => ImmediateRange\n\
    add r0, r1, r2, lsr #0 => ImmediateRange\n\
    add r0, r1, r2, ror #32 => ImmediateRange\n\
    lsl r0, r1, #0 => ImmediateRange\n\
    asr r0, r1, #33 => ImmediateRange\n\
    pkhbt r0, r1, r2, lsl #0 => ImmediateRange\n\
    sbfx r0, r1, #31, #2 => ImmediateRange\n\
    movt r0, #65536 => ImmediateRange\n\
    ldr r0, [r1, #-256] => ImmediateRange\n\
    ldr r0, [r1], #256 => ImmediateRange\n\
    ldrd r2, r3, [r0, #2] => ImmediateRange\n\
    add sp, r0, r1 => RegisterClass\n\
    ldr r0, [sp], #4 => RegisterClass\n\
    str sp, [r0] => RegisterClass\n\
    smull r0, r0, r1, r2 => SameRegister\n\
    umaal r3, r3, r1, r2 => SameRegister\n\
    ldrd r2, r2, [r0] => SameRegister\n\
    ldr r0, [r0], #4 => SameRegister\n\
    strd r1, r0, [r0, #8]! => SameRegister\n\
    add.w<a> r0, r1, r2 => BadOperand\n",
];

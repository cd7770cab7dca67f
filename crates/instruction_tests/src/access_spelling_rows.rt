//! Spellings of each access of the table of AArch64, as `checks/tables` writes them: the greatest numbers; letters of either case, blanks and the
//! least numbers; numbers past these; registers and arrangements that the row doesn't take. A line without an arrow is printed as it stands.

pub const ROWS: usize = 952;

pub const PARTS: [&str; 5] = [
    "\
    ldr x3, [x17]\n\
    LdR  x30\t,  [ X0 ] => ldr x30, [x0]\n\
    ldr x3, [xzr] => RegisterClass\n\
    ldr x3, [w17] => BadOperand\n\
    ldr x3, [sp]\n\
    ldr xzr, [x17] => RegisterClass\n\
    ldr x17, [x17]\n\
    ldr sp, [x17] => RegisterClass\n\
    ldr v3, [x17] => BadOperand\n\
    ldr x3, [x17, #32760]\n\
    LdR  x30\t,  [ X0, #0 ] => ldr x30, [x0]\n\
    ldr x3, [x17, #32768] => ImmediateRange\n\
    ldr x30, [x0, #-8] => ImmediateRange\n\
    ldr x3, [x17, #4] => ImmediateRange\n\
    ldr x3, [xzr, #32760] => RegisterClass\n\
    ldr x3, [w17, #32760] => BadOperand\n\
    ldr x3, [sp, #32760]\n\
    ldr xzr, [x17, #32760] => RegisterClass\n\
    ldr x17, [x17, #32760]\n\
    ldr sp, [x17, #32760] => RegisterClass\n\
    ldr v3, [x17, #32760] => BadOperand\n\
    ldr x3, [x17], #255\n\
    LdR  x30\t,  [ X0 ]\t, #-256 => ldr x30, [x0], #-256\n\
    ldr x3, [x17], #256 => ImmediateRange\n\
    ldr x30, [x0], #-257 => ImmediateRange\n\
    ldr x3, [xzr], #255 => RegisterClass\n\
    ldr x3, [w17], #255 => BadOperand\n\
    ldr x3, [sp], #255 => RegisterClass\n\
    ldr xzr, [x17], #255 => RegisterClass\n\
    ldr x17, [x17], #255 => SameRegister\n\
    ldr sp, [x17], #255 => RegisterClass\n\
    ldr v3, [x17], #255 => BadOperand\n\
    ldr x3, [x17, #255]!\n\
    LdR  x30\t,  [ X0, #-256 ]! => ldr x30, [x0, #-256]!\n\
    ldr x3, [x17, #256]! => ImmediateRange\n\
    ldr x30, [x0, #-257]! => ImmediateRange\n\
    ldr x3, [xzr, #255]! => RegisterClass\n\
    ldr x3, [w17, #255]! => BadOperand\n\
    ldr x3, [sp, #255]! => RegisterClass\n\
    ldr xzr, [x17, #255]! => RegisterClass\n\
    ldr x17, [x17, #255]! => SameRegister\n\
    ldr sp, [x17, #255]! => RegisterClass\n\
    ldr v3, [x17, #255]! => BadOperand\n\
    ldr w3, [x17]\n\
    LdR  w30\t,  [ X0 ] => ldr w30, [x0]\n\
    ldr w3, [xzr] => RegisterClass\n\
    ldr w3, [w17] => BadOperand\n\
    ldr w3, [sp]\n\
    ldr wzr, [x17] => RegisterClass\n\
    ldr w17, [x17]\n\
    ldr wsp, [x17] => BadOperand\n\
    ldr v3, [x17] => BadOperand\n\
    ldr w3, [x17, #16380]\n\
    LdR  w30\t,  [ X0, #0 ] => ldr w30, [x0]\n\
    ldr w3, [x17, #16384] => ImmediateRange\n\
    ldr w30, [x0, #-4] => ImmediateRange\n\
    ldr w3, [x17, #2] => ImmediateRange\n\
    ldr w3, [xzr, #16380] => RegisterClass\n\
    ldr w3, [w17, #16380] => BadOperand\n\
    ldr w3, [sp, #16380]\n\
    ldr wzr, [x17, #16380] => RegisterClass\n\
    ldr w17, [x17, #16380]\n\
    ldr wsp, [x17, #16380] => BadOperand\n\
    ldr v3, [x17, #16380] => BadOperand\n\
    ldr w3, [x17], #255\n\
    LdR  w30\t,  [ X0 ]\t, #-256 => ldr w30, [x0], #-256\n\
    ldr w3, [x17], #256 => ImmediateRange\n\
    ldr w30, [x0], #-257 => ImmediateRange\n\
    ldr w3, [xzr], #255 => RegisterClass\n\
    ldr w3, [w17], #255 => BadOperand\n\
    ldr w3, [sp], #255 => RegisterClass\n\
    ldr wzr, [x17], #255 => RegisterClass\n\
    ldr w17, [x17], #255 => SameRegister\n\
    ldr wsp, [x17], #255 => BadOperand\n\
    ldr v3, [x17], #255 => BadOperand\n\
    ldr w3, [x17, #255]!\n\
    LdR  w30\t,  [ X0, #-256 ]! => ldr w30, [x0, #-256]!\n\
    ldr w3, [x17, #256]! => ImmediateRange\n\
    ldr w30, [x0, #-257]! => ImmediateRange\n\
    ldr w3, [xzr, #255]! => RegisterClass\n\
    ldr w3, [w17, #255]! => BadOperand\n\
    ldr w3, [sp, #255]! => RegisterClass\n\
    ldr wzr, [x17, #255]! => RegisterClass\n\
    ldr w17, [x17, #255]! => SameRegister\n\
    ldr wsp, [x17, #255]! => BadOperand\n\
    ldr v3, [x17, #255]! => BadOperand\n\
    ldr q3, [x17]\n\
    LdR  q30\t,  [ X0 ] => ldr q30, [x0]\n\
    ldr q3, [xzr] => RegisterClass\n\
    ldr q3, [w17] => BadOperand\n\
    ldr q3, [sp]\n\
    ldr q32, [x17] => BadOperand\n\
    ldr q17, [x17]\n\
    ldr v3, [x17] => BadOperand\n\
    ldr q3, [x17, #65520]\n\
    LdR  q30\t,  [ X0, #0 ] => ldr q30, [x0]\n\
    ldr q3, [x17, #65536] => ImmediateRange\n\
    ldr q30, [x0, #-16] => ImmediateRange\n\
    ldr q3, [x17, #8] => ImmediateRange\n\
    ldr q3, [xzr, #65520] => RegisterClass\n\
    ldr q3, [w17, #65520] => BadOperand\n\
    ldr q3, [sp, #65520]\n\
    ldr q32, [x17, #65520] => BadOperand\n\
    ldr q17, [x17, #65520]\n\
    ldr v3, [x17, #65520] => BadOperand\n\
    ldr q3, [x17], #255\n\
    LdR  q30\t,  [ X0 ]\t, #-256 => ldr q30, [x0], #-256\n\
    ldr q3, [x17], #256 => ImmediateRange\n\
    ldr q30, [x0], #-257 => ImmediateRange\n\
    ldr q3, [xzr], #255 => RegisterClass\n\
    ldr q3, [w17], #255 => BadOperand\n\
    ldr q3, [sp], #255 => RegisterClass\n\
    ldr q32, [x17], #255 => BadOperand\n\
    ldr q17, [x17], #255\n\
    ldr v3, [x17], #255 => BadOperand\n\
    ldr q3, [x17, #255]!\n\
    LdR  q30\t,  [ X0, #-256 ]! => ldr q30, [x0, #-256]!\n\
    ldr q3, [x17, #256]! => ImmediateRange\n\
    ldr q30, [x0, #-257]! => ImmediateRange\n\
    ldr q3, [xzr, #255]! => RegisterClass\n\
    ldr q3, [w17, #255]! => BadOperand\n\
    ldr q3, [sp, #255]! => RegisterClass\n\
    ldr q32, [x17, #255]! => BadOperand\n\
    ldr q17, [x17, #255]!\n\
    ldr v3, [x17, #255]! => BadOperand\n\
    ldr d3, [x17]\n\
    LdR  d30\t,  [ X0 ] => ldr d30, [x0]\n\
    ldr d3, [xzr] => RegisterClass\n\
    ldr d3, [w17] => BadOperand\n\
    ldr d3, [sp]\n\
    ldr d32, [x17] => BadOperand\n\
    ldr d17, [x17]\n\
    ldr v3, [x17] => BadOperand\n\
    ldr d3, [x17, #32760]\n\
    LdR  d30\t,  [ X0, #0 ] => ldr d30, [x0]\n\
    ldr d3, [x17, #32768] => ImmediateRange\n\
    ldr d30, [x0, #-8] => ImmediateRange\n\
    ldr d3, [x17, #4] => ImmediateRange\n\
    ldr d3, [xzr, #32760] => RegisterClass\n\
    ldr d3, [w17, #32760] => BadOperand\n\
    ldr d3, [sp, #32760]\n\
    ldr d32, [x17, #32760] => BadOperand\n\
    ldr d17, [x17, #32760]\n\
    ldr v3, [x17, #32760] => BadOperand\n\
    ldr d3, [x17], #255\n\
    LdR  d30\t,  [ X0 ]\t, #-256 => ldr d30, [x0], #-256\n\
    ldr d3, [x17], #256 => ImmediateRange\n\
    ldr d30, [x0], #-257 => ImmediateRange\n\
    ldr d3, [xzr], #255 => RegisterClass\n\
    ldr d3, [w17], #255 => BadOperand\n\
    ldr d3, [sp], #255 => RegisterClass\n\
    ldr d32, [x17], #255 => BadOperand\n\
    ldr d17, [x17], #255\n\
    ldr v3, [x17], #255 => BadOperand\n\
    ldr d3, [x17, #255]!\n\
    LdR  d30\t,  [ X0, #-256 ]! => ldr d30, [x0, #-256]!\n\
    ldr d3, [x17, #256]! => ImmediateRange\n\
    ldr d30, [x0, #-257]! => ImmediateRange\n\
    ldr d3, [xzr, #255]! => RegisterClass\n\
    ldr d3, [w17, #255]! => BadOperand\n\
    ldr d3, [sp, #255]! => RegisterClass\n\
    ldr d32, [x17, #255]! => BadOperand\n\
    ldr d17, [x17, #255]!\n\
    ldr v3, [x17, #255]! => BadOperand\n\
    ldr s3, [x17]\n\
    LdR  s30\t,  [ X0 ] => ldr s30, [x0]\n\
    ldr s3, [xzr] => RegisterClass\n\
    ldr s3, [w17] => BadOperand\n\
    ldr s3, [sp]\n\
    ldr s32, [x17] => BadOperand\n\
    ldr s17, [x17]\n\
    ldr v3, [x17] => BadOperand\n\
    ldr s3, [x17, #16380]\n\
    LdR  s30\t,  [ X0, #0 ] => ldr s30, [x0]\n\
    ldr s3, [x17, #16384] => ImmediateRange\n\
    ldr s30, [x0, #-4] => ImmediateRange\n\
    ldr s3, [x17, #2] => ImmediateRange\n\
    ldr s3, [xzr, #16380] => RegisterClass\n\
    ldr s3, [w17, #16380] => BadOperand\n\
    ldr s3, [sp, #16380]\n\
    ldr s32, [x17, #16380] => BadOperand\n\
    ldr s17, [x17, #16380]\n\
    ldr v3, [x17, #16380] => BadOperand\n\
    ldr s3, [x17], #255\n\
    LdR  s30\t,  [ X0 ]\t, #-256 => ldr s30, [x0], #-256\n\
    ldr s3, [x17], #256 => ImmediateRange\n\
    ldr s30, [x0], #-257 => ImmediateRange\n\
    ldr s3, [xzr], #255 => RegisterClass\n\
    ldr s3, [w17], #255 => BadOperand\n\
    ldr s3, [sp], #255 => RegisterClass\n\
    ldr s32, [x17], #255 => BadOperand\n\
    ldr s17, [x17], #255\n\
    ldr v3, [x17], #255 => BadOperand\n\
    ldr s3, [x17, #255]!\n\
    LdR  s30\t,  [ X0, #-256 ]! => ldr s30, [x0, #-256]!\n\
    ldr s3, [x17, #256]! => ImmediateRange\n\
    ldr s30, [x0, #-257]! => ImmediateRange\n\
    ldr s3, [xzr, #255]! => RegisterClass\n\
    ldr s3, [w17, #255]! => BadOperand\n\
    ldr s3, [sp, #255]! => RegisterClass\n\
    ldr s32, [x17, #255]! => BadOperand\n\
    ldr s17, [x17, #255]!\n\
    ldr v3, [x17, #255]! => BadOperand\n\
    str x3, [x17]\n\
    StR  x30\t,  [ X0 ] => str x30, [x0]\n\
    str x3, [xzr] => RegisterClass\n\
    str x3, [w17] => BadOperand\n\
    str x3, [sp]\n\
    str xzr, [x17]\n\
    str x17, [x17]\n\
    str sp, [x17] => RegisterClass\n\
    str v3, [x17] => BadOperand\n\
    str x3, [x17, #32760]\n\
    StR  x30\t,  [ X0, #0 ] => str x30, [x0]\n\
    str x3, [x17, #32768] => ImmediateRange\n\
    str x30, [x0, #-8] => ImmediateRange\n\
    str x3, [x17, #4] => ImmediateRange\n\
    str x3, [xzr, #32760] => RegisterClass\n\
    str x3, [w17, #32760] => BadOperand\n\
    str x3, [sp, #32760]\n\
    str xzr, [x17, #32760]\n\
    str x17, [x17, #32760]\n\
    str sp, [x17, #32760] => RegisterClass\n\
    str v3, [x17, #32760] => BadOperand\n\
    str x3, [x17], #255\n\
    StR  x30\t,  [ X0 ]\t, #-256 => str x30, [x0], #-256\n\
    str x3, [x17], #256 => ImmediateRange\n\
    str x30, [x0], #-257 => ImmediateRange\n\
    str x3, [xzr], #255 => RegisterClass\n\
    str x3, [w17], #255 => BadOperand\n\
    str x3, [sp], #255 => RegisterClass\n\
    str xzr, [x17], #255\n\
    str x17, [x17], #255 => SameRegister\n\
    str sp, [x17], #255 => RegisterClass\n\
    str v3, [x17], #255 => BadOperand\n\
    str x3, [x17, #255]!\n\
    StR  x30\t,  [ X0, #-256 ]! => str x30, [x0, #-256]!\n\
    str x3, [x17, #256]! => ImmediateRange\n\
    str x30, [x0, #-257]! => ImmediateRange\n\
    str x3, [xzr, #255]! => RegisterClass\n\
    str x3, [w17, #255]! => BadOperand\n\
    str x3, [sp, #255]! => RegisterClass\n\
    str xzr, [x17, #255]!",
    "\
    str x17, [x17, #255]! => SameRegister\n\
    str sp, [x17, #255]! => RegisterClass\n\
    str v3, [x17, #255]! => BadOperand\n\
    str w3, [x17]\n\
    StR  w30\t,  [ X0 ] => str w30, [x0]\n\
    str w3, [xzr] => RegisterClass\n\
    str w3, [w17] => BadOperand\n\
    str w3, [sp]\n\
    str wzr, [x17]\n\
    str w17, [x17]\n\
    str wsp, [x17] => BadOperand\n\
    str v3, [x17] => BadOperand\n\
    str w3, [x17, #16380]\n\
    StR  w30\t,  [ X0, #0 ] => str w30, [x0]\n\
    str w3, [x17, #16384] => ImmediateRange\n\
    str w30, [x0, #-4] => ImmediateRange\n\
    str w3, [x17, #2] => ImmediateRange\n\
    str w3, [xzr, #16380] => RegisterClass\n\
    str w3, [w17, #16380] => BadOperand\n\
    str w3, [sp, #16380]\n\
    str wzr, [x17, #16380]\n\
    str w17, [x17, #16380]\n\
    str wsp, [x17, #16380] => BadOperand\n\
    str v3, [x17, #16380] => BadOperand\n\
    str w3, [x17], #255\n\
    StR  w30\t,  [ X0 ]\t, #-256 => str w30, [x0], #-256\n\
    str w3, [x17], #256 => ImmediateRange\n\
    str w30, [x0], #-257 => ImmediateRange\n\
    str w3, [xzr], #255 => RegisterClass\n\
    str w3, [w17], #255 => BadOperand\n\
    str w3, [sp], #255 => RegisterClass\n\
    str wzr, [x17], #255\n\
    str w17, [x17], #255 => SameRegister\n\
    str wsp, [x17], #255 => BadOperand\n\
    str v3, [x17], #255 => BadOperand\n\
    str w3, [x17, #255]!\n\
    StR  w30\t,  [ X0, #-256 ]! => str w30, [x0, #-256]!\n\
    str w3, [x17, #256]! => ImmediateRange\n\
    str w30, [x0, #-257]! => ImmediateRange\n\
    str w3, [xzr, #255]! => RegisterClass\n\
    str w3, [w17, #255]! => BadOperand\n\
    str w3, [sp, #255]! => RegisterClass\n\
    str wzr, [x17, #255]!\n\
    str w17, [x17, #255]! => SameRegister\n\
    str wsp, [x17, #255]! => BadOperand\n\
    str v3, [x17, #255]! => BadOperand\n\
    str q3, [x17]\n\
    StR  q30\t,  [ X0 ] => str q30, [x0]\n\
    str q3, [xzr] => RegisterClass\n\
    str q3, [w17] => BadOperand\n\
    str q3, [sp]\n\
    str q32, [x17] => BadOperand\n\
    str q17, [x17]\n\
    str v3, [x17] => BadOperand\n\
    str q3, [x17, #65520]\n\
    StR  q30\t,  [ X0, #0 ] => str q30, [x0]\n\
    str q3, [x17, #65536] => ImmediateRange\n\
    str q30, [x0, #-16] => ImmediateRange\n\
    str q3, [x17, #8] => ImmediateRange\n\
    str q3, [xzr, #65520] => RegisterClass\n\
    str q3, [w17, #65520] => BadOperand\n\
    str q3, [sp, #65520]\n\
    str q32, [x17, #65520] => BadOperand\n\
    str q17, [x17, #65520]\n\
    str v3, [x17, #65520] => BadOperand\n\
    str q3, [x17], #255\n\
    StR  q30\t,  [ X0 ]\t, #-256 => str q30, [x0], #-256\n\
    str q3, [x17], #256 => ImmediateRange\n\
    str q30, [x0], #-257 => ImmediateRange\n\
    str q3, [xzr], #255 => RegisterClass\n\
    str q3, [w17], #255 => BadOperand\n\
    str q3, [sp], #255 => RegisterClass\n\
    str q32, [x17], #255 => BadOperand\n\
    str q17, [x17], #255\n\
    str v3, [x17], #255 => BadOperand\n\
    str q3, [x17, #255]!\n\
    StR  q30\t,  [ X0, #-256 ]! => str q30, [x0, #-256]!\n\
    str q3, [x17, #256]! => ImmediateRange\n\
    str q30, [x0, #-257]! => ImmediateRange\n\
    str q3, [xzr, #255]! => RegisterClass\n\
    str q3, [w17, #255]! => BadOperand\n\
    str q3, [sp, #255]! => RegisterClass\n\
    str q32, [x17, #255]! => BadOperand\n\
    str q17, [x17, #255]!\n\
    str v3, [x17, #255]! => BadOperand\n\
    str d3, [x17]\n\
    StR  d30\t,  [ X0 ] => str d30, [x0]\n\
    str d3, [xzr] => RegisterClass\n\
    str d3, [w17] => BadOperand\n\
    str d3, [sp]\n\
    str d32, [x17] => BadOperand\n\
    str d17, [x17]\n\
    str v3, [x17] => BadOperand\n\
    str d3, [x17, #32760]\n\
    StR  d30\t,  [ X0, #0 ] => str d30, [x0]\n\
    str d3, [x17, #32768] => ImmediateRange\n\
    str d30, [x0, #-8] => ImmediateRange\n\
    str d3, [x17, #4] => ImmediateRange\n\
    str d3, [xzr, #32760] => RegisterClass\n\
    str d3, [w17, #32760] => BadOperand\n\
    str d3, [sp, #32760]\n\
    str d32, [x17, #32760] => BadOperand\n\
    str d17, [x17, #32760]\n\
    str v3, [x17, #32760] => BadOperand\n\
    str d3, [x17], #255\n\
    StR  d30\t,  [ X0 ]\t, #-256 => str d30, [x0], #-256\n\
    str d3, [x17], #256 => ImmediateRange\n\
    str d30, [x0], #-257 => ImmediateRange\n\
    str d3, [xzr], #255 => RegisterClass\n\
    str d3, [w17], #255 => BadOperand\n\
    str d3, [sp], #255 => RegisterClass\n\
    str d32, [x17], #255 => BadOperand\n\
    str d17, [x17], #255\n\
    str v3, [x17], #255 => BadOperand\n\
    str d3, [x17, #255]!\n\
    StR  d30\t,  [ X0, #-256 ]! => str d30, [x0, #-256]!\n\
    str d3, [x17, #256]! => ImmediateRange\n\
    str d30, [x0, #-257]! => ImmediateRange\n\
    str d3, [xzr, #255]! => RegisterClass\n\
    str d3, [w17, #255]! => BadOperand\n\
    str d3, [sp, #255]! => RegisterClass\n\
    str d32, [x17, #255]! => BadOperand\n\
    str d17, [x17, #255]!\n\
    str v3, [x17, #255]! => BadOperand\n\
    str s3, [x17]\n\
    StR  s30\t,  [ X0 ] => str s30, [x0]\n\
    str s3, [xzr] => RegisterClass\n\
    str s3, [w17] => BadOperand\n\
    str s3, [sp]\n\
    str s32, [x17] => BadOperand\n\
    str s17, [x17]\n\
    str v3, [x17] => BadOperand\n\
    str s3, [x17, #16380]\n\
    StR  s30\t,  [ X0, #0 ] => str s30, [x0]\n\
    str s3, [x17, #16384] => ImmediateRange\n\
    str s30, [x0, #-4] => ImmediateRange\n\
    str s3, [x17, #2] => ImmediateRange\n\
    str s3, [xzr, #16380] => RegisterClass\n\
    str s3, [w17, #16380] => BadOperand\n\
    str s3, [sp, #16380]\n\
    str s32, [x17, #16380] => BadOperand\n\
    str s17, [x17, #16380]\n\
    str v3, [x17, #16380] => BadOperand\n\
    str s3, [x17], #255\n\
    StR  s30\t,  [ X0 ]\t, #-256 => str s30, [x0], #-256\n\
    str s3, [x17], #256 => ImmediateRange\n\
    str s30, [x0], #-257 => ImmediateRange\n\
    str s3, [xzr], #255 => RegisterClass\n\
    str s3, [w17], #255 => BadOperand\n\
    str s3, [sp], #255 => RegisterClass\n\
    str s32, [x17], #255 => BadOperand\n\
    str s17, [x17], #255\n\
    str v3, [x17], #255 => BadOperand\n\
    str s3, [x17, #255]!\n\
    StR  s30\t,  [ X0, #-256 ]! => str s30, [x0, #-256]!\n\
    str s3, [x17, #256]! => ImmediateRange\n\
    str s30, [x0, #-257]! => ImmediateRange\n\
    str s3, [xzr, #255]! => RegisterClass\n\
    str s3, [w17, #255]! => BadOperand\n\
    str s3, [sp, #255]! => RegisterClass\n\
    str s32, [x17, #255]! => BadOperand\n\
    str s17, [x17, #255]!\n\
    str v3, [x17, #255]! => BadOperand\n\
    ldur x3, [x17]\n\
    LdUr  X30\t,  [ x0 ] => ldur x30, [x0]\n\
    ldur x3, [xzr] => RegisterClass\n\
    ldur x3, [w17] => BadOperand\n\
    ldur x3, [sp]\n\
    ldur xzr, [x17] => RegisterClass\n\
    ldur x17, [x17]\n\
    ldur sp, [x17] => RegisterClass\n\
    ldur v3, [x17] => BadOperand\n\
    ldur x3, [x17, #255]\n\
    LdUr  X30\t,  [ x0, #-256 ] => ldur x30, [x0, #-256]\n\
    ldur x3, [x17, #256] => ImmediateRange\n\
    ldur x30, [x0, #-257] => ImmediateRange\n\
    ldur x3, [xzr, #255] => RegisterClass\n\
    ldur x3, [w17, #255] => BadOperand\n\
    ldur x3, [sp, #255]\n\
    ldur xzr, [x17, #255] => RegisterClass\n\
    ldur x17, [x17, #255]\n\
    ldur sp, [x17, #255] => RegisterClass\n\
    ldur v3, [x17, #255] => BadOperand\n\
    ldur w3, [x17]\n\
    LdUr  W30\t,  [ x0 ] => ldur w30, [x0]\n\
    ldur w3, [xzr] => RegisterClass\n\
    ldur w3, [w17] => BadOperand\n\
    ldur w3, [sp]\n\
    ldur wzr, [x17] => RegisterClass\n\
    ldur w17, [x17]\n\
    ldur wsp, [x17] => BadOperand\n\
    ldur v3, [x17] => BadOperand\n\
    ldur w3, [x17, #255]\n\
    LdUr  W30\t,  [ x0, #-256 ] => ldur w30, [x0, #-256]\n\
    ldur w3, [x17, #256] => ImmediateRange\n\
    ldur w30, [x0, #-257] => ImmediateRange\n\
    ldur w3, [xzr, #255] => RegisterClass\n\
    ldur w3, [w17, #255] => BadOperand\n\
    ldur w3, [sp, #255]\n\
    ldur wzr, [x17, #255] => RegisterClass\n\
    ldur w17, [x17, #255]\n\
    ldur wsp, [x17, #255] => BadOperand\n\
    ldur v3, [x17, #255] => BadOperand\n\
    ldur q3, [x17]\n\
    LdUr  Q30\t,  [ x0 ] => ldur q30, [x0]\n\
    ldur q3, [xzr] => RegisterClass\n\
    ldur q3, [w17] => BadOperand\n\
    ldur q3, [sp]\n\
    ldur q32, [x17] => BadOperand\n\
    ldur q17, [x17]\n\
    ldur v3, [x17] => BadOperand\n\
    ldur q3, [x17, #255]\n\
    LdUr  Q30\t,  [ x0, #-256 ] => ldur q30, [x0, #-256]\n\
    ldur q3, [x17, #256] => ImmediateRange\n\
    ldur q30, [x0, #-257] => ImmediateRange\n\
    ldur q3, [xzr, #255] => RegisterClass\n\
    ldur q3, [w17, #255] => BadOperand\n\
    ldur q3, [sp, #255]\n\
    ldur q32, [x17, #255] => BadOperand\n\
    ldur q17, [x17, #255]\n\
    ldur v3, [x17, #255] => BadOperand\n\
    ldur d3, [x17]\n\
    LdUr  D30\t,  [ x0 ] => ldur d30, [x0]\n\
    ldur d3, [xzr] => RegisterClass\n\
    ldur d3, [w17] => BadOperand\n\
    ldur d3, [sp]\n\
    ldur d32, [x17] => BadOperand\n\
    ldur d17, [x17]\n\
    ldur v3, [x17] => BadOperand\n\
    ldur d3, [x17, #255]\n\
    LdUr  D30\t,  [ x0, #-256 ] => ldur d30, [x0, #-256]\n\
    ldur d3, [x17, #256] => ImmediateRange\n\
    ldur d30, [x0, #-257] => ImmediateRange\n\
    ldur d3, [xzr, #255] => RegisterClass\n\
    ldur d3, [w17, #255] => BadOperand\n\
    ldur d3, [sp, #255]\n\
    ldur d32, [x17, #255] => BadOperand\n\
    ldur d17, [x17, #255]\n\
    ldur v3, [x17, #255] => BadOperand\n\
    ldur s3, [x17]\n\
    LdUr  S30\t,  [ x0 ] => ldur s30, [x0]\n\
    ldur s3, [xzr] => RegisterClass\n\
    ldur s3, [w17] => BadOperand\n\
    ldur s3, [sp]\n\
    ldur s32, [x17] => BadOperand\n\
    ldur s17, [x17]\n\
    ldur v3, [x17] => BadOperand\n\
    ldur s3, [x17, #255]\n\
    LdUr  S30\t,  [ x0, #-256 ] => ldur s30, [x0, #-256]\n\
    ldur s3, [x17, #256] => ImmediateRange\n\
    ldur s30, [x0, #-257] => ImmediateRange",
    "\
    ldur s3, [xzr, #255] => RegisterClass\n\
    ldur s3, [w17, #255] => BadOperand\n\
    ldur s3, [sp, #255]\n\
    ldur s32, [x17, #255] => BadOperand\n\
    ldur s17, [x17, #255]\n\
    ldur v3, [x17, #255] => BadOperand\n\
    stur x3, [x17]\n\
    StUr  X30\t,  [ x0 ] => stur x30, [x0]\n\
    stur x3, [xzr] => RegisterClass\n\
    stur x3, [w17] => BadOperand\n\
    stur x3, [sp]\n\
    stur xzr, [x17]\n\
    stur x17, [x17]\n\
    stur sp, [x17] => RegisterClass\n\
    stur v3, [x17] => BadOperand\n\
    stur x3, [x17, #255]\n\
    StUr  X30\t,  [ x0, #-256 ] => stur x30, [x0, #-256]\n\
    stur x3, [x17, #256] => ImmediateRange\n\
    stur x30, [x0, #-257] => ImmediateRange\n\
    stur x3, [xzr, #255] => RegisterClass\n\
    stur x3, [w17, #255] => BadOperand\n\
    stur x3, [sp, #255]\n\
    stur xzr, [x17, #255]\n\
    stur x17, [x17, #255]\n\
    stur sp, [x17, #255] => RegisterClass\n\
    stur v3, [x17, #255] => BadOperand\n\
    stur w3, [x17]\n\
    StUr  W30\t,  [ x0 ] => stur w30, [x0]\n\
    stur w3, [xzr] => RegisterClass\n\
    stur w3, [w17] => BadOperand\n\
    stur w3, [sp]\n\
    stur wzr, [x17]\n\
    stur w17, [x17]\n\
    stur wsp, [x17] => BadOperand\n\
    stur v3, [x17] => BadOperand\n\
    stur w3, [x17, #255]\n\
    StUr  W30\t,  [ x0, #-256 ] => stur w30, [x0, #-256]\n\
    stur w3, [x17, #256] => ImmediateRange\n\
    stur w30, [x0, #-257] => ImmediateRange\n\
    stur w3, [xzr, #255] => RegisterClass\n\
    stur w3, [w17, #255] => BadOperand\n\
    stur w3, [sp, #255]\n\
    stur wzr, [x17, #255]\n\
    stur w17, [x17, #255]\n\
    stur wsp, [x17, #255] => BadOperand\n\
    stur v3, [x17, #255] => BadOperand\n\
    stur q3, [x17]\n\
    StUr  Q30\t,  [ x0 ] => stur q30, [x0]\n\
    stur q3, [xzr] => RegisterClass\n\
    stur q3, [w17] => BadOperand\n\
    stur q3, [sp]\n\
    stur q32, [x17] => BadOperand\n\
    stur q17, [x17]\n\
    stur v3, [x17] => BadOperand\n\
    stur q3, [x17, #255]\n\
    StUr  Q30\t,  [ x0, #-256 ] => stur q30, [x0, #-256]\n\
    stur q3, [x17, #256] => ImmediateRange\n\
    stur q30, [x0, #-257] => ImmediateRange\n\
    stur q3, [xzr, #255] => RegisterClass\n\
    stur q3, [w17, #255] => BadOperand\n\
    stur q3, [sp, #255]\n\
    stur q32, [x17, #255] => BadOperand\n\
    stur q17, [x17, #255]\n\
    stur v3, [x17, #255] => BadOperand\n\
    stur d3, [x17]\n\
    StUr  D30\t,  [ x0 ] => stur d30, [x0]\n\
    stur d3, [xzr] => RegisterClass\n\
    stur d3, [w17] => BadOperand\n\
    stur d3, [sp]\n\
    stur d32, [x17] => BadOperand\n\
    stur d17, [x17]\n\
    stur v3, [x17] => BadOperand\n\
    stur d3, [x17, #255]\n\
    StUr  D30\t,  [ x0, #-256 ] => stur d30, [x0, #-256]\n\
    stur d3, [x17, #256] => ImmediateRange\n\
    stur d30, [x0, #-257] => ImmediateRange\n\
    stur d3, [xzr, #255] => RegisterClass\n\
    stur d3, [w17, #255] => BadOperand\n\
    stur d3, [sp, #255]\n\
    stur d32, [x17, #255] => BadOperand\n\
    stur d17, [x17, #255]\n\
    stur v3, [x17, #255] => BadOperand\n\
    stur s3, [x17]\n\
    StUr  S30\t,  [ x0 ] => stur s30, [x0]\n\
    stur s3, [xzr] => RegisterClass\n\
    stur s3, [w17] => BadOperand\n\
    stur s3, [sp]\n\
    stur s32, [x17] => BadOperand\n\
    stur s17, [x17]\n\
    stur v3, [x17] => BadOperand\n\
    stur s3, [x17, #255]\n\
    StUr  S30\t,  [ x0, #-256 ] => stur s30, [x0, #-256]\n\
    stur s3, [x17, #256] => ImmediateRange\n\
    stur s30, [x0, #-257] => ImmediateRange\n\
    stur s3, [xzr, #255] => RegisterClass\n\
    stur s3, [w17, #255] => BadOperand\n\
    stur s3, [sp, #255]\n\
    stur s32, [x17, #255] => BadOperand\n\
    stur s17, [x17, #255]\n\
    stur v3, [x17, #255] => BadOperand\n\
    ldp x3, x17, [x29]\n\
    LdP  x30\t, X0\t,  [ x9 ] => ldp x30, x0, [x9]\n\
    ldp x3, x17, [xzr] => RegisterClass\n\
    ldp x3, x17, [w17] => BadOperand\n\
    ldp x3, x17, [sp]\n\
    ldp xzr, x17, [x29] => RegisterClass\n\
    ldp x29, x17, [x29]\n\
    ldp sp, x17, [x29] => RegisterClass\n\
    ldp v3, x17, [x29] => BadOperand\n\
    ldp x3, xzr, [x29] => RegisterClass\n\
    ldp x3, x29, [x29]\n\
    ldp x3, sp, [x29] => RegisterClass\n\
    ldp x3, v3, [x29] => BadOperand\n\
    ldp x3, x3, [x29] => SameRegister\n\
    ldp x3, x17, [x29, #504]\n\
    LdP  x30\t, X0\t,  [ x9, #-512 ] => ldp x30, x0, [x9, #-512]\n\
    ldp x3, x17, [x29, #512] => ImmediateRange\n\
    ldp x30, x0, [x9, #-520] => ImmediateRange\n\
    ldp x3, x17, [x29, #4] => ImmediateRange\n\
    ldp x3, x17, [xzr, #504] => RegisterClass\n\
    ldp x3, x17, [w17, #504] => BadOperand\n\
    ldp x3, x17, [sp, #504]\n\
    ldp xzr, x17, [x29, #504] => RegisterClass\n\
    ldp x29, x17, [x29, #504]\n\
    ldp sp, x17, [x29, #504] => RegisterClass\n\
    ldp v3, x17, [x29, #504] => BadOperand\n\
    ldp x3, xzr, [x29, #504] => RegisterClass\n\
    ldp x3, x29, [x29, #504]\n\
    ldp x3, sp, [x29, #504] => RegisterClass\n\
    ldp x3, v3, [x29, #504] => BadOperand\n\
    ldp x3, x3, [x29, #504] => SameRegister\n\
    ldp x3, x17, [x29], #504\n\
    LdP  x30\t, X0\t,  [ x9 ]\t, #-512 => ldp x30, x0, [x9], #-512\n\
    ldp x3, x17, [x29], #512 => ImmediateRange\n\
    ldp x30, x0, [x9], #-520 => ImmediateRange\n\
    ldp x3, x17, [x29], #4 => ImmediateRange\n\
    ldp x3, x17, [xzr], #504 => RegisterClass\n\
    ldp x3, x17, [w17], #504 => BadOperand\n\
    ldp x3, x17, [sp], #504 => RegisterClass\n\
    ldp xzr, x17, [x29], #504 => RegisterClass\n\
    ldp x29, x17, [x29], #504 => SameRegister\n\
    ldp sp, x17, [x29], #504 => RegisterClass\n\
    ldp v3, x17, [x29], #504 => BadOperand\n\
    ldp x3, xzr, [x29], #504 => RegisterClass\n\
    ldp x3, x29, [x29], #504 => SameRegister\n\
    ldp x3, sp, [x29], #504 => RegisterClass\n\
    ldp x3, v3, [x29], #504 => BadOperand\n\
    ldp x3, x3, [x29], #504 => SameRegister\n\
    ldp x3, x17, [x29, #504]!\n\
    LdP  x30\t, X0\t,  [ x9, #-512 ]! => ldp x30, x0, [x9, #-512]!\n\
    ldp x3, x17, [x29, #512]! => ImmediateRange\n\
    ldp x30, x0, [x9, #-520]! => ImmediateRange\n\
    ldp x3, x17, [x29, #4]! => ImmediateRange\n\
    ldp x3, x17, [xzr, #504]! => RegisterClass\n\
    ldp x3, x17, [w17, #504]! => BadOperand\n\
    ldp x3, x17, [sp, #504]! => RegisterClass\n\
    ldp xzr, x17, [x29, #504]! => RegisterClass\n\
    ldp x29, x17, [x29, #504]! => SameRegister\n\
    ldp sp, x17, [x29, #504]! => RegisterClass\n\
    ldp v3, x17, [x29, #504]! => BadOperand\n\
    ldp x3, xzr, [x29, #504]! => RegisterClass\n\
    ldp x3, x29, [x29, #504]! => SameRegister\n\
    ldp x3, sp, [x29, #504]! => RegisterClass\n\
    ldp x3, v3, [x29, #504]! => BadOperand\n\
    ldp x3, x3, [x29, #504]! => SameRegister\n\
    ldp d3, d17, [x29]\n\
    LdP  d30\t, D0\t,  [ x9 ] => ldp d30, d0, [x9]\n\
    ldp d3, d17, [xzr] => RegisterClass\n\
    ldp d3, d17, [w17] => BadOperand\n\
    ldp d3, d17, [sp]\n\
    ldp d32, d17, [x29] => BadOperand\n\
    ldp d29, d17, [x29]\n\
    ldp v3, d17, [x29] => BadOperand\n\
    ldp d3, d32, [x29] => BadOperand\n\
    ldp d3, d29, [x29]\n\
    ldp d3, v3, [x29] => BadOperand\n\
    ldp d3, d3, [x29] => SameRegister\n\
    ldp d3, d17, [x29, #504]\n\
    LdP  d30\t, D0\t,  [ x9, #-512 ] => ldp d30, d0, [x9, #-512]\n\
    ldp d3, d17, [x29, #512] => ImmediateRange\n\
    ldp d30, d0, [x9, #-520] => ImmediateRange\n\
    ldp d3, d17, [x29, #4] => ImmediateRange\n\
    ldp d3, d17, [xzr, #504] => RegisterClass\n\
    ldp d3, d17, [w17, #504] => BadOperand\n\
    ldp d3, d17, [sp, #504]\n\
    ldp d32, d17, [x29, #504] => BadOperand\n\
    ldp d29, d17, [x29, #504]\n\
    ldp v3, d17, [x29, #504] => BadOperand\n\
    ldp d3, d32, [x29, #504] => BadOperand\n\
    ldp d3, d29, [x29, #504]\n\
    ldp d3, v3, [x29, #504] => BadOperand\n\
    ldp d3, d3, [x29, #504] => SameRegister\n\
    ldp d3, d17, [x29], #504\n\
    LdP  d30\t, D0\t,  [ x9 ]\t, #-512 => ldp d30, d0, [x9], #-512\n\
    ldp d3, d17, [x29], #512 => ImmediateRange\n\
    ldp d30, d0, [x9], #-520 => ImmediateRange\n\
    ldp d3, d17, [x29], #4 => ImmediateRange\n\
    ldp d3, d17, [xzr], #504 => RegisterClass\n\
    ldp d3, d17, [w17], #504 => BadOperand\n\
    ldp d3, d17, [sp], #504 => RegisterClass\n\
    ldp d32, d17, [x29], #504 => BadOperand\n\
    ldp d29, d17, [x29], #504\n\
    ldp v3, d17, [x29], #504 => BadOperand\n\
    ldp d3, d32, [x29], #504 => BadOperand\n\
    ldp d3, d29, [x29], #504\n\
    ldp d3, v3, [x29], #504 => BadOperand\n\
    ldp d3, d3, [x29], #504 => SameRegister\n\
    ldp d3, d17, [x29, #504]!\n\
    LdP  d30\t, D0\t,  [ x9, #-512 ]! => ldp d30, d0, [x9, #-512]!\n\
    ldp d3, d17, [x29, #512]! => ImmediateRange\n\
    ldp d30, d0, [x9, #-520]! => ImmediateRange\n\
    ldp d3, d17, [x29, #4]! => ImmediateRange\n\
    ldp d3, d17, [xzr, #504]! => RegisterClass\n\
    ldp d3, d17, [w17, #504]! => BadOperand\n\
    ldp d3, d17, [sp, #504]! => RegisterClass\n\
    ldp d32, d17, [x29, #504]! => BadOperand\n\
    ldp d29, d17, [x29, #504]!\n\
    ldp v3, d17, [x29, #504]! => BadOperand\n\
    ldp d3, d32, [x29, #504]! => BadOperand\n\
    ldp d3, d29, [x29, #504]!\n\
    ldp d3, v3, [x29, #504]! => BadOperand\n\
    ldp d3, d3, [x29, #504]! => SameRegister\n\
    ldp q3, q17, [x29]\n\
    LdP  q30\t, Q0\t,  [ x9 ] => ldp q30, q0, [x9]\n\
    ldp q3, q17, [xzr] => RegisterClass\n\
    ldp q3, q17, [w17] => BadOperand\n\
    ldp q3, q17, [sp]\n\
    ldp q32, q17, [x29] => BadOperand\n\
    ldp q29, q17, [x29]\n\
    ldp v3, q17, [x29] => BadOperand\n\
    ldp q3, q32, [x29] => BadOperand\n\
    ldp q3, q29, [x29]\n\
    ldp q3, v3, [x29] => BadOperand\n\
    ldp q3, q3, [x29] => SameRegister\n\
    ldp q3, q17, [x29, #1008]",
    "\
    LdP  q30\t, Q0\t,  [ x9, #-1024 ] => ldp q30, q0, [x9, #-1024]\n\
    ldp q3, q17, [x29, #1024] => ImmediateRange\n\
    ldp q30, q0, [x9, #-1040] => ImmediateRange\n\
    ldp q3, q17, [x29, #8] => ImmediateRange\n\
    ldp q3, q17, [xzr, #1008] => RegisterClass\n\
    ldp q3, q17, [w17, #1008] => BadOperand\n\
    ldp q3, q17, [sp, #1008]\n\
    ldp q32, q17, [x29, #1008] => BadOperand\n\
    ldp q29, q17, [x29, #1008]\n\
    ldp v3, q17, [x29, #1008] => BadOperand\n\
    ldp q3, q32, [x29, #1008] => BadOperand\n\
    ldp q3, q29, [x29, #1008]\n\
    ldp q3, v3, [x29, #1008] => BadOperand\n\
    ldp q3, q3, [x29, #1008] => SameRegister\n\
    ldp q3, q17, [x29], #1008\n\
    LdP  q30\t, Q0\t,  [ x9 ]\t, #-1024 => ldp q30, q0, [x9], #-1024\n\
    ldp q3, q17, [x29], #1024 => ImmediateRange\n\
    ldp q30, q0, [x9], #-1040 => ImmediateRange\n\
    ldp q3, q17, [x29], #8 => ImmediateRange\n\
    ldp q3, q17, [xzr], #1008 => RegisterClass\n\
    ldp q3, q17, [w17], #1008 => BadOperand\n\
    ldp q3, q17, [sp], #1008 => RegisterClass\n\
    ldp q32, q17, [x29], #1008 => BadOperand\n\
    ldp q29, q17, [x29], #1008\n\
    ldp v3, q17, [x29], #1008 => BadOperand\n\
    ldp q3, q32, [x29], #1008 => BadOperand\n\
    ldp q3, q29, [x29], #1008\n\
    ldp q3, v3, [x29], #1008 => BadOperand\n\
    ldp q3, q3, [x29], #1008 => SameRegister\n\
    ldp q3, q17, [x29, #1008]!\n\
    LdP  q30\t, Q0\t,  [ x9, #-1024 ]! => ldp q30, q0, [x9, #-1024]!\n\
    ldp q3, q17, [x29, #1024]! => ImmediateRange\n\
    ldp q30, q0, [x9, #-1040]! => ImmediateRange\n\
    ldp q3, q17, [x29, #8]! => ImmediateRange\n\
    ldp q3, q17, [xzr, #1008]! => RegisterClass\n\
    ldp q3, q17, [w17, #1008]! => BadOperand\n\
    ldp q3, q17, [sp, #1008]! => RegisterClass\n\
    ldp q32, q17, [x29, #1008]! => BadOperand\n\
    ldp q29, q17, [x29, #1008]!\n\
    ldp v3, q17, [x29, #1008]! => BadOperand\n\
    ldp q3, q32, [x29, #1008]! => BadOperand\n\
    ldp q3, q29, [x29, #1008]!\n\
    ldp q3, v3, [x29, #1008]! => BadOperand\n\
    ldp q3, q3, [x29, #1008]! => SameRegister\n\
    stp x3, x17, [x29]\n\
    StP  x30\t, X0\t,  [ x9 ] => stp x30, x0, [x9]\n\
    stp x3, x17, [xzr] => RegisterClass\n\
    stp x3, x17, [w17] => BadOperand\n\
    stp x3, x17, [sp]\n\
    stp xzr, x17, [x29]\n\
    stp x29, x17, [x29]\n\
    stp sp, x17, [x29] => RegisterClass\n\
    stp v3, x17, [x29] => BadOperand\n\
    stp x3, xzr, [x29]\n\
    stp x3, x29, [x29]\n\
    stp x3, sp, [x29] => RegisterClass\n\
    stp x3, v3, [x29] => BadOperand\n\
    stp x3, x3, [x29]\n\
    stp x3, x17, [x29, #504]\n\
    StP  x30\t, X0\t,  [ x9, #-512 ] => stp x30, x0, [x9, #-512]\n\
    stp x3, x17, [x29, #512] => ImmediateRange\n\
    stp x30, x0, [x9, #-520] => ImmediateRange\n\
    stp x3, x17, [x29, #4] => ImmediateRange\n\
    stp x3, x17, [xzr, #504] => RegisterClass\n\
    stp x3, x17, [w17, #504] => BadOperand\n\
    stp x3, x17, [sp, #504]\n\
    stp xzr, x17, [x29, #504]\n\
    stp x29, x17, [x29, #504]\n\
    stp sp, x17, [x29, #504] => RegisterClass\n\
    stp v3, x17, [x29, #504] => BadOperand\n\
    stp x3, xzr, [x29, #504]\n\
    stp x3, x29, [x29, #504]\n\
    stp x3, sp, [x29, #504] => RegisterClass\n\
    stp x3, v3, [x29, #504] => BadOperand\n\
    stp x3, x3, [x29, #504]\n\
    stp x3, x17, [x29], #504\n\
    StP  x30\t, X0\t,  [ x9 ]\t, #-512 => stp x30, x0, [x9], #-512\n\
    stp x3, x17, [x29], #512 => ImmediateRange\n\
    stp x30, x0, [x9], #-520 => ImmediateRange\n\
    stp x3, x17, [x29], #4 => ImmediateRange\n\
    stp x3, x17, [xzr], #504 => RegisterClass\n\
    stp x3, x17, [w17], #504 => BadOperand\n\
    stp x3, x17, [sp], #504 => RegisterClass\n\
    stp xzr, x17, [x29], #504\n\
    stp x29, x17, [x29], #504 => SameRegister\n\
    stp sp, x17, [x29], #504 => RegisterClass\n\
    stp v3, x17, [x29], #504 => BadOperand\n\
    stp x3, xzr, [x29], #504\n\
    stp x3, x29, [x29], #504 => SameRegister\n\
    stp x3, sp, [x29], #504 => RegisterClass\n\
    stp x3, v3, [x29], #504 => BadOperand\n\
    stp x3, x3, [x29], #504\n\
    stp x3, x17, [x29, #504]!\n\
    StP  x30\t, X0\t,  [ x9, #-512 ]! => stp x30, x0, [x9, #-512]!\n\
    stp x3, x17, [x29, #512]! => ImmediateRange\n\
    stp x30, x0, [x9, #-520]! => ImmediateRange\n\
    stp x3, x17, [x29, #4]! => ImmediateRange\n\
    stp x3, x17, [xzr, #504]! => RegisterClass\n\
    stp x3, x17, [w17, #504]! => BadOperand\n\
    stp x3, x17, [sp, #504]! => RegisterClass\n\
    stp xzr, x17, [x29, #504]!\n\
    stp x29, x17, [x29, #504]! => SameRegister\n\
    stp sp, x17, [x29, #504]! => RegisterClass\n\
    stp v3, x17, [x29, #504]! => BadOperand\n\
    stp x3, xzr, [x29, #504]!\n\
    stp x3, x29, [x29, #504]! => SameRegister\n\
    stp x3, sp, [x29, #504]! => RegisterClass\n\
    stp x3, v3, [x29, #504]! => BadOperand\n\
    stp x3, x3, [x29, #504]!\n\
    stp d3, d17, [x29]\n\
    StP  d30\t, D0\t,  [ x9 ] => stp d30, d0, [x9]\n\
    stp d3, d17, [xzr] => RegisterClass\n\
    stp d3, d17, [w17] => BadOperand\n\
    stp d3, d17, [sp]\n\
    stp d32, d17, [x29] => BadOperand\n\
    stp d29, d17, [x29]\n\
    stp v3, d17, [x29] => BadOperand\n\
    stp d3, d32, [x29] => BadOperand\n\
    stp d3, d29, [x29]\n\
    stp d3, v3, [x29] => BadOperand\n\
    stp d3, d3, [x29]\n\
    stp d3, d17, [x29, #504]\n\
    StP  d30\t, D0\t,  [ x9, #-512 ] => stp d30, d0, [x9, #-512]\n\
    stp d3, d17, [x29, #512] => ImmediateRange\n\
    stp d30, d0, [x9, #-520] => ImmediateRange\n\
    stp d3, d17, [x29, #4] => ImmediateRange\n\
    stp d3, d17, [xzr, #504] => RegisterClass\n\
    stp d3, d17, [w17, #504] => BadOperand\n\
    stp d3, d17, [sp, #504]\n\
    stp d32, d17, [x29, #504] => BadOperand\n\
    stp d29, d17, [x29, #504]\n\
    stp v3, d17, [x29, #504] => BadOperand\n\
    stp d3, d32, [x29, #504] => BadOperand\n\
    stp d3, d29, [x29, #504]\n\
    stp d3, v3, [x29, #504] => BadOperand\n\
    stp d3, d3, [x29, #504]\n\
    stp d3, d17, [x29], #504\n\
    StP  d30\t, D0\t,  [ x9 ]\t, #-512 => stp d30, d0, [x9], #-512\n\
    stp d3, d17, [x29], #512 => ImmediateRange\n\
    stp d30, d0, [x9], #-520 => ImmediateRange\n\
    stp d3, d17, [x29], #4 => ImmediateRange\n\
    stp d3, d17, [xzr], #504 => RegisterClass\n\
    stp d3, d17, [w17], #504 => BadOperand\n\
    stp d3, d17, [sp], #504 => RegisterClass\n\
    stp d32, d17, [x29], #504 => BadOperand\n\
    stp d29, d17, [x29], #504\n\
    stp v3, d17, [x29], #504 => BadOperand\n\
    stp d3, d32, [x29], #504 => BadOperand\n\
    stp d3, d29, [x29], #504\n\
    stp d3, v3, [x29], #504 => BadOperand\n\
    stp d3, d3, [x29], #504\n\
    stp d3, d17, [x29, #504]!\n\
    StP  d30\t, D0\t,  [ x9, #-512 ]! => stp d30, d0, [x9, #-512]!\n\
    stp d3, d17, [x29, #512]! => ImmediateRange\n\
    stp d30, d0, [x9, #-520]! => ImmediateRange\n\
    stp d3, d17, [x29, #4]! => ImmediateRange\n\
    stp d3, d17, [xzr, #504]! => RegisterClass\n\
    stp d3, d17, [w17, #504]! => BadOperand\n\
    stp d3, d17, [sp, #504]! => RegisterClass\n\
    stp d32, d17, [x29, #504]! => BadOperand\n\
    stp d29, d17, [x29, #504]!\n\
    stp v3, d17, [x29, #504]! => BadOperand\n\
    stp d3, d32, [x29, #504]! => BadOperand\n\
    stp d3, d29, [x29, #504]!\n\
    stp d3, v3, [x29, #504]! => BadOperand\n\
    stp d3, d3, [x29, #504]!\n\
    stp q3, q17, [x29]\n\
    StP  q30\t, Q0\t,  [ x9 ] => stp q30, q0, [x9]\n\
    stp q3, q17, [xzr] => RegisterClass\n\
    stp q3, q17, [w17] => BadOperand\n\
    stp q3, q17, [sp]\n\
    stp q32, q17, [x29] => BadOperand\n\
    stp q29, q17, [x29]\n\
    stp v3, q17, [x29] => BadOperand\n\
    stp q3, q32, [x29] => BadOperand\n\
    stp q3, q29, [x29]\n\
    stp q3, v3, [x29] => BadOperand\n\
    stp q3, q3, [x29]\n\
    stp q3, q17, [x29, #1008]\n\
    StP  q30\t, Q0\t,  [ x9, #-1024 ] => stp q30, q0, [x9, #-1024]\n\
    stp q3, q17, [x29, #1024] => ImmediateRange\n\
    stp q30, q0, [x9, #-1040] => ImmediateRange\n\
    stp q3, q17, [x29, #8] => ImmediateRange\n\
    stp q3, q17, [xzr, #1008] => RegisterClass\n\
    stp q3, q17, [w17, #1008] => BadOperand\n\
    stp q3, q17, [sp, #1008]\n\
    stp q32, q17, [x29, #1008] => BadOperand\n\
    stp q29, q17, [x29, #1008]\n\
    stp v3, q17, [x29, #1008] => BadOperand\n\
    stp q3, q32, [x29, #1008] => BadOperand\n\
    stp q3, q29, [x29, #1008]\n\
    stp q3, v3, [x29, #1008] => BadOperand\n\
    stp q3, q3, [x29, #1008]\n\
    stp q3, q17, [x29], #1008\n\
    StP  q30\t, Q0\t,  [ x9 ]\t, #-1024 => stp q30, q0, [x9], #-1024\n\
    stp q3, q17, [x29], #1024 => ImmediateRange\n\
    stp q30, q0, [x9], #-1040 => ImmediateRange\n\
    stp q3, q17, [x29], #8 => ImmediateRange\n\
    stp q3, q17, [xzr], #1008 => RegisterClass\n\
    stp q3, q17, [w17], #1008 => BadOperand\n\
    stp q3, q17, [sp], #1008 => RegisterClass\n\
    stp q32, q17, [x29], #1008 => BadOperand\n\
    stp q29, q17, [x29], #1008\n\
    stp v3, q17, [x29], #1008 => BadOperand\n\
    stp q3, q32, [x29], #1008 => BadOperand\n\
    stp q3, q29, [x29], #1008\n\
    stp q3, v3, [x29], #1008 => BadOperand\n\
    stp q3, q3, [x29], #1008\n\
    stp q3, q17, [x29, #1008]!\n\
    StP  q30\t, Q0\t,  [ x9, #-1024 ]! => stp q30, q0, [x9, #-1024]!\n\
    stp q3, q17, [x29, #1024]! => ImmediateRange\n\
    stp q30, q0, [x9, #-1040]! => ImmediateRange\n\
    stp q3, q17, [x29, #8]! => ImmediateRange\n\
    stp q3, q17, [xzr, #1008]! => RegisterClass\n\
    stp q3, q17, [w17, #1008]! => BadOperand\n\
    stp q3, q17, [sp, #1008]! => RegisterClass",
    "\
    stp q32, q17, [x29, #1008]! => BadOperand\n\
    stp q29, q17, [x29, #1008]!\n\
    stp v3, q17, [x29, #1008]! => BadOperand\n\
    stp q3, q32, [x29, #1008]! => BadOperand\n\
    stp q3, q29, [x29, #1008]!\n\
    stp q3, v3, [x29, #1008]! => BadOperand\n\
    stp q3, q3, [x29, #1008]!",
];

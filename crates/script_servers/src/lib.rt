// Servers that scripts play. A server's file is a page file, and the machine that runs pages runs it.
//
// A request is told in registers 0 to 4: 6 (a page asks) or 7 (a page is asked for), the body's length, the number of the
// asking site or 16, the path's length, the token's length or 65 for none; body, path and token lie in memory from place
// 0 on. The script answers by waiting for nothing, with register 8 at
// 6: the code is in register 9, whom it allows in 10 (a site's number, 16 nobody, 17 everybody), the body in 11 and 12, the
//    token in 13 and 14 (a length over 64: none);
// 7: the bytes that 11 and 12 name are the answer, as they are.
// Anything else, a fault, and 10,000 steps without a wait are an answer of no bytes, which nobody can read.
#![tactic(auto)]

pub mod family;
pub mod server;

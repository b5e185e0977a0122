// Texts that are refused: line, column and what was expected.
use assembler::assemble;
use script_lines::{Expected, Operand};

fn refused(text: &[u8]) -> Option<(usize, usize, Expected)> {
    let mut page = [0; 16008];
    match assemble(text, &mut page) {
        Ok(_) => None,
        Err(refusal) => Some((refusal.line, refusal.column, refusal.expected)),
    }
}

#[test]
fn operands_have_their_ranges(rt: HostRuntime) {
    let cases: [(&[u8], usize, Operand); 8] = [
        (b"move r1 r32", 9, Operand::Register),
        (b"move r1", 8, Operand::Register),
        (b"const r1 4294967296", 10, Operand::Number),
        (b"const r1 0x", 10, Operand::Number),
        (b"step 0 0 256 0 0", 10, Operand::Byte),
        (b"step 11 0 0 0 0", 6, Operand::Kind),
        (b"step 10 0 0 0 6", 15, Operand::Call),
        (b"data 4096 r1 r2 00", 6, Operand::Place),
    ];
    for (text, column, operand) in cases {
        assert_eq!(rt;
            refused(text),
            Some((1, column, Expected::Operand(operand)))
        );
    }
}

#[test]
fn the_first_refusal_is_named(rt: HostRuntime) {
    let cases: [(&[u8], usize, usize, Expected); 11] = [
        (b"wait\n\n  mov r1 r2\n", 3, 3, Expected::Mnemonic),
        (b"1:", 1, 1, Expected::Mnemonic),
        (b"jump 9x", 1, 6, Expected::Target),
        (b"data 0 r1 r2 abc", 1, 14, Expected::Bytes),
        (b"data 0 r1 r2 \"abc", 1, 14, Expected::Bytes),
        (b"data 4095 r1 r2 \"ab\"", 1, 17, Expected::Memory),
        (b"wait 1", 1, 6, Expected::LineEnd),
        (b"a: wait", 1, 4, Expected::LineEnd),
        (b"a:\nwait\n a:\n", 3, 2, Expected::NewLabel),
        (b"jump a\nmov\n", 1, 6, Expected::KnownLabel),
        (b"jump a\nmov\na:\n", 2, 1, Expected::Mnemonic),
    ];
    for (text, line, column, expected) in cases {
        assert_eq!(rt; refused(text), Some((line, column, expected)));
    }
}

#[test]
fn a_script_has_at_most_2000_steps(rt: HostRuntime) {
    let mut text = [b'a'; 682];
    text[0..14].copy_from_slice(b"data 0 r1 r2 \"");
    text[680] = b'"';
    text[681] = b'\n';
    assert_eq!(rt; refused(&text), None);
    text[680] = b'a';
    text[681] = b'"';
    assert_eq!(rt; refused(&text), Some((1, 1, Expected::FewerSteps)));
}

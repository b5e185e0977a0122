// Page files that are disassembled.
use disassembler::disassemble;
use scripts::Unreadable;

// Is the page's text this one?
fn says(page: &[u8], text: &[u8]) -> bool {
    let mut out = [0; 256];
    match disassemble(page, &mut out) {
        Ok(Some(size)) if size <= 256 => &out[0..size] == text,
        _ => false,
    }
}

#[test]
fn a_step_is_written_by_its_mnemonic_or_raw(rt: HostRuntime) {
    assert!(rt; says(b"PAGE 1\x00\x00", b""));
    assert!(rt;
        says(
            b"PAGE 1\x00\x01\x07\x1f\x00\x00\x00\x00\x01\x00",
            b"jump_if r31 256\n",
        )
    );
    assert!(rt;
        says(
            b"PAGE 1\x00\x01\x0a\x01\x02\x03\x00\x00\x00\x01",
            b"ask r1 r2 r3\n",
        )
    );
    assert!(rt;
        says(
            b"PAGE 1\x00\x01\x07\x20\x00\x00\x00\x00\x01\x00",
            b"step 7 32 0 0 256\n",
        )
    );
    assert!(rt;
        says(
            b"PAGE 1\x00\x01\x0a\x00\x00\x01\x00\x00\x00\x00",
            b"step 10 0 0 1 0\n",
        )
    );
    assert!(rt;
        says(
            b"PAGE 1\x00\x01\x01\x01\x02\x00\x00\x00\x00\x01",
            b"step 1 1 2 0 1\n",
        )
    );
}

#[test]
fn what_is_no_page_has_no_text(rt: HostRuntime) {
    let mut out = [7; 4];
    assert!(rt;
        matches!(
            disassemble(b"PAGE 2\x00\x00", &mut out),
            Err(Unreadable::OtherKind)
        )
    );
    let unknown = b"PAGE 1\x00\x01\x0a\x00\x00\x00\x00\x00\x00\x06";
    assert!(rt; matches!(disassemble(unknown, &mut out), Err(Unreadable::UnknownStep)));
    let wait = b"PAGE 1\x00\x01\x0a\x00\x00\x00\x00\x00\x00\x00";
    assert!(rt; matches!(disassemble(wait, &mut out), Ok(None)));
    assert!(rt; out == [7; 4]);
}

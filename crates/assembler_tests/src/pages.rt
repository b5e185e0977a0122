// Texts that are assembled.
use assembler::assemble;

// The step that a text of one line stands for.
fn step_of(text: &[u8]) -> Option<[u8; 8]> {
    let mut page = [0; 16];
    match assemble(text, &mut page) {
        Ok(Some(16)) => {
            let [_, _, _, _, _, _, _, _, k, a, b, c, w, x, y, z] = page;
            Some([k, a, b, c, w, x, y, z])
        }
        _ => None,
    }
}

// Are two texts assembled, and to the same page?
fn same(a: &[u8], b: &[u8]) -> bool {
    let mut p = [0; 256];
    let mut q = [0; 256];
    match (assemble(a, &mut p), assemble(b, &mut q)) {
        (Ok(Some(m)), Ok(Some(n))) => m == n && p == q,
        _ => false,
    }
}

#[test]
fn each_mnemonic_has_its_step(rt: HostRuntime) {
    let cases: [(&[u8], [u8; 8]); 10] = [
        (b"const r31 4294967295", [0, 31, 0, 0, 255, 255, 255, 255]),
        (b"move r1 r2", [1, 1, 2, 0, 0, 0, 0, 0]),
        (b"sum r1 r2 r3", [2, 1, 2, 3, 0, 0, 0, 0]),
        (b"product r1 r2 r3", [3, 1, 2, 3, 0, 0, 0, 0]),
        (b"equal r1 r2 r3", [4, 1, 2, 3, 0, 0, 0, 0]),
        (b"less r1 r2 r3", [5, 1, 2, 3, 0, 0, 0, 0]),
        (b"jump 258", [6, 0, 0, 0, 0, 0, 1, 2]),
        (b"jump_if r4 0x10000", [7, 4, 0, 0, 0, 1, 0, 0]),
        (b"load r1 r2", [8, 1, 2, 0, 0, 0, 0, 0]),
        (b"store r1 r2", [9, 1, 2, 0, 0, 0, 0, 0]),
    ];
    for (text, step) in cases {
        assert_eq!(rt; step_of(text), Some(step));
    }
}

#[test]
fn each_wait_has_its_number(rt: HostRuntime) {
    let cases: [(&[u8], [u8; 8]); 8] = [
        (b"wait", [10, 0, 0, 0, 0, 0, 0, 0]),
        (b"ask r1 r2 r3", [10, 1, 2, 3, 0, 0, 0, 1]),
        (b"say r1 r2 r3", [10, 1, 2, 3, 0, 0, 0, 2]),
        (b"keep r1", [10, 1, 0, 0, 0, 0, 0, 3]),
        (b"look", [10, 0, 0, 0, 0, 0, 0, 4]),
        (b"open r1 r2", [10, 1, 2, 0, 0, 0, 0, 5]),
        (b"step 10 255 32 1 5", [10, 255, 32, 1, 0, 0, 0, 5]),
        (b"\t const r1 '~' ; a comment", [0, 1, 0, 0, 0, 0, 0, 126]),
    ];
    for (text, step) in cases {
        assert_eq!(rt; step_of(text), Some(step));
    }
}

#[test]
fn labels_are_found_before_and_after(rt: HostRuntime) {
    let named = b"top:\n jump end\n data 0 r1 r2 \"ab\"\n jump_if r3 top\nend:\n";
    let counted = b"jump 8\n data 0 r1 r2 \"ab\"\n jump_if r3 0\n";
    assert!(rt; same(named, counted));
}

#[test]
fn data_is_three_steps_a_byte(rt: HostRuntime) {
    let steps = b"const r1 9\nconst r2 59\nstore r1 r2\nconst r1 10\nconst r2 255\nstore r1 r2\n";
    assert!(rt; same(b"data 9 r1 r2 3bFF", steps));
    assert!(rt; same(b"data 9 r1 r2 \";\"\ndata 10 r1 r2 ff", steps));
    assert!(rt; same(b"data 9 r1 r2 \"\"", b""));
}

#[test]
fn a_buffer_without_room_is_left_alone(rt: HostRuntime) {
    let mut page = [7; 15];
    assert!(rt; matches!(assemble(b"wait", &mut page), Ok(None)));
    assert!(rt; page == [7; 15]);
}

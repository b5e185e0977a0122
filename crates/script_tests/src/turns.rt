// Turns: what a script is told, what it does, and how long it runs.
use machine::{Act, Machine, Outcome, Span, Told};
use scripts::{Call, Step};

// Says the number in a register, as a window's number.
fn say(register: u8) -> Step {
    Step::Wait(Call::Say {
        window: register,
        site: 30,
        bytes: 30,
    })
}

fn said(window: u32) -> Outcome {
    Outcome::Did(Act::Say {
        window,
        site: 0,
        bytes: Span { from: 0, len: 0 },
    })
}

#[test]
fn what_is_told_is_in_the_first_four_registers(rt: HostRuntime) {
    let cases: [(Told, [u32; 4], [u8; 4]); 6] = [
        (Told::Silence, [0, 0, 0, 0], [7, 7, 7, 7]),
        (Told::Begun, [1, 3, 0, 0], [b'/', b'a', b'b', 7]),
        (
            Told::Answer { site: 2, code: 404 },
            [2, 3, 2, 404],
            [b'/', b'a', b'b', 7],
        ),
        (Told::Barred { site: 9 }, [3, 0, 9, 0], [7, 7, 7, 7]),
        (Told::Heard { site: 5 }, [4, 3, 5, 0], [b'/', b'a', b'b', 7]),
        (Told::Kept, [5, 3, 0, 0], [b'/', b'a', b'b', 7]),
    ];
    for (told, numbers, bytes) in cases {
        for (register, number) in (0..4u8).zip(numbers) {
            let mut memory = [7u8; 4096];
            let outcome = Machine::new().turn(&[say(register)], 1, told, b"/ab", &mut memory);
            assert_eq!(rt; outcome, said(number));
            assert_eq!(rt; [memory[0], memory[1], memory[2], memory[3]], bytes);
        }
    }
}

// Counts register 5 down from a number in twice so many steps, does some more, and then says register 0.
fn countdown(from: u32, more: Step) -> [Step; 6] {
    [
        Step::Constant(5, from),
        Step::Constant(6, 0xffff_ffff),
        Step::Sum(5, 5, 6),
        Step::JumpIf(5, 2),
        more,
        say(0),
    ]
}

#[test]
fn the_ten_thousandth_step_may_wait(rt: HostRuntime) {
    let mut memory = [0u8; 4096];
    let script = countdown(4998, Step::Move(8, 8));
    assert_eq!(rt;
        Machine::new().turn(&script, 1, Told::Begun, &[], &mut memory),
        said(1)
    );
}

#[test]
fn a_wait_one_step_later_is_in_the_next_turn(rt: HostRuntime) {
    let [a, b, c, d, e, f] = countdown(4998, Step::Move(8, 8));
    let script = [a, b, c, d, e, Step::Move(8, 8), f];
    let mut machine = Machine::new();
    let mut memory = [0u8; 4096];
    assert_eq!(rt;
        machine.turn(&script, 1, Told::Begun, &[], &mut memory),
        Outcome::Paused
    );
    // it runs, and is told nothing: register 0 and the memory are as they were
    let told = Told::Heard { site: 0 };
    assert_eq!(rt; machine.turn(&script, 1, told, &[9], &mut memory), said(1));
    assert_eq!(rt; memory[0], 0);
    // it waits, and is told; then it is past its last step
    let ended = machine.turn(&script, 1, told, &[9], &mut memory);
    assert_eq!(rt; ended.fault(), 4);
    assert_eq!(rt; memory[0], 9);
}

#[test]
fn a_script_runs_on_over_several_turns(rt: HostRuntime) {
    let script = countdown(14_998, Step::Move(8, 8));
    let mut machine = Machine::new();
    let mut memory = [0u8; 4096];
    assert_eq!(rt;
        machine.turn(&script, 1, Told::Silence, &[], &mut memory),
        Outcome::Paused
    );
    assert_eq!(rt;
        machine.turn(&script, 1, Told::Begun, b"/", &mut memory),
        Outcome::Paused
    );
    assert_eq!(rt;
        machine.turn(&script, 1, Told::Kept, &[], &mut memory),
        said(0)
    );
}

#[test]
fn a_script_of_no_steps_ends_in_its_first_turn(rt: HostRuntime) {
    let mut machine = Machine::new();
    let mut memory = [0u8; 4096];
    assert_eq!(rt;
        machine.turn(&[], 1, Told::Begun, b"/", &mut memory),
        Outcome::Faulted
    );
    assert_eq!(rt;
        machine.turn(&[], 1, Told::Begun, b"/", &mut memory),
        Outcome::Idle
    );
}

// What comes of a wait with four numbers in the registers 20 to 23. The memory is all slashes, but for a space and then
// a letter.
fn asks(numbers: [u32; 4], call: Call) -> Outcome {
    let [a, b, c, d] = numbers;
    let mut memory = [b'/'; 4096];
    memory[4000] = b' ';
    memory[4001] = b'a';
    let script = [
        Step::Constant(20, a),
        Step::Constant(21, b),
        Step::Constant(22, c),
        Step::Constant(23, d),
        Step::Wait(call),
    ];
    Machine::new().turn(&script, 2, Told::Silence, &[], &mut memory)
}

#[test]
fn acts_in_their_limits_are_done(rt: HostRuntime) {
    let path = Span { from: 0, len: 255 };
    let body = Span {
        from: 3072,
        len: 1024,
    };
    let ask = Call::Ask {
        site: 24,
        path: 20,
        body: 22,
    };
    assert_eq!(rt;
        asks([0, 255, 3072, 1024], ask),
        Outcome::Did(Act::Ask {
            site: 0,
            path,
            body,
        })
    );
    let keep = Call::Keep { bytes: 20 };
    let all = Span { from: 0, len: 4096 };
    assert_eq!(rt;
        asks([0, 4096, 0, 0], keep),
        Outcome::Did(Act::Keep { bytes: all })
    );
    let open = Call::Open { site: 22, path: 20 };
    assert_eq!(rt;
        asks([0, 255, 1, 0], open),
        Outcome::Did(Act::Open { site: 1, path })
    );
    assert_eq!(rt; asks([0, 0, 0, 0], Call::Look), Outcome::Did(Act::Look));
    assert_eq!(rt;
        asks([0, 0, 0, 0], Call::Nothing),
        Outcome::Did(Act::Nothing)
    );
}

#[test]
fn acts_out_of_their_limits_are_refused(rt: HostRuntime) {
    let open = Call::Open { site: 22, path: 20 };
    let ask = Call::Ask {
        site: 24,
        path: 20,
        body: 22,
    };
    let say = Call::Say {
        window: 24,
        site: 20,
        bytes: 22,
    };
    let cases: [([u32; 4], Call, u8); 10] = [
        // a site that is not named
        ([0, 4, 2, 0], open, 5),
        ([2, 0, 0, 0], say, 5),
        // a path with a space, of no bytes, of 256 bytes, or without a slash before it
        ([3999, 2, 0, 0], open, 5),
        ([0, 0, 0, 0], open, 5),
        ([0, 256, 0, 0], open, 5),
        ([4001, 2, 0, 0], open, 5),
        // one byte too many
        ([0, 4, 0, 1025], ask, 5),
        ([0, 0, 0, 1025], say, 5),
        // out of the memory, which comes before too long
        ([0, 0, 3072, 1025], say, 4),
        ([0, 4, 0, 4], open, 0),
    ];
    for (numbers, call, fault) in cases {
        assert_eq!(rt; asks(numbers, call).fault(), fault);
    }
}

#[test]
fn a_refused_script_goes_on(rt: HostRuntime) {
    let script = [Step::Wait(Call::Open { site: 30, path: 30 }), say(0)];
    let mut machine = Machine::new();
    let mut memory = [0u8; 4096];
    assert_eq!(rt;
        machine.turn(&script, 1, Told::Begun, &[], &mut memory),
        Outcome::Refused
    );
    assert_eq!(rt;
        machine.turn(&script, 1, Told::Kept, &[], &mut memory),
        said(5)
    );
}

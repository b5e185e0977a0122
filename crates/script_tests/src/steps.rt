// Each kind of step, and each way in which one is out of range.
use machine::{Act, Machine, Outcome, Span, Told};
use scripts::{Call, Step};

const PASS: Step = Step::Move(8, 8);

// Says the number in register 5, as a window's number.
const SHOW: Step = Step::Wait(Call::Say {
    window: 5,
    site: 30,
    bytes: 30,
});

fn shown(window: u32) -> Outcome {
    Outcome::Did(Act::Say {
        window,
        site: 0,
        bytes: Span { from: 0, len: 0 },
    })
}

#[test]
fn each_kind_of_step(rt: HostRuntime) {
    let cases: [([Step; 3], u32); 14] = [
        ([Step::Constant(5, 0xffff_ffff), PASS, PASS], 0xffff_ffff),
        ([Step::Constant(6, 9), Step::Move(5, 6), PASS], 9),
        (
            [
                Step::Constant(6, 0xffff_ffff),
                Step::Constant(7, 3),
                Step::Sum(5, 6, 7),
            ],
            2,
        ),
        (
            [
                Step::Constant(6, 0x1_0001),
                Step::Constant(7, 0x1_0001),
                Step::Product(5, 6, 7),
            ],
            0x2_0001,
        ),
        (
            [
                Step::Constant(6, 4),
                Step::Constant(7, 4),
                Step::Equal(5, 6, 7),
            ],
            1,
        ),
        (
            [
                Step::Constant(6, 4),
                Step::Constant(5, 7),
                Step::Equal(5, 6, 7),
            ],
            0,
        ),
        (
            [
                Step::Constant(6, 1),
                Step::Constant(7, 0xffff_ffff),
                Step::Less(5, 6, 7),
            ],
            1,
        ),
        (
            [
                Step::Constant(6, 0xffff_ffff),
                Step::Constant(7, 1),
                Step::Less(5, 6, 7),
            ],
            0,
        ),
        (
            [Step::Constant(5, 1), Step::Jump(3), Step::Constant(5, 2)],
            1,
        ),
        (
            [
                Step::Constant(5, 7),
                Step::JumpIf(5, 3),
                Step::Constant(5, 2),
            ],
            7,
        ),
        ([Step::JumpIf(6, 3), Step::Constant(5, 2), PASS], 2),
        // a jump that is not taken may name any step
        (
            [Step::JumpIf(6, 0xffff_ffff), Step::Constant(5, 2), PASS],
            2,
        ),
        // a store takes the low byte
        (
            [
                Step::Constant(6, 0x1_23ff),
                Step::Store(7, 6),
                Step::Load(5, 7),
            ],
            0xff,
        ),
        (
            [Step::Constant(7, 4095), Step::Store(7, 7), Step::Load(5, 7)],
            0xff,
        ),
    ];
    for (steps, expected) in cases {
        let [first, second, third] = steps;
        let mut memory = [0u8; 4096];
        let outcome = Machine::new().turn(
            &[first, second, third, SHOW],
            1,
            Told::Silence,
            &[],
            &mut memory,
        );
        assert_eq!(rt; outcome, shown(expected));
    }
}

// Runs two steps in a first turn, and says what came of it and of the next turn.
fn two_turns(first: Step, second: Step) -> (u8, Outcome) {
    let script = [first, second];
    let mut machine = Machine::new();
    let mut memory = [0u8; 4096];
    let outcome = machine.turn(&script, 1, Told::Silence, &[], &mut memory);
    (
        outcome.fault(),
        machine.turn(&script, 1, Told::Begun, b"/", &mut memory),
    )
}

#[test]
fn a_step_out_of_range_ends_the_script(rt: HostRuntime) {
    let far = Step::Constant(6, 4096);
    let one = Step::Constant(6, 1);
    let cases: [[Step; 2]; 22] = [
        [Step::Constant(32, 1), SHOW],
        [Step::Move(32, 0), SHOW],
        [Step::Move(0, 32), SHOW],
        [Step::Sum(32, 0, 0), SHOW],
        [Step::Product(0, 32, 0), SHOW],
        [Step::Equal(0, 0, 32), SHOW],
        [Step::Less(0, 255, 0), SHOW],
        [Step::Jump(2), SHOW],
        [one, Step::JumpIf(6, 2)],
        [Step::JumpIf(32, 0), SHOW],
        [far, Step::Load(5, 6)],
        [Step::Load(32, 6), SHOW],
        [Step::Load(5, 32), SHOW],
        [far, Step::Store(6, 5)],
        [Step::Store(32, 5), SHOW],
        [Step::Store(5, 32), SHOW],
        // a span is two neighbouring registers
        [PASS, Step::Wait(Call::Keep { bytes: 31 })],
        // one byte past the memory
        [Step::Constant(7, 4097), Step::Wait(Call::Keep { bytes: 6 })],
        [
            far,
            Step::Wait(Call::Say {
                window: 32,
                site: 30,
                bytes: 30,
            }),
        ],
        [
            PASS,
            Step::Wait(Call::Ask {
                site: 30,
                path: 30,
                body: 31,
            }),
        ],
        [PASS, Step::Wait(Call::Open { site: 30, path: 31 })],
        // a step after the last one
        [PASS, PASS],
    ];
    for [first, second] in cases {
        assert_eq!(rt; two_turns(first, second), (4, Outcome::Idle));
    }
}

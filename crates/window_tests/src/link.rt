use be_command::Command;
use be_link::{Buffer, BufferFull, Link};
use std::process::Abort;
use std::test::Fail;

/// What is asked of a buffer and a link, and what is due. A command is known by its view, which has
/// the number that the command is to have.
#[derive(Clone, Copy, Debug, PartialEq, Eq)]
enum Step {
    /// So many commands are put; the last has this number.
    Put(u16, u64),
    /// One more has no room in the buffer.
    Full,
    /// How many go over, if they do.
    Flush(Option<u32>),
    /// So many are popped, the first with this number.
    Pop(u16, u64),
    /// None is there to be popped.
    None,
    /// How many are in the buffer, and how many in the link.
    Len(u32, u32),
}

fn put_many(rt: &impl Abort, buffer: &mut Buffer, many: u16, last: u64) {
    for _ in 0..many {
        assert!(rt; buffer.last_number() < u64::MAX);
        let number = buffer.next_number();
        let given = buffer.put(Command::Push((number % 65_536) as u16)).ok();
        assert_eq!(rt; given, Some(number));
    }
    assert_eq!(rt; buffer.last_number(), last);
}

fn put_none(rt: &impl Abort, buffer: &mut Buffer) {
    assert!(rt; buffer.last_number() < u64::MAX);
    let handed_back = match buffer.put(Command::Pop(77)) {
        Err(
            BufferFull {
                command: Command::Pop(view),
            },
        ) => view == 77,
        _ => false,
    };
    assert!(rt; handed_back);
}

fn pop_one(link: &mut Link) -> Option<(u64, u16)> {
    let front = match link.front()? {
        (number, Command::Push(view)) => (number, *view),
        _ => return None,
    };
    match link.pop()? {
        (number, Command::Push(view)) if (number, view) == front => Some(front),
        _ => None,
    }
}

fn run(rt: &impl Abort, buffer: &mut Buffer, link: &mut Link, steps: &[Step]) {
    for step in steps {
        match *step {
            Step::Put(many, last) => put_many(rt, buffer, many, last),
            Step::Full => put_none(rt, buffer),
            Step::Flush(due) => assert_eq!(rt; link.append(buffer).ok(), due),
            Step::Pop(many, first) => {
                for number in first..first.saturating_add(u64::from(many)) {
                    assert_eq!(rt; pop_one(link), Some((number, (number % 65_536) as u16)));
                }
            }
            Step::None => assert!(rt; link.front().is_none() && link.pop().is_none()),
            Step::Len(in_buffer, in_link) => {
                assert_eq!(rt; (buffer.len(), link.len()), (in_buffer, in_link));
            }
        }
    }
}

/// The commands 1 to 128 go over.
const TO_128: [Step; 12] = [
    Step::Flush(Some(0)),
    Step::Put(32, 32),
    Step::Full,
    Step::Len(32, 0),
    Step::Flush(Some(32)),
    Step::Put(32, 64),
    Step::Flush(Some(32)),
    Step::Put(32, 96),
    Step::Flush(Some(32)),
    Step::Put(32, 128),
    Step::Flush(Some(32)),
    Step::Len(0, 128),
];

/// The commands 129 to 230 go over.
const TO_230: [Step; 9] = [
    Step::Put(32, 160),
    Step::Flush(Some(32)),
    Step::Put(32, 192),
    Step::Flush(Some(32)),
    Step::Put(32, 224),
    Step::Flush(Some(32)),
    Step::Put(6, 230),
    Step::Flush(Some(6)),
    Step::Len(0, 230),
];

#[test]
fn commands_go_over_whole_or_not(rt: HostRuntime) -> Result<(), Fail> {
    let ends = [
        [
            Step::Put(27, 257),
            Step::Flush(None),
            Step::Len(27, 230),
            Step::Pop(1, 1),
            Step::Flush(Some(27)),
            Step::Len(0, 256),
            Step::Pop(256, 2),
            Step::None,
        ],
        [
            Step::Put(26, 256),
            Step::Flush(Some(26)),
            Step::Len(0, 256),
            Step::Put(1, 257),
            Step::Flush(None),
            Step::Pop(256, 1),
            Step::None,
            Step::Flush(Some(1)),
        ],
    ];
    for end in &ends {
        let mut buffer = Buffer::new(rt.alloc())?;
        let mut link = Link::new(rt.alloc())?;
        run(&rt, &mut buffer, &mut link, TO_128.as_slice());
        run(&rt, &mut buffer, &mut link, TO_230.as_slice());
        run(&rt, &mut buffer, &mut link, end.as_slice());
    }
    Ok(())
}

use be_flat::Bytes;
use be_message::Target;
use be_port::{Duty, Letter, NoticeFault, Port, PostFault, Posted, Sender};
use std::alloc::{AllocError, Global};
use std::process::Abort;
use std::test::Fail;

/// What came of a notice.
#[derive(Clone, Copy, Debug, PartialEq, Eq)]
enum Noticed {
    Accepted(u64),
    BadPort,
    Standing,
}

/// What is asked of a port, and what is due.
#[derive(Clone, Copy, Debug, PartialEq, Eq)]
enum Step {
    /// A post of a letter of this hop.
    Post(u8, Posted),
    Notice(Noticed),
    /// The number of the letter that is taken, and whether it is a notice.
    Take(Option<(u64, bool)>),
    Len(usize),
    Close,
}

fn letter(alloc: Global, hop: u8) -> Result<Letter, AllocError> {
    Ok(Letter {
        number: 77,
        sender: Sender::App(3),
        target: Target::View(2),
        hop,
        duty: Duty::Owed(3),
        notice: hop % 2 == 0,
        bytes: Bytes::from_vec(vec![in alloc; hop, 1, 2]?),
    })
}

/// The same letter but for what the port sets.
fn is_letter(letter: &Letter, hop: u8) -> bool {
    letter.sender == Sender::App(3)
        && letter.target == Target::View(2)
        && letter.hop == hop
        && letter.duty == Duty::Owed(3)
        && letter.bytes.as_slice() == [hop, 1, 2].as_slice()
}

fn post(
    rt: &(impl Abort + Alloc<A = Global>),
    port: &mut Port,
    hop: u8,
) -> Result<Posted, AllocError> {
    assert!(rt; port.last_number() < u64::MAX);
    let judged = port.judge(hop);
    let answer = match port.post(letter(rt.alloc(), hop)?) {
        Ok(number) => Posted::Accepted(number),
        Err(PostFault::BadPort(back)) => {
            assert!(rt; is_letter(&back, hop));
            Posted::BadPort
        }
        Err(PostFault::TooDeep(back)) => {
            assert!(rt; is_letter(&back, hop));
            Posted::TooDeep
        }
        Err(PostFault::WouldBlock { len, letter: back }) => {
            assert!(rt; is_letter(&back, hop));
            Posted::WouldBlock(len)
        }
    };
    assert_eq!(rt; judged, answer);
    Ok(answer)
}

fn notice(rt: &(impl Abort + Alloc<A = Global>), port: &mut Port) -> Result<Noticed, AllocError> {
    assert!(rt; port.last_number() < u64::MAX);
    Ok(match port.notice(letter(rt.alloc(), 1)?) {
        Ok(number) => Noticed::Accepted(number),
        Err(NoticeFault::BadPort(back)) => {
            assert!(rt; is_letter(&back, 1));
            Noticed::BadPort
        }
        Err(NoticeFault::Standing(back)) => {
            assert!(rt; is_letter(&back, 1));
            Noticed::Standing
        }
    })
}

fn take(rt: &impl Abort, port: &mut Port) -> Option<(u64, bool)> {
    let seen = port.front().map(|letter| (letter.number, letter.notice));
    let taken = port.take()?;
    assert!(rt; is_letter(&taken, taken.hop));
    assert_eq!(rt; seen, Some((taken.number, taken.notice)));
    seen
}

fn run(
    rt: &(impl Abort + Alloc<A = Global>),
    port: &mut Port,
    steps: &[Step],
) -> Result<(), AllocError> {
    for step in steps {
        match *step {
            Step::Post(hop, due) => assert_eq!(rt; post(rt, port, hop)?, due),
            Step::Notice(due) => assert_eq!(rt; notice(rt, port)?, due),
            Step::Take(due) => assert_eq!(rt; take(rt, port), due),
            Step::Len(due) => assert_eq!(rt; port.len(), due),
            Step::Close => port.close(),
        }
    }
    Ok(())
}

#[test]
fn one_letter_and_a_notice(rt: HostRuntime) -> Result<(), Fail> {
    let mut port = Port::new(rt.alloc(), 1)?;
    assert_eq!(rt; port.capacity(), 1);
    let steps = [
        Step::Take(None),
        Step::Post(0, Posted::Accepted(1)),
        Step::Post(0, Posted::WouldBlock(1)),
        Step::Post(8, Posted::TooDeep),
        Step::Notice(Noticed::Accepted(2)),
        Step::Notice(Noticed::Standing),
        Step::Len(1),
        Step::Take(Some((1, false))),
        Step::Len(0),
        Step::Post(7, Posted::Accepted(3)),
        Step::Post(8, Posted::TooDeep),
        Step::Post(255, Posted::TooDeep),
        Step::Close,
        Step::Close,
        Step::Post(0, Posted::BadPort),
        Step::Post(8, Posted::BadPort),
        Step::Notice(Noticed::BadPort),
        Step::Len(1),
        Step::Take(Some((2, true))),
        Step::Notice(Noticed::BadPort),
        Step::Take(Some((3, false))),
        Step::Take(None),
        Step::Len(0),
    ];
    run(&rt, &mut port, steps.as_slice())?;
    Ok(())
}

#[test]
fn a_hundred_letters_and_a_notice(rt: HostRuntime) -> Result<(), Fail> {
    for place in [1, 51, 101] {
        let mut port = Port::new(rt.alloc(), 100)?;
        for number in 1..=101u64 {
            if number == place {
                assert_eq!(rt; notice(&rt, &mut port)?, Noticed::Accepted(number));
            } else {
                assert_eq!(rt; post(&rt, &mut port, 3)?, Posted::Accepted(number));
            }
        }
        assert_eq!(rt; port.len(), 100);
        assert_eq!(rt; post(&rt, &mut port, 3)?, Posted::WouldBlock(100));
        assert_eq!(rt; notice(&rt, &mut port)?, Noticed::Standing);
        for number in 1..=101u64 {
            assert_eq!(rt; take(&rt, &mut port), Some((number, number == place)));
        }
        assert_eq!(rt; take(&rt, &mut port), None);
        assert_eq!(rt; notice(&rt, &mut port)?, Noticed::Accepted(102));
    }
    Ok(())
}
